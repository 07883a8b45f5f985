//! The counts of a record: as the station shows them, and as the report of a section.
//!
//! The layer above uses that `show_counts` shows the lines of `specs/Counts.antt` (docs/FORMATS.md, "Shown texts"), each with one
//! call of `show`, and that `Report::of` gives the report of `specs/Counted.antt`, which is one of `specs/Report.antt`: one that has
//! a spelling.
#![tactic(auto)]

mod counted;
mod counts;
pub mod laws;
pub mod report;

pub use counts::show_counts;
pub use report::{Count, Counts, GREATEST_COUNT, OfficeCount, OfficeCounts, Report, digits_in};
