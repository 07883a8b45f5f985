//! The verdict on the file of a report: whether it is whole, and fits the tables of an election. And the sums over the reports of
//! several files, each section once.
//!
//! The layer above uses that `check` gives the verdict of `specs/Verdict.antt` (docs/FORMATS.md, "Verdicts"): of a file whose parts or
//! fields are at fault the first fault, and else whether its report fits the tables (`specs/Fits.antt`). `laws` has that there is one
//! verdict, and that the file of a report that fits is accepted. `check_report` hands over the report of such a file. `read_file` reads a file without tables: its report, or which fault of its
//! parts or fields it has (`specs/Reading.antt`).
//!
//! Of several files it uses that `Intake::offer` gives the verdict of `specs/Accepted.antt`, and `Intake::nominal`, `party`, `blank` and
//! `null_votes` the sums of `specs/Sums.antt` over the reports of the accepted ones; each call rests on `IsIntakeFor`
//! (`specs/Intake.antt`). `laws` has that there is one list of verdicts, that the accepted files are the first of their sections, how
//! many files and votes there are at most, and that the sums of a panel's numbers, blank and null votes are all votes.
#![tactic(auto)]

mod checking;
mod files;
mod fitting;
mod intake;
pub mod laws;
mod panel_sums;
mod tallies;
mod verdict;

pub use checking::{Checked, Refusal, check, check_report, read_file};
pub use intake::Intake;
pub use verdict::Verdict;

/// How many bytes the file of a report may have.
pub const MOST_REPORT_BYTES: u32 = 1_048_576;
