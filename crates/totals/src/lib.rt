//! The totals of an election over the reports that were accepted: the sums of each office, and by law its seats or its winners.
//!
//! The layer above asks `contest_of` for the contest of a panel, `entries_of` for its candidates and `PanelVotes::of` for its votes, which
//! `specs/Contest.antt` says over the reports of the accepted files, `section_line`, `office_line` and `push_candidates` for single lines,
//! and `total_lines` for those that tell all totals (`specs/Totals.antt`, by `specs/Lines.antt`, and by `specs/Simple.antt` for an office of the simple majority; docs/FORMATS.md,
//! "Totals"). `laws` says that each list of reports has one list of such lines, that the votes of an office's line are all votes of the
//! reports and those of its candidates and parties, that each party is of one bloc, and that whoever is elected is a candidate of the
//! office and of a party of the bloc whose seat it is.
#![tactic(auto)]

mod blocs;
mod contest;
mod entries;
pub mod laws;
mod lines;
mod results;
mod simple_rule;
mod votes;

pub use contest::contest_of;
pub use entries::entries_of;
pub use lines::{office_line, section_line};
pub use results::{push_candidates, total_lines};
pub use votes::PanelVotes;
