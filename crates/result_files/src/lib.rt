//! The files of results of a sealed poll: the report in parts, and the record.
//!
//! `results_of` makes both. They depend on the tables, the section, the moments, who came and the bags alone (`specs/Reports.antt`, and
//! `specs/RecordText.antt` of `vote_record`). `laws` says that each sealed poll has such a report, and that its file is accepted.
#![tactic(auto)]

pub mod laws;
mod results;

pub use results::{Results, results_of};
