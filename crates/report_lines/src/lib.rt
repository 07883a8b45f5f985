//! The lines that tell the verdicts on reports: one by itself, or those of a list with their numbers.
//!
//! `specs/Verdicts.antt` says each line, and how many of a list's reports are refused.
#![tactic(auto)]

mod verdict;

pub use verdict::{numbered_line, verdict_line};
