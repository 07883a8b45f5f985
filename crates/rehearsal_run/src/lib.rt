//! The rehearsal, run: a whole election in memory, from a number of voters.
//!
//! `rehearse` makes the texts of the crate `rehearsal`, holds their poll over two flashes in memory, and totals its report: the six files and
//! the ten lines of `specs/Rehearsed.antt` (docs/FORMATS.md, "The rehearsal"). `laws` says that the poll is sealed, and who has voted then
//! (`specs/Sealed.antt`).
#![tactic(auto)]

pub mod laws;
mod lines;
mod poll;
mod run;
mod totalling;

pub use run::{Rehearsal, rehearse};
