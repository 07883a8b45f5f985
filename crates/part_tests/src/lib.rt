//! The tests of the parts below the state of a poll, and of the texts of a rehearsal: each public call once on its happy path, and what a part answers to values from outside
//! where no command tells it. What a command tells stands in the scripts of `session_tests`. They stand in crates of their own, these and
//! `report_tests`, because a crate with tests is proved twice, with them and without them.
//!
//! One module has the tests of one crate. `lines` is no test itself: it has a line that is pushed in five pieces, which `numbers` tests.
#![tactic(auto)]

pub mod lines;
#[cfg(test)]
mod marks;
#[cfg(test)]
mod names;
#[cfg(test)]
mod numbers;
#[cfg(test)]
mod panel;
#[cfg(test)]
mod rehearsals;
#[cfg(test)]
mod script;
#[cfg(test)]
mod tables;
#[cfg(test)]
mod votes;
