//! The tests of what a program has outside of it: machines and cabinets over real files (`urna_outside`), and the words that it was started
//! with (`command_parts`). They are a crate of their own because a crate with tests is proved twice, with them and without them.
//!
//! `calls` has the calls of a machine and of a cabinet as rows of a table, so that a test is such a table; `watched` is the runtime that
//! notes what is done to real files.
#![tactic(auto)]

#[cfg(test)]
mod calls;
#[cfg(test)]
mod files;
#[cfg(test)]
mod watched;
#[cfg(test)]
mod words;
