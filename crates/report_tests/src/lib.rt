//! The tests of the parts that have the state of a poll, its report and what comes of reports: each public call once on its happy path, and
//! what a part answers to values from outside where no command tells it. What a command tells stands in the scripts of `session_tests`, the
//! tests of the parts below in `part_tests`.
//!
//! `codec` has the tests of `image_codec`, `reports` those of `poll_report` and `qr_text`, `files` those of `hash_chain` and `section_intake`,
//! `intake` those of `section_intake` and `totals`, `recounts` those of `record_audit`. `bodies` is no test itself: it has a body that `codec`
//! and `reports` read.
#![tactic(auto)]

pub mod bodies;
#[cfg(test)]
mod codec;
#[cfg(test)]
mod files;
#[cfg(test)]
mod intake;
#[cfg(test)]
mod recounts;
#[cfg(test)]
mod reports;
