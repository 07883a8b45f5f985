//! Who of the roll came, and how far the poll is.
//!
//! The layer above marks a voter by `Turnout::mark` and asks by `came` and `len`. A contract sees a turnout as a list of
//! marks, one for each place of the roll; `specs/Turnout.antt` says what the marks mean, and `laws` that they are a set of
//! places.
#![tactic(auto)]

pub mod laws;
mod phase;
mod turnout;

pub use phase::Phase;
pub use turnout::Turnout;
