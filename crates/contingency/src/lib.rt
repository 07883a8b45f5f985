//! One flash of a section broke, and another one, which isn't in use, is in its place.
//!
//! `replace` brings it to the state that the flash beside it holds. `specs/Replaced.antt` says which device counts as replaced
//! and what a power cut leaves, `specs/Calls.antt` what the call does and how it fails, `laws` that what is left may be
//! replaced again or goes on as a poll.
#![tactic(auto)]

mod find;
pub mod laws;
mod replacement;
mod restore;

pub use replacement::{ReplaceError, replace};
