//! The clerk's terminal: what each key does.
//!
//! The layer above uses that one reply is a cell of the table of docs/RULES.md, "The clerk", which is `specs/Reply.antt`.
#![tactic(auto)]

mod replies;

pub use replies::{ClerkAnswer, Mode, reply};
