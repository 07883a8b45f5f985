//! Recorded key presses: the keys of the clerk and of the voter, and the text that spells them line by line
//! (docs/FORMATS.md, "Keys"). The layer above makes a `Script` by `Script::read` and takes its events by
//! `Script::events`; contracts see a script as the list of its events. `specs/Event.antt` says which keys are valid, and
//! `specs/Script.antt` which lines there are and what events a text has.
//!
//! And the list of the files of reports (docs/FORMATS.md, "List"): `Names::read` reads one, and `Names::name` has the name at a
//! place. Contracts see it as the list of its names; `specs/Names.antt` says which lines are names.
#![tactic(auto)]

mod keys;
pub mod laws;
mod line;
mod names;
mod text;

pub use keys::{ClerkKey, Event, Key};
pub use names::Names;
pub use text::{Events, LineError, Script};
