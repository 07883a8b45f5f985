//! The voter's terminal: one line of the ballot, key by key.
//!
//! A word of keys leaves a field, and the line ends with the CONFIRMA that makes the word a panel word. `specs/Field.antt` says
//! both by the whole word (docs/RULES.md, "The field"), and so does `Panel::key`; `specs/Panel.antt` is the keypad's table, key by
//! key, which the layer above uses and which the law `field_after_key` ties to the words. `specs/Screen.antt` is what a panel shows.
#![tactic(auto)]

mod laws;
mod panel;
mod text;

pub use laws::{field_after_key, last_screen, word_after_key};
pub use panel::{Panel, Shown};
pub use text::{screen, screen_line};
