//! The fields of the voter's terminal, and the choices that they stand for.
//!
//! The layer above uses that a choice is what the law makes of a field: Lei 9.504/1997 arts. 5 and 59 paragraph 2, as
//! docs/RULES.md tells them. `specs/Ballot.antt` has the lines of a ballot and that rule, `specs/Choice.antt` the order in
//! which choices stand wherever they are written. `choice_count` and `choice_at` tell the choices of a panel by their places
//! in that order.
#![tactic(auto)]

mod ballot;
mod choice;
mod panel_choices;

pub use ballot::{choice_of, confirmable, is_choice, office_digits};
pub use choice::{Choice, Field};
pub use panel_choices::{choice_at, choice_count, chosen_parties};
