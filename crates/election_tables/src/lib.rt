//! The tables of an election, read from a TOML document, and the roll of a section, read from its lines.
//!
//! The layers above hold a [`Tables`] and a [`Roll`] that `read` made, and ask them by number. `Tables::read` says that
//! the tables are those of the document (`specs/Tables.antt`) and which rule a document breaks first
//! (`specs/Shape.antt`, `specs/Rules.antt`); what is so of all tables stands in `specs/TablesData.antt`. `Roll::read`
//! says that the titles are those of the lines, rising, and which line is the first at fault (`specs/Roll.antt`).
#![tactic(auto)]

mod document;
pub mod laws;
mod limits;
mod office;
mod roll;
mod rules;
mod shape;
mod tables;

pub use limits::{
    GREATEST_PROCESS, GREATEST_SECTION, MOST_CANDIDATES, MOST_OFFICES, MOST_PARTIES, MOST_VOTERS,
};
pub use office::{GREATEST_CODE, Kind, Office, code_digits, code_proportional, may_have_places};
pub use roll::{Roll, RollError};
pub use rules::{first_two, has_digits};
pub use tables::{Candidate, Section, Tables, TablesError};
