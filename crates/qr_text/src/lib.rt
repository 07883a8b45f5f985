//! The field text of a report: what it says, the one text that a report has, and the fault of any other text
//! (docs/FORMATS.md, "Report text").
//!
//! `specs/Spelling.antt` says which text spells which report, and `specs/Fault.antt` what the fault of a text is: both of whole
//! texts, and from the one table of the fields (`TABLE`, `src/table.rt`). `laws` has what is so of every text: it has one fault, or
//! it spells one report, and never both; and a report has one text, of plain fields, which isn't long for its votes.
//!
//! `read_fields` reads a text, one field after the other by the rows of the table, and answers the report that it spells, or its
//! fault.
#![tactic(auto)]

mod fault;
mod field;
mod head;
pub mod laws;
mod office;
mod read;
mod reader;
mod said;
mod table;
mod told;
mod value;
mod votes;
mod write;

pub use fault::{FieldError, FieldFault};
pub use read::read_fields;
pub use write::write_fields;
