//! The file of a report: its field text in parts, one line for each, chained by hashes (docs/FORMATS.md, "Parts").
//!
//! `specs/Chain.antt` says which file a field text has, and `specs/Fault.antt` what the fault of any other file is: both of whole files,
//! with the SHA-512 of the crate `sha2`. `laws` has what is so of every file: it has one fault, or it is the parts of one text, and never
//! both. `make_parts` makes the file of a text, which has `count_parts` parts; `join_parts` answers the text of which a file is the parts,
//! or its fault.
#![tactic(auto)]

mod cut;
mod fault;
mod hash;
mod join;
pub mod laws;
mod line;
mod make;

pub use fault::{PartError, PartFault};
pub use hash::HASH_SIZE;
pub use join::join_parts;
pub use make::{count_parts, make_parts};
