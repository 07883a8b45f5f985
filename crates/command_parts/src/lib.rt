//! What the commands of both programs have in common: the files that they take, why one stops, and the line that tells so.
//!
//! The layer above takes its files by `Document::take_document` and `take_tables_and`. `specs/Documents.antt` says what a file holds and what
//! may be wrong with it, `specs/Taking.antt` what taking it leaves of the cabinet's counts, and `specs/FaultLines.antt` which line tells it
//! (docs/FORMATS.md, "Fault lines").
#![tactic(auto)]

mod arguments;
mod documents;
mod error;
mod fault;
mod lines;

pub use arguments::words;
pub use documents::{Document, take_tables_and};
pub use error::{CommandError, Doc};
pub use fault::{bare_line, device_word, error_line, tell_fault, worded_line};
pub use lines::show_lines;
