//! The recount: the text of a digital vote record (RDV) is read, and compared with the report of the same section.
//!
//! The layer above calls `read_record`, which answers the record that a text spells or the number of its first faulty line, and `audit`,
//! which answers the first place at which a record and a report differ. `specs/Spelling.antt` says which text spells which record,
//! `specs/Fault.antt` which line of any other text is the faulty one, and `specs/Finding.antt` what a recount finds. `laws` has what
//! follows for every text: it has one faulty line or spells one record, and never both; a difference is the first; the record and the
//! report of a section agree, and those that agree say the same.
#![tactic(auto)]

mod fault;
mod finding;
pub mod laws;
mod line;
mod read;
mod recount;
mod search;
mod stage;
mod text;

pub use fault::RecordError;
pub use finding::Finding;
pub use read::read_record;
pub use recount::audit;
pub use text::{Choices, RecordOffice, RecordOffices, RecordText};
