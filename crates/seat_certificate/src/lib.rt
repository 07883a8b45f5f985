//! The certificate of a distribution of seats, which is checked by itself, and the substitutes of the elected (Código Eleitoral arts. 106
//! to 112).
//!
//! `certify` makes a certificate, and `check_certificate` looks at whether one is valid, whoever made it: `specs/Certificate.antt` says
//! which line is the law's after the lines before it, and `specs/Valid.antt` what is valid and what the first fault is. `laws` says that the
//! seats of a valid certificate are those of the contest's outcome, and no others. `substitutes` lists who comes after the elected
//! (`specs/Substitutes.antt`). `certificate_text` and `read_certificate` are the text of a certificate, which `specs/Text.antt` spells.
#![tactic(auto)]

mod blocs;
mod certificate;
mod certified;
mod check;
pub mod laws;
mod line;
mod read;
mod substitute;
mod table;
mod text;
mod words;

pub use certificate::{Certificate, FirstLine, FirstLines, Round, Rounds};
pub use certified::certify;
pub use check::{CertFault, check_certificate};
pub use read::{CertTextError, read_certificate};
pub use substitute::{Substitute, SubstituteList, substitutes};
pub use text::certificate_text;
