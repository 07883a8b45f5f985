//! Why a command stops: what is wrong with its words, its files or its flashes.
ghost use Rattle.std.specs.Prelude.{◌≡◌};
ghost use Rattle.command_parts.specs.Errors.{certificate_error, line_error, memory_error, record_error, roll_error, tables_error, take_error};

use election_tables::{RollError, TablesError};
use key_script::LineError;
use record_audit::RecordError;
use seat_certificate::CertTextError;
use urna_base::Memory;
use urna_outside::{CabinetError, Dev};

/// A file that a command takes.
#[derive(Clone, Copy, Debug, PartialEq, Eq)]
pub enum Doc {
    Tables,
    Roll,
    Keys,
    Report,
    List,
    /// The text of a digital vote record.
    Record,
    /// The text of a certificate of seats.
    Certificate,
}

/// Why a command stops (docs/FORMATS.md, "Fault lines"), in either program; a roll, keys, a record and a certificate `urna` alone takes.
#[derive(Clone, Copy, Debug, PartialEq, Eq)]
pub enum CommandError {
    /// Want of memory.
    Memory,
    /// The words are no command.
    Usage,
    /// The tables are no TOML document.
    TablesNotToml,
    /// The first rule that the tables break, 1 to 17.
    TablesRule(u8),
    /// The roll hasn't 1 to 600 lines.
    RollCount,
    /// The first line of the roll at fault, from 1.
    RollLine(u32),
    /// The first line of the keys, or of the list, that isn't of its form, from 1.
    Line(u32),
    /// The first line of the record that may not stand there, from 1.
    RecordLine(u32),
    /// The first line of the certificate that may not stand there, from 1.
    CertificateLine(u32),
    /// The file is longer than its limit.
    TooLong(Doc),
    /// The file isn't there.
    Missing(Doc),
    /// The cabinet failed.
    Cabinet,
    /// The flash is not loaded with these documents.
    Foreign(Dev),
    /// No slot of the flashes stands.
    NoImage,
    /// The flash is in use.
    Busy(Dev),
}

/// That of a file that was not taken. It names the document, which the cabinet's error doesn't.
pub(crate) fn not_taken(error: CabinetError, doc: Doc) -> CommandError
    ensures { result ≡ take_error doc error }
{
    match error {
        CabinetError::Memory => CommandError::Memory,
        CabinetError::Failed => CommandError::Cabinet,
        CabinetError::Missing => CommandError::Missing(doc),
        CabinetError::TooLong => CommandError::TooLong(doc),
    }
}

/// Want of memory in a step that has no other error.
impl From<Memory> for CommandError {
    ghost from_gives = { λ memory error. error ≡ memory_error memory };

    fn from(_memory: Memory) -> CommandError {
        CommandError::Memory
    }
}

impl From<TablesError> for CommandError {
    ghost from_gives = { λ tables error. error ≡ tables_error tables };

    fn from(tables: TablesError) -> CommandError {
        match tables {
            TablesError::Memory => CommandError::Memory,
            TablesError::NotToml => CommandError::TablesNotToml,
            TablesError::Rule(rule) => CommandError::TablesRule(rule),
        }
    }
}

impl From<RollError> for CommandError {
    ghost from_gives = { λ roll error. error ≡ roll_error roll };

    fn from(roll: RollError) -> CommandError {
        match roll {
            RollError::Memory => CommandError::Memory,
            RollError::Count => CommandError::RollCount,
            RollError::Line(line) => CommandError::RollLine(line),
        }
    }
}

impl From<LineError> for CommandError {
    ghost from_gives = { λ line error. error ≡ line_error line };

    fn from(line: LineError) -> CommandError {
        CommandError::Line(line.line)
    }
}

impl From<RecordError> for CommandError {
    ghost from_gives = { λ unread error. error ≡ record_error unread };

    fn from(unread: RecordError) -> CommandError {
        match unread {
            RecordError::Memory => CommandError::Memory,
            RecordError::Line(line) => CommandError::RecordLine(line),
        }
    }
}

impl From<CertTextError> for CommandError {
    ghost from_gives = { λ unread error. error ≡ certificate_error unread };

    fn from(unread: CertTextError) -> CommandError {
        match unread {
            CertTextError::Memory => CommandError::Memory,
            CertTextError::Line(line) => CommandError::CertificateLine(line),
        }
    }
}
