//! How a command ends.
ghost use Rattle.std.specs.Prelude.{◌≡◌, Some, option_map};
ghost use Rattle.command_parts.specs.FaultLines.{fault_line};
ghost use Rattle.ledger_commands.specs.Codes.{code_of};
ghost use Rattle.ledger_commands.specs.Errors.{IsOfLedger, IsOfLedgerDoc, doc_of, error_of, fault_text, ledger_status, memory_status, offer_status, port_status};

use command_parts::{CommandError, Doc, error_line};
use intake_ledger::{LedgerError, OfferError};
use urna_base::{LineBuffer, Memory};
use urna_outside::{Dev, Port};

/// A file that a command takes.
#[derive(Clone, Copy, Debug, PartialEq, Eq)]
pub enum LedgerDoc {
    Tables,
    Report,
    List,
}

/// What a command answers (docs/FORMATS.md, "Commands of the ledger").
#[derive(Clone, Copy, Debug, PartialEq, Eq)]
pub enum LedgerStatus {
    /// The command did all its steps.
    Done,
    /// Want of memory.
    Memory,
    /// The words are no command.
    Usage,
    /// The tables are no TOML document.
    TablesNotToml,
    /// The first rule that the tables break, 1 to 17.
    TablesRule(u8),
    /// The first line of the list that isn't of its form, from 1.
    Line(u32),
    /// The file is longer than its limit.
    TooLong(LedgerDoc),
    /// The file isn't there.
    Missing(LedgerDoc),
    /// So many reports of the list were not accepted.
    SomeRefused(u32),
    /// The cabinet failed.
    Cabinet,
    /// The internal flash failed.
    InternalFlash,
    /// The external flash failed.
    ExternalFlash,
    /// The display failed.
    Display,
    /// The flash has not the frame of a ledger of these tables.
    Foreign(Dev),
    /// No slot of the flashes stands.
    NoImage,
    /// The flash is in use.
    Busy(Dev),
}

impl LedgerStatus {
    /// The number with which the program ends.
    pub fn code(&self) -> u8
        ensures { result ≡ code_of self.now }
    {
        match self {
            LedgerStatus::Done => 0,
            LedgerStatus::Memory => 1,
            LedgerStatus::Usage => 2,
            LedgerStatus::TablesNotToml | LedgerStatus::TablesRule(_) => 3,
            LedgerStatus::Line(_) => 4,
            LedgerStatus::TooLong(_) => 5,
            LedgerStatus::SomeRefused(_) => 6,
            LedgerStatus::Missing(_) => 12,
            LedgerStatus::Cabinet => 20,
            LedgerStatus::InternalFlash => 21,
            LedgerStatus::ExternalFlash => 22,
            LedgerStatus::Display => 23,
            LedgerStatus::Foreign(_) => 30,
            LedgerStatus::NoImage => 31,
            LedgerStatus::Busy(_) => 32,
        }
    }

    /// The line that tells why the command was refused, with its line feed.
    pub(crate) fn fault_line(&self) -> Option<LineBuffer>
        ensures { result ≡ option_map fault_line (fault_text self.now) }
    {
        error_line(self.error()?)
    }

    /// The error that it tells, of those that both programs have.
    fn error(&self) -> Option<CommandError>
        ensures { result ≡ error_of self.now }
    {
        match self {
            LedgerStatus::Memory => Some(CommandError::Memory),
            LedgerStatus::Usage => Some(CommandError::Usage),
            LedgerStatus::TablesNotToml => Some(CommandError::TablesNotToml),
            LedgerStatus::TablesRule(rule) => Some(CommandError::TablesRule(*rule)),
            LedgerStatus::Line(line) => Some(CommandError::Line(*line)),
            LedgerStatus::TooLong(doc) => Some(CommandError::TooLong(doc_of(*doc))),
            LedgerStatus::Missing(doc) => Some(CommandError::Missing(doc_of(*doc))),
            LedgerStatus::Cabinet => Some(CommandError::Cabinet),
            LedgerStatus::Foreign(dev) => Some(CommandError::Foreign(*dev)),
            LedgerStatus::NoImage => Some(CommandError::NoImage),
            LedgerStatus::Busy(dev) => Some(CommandError::Busy(*dev)),
            LedgerStatus::Done
            | LedgerStatus::SomeRefused(_)
            | LedgerStatus::InternalFlash
            | LedgerStatus::ExternalFlash
            | LedgerStatus::Display => None,
        }
    }
}

/// The document of both programs.
fn doc_of(doc: LedgerDoc) -> Doc
    ensures { result ≡ doc_of doc }
{
    match doc {
        LedgerDoc::Tables => Doc::Tables,
        LedgerDoc::Report => Doc::Report,
        LedgerDoc::List => Doc::List,
    }
}

/// The document of this program. The caller owes that it takes it.
fn ledger_doc(doc: Doc) -> LedgerDoc
    requires { IsOfLedgerDoc doc }
    ensures { doc_of result ≡ doc }
{
    match doc {
        Doc::Tables => LedgerDoc::Tables,
        Doc::Report => LedgerDoc::Report,
        Doc::List => LedgerDoc::List,
        Doc::Roll | Doc::Keys | Doc::Record | Doc::Certificate => unreachable!(),
    }
}

/// The status of an error. The caller owes that it is none of a document that only the other program takes.
pub(crate) fn refused(error: CommandError) -> LedgerStatus
    requires { IsOfLedger error }
    ensures { error_of result ≡ Some error }
{
    match error {
        CommandError::Memory => LedgerStatus::Memory,
        CommandError::Usage => LedgerStatus::Usage,
        CommandError::TablesNotToml => LedgerStatus::TablesNotToml,
        CommandError::TablesRule(rule) => LedgerStatus::TablesRule(rule),
        CommandError::Line(line) => LedgerStatus::Line(line),
        CommandError::TooLong(doc) => LedgerStatus::TooLong(ledger_doc(doc)),
        CommandError::Missing(doc) => LedgerStatus::Missing(ledger_doc(doc)),
        CommandError::Cabinet => LedgerStatus::Cabinet,
        CommandError::Foreign(dev) => LedgerStatus::Foreign(dev),
        CommandError::NoImage => LedgerStatus::NoImage,
        CommandError::Busy(dev) => LedgerStatus::Busy(dev),
        CommandError::RollCount
        | CommandError::RollLine(_)
        | CommandError::RecordLine(_)
        | CommandError::CertificateLine(_) => unreachable!(),
    }
}

/// Want of memory in a step that has no other error.
impl From<Memory> for LedgerStatus {
    ghost from_gives = { λ memory status. status ≡ memory_status memory };

    fn from(_memory: Memory) -> LedgerStatus {
        LedgerStatus::Memory
    }
}

impl From<LedgerError> for LedgerStatus {
    ghost from_gives = { λ error status. status ≡ ledger_status error };

    fn from(error: LedgerError) -> LedgerStatus {
        match error {
            LedgerError::Memory => LedgerStatus::Memory,
            LedgerError::Flash(dev) => port_status(Port::from(dev)),
            LedgerError::Foreign(dev) => LedgerStatus::Foreign(dev),
            LedgerError::NoImage => LedgerStatus::NoImage,
            LedgerError::Busy(dev) => LedgerStatus::Busy(dev),
        }
    }
}

impl From<OfferError> for LedgerStatus {
    ghost from_gives = { λ error status. status ≡ offer_status error };

    fn from(error: OfferError) -> LedgerStatus {
        match error {
            OfferError::Memory(_) => LedgerStatus::Memory,
            OfferError::Port(port) => port_status(port),
        }
    }
}

/// The status of a port that failed.
fn port_status(port: Port) -> LedgerStatus
    ensures { result ≡ port_status port }
{
    match port {
        Port::Internal => LedgerStatus::InternalFlash,
        Port::External => LedgerStatus::ExternalFlash,
        Port::Display => LedgerStatus::Display,
    }
}
