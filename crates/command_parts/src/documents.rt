//! Taking and reading the files of a command.
ghost use Rattle.std.specs.Prelude.{◌≡◌, ◌≢◌, ℕ, IfErr, IfOk, List, Option};
ghost use Rattle.urna_outside.specs.Cabinet.{Files};
ghost use Rattle.election_tables.specs.TablesData.{IsTables};
ghost use Rattle.command_parts.specs.Documents.{HasCertificate, HasNames, HasRecord, HasTables, HasRoll, HasKeys, IsFault, IsFirstFault, IsTaken, limit_of};
ghost use Rattle.command_parts.specs.Taking.{HasTaken, error_in};

use crate::error::{CommandError, Doc, not_taken};
use election_tables::{Roll, Tables};
use key_script::{Names, Script};
use record_audit::{RecordText, read_record};
use seat_certificate::{Certificate, read_certificate};
use section_intake::MOST_REPORT_BYTES;
use std::alloc::Global;
use urna_outside::Cabinet;

const TABLES_LIMIT: u32 = 4_194_304;

const ROLL_LIMIT: u32 = 16_384;

const KEYS_LIMIT: u32 = 16_777_216;

const LIST_LIMIT: u32 = 1_048_576;

const RECORD_LIMIT: u32 = 1_048_576;

const CERTIFICATE_LIMIT: u32 = 1_048_576;

/// The most bytes that a document may have.
fn limit(doc: Doc) -> u32
    ensures { result ≡ limit_of doc }
{
    match doc {
        Doc::Tables => TABLES_LIMIT,
        Doc::Roll => ROLL_LIMIT,
        Doc::Keys => KEYS_LIMIT,
        Doc::Report => MOST_REPORT_BYTES,
        Doc::List => LIST_LIMIT,
        Doc::Record => RECORD_LIMIT,
        Doc::Certificate => CERTIFICATE_LIMIT,
    }
}

/// The bytes of a document.
fn take<C: Cabinet>(
    alloc: Global,
    cabinet: &mut C,
    name: &str,
    doc: Doc,
) -> Result<Vec<u8>, CommandError>
    ensures bytes { IfOk result (λ bytes. IsTaken (C.told cabinet.old).files doc name.now bytes.items) }
    ensures fault { IfErr result (λ e. e ≢ CommandError.Memory → e ≢ CommandError.Cabinet → IsFault (C.told cabinet.old).files name.now doc e) }
    ensures taken { HasTaken 1 (error_in result) (C.told cabinet.old) (C.told cabinet.new) }
{
    match cabinet.take(alloc, name, limit(doc)) {
        Ok(bytes) => Ok(bytes),
        Err(error) => Err(not_taken(error, doc)),
    }
}

/// What a command reads of one of its documents.
pub trait Document {
    ghost use Rattle.command_parts.specs.declared.error.Doc.{Doc};

    ghost doc: { Doc };

    /// The file of a name holds it.
    ghost held: { Option Files → List ℕ → Self → Type 0 };

    /// Takes the file of a name, and reads it.
    fn take_document<C: Cabinet>(
        alloc: Global,
        cabinet: &mut C,
        name: &str,
    ) -> Result<Self, CommandError>
        ensures read { IfOk result (held (C.told cabinet.old).files name.now) }
        ensures fault { IfErr result (λ e. e ≢ CommandError.Memory → e ≢ CommandError.Cabinet → IsFault (C.told cabinet.old).files name.now doc e) }
        ensures taken { HasTaken 1 (error_in result) (C.told cabinet.old) (C.told cabinet.new) };
}

impl Document for Tables {
    ghost use Rattle.command_parts.specs.declared.error.Doc.TheVariants as kind;

    ghost doc = { kind.Tables };

    ghost held = { HasTables };

    fn take_document<C: Cabinet>(
        alloc: Global,
        cabinet: &mut C,
        name: &str,
    ) -> Result<Tables, CommandError> {
        let bytes = take(alloc, cabinet, name, Doc::Tables)?;
        let tables = Tables::read(alloc, &bytes)?;
        Ok(tables)
    }
}

impl Document for Roll {
    ghost use Rattle.command_parts.specs.declared.error.Doc.TheVariants as kind;

    ghost doc = { kind.Roll };

    ghost held = { HasRoll };

    fn take_document<C: Cabinet>(
        alloc: Global,
        cabinet: &mut C,
        name: &str,
    ) -> Result<Roll, CommandError> {
        let bytes = take(alloc, cabinet, name, Doc::Roll)?;
        let roll = Roll::read(alloc, &bytes)?;
        Ok(roll)
    }
}

impl Document for Script {
    ghost use Rattle.command_parts.specs.declared.error.Doc.TheVariants as kind;

    ghost doc = { kind.Keys };

    ghost held = { HasKeys };

    fn take_document<C: Cabinet>(
        alloc: Global,
        cabinet: &mut C,
        name: &str,
    ) -> Result<Script, CommandError> {
        let bytes = take(alloc, cabinet, name, Doc::Keys)?;
        let script = Script::read(bytes)?;
        Ok(script)
    }
}

impl Document for Names {
    ghost use Rattle.command_parts.specs.declared.error.Doc.TheVariants as kind;

    ghost doc = { kind.List };

    ghost held = { HasNames };

    fn take_document<C: Cabinet>(
        alloc: Global,
        cabinet: &mut C,
        name: &str,
    ) -> Result<Names, CommandError> {
        let bytes = take(alloc, cabinet, name, Doc::List)?;
        let names = Names::read(bytes)?;
        Ok(names)
    }
}

impl Document for RecordText {
    ghost use Rattle.command_parts.specs.declared.error.Doc.TheVariants as kind;

    ghost doc = { kind.Record };

    ghost held = { HasRecord };

    fn take_document<C: Cabinet>(
        alloc: Global,
        cabinet: &mut C,
        name: &str,
    ) -> Result<RecordText, CommandError> {
        let bytes = take(alloc, cabinet, name, Doc::Record)?;
        let text = read_record(alloc, &bytes)?;
        Ok(text)
    }
}

/// The certificate of an office, with the office's code.
impl Document for (u8, Certificate) {
    ghost use Rattle.command_parts.specs.declared.error.Doc.TheVariants as kind;

    ghost doc = { kind.Certificate };

    ghost held = { λ files name read. HasCertificate files name read.0 read.1 };

    fn take_document<C: Cabinet>(
        alloc: Global,
        cabinet: &mut C,
        name: &str,
    ) -> Result<(u8, Certificate), CommandError> {
        let bytes = take(alloc, cabinet, name, Doc::Certificate)?;
        let read = read_certificate(alloc, &bytes)?;
        Ok(read)
    }
}

/// The bytes of the file of a report.
impl Document for Vec<u8> {
    ghost use Rattle.command_parts.specs.declared.error.Doc.TheVariants as kind;

    ghost doc = { kind.Report };

    ghost held = { λ files name bytes. IsTaken files kind.Report name bytes.items };

    fn take_document<C: Cabinet>(
        alloc: Global,
        cabinet: &mut C,
        name: &str,
    ) -> Result<Vec<u8>, CommandError> {
        take(alloc, cabinet, name, Doc::Report)
    }
}

/// The tables of a command and another document, in the order of its words.
pub fn take_tables_and<C: Cabinet, D: Document>(
    alloc: Global,
    cabinet: &mut C,
    tables: &str,
    other: &str,
) -> Result<(Tables, D), CommandError>
    ensures tables { IfOk result (λ both. HasTables (C.told cabinet.old).files tables.now both.0) }
    ensures valid { IfOk result (λ both. IsTables both.0) }
    ensures other { IfOk result (λ both. D.held (C.told cabinet.old).files other.now both.1) }
    ensures fault { IfErr result (λ e. e ≢ CommandError.Memory → e ≢ CommandError.Cabinet → IsFirstFault (C.told cabinet.old).files tables.now D.doc other.now e) }
    ensures taken { HasTaken 2 (error_in result) (C.told cabinet.old) (C.told cabinet.new) }
{
    let tables = Tables::take_document(alloc, cabinet, tables)?;
    let other = D::take_document(alloc, cabinet, other)?;
    Ok((tables, other))
}
