//! A whole field text is read.
ghost use Rattle.std.specs.Prelude.{◌≡◌, ◌≢◌, ◌<◌, ◌^◌, length, IfOk, Err, Ok};
ghost use Rattle.poll_report.specs.declared.report.Report.{Report};
ghost use Rattle.qr_text.specs.Fault.{IsFieldFault};
ghost use Rattle.qr_text.specs.Fronts.{MatchRead};
ghost use Rattle.qr_text.specs.Reading.{said_by};
ghost use Rattle.qr_text.specs.Spelling.{Spells};
ghost use Rattle.qr_text.specs.declared.fault.FieldError.TheVariants.{Fault, Memory};
ghost use Rattle.qr_text.specs.declared.fault.FieldFault.{FieldFault};

use crate::fault::{FieldError, FieldFault};
use crate::head::read_head;
use crate::office::read_offices;
use crate::reader::Reader;
use crate::said::Said;
use crate::told::told_report;
use poll_report::Report;
use std::alloc::Global;
use urna_base::Memory;

/// The report that a text spells, or the fault of the text (docs/FORMATS.md, "Report text"); each text has one of both. The caller
/// owes that the text is shorter than 2^31 bytes. `Memory` comes only where an allocation failed.
pub fn read_fields(alloc: Global, bytes: &[u8]) -> Result<Report, FieldError>
    requires { length bytes.now < 2 ^ 31 }
    ensures ok { IfOk result (λ r. Spells bytes.now r) }
    ensures fault { (f : FieldFault) → result ≡ Err (FieldError.Fault f) → IsFieldFault bytes.now f }
    ensures ok_there { result ≢ Err FieldError.Memory → (r : Report) → Spells bytes.now r → result ≡ Ok r }
    ensures fault_there { result ≢ Err FieldError.Memory → (f : FieldFault) → IsFieldFault bytes.now f → result ≡ Err (FieldError.Fault f) }
{
    read_report(alloc, bytes)
}

/// The same, told of the answer that there is: that there is no other follows from the laws of texts.
fn read_report(alloc: Global, bytes: &[u8]) -> Result<Report, FieldError>
    requires { length bytes.now < 2 ^ 31 }
    ensures { MatchRead result (λ r. Spells bytes.now r) (λ f. IsFieldFault bytes.now f) }
{
    let said = read_said(alloc, bytes)?;
    let report = told_report(alloc, &said)?;
    Ok(report)
}

/// What a text says rightly, or its fault.
fn read_said(alloc: Global, bytes: &[u8]) -> Result<Said, FieldError>
    requires { length bytes.now < 2 ^ 31 }
    ensures { MatchRead result (λ s. said_by bytes.now ≡ Ok s) (λ f. said_by bytes.now ≡ Err f) }
{
    let mut reader = Reader::new(bytes);
    let head = read_head(&mut reader)?;
    let offices = read_offices(alloc, &mut reader, &head)?;
    Ok(Said {
        process: head.poll.process,
        date: head.poll.date,
        turn: head.poll.turn,
        zone: head.poll.zone,
        section: head.poll.section,
        able: head.voters.able,
        came: head.voters.came,
        missed: head.voters.missed,
        open_date: head.hours.open_date,
        open_time: head.hours.open_time,
        close_date: head.hours.close_date,
        close_time: head.hours.close_time,
        offices,
    })
}

/// A fault ends the reading.
impl From<FieldFault> for FieldError {
    ghost from_gives = { λ fault e. e ≡ Fault fault };

    fn from(fault: FieldFault) -> FieldError {
        FieldError::Fault(fault)
    }
}

/// So does want of memory.
impl From<Memory> for FieldError {
    ghost from_gives = { λ _ e. e ≡ Memory };

    fn from(_memory: Memory) -> FieldError {
        FieldError::Memory
    }
}
