//! The command `verifica TABLES LIST CODE FILE`: tells whether a certificate is that of an office's seats.
ghost use Rattle.std.specs.Prelude.{◌≡◌};
ghost use Rattle.urna_commands.specs.Taking.{status_in};
ghost use Rattle.urna_commands.specs.Verifica.{VerificaEnds, checked_line, checked_status};

use crate::command::VerificaNames;
use crate::office::contest_of_office;
use crate::status::Status;
use crate::telling::tell_answer;
use command_parts::Document;
use seat_certificate::{CertFault, Certificate, check_certificate};
use std::alloc::Global;
use urna_base::LineBuffer;
use urna_outside::{Cabinet, Machine};

/// The line of a certificate's text in which the code of its office stands.
const CODE_LINE: u32 = 2;

/// The check of the certificate of these names: the contest of the office over the accepted reports is made, the certificate is taken and read,
/// and a line tells the first place at which it isn't the law's, or that it is valid.
pub(crate) fn verifica<M: Machine, C: Cabinet>(
    alloc: Global,
    names: VerificaNames<'_>,
    machine: &mut M,
    cabinet: &mut C,
) -> Result<(), Status>
    ensures { VerificaEnds (record { tables = names.entry.tables.now; list = names.entry.list.now; code = names.entry.code; certificate = names.entry.certificate.now })
        (C.told cabinet.old) (C.told cabinet.new) (M.told machine.old) (M.told machine.new) (status_in result) }
{
    let contest = contest_of_office(
        alloc,
        names.tables,
        names.list,
        names.code,
        machine,
        cabinet,
    )?;
    let (code, certificate) = <(u8, Certificate)>::take_document(
        alloc,
        cabinet,
        names.certificate,
    )?;
    if code != names.code {
        return Err(Status::CertificateLine(CODE_LINE));
    }
    let checked = check_certificate(&contest, &certificate);
    tell_answer(
        machine,
        &checked_line(names.code, checked),
        ended_by_check(checked),
    )
}

/// The line of a check of an office's certificate.
fn checked_line(code: u8, checked: Result<(), CertFault>) -> LineBuffer
    ensures { result ≡ checked_line code checked }
{
    let mut line = LineBuffer::new();
    match checked {
        Ok(()) => line.push_numbered(b"CERTIFICADO VALIDO ", u64::from(code)),
        Err(CertFault::Quotient) => line.push_text(b"RECUSADO QUOCIENTE"),
        Err(CertFault::First(place)) => {
            line.push_numbered(b"RECUSADO PRIMEIRA ", u64::from(place))
        }
        Err(CertFault::Round(place)) => {
            line.push_numbered(b"RECUSADO RODADA ", u64::from(place))
        }
        Err(CertFault::End) => line.push_text(b"RECUSADO FIM"),
    }
    line.push_text(b"\n");
    line
}

/// How a command ends by a check: a certificate that isn't the law's has a status of its own.
fn ended_by_check(checked: Result<(), CertFault>) -> Result<(), Status>
    ensures { status_in result ≡ checked_status checked }
{
    match checked {
        Ok(()) => Ok(()),
        Err(fault) => Err(Status::CertificateRefused(fault)),
    }
}
