//! The command `certifica TABLES LIST CODE OUT`: writes the certificate of an office's seats, and tells the substitutes.
ghost use Rattle.std.specs.Prelude.{◌≡◌, ◌++◌, ◌∷◌, [], true, map, IfErr, IfOk};
ghost use Rattle.election_tables.specs.Offices.{code_proportional};
ghost use Rattle.seat_remainders.specs.Contest.{IsContest};
ghost use Rattle.seat_remainders.specs.Outcome.{AreSeats};
ghost use Rattle.seat_remainders.specs.declared.outcome.Seats.{Seats as SeatsData};
ghost use Rattle.seat_certificate.specs.Substitutes.{substitutes_in};
ghost use Rattle.seat_certificate.specs.Text.{HasFewBlocs, Spells};
ghost use Rattle.seat_certificate.specs.Valid.{IsValid};
ghost use Rattle.seat_certificate.specs.declared.certificate.Certificate.{Certificate};
ghost use Rattle.urna_commands.specs.Certifica.{CertificaEnds, IsCertified, IsNotCertified, certified_line, substitute_line};
ghost use Rattle.urna_commands.specs.Taking.{status_in};

use crate::command::CertificaNames;
use crate::office::contest_of_office;
use crate::results::named;
use crate::status::Status;
use crate::telling::tell_lines;
use seat_certificate::{Substitute, SubstituteList, certificate_text, certify, substitutes};
use seat_remainders::{Contest, Outcome, distribute};
use std::alloc::Global;
use urna_base::{LineBuffer, Memory, number_line};
use urna_outside::{Cabinet, Machine};

/// The text of a certificate, and the lines that tell the substitutes and that it is put; all made before it is.
#[derive(Drop)]
struct Certified {
    text: Vec<u8>,
    lines: Vec<LineBuffer>,
}

/// The certificate of these names: the contest of the office over the accepted reports is made, the certificate of its seats is put, and
/// then lines tell the substitutes and that it is put.
pub(crate) fn certifica<M: Machine, C: Cabinet>(
    alloc: Global,
    names: CertificaNames<'_>,
    machine: &mut M,
    cabinet: &mut C,
) -> Result<(), Status>
    ensures { CertificaEnds (record { tables = names.entry.tables.now; list = names.entry.list.now; code = names.entry.code; out = names.entry.out.now })
        (C.told cabinet.old) (C.told cabinet.new) (M.told machine.old) (M.told machine.new) (status_in result) }
{
    let contest = contest_of_office(
        alloc,
        names.tables,
        names.list,
        names.code,
        machine,
        cabinet,
    )?;
    let certified = certify_contest(alloc, names.code, &contest)?;
    let name = named(alloc, names.out, ".cer")?;
    cabinet.put(name.as_str(), &certified.text)?;
    tell_lines(machine, &certified.lines)
}

/// The text and the lines of a contest's certificate.
fn certify_contest(alloc: Global, code: u8, contest: &Contest) -> Result<Certified, Status>
    requires contest { IsContest contest.now }
    requires few { HasFewBlocs contest.now }
    requires office { code_proportional code ≡ true }
    ensures ok { IfOk result (λ made. IsCertified code contest.now made.text.items made.lines.items) }
    ensures err { IfErr result (IsNotCertified contest.now) }
{
    let text = text_of(alloc, code, contest)?;
    let lines = lines_of(alloc, code, contest)?;
    Ok(Certified { text, lines })
}

/// The text of a contest's certificate.
fn text_of(alloc: Global, code: u8, contest: &Contest) -> Result<Vec<u8>, Status>
    requires contest { IsContest contest.now }
    requires few { HasFewBlocs contest.now }
    requires office { code_proportional code ≡ true }
    ensures ok { IfOk result (λ text. (made : Certificate) × IsValid contest.now made × Spells text.items code made) }
    ensures err { IfErr result (IsNotCertified contest.now) }
{
    let Some(certificate) = certify(alloc, contest)? else {
        return Err(Status::NoSeats);
    };
    Ok(certificate_text(alloc, code, &certificate)?)
}

/// The lines that tell the substitutes of a contest, and that its certificate is put.
fn lines_of(alloc: Global, code: u8, contest: &Contest) -> Result<Vec<LineBuffer>, Status>
    requires contest { IsContest contest.now }
    ensures ok { IfOk result (λ lines. (seats : SeatsData) × AreSeats contest.now seats
        × (lines.items ≡ map substitute_line (substitutes_in contest.now seats) ++ certified_line code ∷ [])) }
    ensures err { IfErr result (IsNotCertified contest.now) }
{
    let Outcome::Seats(seats) = distribute(alloc, contest)? else {
        return Err(Status::NoSeats);
    };
    let substitutes = substitutes(alloc, contest, &seats)?;
    Ok(certified_lines(alloc, code, &substitutes)?)
}

/// One line for each substitute, and the last one for the certificate.
fn certified_lines(
    alloc: Global,
    code: u8,
    substitutes: &SubstituteList,
) -> Result<Vec<LineBuffer>, Memory>
    ensures { IfOk result (λ lines. lines.items ≡ map substitute_line substitutes.now ++ certified_line code ∷ []) }
{
    let mut lines = Vec::new(alloc);
    for i in 0..substitutes.len() {
        lines.push(substitute_line(*substitutes.get(i)))?;
    }
    lines.push(certified_line(code))?;
    Ok(lines)
}

/// A substitute: the bloc, the rank in it, and the number.
fn substitute_line(substitute: Substitute) -> LineBuffer
    ensures { result ≡ substitute_line substitute }
{
    let mut line = LineBuffer::new();
    line.push_numbered(b"SUPLENTE ", u64::from(substitute.bloc));
    line.push_numbered(b" ", u64::from(substitute.rank));
    line.push_numbered(b" ", u64::from(substitute.number));
    line.push_text(b"\n");
    line
}

/// The line that tells that the certificate of an office is put.
fn certified_line(code: u8) -> LineBuffer
    ensures { result ≡ certified_line code }
{
    number_line(b"CERTIFICADO ", u64::from(code))
}
