//! The text of a certificate is read.
ghost use Rattle.std.specs.Prelude.{◌≡◌, ◌≢◌, ◌+◌, ◌≤◌, ◌<◌, ◌^◌, ◌∷◌, [], ℕ, List, length, IfOk, IfSome, MatchOption, Err, None, Ok, Some};
ghost use Rattle.seat_certificate.specs.Reading.{AtVacant, InFirst, InRounds, MatchRead, lines_in, made, next_bloc, last_bloc, next_round, read_by, text_goes};
ghost use Rattle.seat_certificate.specs.Text.{IsFirstBadLine, Spells};
ghost use Rattle.seat_certificate.specs.declared.certificate.Certificate.{Certificate};
ghost use Rattle.seat_certificate.specs.declared.certificate.FirstLine.{FirstLine};
ghost use Rattle.seat_certificate.specs.declared.certificate.Round.{Round};
ghost use Rattle.seat_certificate.specs.declared.table.TheConstants.{MOST_FIRST_LINES, MOST_ROUNDS};
ghost use Rattle.seat_certificate.specs.declared.read.CertTextError.TheVariants.{Line, Memory};

use crate::certificate::{Certificate, FirstLine, FirstLines, Round, Rounds};
use crate::line::{bloc_of, office_of, round_of, vacant_of};
use crate::table::{MOST_FIRST_LINES, MOST_ROUNDS, TABLE};
use crate::words::one_number;
use std::alloc::Global;
use urna_base::{Memory, cut_at};

/// Why a text gives no certificate: memory ran out, or this line, counted from 1, is the first that may not stand there.
#[derive(Clone, Copy, Debug, PartialEq, Eq)]
pub enum CertTextError {
    Memory,
    Line(u32),
}

/// The code and the certificate that a text spells, or its first bad line (docs/FORMATS.md, "Certificate"); each text has one of both. `Memory`
/// comes only where an allocation failed.
pub fn read_certificate(alloc: Global, bytes: &[u8]) -> Result<(u8, Certificate), CertTextError>
    ensures ok { IfOk result (λ read. Spells bytes.now read.0 read.1) }
    ensures line { (k : ℕ) → result ≡ Err (CertTextError.Line k) → IsFirstBadLine bytes.now k }
    ensures ok_there { result ≢ Err CertTextError.Memory → (code : ℕ) (c : Certificate) → Spells bytes.now code c → result ≡ Ok (code, c) }
    ensures line_there { result ≢ Err CertTextError.Memory → (k : ℕ) → IsFirstBadLine bytes.now k → result ≡ Err (CertTextError.Line k) }
{
    read_all(alloc, bytes)
}

/// The same, told of the answer that there is: that there is no other follows from the laws of texts.
fn read_all(alloc: Global, bytes: &[u8]) -> Result<(u8, Certificate), CertTextError>
    ensures { MatchRead result (λ read. read_by bytes.now ≡ Ok (read.0, read.1)) (λ k. read_by bytes.now ≡ Err k) }
{
    let ((code, quotient), rest) = match read_head(bytes) {
        Ok(head) => head,
        Err(error) => return Err(error),
    };
    let (first, rest) = read_blocs(alloc, rest)?;
    let (rounds, rest) = read_rounds(alloc, rest)?;
    let vacant = match read_end(rest, 4 + first.len() + rounds.len()) {
        Ok(vacant) => vacant,
        Err(error) => return Err(error),
    };
    Ok((
        code,
        Certificate {
            quotient,
            first,
            rounds,
            vacant,
        },
    ))
}

/// The code and the quotient, and the text behind their lines.
fn read_head(text: &[u8]) -> Result<((u8, u64), &[u8]), CertTextError>
    ensures { MatchRead result (λ x. text_goes 4 (InFirst x.0.0 x.0.1 []) x.1.now ≡ read_by text.now) (λ k. read_by text.now ≡ Err k) }
{
    let Some((line, rest)) = split_line(text) else {
        return Err(CertTextError::Line(1));
    };
    if line != TABLE.version.as_slice() {
        return Err(CertTextError::Line(1));
    }
    let Some((line, rest)) = split_line(rest) else {
        return Err(CertTextError::Line(2));
    };
    let Some(code) = office_of(line) else {
        return Err(CertTextError::Line(2));
    };
    let Some((line, rest)) = split_line(rest) else {
        return Err(CertTextError::Line(3));
    };
    let Some(quotient) = one_number(&TABLE.quotient, line) else {
        return Err(CertTextError::Line(3));
    };
    Ok(((code, quotient), rest))
}

/// The lines of the first phase, as many as stand there, and the text behind them.
fn read_blocs(alloc: Global, text: &[u8]) -> Result<(FirstLines, &[u8]), Memory>
    ensures goes { IfOk result (λ x. (code q : ℕ) → text_goes (4 + length x.0) (InRounds code q x.0 []) x.1.now ≡ text_goes 4 (InFirst code q []) text.now) }
    ensures few { IfOk result (λ x. length x.0 ≤ MOST_FIRST_LINES) }
{
    let mut first = FirstLines::new(alloc);
    let mut rest = text;
    while let Some((line, others)) = split_line(rest) {
        let Some(bloc) = next_bloc(&first, line) else {
            return Ok((first, rest));
        };
        first.push(bloc)?;
        rest = others;
    }
    Ok((first, rest))
}

/// The line of a bloc, if it may stand behind these.
#[tactic(auto, unfolding(crate::specs::Reading::next_bloc))]
fn next_bloc(before: &FirstLines, line: &[u8]) -> Option<FirstLine>
    ensures { result ≡ next_bloc before.now line.now }
{
    if before.len() >= MOST_FIRST_LINES {
        return None;
    }
    let bloc = bloc_of(line)?;
    if last_bloc(before) < bloc.party {
        Some(bloc)
    } else {
        None
    }
}

/// The bloc of the last line, and 0 where there is none.
fn last_bloc(before: &FirstLines) -> u8
    ensures { result ≡ last_bloc 0 before.now }
{
    let count = before.len();
    if count == 0 {
        0
    } else {
        before.get(count - 1).party
    }
}

/// The rounds, as many as stand there, and the text behind them.
fn read_rounds(alloc: Global, text: &[u8]) -> Result<(Rounds, &[u8]), Memory>
    ensures goes { IfOk result (λ x. (k code q : ℕ) (first : List FirstLine) → text_goes (k + length x.0) (AtVacant code q first x.0) x.1.now ≡ text_goes k (InRounds code q first []) text.now) }
    ensures few { IfOk result (λ x. length x.0 ≤ MOST_ROUNDS) }
{
    let mut rounds = Rounds::new(alloc);
    let mut rest = text;
    while let Some((line, others)) = split_line(rest) {
        let Some(round) = next_round(alloc, &rounds, line)? else {
            return Ok((rounds, rest));
        };
        rounds.push(round)?;
        rest = others;
    }
    Ok((rounds, rest))
}

/// The round of a line, if it may stand behind these.
#[tactic(auto, unfolding(crate::specs::Reading::next_round))]
fn next_round(alloc: Global, before: &Rounds, line: &[u8]) -> Result<Option<Round>, Memory>
    ensures { IfOk result (λ found. found ≡ next_round before.now line.now) }
{
    if before.len() >= MOST_ROUNDS {
        return Ok(None);
    }
    round_of(alloc, before.len() + 1, line)
}

/// The vacant seats, of the line with this number, behind which the text ends.
fn read_end(text: &[u8], number: u32) -> Result<u32, CertTextError>
    requires { number + 2 < 2 ^ 32 }
    ensures { (code q : ℕ) (first : List FirstLine) (rounds : List Round) → MatchRead result
        (λ m. text_goes number (AtVacant code q first rounds) text.now ≡ Ok (code, made q first rounds m))
        (λ k. text_goes number (AtVacant code q first rounds) text.now ≡ Err k) }
{
    let Some((line, rest)) = split_line(text) else {
        return Err(CertTextError::Line(number));
    };
    let Some(vacant) = vacant_of(line) else {
        return Err(CertTextError::Line(number));
    };
    let Some((line, rest)) = split_line(rest) else {
        return Err(CertTextError::Line(number + 1));
    };
    if line != TABLE.end.as_slice() {
        return Err(CertTextError::Line(number + 1));
    }
    if !rest.is_empty() {
        return Err(CertTextError::Line(number + 2));
    }
    Ok(vacant)
}

/// The first line of a text, if it has a line feed, and the text behind that.
fn split_line(text: &[u8]) -> Option<(&[u8], &[u8])>
    ensures split { MatchOption result ((lines_in text.now).0 ≡ []) (λ x. lines_in text.now ≡ (x.0.now ∷ (lines_in x.1.now).0, (lines_in x.1.now).1)) }
    ensures shorter { IfSome result (λ x. length x.1.now < length text.now) }
{
    cut_at(b'\n', text)
}

/// Want of memory ends the reading.
impl From<Memory> for CertTextError {
    ghost from_gives = { λ _ e. e ≡ Memory };

    fn from(_memory: Memory) -> CertTextError {
        CertTextError::Memory
    }
}
