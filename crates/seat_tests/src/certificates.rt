//! Certificates: each contest with seats has a valid one, a changed text is refused at its first fault, and substitutes stand in their order.
use crate::certificate_rows::{CERTIFICATES, NOT_CERTIFIED, SUBSTITUTES};
use crate::contests::contest_of;
use crate::owed::is_contest;
use crate::rows::CONTESTS;
use seat_certificate::{
    CertFault, CertTextError, SubstituteList, certificate_text, certify, check_certificate,
    read_certificate, substitutes,
};
use seat_remainders::{Outcome, distribute};
use std::alloc::{AllocError, Global};
use std::test::Fail;
use urna_base::Memory;

/// Whether `certify` makes a valid certificate of a contest where its outcome tells seats, and else none.
fn is_certified(alloc: Global, row: &str, outcome: &str) -> Result<bool, Memory> {
    match contest_of(alloc, row)? {
        Some(contest) if is_contest(&contest) => match certify(alloc, &contest)? {
            Some(certificate) => Ok(
                outcome.starts_with("QE ") && check_certificate(&contest, &certificate) == Ok(()),
            ),
            None => Ok(!outcome.starts_with("QE ")),
        },
        _ => Ok(false),
    }
}

/// The first row without the certificate that it should have.
fn wrong_certificate(alloc: Global) -> Result<Option<&'static str>, Memory> {
    for (name, row, outcome) in CONTESTS {
        if !is_certified(alloc, row, outcome)? {
            return Ok(Some(*name));
        }
    }
    Ok(None)
}

#[test]
fn each_contest_with_seats_is_certified(rt: HostRuntime) -> Result<(), Fail> {
    let wrong = wrong_certificate(rt.alloc())?;
    assert!(rt; wrong == None, "{}", wrong.unwrap_or(""));
    Ok(())
}

fn told_fault(alloc: Global, fault: CertFault) -> Result<String, AllocError> {
    match fault {
        CertFault::Quotient => format!(in alloc; "quotient"),
        CertFault::First(line) => format!(in alloc; "first {line}"),
        CertFault::Round(round) => format!(in alloc; "round {round}"),
        CertFault::End => format!(in alloc; "end"),
    }
}

/// How a text is judged for a contest: by its first faulty line, or by the first fault of the certificate that it spells.
fn judged(alloc: Global, row: &str, text: &str) -> Result<String, Memory> {
    match contest_of(alloc, row)? {
        Some(contest) if is_contest(&contest) => match read_certificate(alloc, text.as_bytes()) {
            Err(CertTextError::Memory) => Err(Memory),
            Err(CertTextError::Line(line)) => Ok(format!(in alloc; "line {line}")?),
            Ok((_, certificate)) => match check_certificate(&contest, &certificate) {
                Ok(()) => Ok(format!(in alloc; "valid")?),
                Err(fault) => Ok(told_fault(alloc, fault)?),
            },
        },
        _ => Ok(format!(in alloc; "no contest")?),
    }
}

/// The first change of a text after which it is judged otherwise.
fn wrong_change(
    alloc: Global,
    row: &str,
    text: &str,
    changes: &[(&'static str, &'static str, &'static str)],
) -> Result<Option<&'static str>, Memory> {
    for (piece, other, expected) in changes {
        let Some((front, behind)) = text.split_once(*piece) else {
            return Ok(Some(*other));
        };
        let changed = format!(in alloc; "{front}{other}{behind}")?;
        if judged(alloc, row, changed.as_str())?.as_str() != *expected {
            return Ok(Some(*other));
        }
    }
    Ok(None)
}

#[test]
fn each_certificate_is_valid_and_each_change_is_refused_at_its_first_fault(
    rt: HostRuntime,
) -> Result<(), Fail> {
    for (row, text, changes) in CERTIFICATES {
        assert!(rt; judged(rt.alloc(), row, text)?.as_str() == "valid", "{row}");
        let wrong = wrong_change(rt.alloc(), row, text, changes)?;
        assert!(rt; wrong == None, "{}", wrong.unwrap_or(""));
    }
    Ok(())
}

#[test]
fn a_contest_without_seats_has_no_valid_certificate(rt: HostRuntime) -> Result<(), Fail> {
    for (row, text, expected) in NOT_CERTIFIED {
        assert!(rt;
            judged(rt.alloc(), row, text)?.as_str() == *expected,
            "{row}"
        );
    }
    Ok(())
}

/// Whether a text is read as a certificate of this office and written back.
fn is_written_back(alloc: Global, text: &str, office: u8) -> Result<bool, Memory> {
    match read_certificate(alloc, text.as_bytes()) {
        Ok((code, certificate)) => {
            let written = certificate_text(alloc, code, &certificate)?;
            Ok(code == office && written.as_slice() == text.as_bytes())
        }
        Err(_) => Ok(false),
    }
}

#[test]
fn a_certificate_that_was_read_has_the_same_text(rt: HostRuntime) -> Result<(), Fail> {
    for (_, text, _) in CERTIFICATES {
        assert!(rt; is_written_back(rt.alloc(), text, 13)?);
    }
    Ok(())
}

fn told_substitutes(alloc: Global, list: &SubstituteList) -> Result<String, AllocError> {
    let mut text = String::new(alloc);
    for i in 0..list.len() {
        let substitute = list.get(i);
        let bloc = substitute.bloc;
        let rank = substitute.rank;
        let number = substitute.number;
        write!(text, " {bloc} {rank} {number}")?;
    }
    Ok(text)
}

/// Whether a contest has these substitutes.
fn has_substitutes(alloc: Global, row: &str, expected: &str) -> Result<bool, Memory> {
    match contest_of(alloc, row)? {
        Some(contest) if is_contest(&contest) => match distribute(alloc, &contest)? {
            Outcome::Seats(seats) => {
                let list = substitutes(alloc, &contest, &seats)?;
                Ok(told_substitutes(alloc, &list)?.as_str() == expected)
            }
            _ => Ok(false),
        },
        _ => Ok(false),
    }
}

#[test]
fn substitutes_stand_in_the_order_of_candidates(rt: HostRuntime) -> Result<(), Fail> {
    for (row, expected) in SUBSTITUTES {
        assert!(rt; has_substitutes(rt.alloc(), row, expected)?);
    }
    Ok(())
}
