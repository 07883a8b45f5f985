//! A certificate is made.
ghost use Rattle.std.specs.Prelude.{◌≡◌, ◌+◌, ◌≤◌, ◌<◌, ◌^◌, ◌↔◌, [], length, IfOk, IfSome, IsNone};
ghost use Rattle.seat_remainders.specs.declared.outcome.Seats.{Seats as SeatsData};
ghost use Rattle.seat_remainders.specs.Contest.{IsContest};
ghost use Rattle.seat_remainders.specs.Outcome.{AreSeats};
ghost use Rattle.seat_remainders.specs.Parties.{first_phase, valid_votes};
ghost use Rattle.seat_certificate.specs.Certificate.{first_lines, rounds_of};
ghost use Rattle.seat_certificate.specs.Valid.{IsValid};

use crate::blocs::{blocs_of, competing, give_seat};
use crate::certificate::{Certificate, FirstLines, Round, Rounds};
use crate::check::first_line;
use seat_remainders::{Award, Contest, Contestant, Outcome, Seats, distribute};
use std::alloc::Global;
use urna_base::Memory;

/// The certificate of a contest; `None` exactly where `distribute` gives no seats. `Memory` comes only where an allocation failed.
///
/// The caller owes what `distribute` asks for.
pub fn certify(alloc: Global, contest: &Contest) -> Result<Option<Certificate>, Memory>
    requires { IsContest contest.now }
    ensures valid { IfOk result (λ made. IfSome made (λ c. IsValid contest.now c)) }
    ensures none { IfOk result (λ made. IsNone made ↔ ((s : SeatsData) → AreSeats contest.now s → ⊥)) }
{
    match distribute(alloc, contest)? {
        Outcome::Seats(seats) => {
            let certificate = certificate_of(alloc, contest, &seats)?;
            Ok(Some(certificate))
        }
        Outcome::NoQuotient { .. } => Ok(None),
        Outcome::Over { .. } => Ok(None),
    }
}

/// The certificate of given seats.
fn certificate_of(alloc: Global, contest: &Contest, seats: &Seats) -> Result<Certificate, Memory>
    requires contest { IsContest contest.now }
    requires seats { AreSeats contest.now seats.now }
    ensures { IfOk result (λ c. IsValid contest.now c) }
{
    let qe = seats.quotient;
    let first = first_lines_of(alloc, contest.parties.as_slice(), qe)?;
    let rounds = rounds_of(alloc, contest, qe, seats.awards.as_slice())?;
    Ok(Certificate {
        quotient: qe,
        first,
        rounds,
        vacant: seats.vacant,
    })
}

/// The lines of the first phase.
fn first_lines_of(alloc: Global, parties: &[Contestant], qe: u64) -> Result<FirstLines, Memory>
    requires votes { valid_votes parties.now ≤ 10 ^ 12 }
    requires some { 1 ≤ qe }
    requires quotient { qe ≤ 10 ^ 12 }
    requires few { length parties.now < 2 ^ 32 }
    ensures { IfOk result (λ first. first ≡ first_lines qe parties.now) }
{
    let mut first = FirstLines::new(alloc);
    for party in parties {
        first.push(first_line(party, qe))?;
    }
    Ok(first)
}

/// The rounds of these awards.
fn rounds_of(alloc: Global, contest: &Contest, qe: u64, awards: &[Award]) -> Result<Rounds, Memory>
    requires contest { IsContest contest.now }
    requires some { 1 ≤ qe }
    requires quotient { qe ≤ 10 ^ 12 }
    requires within { first_phase qe contest.now.parties + length awards.now ≤ contest.now.seats }
    ensures { IfOk result (λ rounds. rounds ≡ rounds_of qe contest.now.parties [] awards.now) }
{
    let mut blocs = blocs_of(contest, qe);
    let mut rounds = Rounds::new(alloc);
    for award in awards {
        let averages = competing(alloc, &blocs, award.phase)?;
        rounds.push(Round {
            phase: award.phase,
            party: award.party,
            averages,
        })?;
        give_seat(&mut blocs, award.party);
    }
    Ok(rounds)
}
