//! A certificate is checked, line by line, by the contest alone.
ghost use Rattle.std.specs.Prelude.{◌≡◌, ◌+◌, ◌-◌, ◌≤◌, ◌<◌, ◌^◌, ◌↔◌, length, sum_by, IfErr, IfOk, IsOk, IsTrue, Err, MatchOption, MatchResult};
ghost use Rattle.quotients.specs.Order.{parts_of};
ghost use Rattle.seat_remainders.specs.Contest.{IsContest};
ghost use Rattle.seat_remainders.specs.Parties.{first_phase, valid_votes, votes_of};
ghost use Rattle.seat_certificate.specs.Blocs.{IsNext, TakesSeatOf, Unbeaten, blocs_after};
ghost use Rattle.seat_certificate.specs.Certificate.{EachIsLawful, awards_in, first_line, first_lines};
ghost use Rattle.seat_certificate.specs.Valid.{IsCertFault, IsFirstWrongLine, IsFirstWrongRound, IsValid};
ghost use Rattle.seat_certificate.specs.declared.check.CertFault.{CertFault};

use crate::blocs::{Bloc, Blocs, are_competing, blocs_of, give_seat, next_phase, nobody_left};
use crate::certificate::{Certificate, FirstLine, Round};
use quotients::{Average, party_quotient, quotient};
use seat_remainders::{Averages, Contest, Contestant, standing_of, valid_votes};

/// The first fault of a certificate: the electoral quotient; the line of the first phase with this number, counted from 1, where a missing line
/// and one too many are faults too; the round with this number, counted from 1, where one for which no seat is left is a fault too; or the
/// end, where the seats don't add up, as where the last round is missing, or one is vacant though a bloc competes.
#[derive(Clone, Copy, Debug, PartialEq, Eq)]
pub enum CertFault {
    Quotient,
    First(u32),
    Round(u32),
    End,
}

/// Whether a certificate is valid for a contest (docs/RULES.md, "The certificate"), and where it isn't, its first fault. Nobody who made the
/// certificate is trusted: `distribute` and `certify` take an allocator. None is given here, and the lists that are lent don't give theirs
/// away, so neither can be called, and no memory is taken.
///
/// The caller owes what `distribute` asks for.
pub fn check_certificate(contest: &Contest, certificate: &Certificate) -> Result<(), CertFault>
    requires { IsContest contest.now }
    ensures ok { IsOk result ↔ IsValid contest.now certificate.now }
    ensures fault { (f : CertFault) → (result ≡ Err f) ↔ IsCertFault contest.now certificate.now f }
{
    checked(contest, certificate)
}

/// The same, told of the answer that is given: no other one fits, which `check_certificate` adds.
fn checked(contest: &Contest, certificate: &Certificate) -> Result<(), CertFault>
    requires { IsContest contest.now }
    ensures { MatchResult result (λ _. IsValid contest.now certificate.now) (λ f. IsCertFault contest.now certificate.now f) }
{
    let qe = quotient(valid_votes(contest), contest.seats);
    if qe == 0 || certificate.quotient != qe {
        return Err(CertFault::Quotient);
    }
    let parties = contest.parties.as_slice();
    let lines = certificate.first.as_slice();
    let rounds = certificate.rounds.as_slice();
    if let Some(line) = first_wrong_line(parties, qe, lines) {
        return Err(CertFault::First(line));
    }
    let first = seats_in(lines);
    let left = u64::from(contest.seats).saturating_sub(first);
    let blocs = match blocs_behind(contest, qe, left, rounds) {
        Ok(blocs) => blocs,
        Err(round) => return Err(CertFault::Round(round)),
    };
    let given = first + rounds.len() as u64;
    if !adds_up(given, certificate.vacant, contest.seats) {
        return Err(CertFault::End);
    }
    if certificate.vacant > 0 && !nobody_left(&blocs) {
        return Err(CertFault::End);
    }
    Ok(())
}

/// Whether so many given seats and so many vacant ones are all seats.
fn adds_up(given: u64, vacant: u32, seats: u32) -> bool
    requires { given ≤ 10 ^ 13 }
    ensures { IsTrue result ↔ (given + vacant ≡ seats) }
{
    given + u64::from(vacant) == u64::from(seats)
}

/// The number of the first line that isn't the law's.
fn first_wrong_line(parties: &[Contestant], qe: u64, first: &[FirstLine]) -> Option<u32>
    requires votes { valid_votes parties.now ≤ 10 ^ 12 }
    requires some { 1 ≤ qe }
    requires quotient { qe ≤ 10 ^ 12 }
    requires few { length parties.now < 2 ^ 32 }
    requires few_lines { length first.now < 2 ^ 32 }
    ensures { MatchOption result (first.now ≡ first_lines qe parties.now) (λ k. IsFirstWrongLine (first_lines qe parties.now) first.now k) }
{
    for (i, party) in parties.iter().enumerate() {
        if i >= first.len() || first[i] != first_line(party, qe) {
            return Some(i as u32 + 1);
        }
    }
    if first.len() > parties.len() {
        Some(parties.len() as u32 + 1)
    } else {
        None
    }
}

/// The line that the law gives a bloc.
pub(crate) fn first_line(party: &Contestant, qe: u64) -> FirstLine
    requires votes { votes_of party.now ≤ 10 ^ 12 }
    requires some { 1 ≤ qe }
    requires quotient { qe ≤ 10 ^ 12 }
    ensures { result ≡ first_line qe party.now }
{
    let standing = standing_of(party, qe);
    FirstLine {
        party: standing.party,
        quotient: party_quotient(standing.votes, qe),
        able: standing.able,
        seats: standing.first,
    }
}

/// The seats of all lines.
fn seats_in(first: &[FirstLine]) -> u64
    requires { sum_by (λ l. l.seats) first.now ≤ 10 ^ 12 }
    ensures { result ≡ sum_by (λ l. l.seats) first.now }
{
    first.iter().map(|line| u64::from(line.seats)).sum()
}

/// The blocs behind all rounds, or the number of the first round that isn't the law's after the rounds before it, where the first phase
/// leaves so many seats.
fn blocs_behind(contest: &Contest, qe: u64, left: u64, rounds: &[Round]) -> Result<Blocs, u32>
    requires contest { IsContest contest.now }
    requires some { 1 ≤ qe }
    requires quotient { qe ≤ 10 ^ 12 }
    requires left { left ≡ contest.now.seats - first_phase qe contest.now.parties }
    requires few { length rounds.now < 2 ^ 32 }
    ensures lawful { IfOk result (λ blocs. EachIsLawful contest.now qe rounds.now) }
    ensures blocs { IfOk result (λ blocs. blocs.items ≡ blocs_after qe (awards_in rounds.now) contest.now.parties) }
    ensures wrong { IfErr result (λ k. IsFirstWrongRound contest.now qe rounds.now k) }
{
    let mut blocs = blocs_of(contest, qe);
    for (i, round) in rounds.iter().enumerate() {
        if i as u64 >= left || !is_next(&blocs, round) {
            return Err(i as u32 + 1);
        }
        give_seat(&mut blocs, round.party);
    }
    Ok(blocs)
}

/// Whether a round is the one that follows for these blocs.
fn is_next(blocs: &[Bloc], round: &Round) -> bool
    ensures { IsTrue result ↔ IsNext blocs.now round.now }
{
    if round.phase != next_phase(blocs) {
        return false;
    }
    if !are_competing(blocs, round.phase, &round.averages) {
        return false;
    }
    takes_seat(&round.averages, round.party)
}

/// Whether this bloc takes the seat: it has one of these averages, and none of them comes before that.
fn takes_seat(averages: &Averages, party: u8) -> bool
    ensures { IsTrue result ↔ TakesSeatOf averages.now party }
{
    for i in 0..averages.len() {
        let own = averages.get(i);
        if own.party() == party && is_unbeaten(averages, own) {
            return true;
        }
    }
    false
}

/// Whether none of these averages comes before this one.
fn is_unbeaten(averages: &Averages, own: &Average) -> bool
    ensures { IsTrue result ↔ Unbeaten averages.now (parts_of own.now) }
{
    for i in 0..averages.len() {
        if averages.get(i) < own {
            return false;
        }
    }
    true
}
