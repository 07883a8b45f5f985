//! What the law counts of each party, counted once.
ghost use Rattle.std.specs.Prelude.{◌≡◌, ◌+◌, ◌≤◌, ◌<◌, ◌^◌, ◌==◌, nat_le, count_by, length, sum_by, IfOk};
ghost use Rattle.quotients.specs.Quotients.{has_fifth, has_tenth};
ghost use Rattle.seat_remainders.specs.declared.contest.Contestant.{Contestant};
ghost use Rattle.seat_remainders.specs.Contest.{PartiesRise};
ghost use Rattle.seat_remainders.specs.Parties.{first_phase, nominal_votes, valid_votes, votes_of};
ghost use Rattle.seat_remainders.specs.Standing.{most_by, standing_of, standings_of};

use crate::contest::{Contest, Contestant, Entry};
use crate::outcome::Award;
use quotients::{four_fifths, least_fifth, least_tenth, party_quotient};
use std::alloc::Global;
use urna_base::Memory;

/// A party: its number, its valid votes, how many of its candidates have at least 10% of the quotient, its seats of the first phase (arts. 107 and
/// 108), and how many seats it can have at most by phase 2 and by phase 3 (art. 109).
#[derive(Clone, Copy, Debug, Default, PartialEq, Eq)]
pub struct Standing {
    pub party: u8,
    pub votes: u64,
    pub able: u32,
    pub first: u32,
    pub most_in_two: u32,
    pub most_in_three: u32,
}

/// What is counted of each party, in their order.
pub(crate) fn standings_of(
    alloc: Global,
    contest: &Contest,
    qe: u64,
) -> Result<Vec<Standing>, Memory>
    requires rising { PartiesRise contest.now.parties }
    requires votes { valid_votes contest.now.parties ≤ 10 ^ 12 }
    requires some { 1 ≤ qe }
    requires quotient { qe ≤ 10 ^ 12 }
    ensures counted { IfOk result (λ v. v.items ≡ standings_of qe contest.now.parties) }
    ensures few { IfOk result (λ v. length v.items ≤ 256) }
    ensures first { IfOk result (λ v. sum_by (λ s. s.first) v.items ≡ first_phase qe contest.now.parties) }
    ensures within { IfOk result (λ v. sum_by (λ s. s.first) v.items ≤ 10 ^ 12) }
{
    let mut standings = Vec::new(alloc);
    for party in contest.parties.as_slice() {
        standings.push(standing_of(party, qe))?;
    }
    Ok(standings)
}

/// What is counted of the candidates of a party: their nominal votes, and how many of them have at least 10%, and at least 20%, of the
/// quotient.
#[derive(Clone, Copy, Debug, PartialEq, Eq)]
struct Counts {
    votes: u64,
    tenths: u32,
    fifths: u32,
}

/// The counts of some candidates, all in one pass.
fn counts_of(candidates: &[Entry], qe: u64) -> Counts
    requires votes { nominal_votes candidates.now ≤ 10 ^ 12 }
    requires few { length candidates.now < 2 ^ 32 }
    ensures votes { result.votes ≡ nominal_votes candidates.now }
    ensures tenths { result.tenths ≡ count_by (λ c. has_tenth c.votes qe) candidates.now }
    ensures fifths { result.fifths ≡ count_by (λ c. has_fifth c.votes qe) candidates.now }
{
    let tenth = least_tenth(qe);
    let fifth = least_fifth(qe);
    let mut votes = 0u64;
    let mut tenths = 0u32;
    let mut fifths = 0u32;
    for entry in candidates {
        votes += entry.votes;
        tenths += u32::from(entry.votes >= tenth);
        fifths += u32::from(entry.votes >= fifth);
    }
    Counts {
        votes,
        tenths,
        fifths,
    }
}

/// What is counted of one party. The caller owes that the quotient isn't 0, and that it and the party's votes are at most 10^12.
pub fn standing_of(party: &Contestant, qe: u64) -> Standing
    requires votes { votes_of party.now ≤ 10 ^ 12 }
    requires some { 1 ≤ qe }
    requires quotient { qe ≤ 10 ^ 12 }
    ensures counted { result ≡ standing_of qe party.now }
    ensures number { party.now.number < 2 ^ 8 }
{
    let number = party.number;
    let counts = counts_of(party.candidates.as_slice(), qe);
    let votes = party.party_votes + counts.votes;
    let quotient = party_quotient(votes, qe);
    Standing {
        party: number,
        votes,
        able: counts.tenths,
        first: if quotient < u64::from(counts.tenths) {
            quotient as u32
        } else {
            counts.tenths
        },
        most_in_two: if four_fifths(votes, qe) {
            counts.fifths
        } else {
            0
        },
        most_in_three: if votes >= 1 {
            party.candidates.len()
        } else {
            0
        },
    }
}

/// The seats of all parties in the first phase.
pub(crate) fn first_phase(standings: &[Standing]) -> u64
    requires { sum_by (λ s. s.first) standings.now ≤ 10 ^ 12 }
    ensures { result ≡ sum_by (λ s. s.first) standings.now }
{
    standings
        .iter()
        .map(|standing| u64::from(standing.first))
        .sum()
}

/// The seats of a party after these awards: those of the first phase, and one for each award to it.
pub(crate) fn seats_after(standing: &Standing, awards: &[Award]) -> u32
    requires { standing.now.first + length awards.now < 2 ^ 32 }
    ensures { result ≡ standing.now.first + count_by (λ w. w.party == standing.now.party) awards.now }
{
    let mut seats = standing.first;
    for award in awards {
        if award.party == standing.party {
            seats += 1;
        }
    }
    seats
}

/// How many votes at least each of so many of a party's first candidates has: the fewest that are 10% of the quotient where so many have it, and else 0.
pub(crate) fn least_votes(standing: &Standing, seats: u32, qe: u64) -> u64
    ensures { (p : Contestant) → standing.now ≡ standing_of qe p → seats ≤ length p.candidates → seats ≤ count_by (λ c. nat_le result c.votes) p.candidates }
{
    if seats <= standing.able {
        least_tenth(qe)
    } else {
        0
    }
}

/// How many seats a party can have at most by this phase, which is 2 or 3.
pub fn most_seats(standing: &Standing, phase: u8) -> u32
    ensures { result ≡ most_by phase standing.now }
{
    if phase == 2 {
        standing.most_in_two
    } else {
        standing.most_in_three
    }
}
