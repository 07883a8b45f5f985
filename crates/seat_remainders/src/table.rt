//! The sorted tables of averages that the seats of phases 2 and 3 are taken from (art. 109).
ghost use Rattle.std.specs.Prelude.{◌≡◌, ℕ, ◌+◌, ◌≤◌, ◌<◌, ◌^◌, ◌++◌, List, length, map, sum_by, IfOk, OnOk};
ghost use Rattle.quotients.specs.Order.{parts_of};
ghost use Rattle.seat_remainders.specs.declared.contest.Contestant.{Contestant};
ghost use Rattle.seat_remainders.specs.Contest.{IsContest};
ghost use Rattle.seat_remainders.specs.Parties.{quotient_of, first_phase};
ghost use Rattle.seat_remainders.specs.Standing.{IsTableOf, standing_of, standings_of};
ghost use Rattle.seat_remainders.specs.Table.{AreAverages, entries_for, entries_of, limit_of};

use crate::contest::Contest;
use crate::outcome::{Averages, Award};
use crate::standing::{Standing, first_phase, most_seats, seats_after, standings_of};
use crate::votes::valid_votes;
use quotients::{Average, quotient};
use std::alloc::Global;
use urna_base::Memory;

/// The averages that decide the seats of phase 2 (art. 109, I; docs/RULES.md, "The seats"), in order: of each party with at least 80% of
/// the quotient its valid votes over its first seats plus one, over one more, and so on, up to the number of its candidates with at
/// least 20% of the quotient, and no more of them than seats remain after the first phase. `Memory` comes only where an allocation
/// failed.
///
/// The caller owes what `distribute` asks for, and that its answer is neither `NoQuotient` nor `Over`.
pub fn averages(alloc: Global, contest: &Contest) -> Result<Averages, Memory>
    requires contest { IsContest contest.now }
    requires some { 1 ≤ quotient_of contest.now }
    requires within { first_phase (quotient_of contest.now) contest.now.parties ≤ contest.now.seats }
    ensures { IfOk result (λ averages. AreAverages contest.now averages) }
{
    let qe = quotient(valid_votes(contest), contest.seats);
    let standings = standings_of(alloc, contest, qe)?;
    let left = contest.seats - first_phase(&standings) as u32;
    table_of(alloc, &standings, 2, &[], left)
}

/// The sorted table of a phase, where so many seats remain after these awards.
pub(crate) fn table_of(
    alloc: Global,
    standings: &[Standing],
    phase: u8,
    awards: &[Award],
    left: u32,
) -> Result<Averages, Memory>
    requires few { length standings.now ≤ 256 }
    requires within { sum_by (λ s. s.first) standings.now + length awards.now + left ≤ 200 }
    ensures { IfOk result (λ averages. IsTableOf standings.now phase awards.now left averages) }
{
    let entries = entries_of(alloc, standings, phase, awards, left)?;
    let averages = Averages::sorted(entries, standings.len())?;
    Ok(averages)
}

/// The averages of the table, party by party.
fn entries_of(
    alloc: Global,
    standings: &[Standing],
    phase: u8,
    awards: &[Award],
    left: u32,
) -> Result<Vec<Average>, Memory>
    requires few { length standings.now ≤ 256 }
    requires within { sum_by (λ s. s.first) standings.now + length awards.now + left ≤ 200 }
    ensures entries { IfOk result (λ v. (qe : ℕ) (parties : List Contestant) → standings.now ≡ standings_of qe parties
        → map parts_of v.items ≡ entries_of qe awards.now (limit_of qe phase awards.now left) parties) }
    ensures few { IfOk result (λ v. length v.items < 2 ^ 32) }
{
    let mut entries = Vec::new(alloc);
    for standing in standings {
        push_entries(&mut entries, standing, phase, awards, left)?;
    }
    Ok(entries)
}

/// The averages of one party, behind those of others.
fn push_entries(
    entries: &mut Vec<Average>,
    standing: &Standing,
    phase: u8,
    awards: &[Award],
    left: u32,
) -> Result<(), Memory>
    requires { standing.now.first + length awards.now + left ≤ 200 }
    ensures pushed { OnOk result ((qe : ℕ) (p : Contestant) → standing.now ≡ standing_of qe p
        → map parts_of entries.new.items ≡ map parts_of entries.old.items ++ entries_for qe awards.now (limit_of qe phase awards.now left) p) }
    ensures few { OnOk result (length entries.new.items ≤ length entries.old.items + left) }
{
    let first = seats_after(standing, awards);
    let limit = most_seats(standing, phase).min(first + left);
    for seats in first..limit {
        entries.push(Average::new(standing.votes, seats + 1, standing.party))?;
    }
    Ok(())
}
