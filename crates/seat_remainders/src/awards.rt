//! The seats that the first phase leaves (art. 109), from the fronts of two sorted tables.
ghost use Rattle.std.specs.Prelude.{◌≡◌, ℕ, ◌+◌, ◌-◌, ◌≤◌, ◌<◌, ◌^◌, ◌++◌, List, [], length, take, sum_by, IfOk, OnOk};
ghost use Rattle.seat_remainders.specs.declared.contest.Contestant.{Contestant};
ghost use Rattle.seat_remainders.specs.Contest.{PartiesRise};
ghost use Rattle.seat_remainders.specs.Rounds.{AreRounds};
ghost use Rattle.seat_remainders.specs.Standing.{IsTableOf, standings_of};
ghost use Rattle.seat_remainders.specs.Table.{awards_for};

use crate::outcome::{Averages, Award, Awards};
use crate::standing::Standing;
use crate::table::table_of;
use std::alloc::Global;
use urna_base::Memory;

/// The awards of so many seats: those of phase 2 by its sorted table, and where that ends before the seats do, those of phase 3 by a second
/// one.
pub(crate) fn award_seats(
    alloc: Global,
    standings: &[Standing],
    averages: &Averages,
    left: u32,
) -> Result<Awards, Memory>
    requires few { length standings.now ≤ 256 }
    requires within { sum_by (λ s. s.first) standings.now + left ≤ 200 }
    requires table { IsTableOf standings.now 2 [] left averages.now }
    ensures { IfOk result (λ awards. (qe : ℕ) (parties : List Contestant) → 1 ≤ qe → PartiesRise parties → standings.now ≡ standings_of qe parties
        → AreRounds qe parties left awards (left - length awards)) }
{
    let mut awards = Awards::new(alloc);
    push_awards(&mut awards, 2, averages, left)?;
    let vacant = left - awards.len();
    if vacant == 0 {
        return Ok(awards);
    }
    let third = table_of(alloc, standings, 3, awards.as_slice(), vacant)?;
    push_awards(&mut awards, 3, &third, vacant)?;
    Ok(awards)
}

/// The awards of a phase for the averages at the front of its table, for at most so many seats, behind those before.
fn push_awards(
    awards: &mut Awards,
    phase: u8,
    averages: &Averages,
    seats: u32,
) -> Result<(), Memory>
    requires { length awards.old + seats < 2 ^ 32 }
    ensures { OnOk result (awards.new ≡ awards.old ++ awards_for phase (take seats averages.now)) }
{
    for i in 0..averages.len().min(seats) {
        let party = averages.get(i).party();
        awards.push(Award { phase, party })?;
    }
    Ok(())
}
