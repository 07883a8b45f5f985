//! The seats of a contest.
ghost use Rattle.std.specs.Prelude.{◌≡◌, ◌+◌, ◌-◌, ◌≤◌, length, map, IfOk};
ghost use Rattle.seat_remainders.specs.Contest.{PartiesRise, IsContest};
ghost use Rattle.seat_remainders.specs.Outcome.{IsOutcome, party_seats, elected_by};
ghost use Rattle.seat_remainders.specs.Parties.{first_phase};
ghost use Rattle.seat_remainders.specs.Rounds.{AreRounds};
ghost use Rattle.seat_remainders.specs.Standing.{standings_of};

use crate::awards::award_seats;
use crate::contest::Contest;
use crate::elected::push_elected;
use crate::outcome::{Averages, Awards, Numbers, Outcome, PartySeatList, PartySeats, Seats};
use crate::standing::{Standing, first_phase, least_votes, seats_after, standings_of};
use crate::table::table_of;
use crate::votes::valid_votes;
use quotients::{party_quotient, quotient};
use std::alloc::Global;
use urna_base::Memory;

/// What comes of a contest (arts. 106 to 110; docs/RULES.md, "The seats"): its seats; `NoQuotient` exactly where the electoral quotient
/// is 0; `Over` exactly where it isn't and the first phase comes to more seats than there are. `Memory` comes only where an allocation
/// failed. The seats have the averages that `averages` gives, and none where the first phase leaves no seat.
///
/// The caller owes what `IsContest` says: 1 to 200 seats, parties that rise by number, and at most 10^12 valid votes.
pub fn distribute(alloc: Global, contest: &Contest) -> Result<Outcome, Memory>
    requires { IsContest contest.now }
    ensures { IfOk result (λ outcome. IsOutcome contest.now outcome) }
{
    let valid = valid_votes(contest);
    let seats = contest.seats;
    let qe = quotient(valid, seats);
    if qe == 0 {
        return Ok(Outcome::NoQuotient { valid, seats });
    }
    let standings = standings_of(alloc, contest, qe)?;
    let first = first_phase(&standings);
    if first > u64::from(seats) {
        return Ok(Outcome::Over { first, seats });
    }
    let left = seats - first as u32;
    let averages = table_of(alloc, &standings, 2, &[], left)?;
    let awards = award_seats(alloc, &standings, &averages, left)?;
    let seats = seats_of(alloc, contest, qe, &standings, left, awards, averages)?;
    Ok(Outcome::Seats(seats))
}

/// The seats after the awards, where so many were to be given, with these averages.
fn seats_of(
    alloc: Global,
    contest: &Contest,
    qe: u64,
    standings: &[Standing],
    left: u32,
    awards: Awards,
    averages: Averages,
) -> Result<Seats, Memory>
    requires rising { PartiesRise contest.now.parties }
    requires some { 1 ≤ qe }
    requires counted { standings.now ≡ standings_of qe contest.now.parties }
    requires within { first_phase qe contest.now.parties + left ≤ 200 }
    requires rounds { AreRounds qe contest.now.parties left awards (left - length awards) }
    ensures quotient { IfOk result (λ s. s.quotient ≡ qe) }
    ensures parties { IfOk result (λ s. s.parties ≡ map (party_seats qe awards) contest.now.parties) }
    ensures awards { IfOk result (λ s. s.awards ≡ awards) }
    ensures elected { IfOk result (λ s. s.elected ≡ elected_by qe awards contest.now.parties) }
    ensures averages { IfOk result (λ s. s.averages ≡ averages) }
    ensures vacant { IfOk result (λ s. s.vacant ≡ left - length awards) }
{
    let mut parties = PartySeatList::new(alloc);
    let mut elected = Numbers::new(alloc);
    let mut room = Vec::new(alloc);
    for (i, party) in contest.parties.as_slice().iter().enumerate() {
        let standing = &standings[i];
        let seats = seats_after(standing, awards.as_slice());
        parties.push(PartySeats {
            number: standing.party,
            votes: standing.votes,
            quotient: party_quotient(standing.votes, qe),
            seats,
        })?;
        let least = least_votes(standing, seats, qe);
        let candidates = party.candidates.as_slice();
        push_elected(&mut elected, &mut room, candidates, seats, least)?;
    }
    let vacant = left - awards.len();
    Ok(Seats {
        quotient: qe,
        parties,
        awards,
        elected,
        vacant,
        averages,
    })
}
