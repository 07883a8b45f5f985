//! Who is elected (arts. 109, paragraph 1, and 110).
ghost use Rattle.std.specs.Prelude.{◌≡◌, ◌+◌, ◌≤◌, ◌<◌, ◌^◌, ◌++◌, nat_le, count_by, filter, length, map, take, OnOk};
ghost use Rattle.seat_remainders.specs.Candidates.{in_order};

use crate::contest::Entry;
use crate::outcome::Numbers;
use urna_base::Memory;

/// Puts candidates in their order (arts. 109, paragraph 1, and 110).
pub fn sort_candidates(candidates: &mut [Entry])
    ensures { candidates.new ≡ in_order candidates.old }
{
    candidates.sort_unstable();
}

/// The elected of a party, behind those of others: the first of its candidates, as many as it has seats, of whom each has at least so many
/// votes. Its candidates are looked at in `room`, which serves one party after the other.
pub(crate) fn push_elected(
    elected: &mut Numbers,
    room: &mut Vec<Entry>,
    candidates: &[Entry],
    seats: u32,
    least: u64,
) -> Result<(), Memory>
    requires seats { seats ≤ count_by (λ c. nat_le least c.votes) candidates.now }
    requires room { length elected.old + seats < 2 ^ 32 }
    ensures { OnOk result (elected.new ≡ elected.old ++ map (λ c. c.number) (take seats (in_order candidates.now))) }
{
    if seats == 0 {
        return Ok(());
    }
    put_those_with(room, candidates, least)?;
    for entry in first_of(room, seats as usize) {
        elected.push(entry.number)?;
    }
    Ok(())
}

/// The candidates with at least so many votes, in the place of what was there. Most have fewer, and to drop them takes less than to sort
/// them.
fn put_those_with(room: &mut Vec<Entry>, candidates: &[Entry], least: u64) -> Result<(), Memory>
    ensures { OnOk result (room.new.items ≡ filter (λ c. nat_le least c.votes) candidates.now) }
{
    room.clear();
    room.extend_from_slice(candidates)?;
    room.retain(|entry| entry.votes >= least);
    Ok(())
}

/// So many candidates, the first of these in their order. Only they are sorted.
fn first_of(candidates: &mut [Entry], count: usize) -> &[Entry]
    requires { count ≤ length candidates.old }
    ensures { result.now ≡ take count (in_order candidates.old) }
{
    if count < candidates.len() {
        let (first, _, _) = candidates.select_nth_unstable(count);
        first.sort_unstable();
        first
    } else {
        sort_candidates(candidates);
        candidates
    }
}
