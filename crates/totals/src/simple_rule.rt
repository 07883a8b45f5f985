//! The simple majority, for an office of one seat or more.
ghost use Rattle.std.specs.Prelude.{◌≡◌, ◌≤◌, ◌^◌, map, IfOk};
ghost use Rattle.std.specs.List.Sorted.{IsStrictlyIncreasing};
ghost use Rattle.std.specs.Option.{option_to_list};
ghost use Rattle.seat_remainders.specs.Parties.{nominal_votes};
ghost use Rattle.totals.specs.Simple.{elected_simply};

use crate::entries::without;
use seat_remainders::{Entries, Entry, MajorityOutcome, Numbers, majority};
use std::alloc::Global;
use urna_base::Memory;

/// Whom the simple rule elects to so many seats, one after the other: the first in the order of candidates, then the first of the others,
/// as long as there is a seat and one of them has a vote.
///
/// The caller owes that the candidates rise by number and have at most 10^12 votes. `Memory` comes only where an allocation failed.
pub(crate) fn elected_simply(
    alloc: Global,
    candidates: Entries,
    seats: u32,
) -> Result<Numbers, Memory>
    requires rising { IsStrictlyIncreasing (map (λ c. c.number) candidates) }
    requires votes { nominal_votes candidates ≤ 10 ^ 12 }
    ensures { IfOk result (λ elected. elected ≡ elected_simply seats candidates) }
{
    let mut elected = Numbers::new(alloc);
    let mut left = candidates;
    for _ in 0..seats {
        match first_of(left.as_slice()) {
            Some(number) => {
                elected.push(number)?;
                left = without(alloc, left.as_slice(), number)?;
            }
            None => return Ok(elected),
        }
    }
    Ok(elected)
}

/// Whom the simple rule elects to one seat.
fn first_of(candidates: &[Entry]) -> Option<u32>
    requires { nominal_votes candidates.now ≤ 10 ^ 12 }
    ensures { option_to_list result ≡ elected_simply 1 candidates.now }
{
    match majority(candidates, false) {
        MajorityOutcome::Elected(number) => Some(number),
        MajorityOutcome::Runoff(_, _) | MajorityOutcome::Nobody => None,
    }
}
