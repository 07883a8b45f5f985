//! The majority rules.
ghost use Rattle.std.specs.Prelude.{◌≡◌, ◌≤◌, ◌^◌, List};
ghost use Rattle.seat_remainders.specs.declared.contest.Entry.{Entry};
ghost use Rattle.seat_remainders.specs.Candidates.{in_order, stands_first, with_candidate};
ghost use Rattle.seat_remainders.specs.Leading.{leaders_of};
ghost use Rattle.seat_remainders.specs.Majority.{decided, majority_outcome};
ghost use Rattle.seat_remainders.specs.Parties.{nominal_votes};

use crate::contest::Entry;
use crate::outcome::MajorityOutcome;
use crate::votes::nominal_votes;

/// What comes of a majority office (Constitution art. 77, Lei 9.504/1997 art. 2; docs/RULES.md, "The majority"): by the simple rule the
/// first in the order of candidates is elected, by the absolute rule a candidate with more than half of the votes, or else the first
/// two go to a second round. It takes no memory.
///
/// The caller owes that all votes together are at most 10^12. There may be no candidates.
pub fn majority(entries: &[Entry], absolute: bool) -> MajorityOutcome
    requires { nominal_votes entries.now ≤ 10 ^ 12 }
    ensures { result ≡ majority_outcome entries.now absolute }
{
    let total = nominal_votes(entries);
    if total == 0 {
        return MajorityOutcome::Nobody;
    }
    decide(find_leaders(entries), total, absolute)
}

/// The first two of some candidates, or as many as there are.
#[derive(Clone, Copy, Debug, PartialEq, Eq)]
enum Leaders {
    None,
    One(Entry),
    Two(Entry, Entry),
}

/// What the rules say of the first two, where all candidates have so many votes.
fn decide(leaders: Leaders, total: u64, absolute: bool) -> MajorityOutcome
    ensures { (ordered : List Entry) → leaders ≡ leaders_of ordered → result ≡ decided total absolute ordered }
{
    match leaders {
        Leaders::None => MajorityOutcome::Nobody,
        Leaders::One(first) => MajorityOutcome::Elected(first.number),
        Leaders::Two(first, second) => {
            if absolute && 2 * u128::from(first.votes) <= u128::from(total) {
                MajorityOutcome::Runoff(first.number, second.number)
            } else {
                MajorityOutcome::Elected(first.number)
            }
        }
    }
}

/// The first two in the order of candidates.
fn find_leaders(entries: &[Entry]) -> Leaders
    ensures { result ≡ leaders_of (in_order entries.now) }
{
    let mut leaders = Leaders::None;
    let mut left = entries.len();
    while left > 0 {
        left -= 1;
        leaders = with_entry(leaders, entries[left]);
    }
    leaders
}

/// The first two, with one candidate more.
fn with_entry(leaders: Leaders, entry: Entry) -> Leaders
    ensures { (ordered : List Entry) → leaders ≡ leaders_of ordered → result ≡ leaders_of (with_candidate entry ordered) }
{
    match leaders {
        Leaders::None => Leaders::One(entry),
        Leaders::One(first) => {
            if stands_first(&entry, &first) {
                Leaders::Two(entry, first)
            } else {
                Leaders::Two(first, entry)
            }
        }
        Leaders::Two(first, second) => {
            if stands_first(&entry, &first) {
                Leaders::Two(entry, first)
            } else if stands_first(&entry, &second) {
                Leaders::Two(first, entry)
            } else {
                Leaders::Two(first, second)
            }
        }
    }
}

/// Whether the first stands before the second in the order of candidates (art. 110), or is it.
fn stands_first(a: &Entry, b: &Entry) -> bool
    ensures { result ≡ stands_first a.now b.now }
{
    a.votes > b.votes
        || (a.votes == b.votes
            && (a.birth < b.birth || (a.birth == b.birth && a.number <= b.number)))
}
