//! Whether a contest is one that the law is applied to: what a caller of `distribute` owes.
ghost use Rattle.std.specs.Prelude.{◌≡◌, ◌≤◌, ◌^◌, ℕ, true, Some};
ghost use Rattle.seat_remainders.specs.Contest.{IsContest, PartiesRise};
ghost use Rattle.seat_remainders.specs.Parties.{nominal_votes, valid_votes, votes_of};

use seat_remainders::{Contest, Contestant, Entry};

/// Whether it has 1 to 200 seats, parties that rise by number, and at most 10^12 valid votes.
pub fn is_contest(contest: &Contest) -> bool
    ensures { result ≡ true → IsContest contest.now }
{
    contest.seats >= 1
        && contest.seats <= 200
        && rise(contest.parties.as_slice())
        && has_few_votes(contest)
}

fn rise(parties: &[Contestant]) -> bool
    ensures { result ≡ true → PartiesRise parties.now }
{
    for (i, party) in parties.iter().enumerate() {
        if i > 0 && parties[i - 1].number >= party.number {
            return false;
        }
    }
    true
}

fn has_few_votes(contest: &Contest) -> bool
    ensures { result ≡ true → valid_votes contest.now.parties ≤ 10 ^ 12 }
{
    match all_votes(contest.parties.as_slice()) {
        Some(votes) => votes <= 1_000_000_000_000,
        None => false,
    }
}

/// The valid votes of some parties, if a word has room for them.
fn all_votes(parties: &[Contestant]) -> Option<u64>
    ensures { (votes : ℕ) → result ≡ Some votes → votes ≡ valid_votes parties.now }
{
    let mut votes = 0u64;
    for party in parties {
        votes = votes.checked_add(party_votes(party)?)?;
    }
    Some(votes)
}

fn party_votes(party: &Contestant) -> Option<u64>
    ensures { (votes : ℕ) → result ≡ Some votes → votes ≡ votes_of party.now }
{
    candidate_votes(party.candidates.as_slice())?.checked_add(party.party_votes)
}

/// The votes of some candidates, if a word has room for them.
pub fn candidate_votes(entries: &[Entry]) -> Option<u64>
    ensures { (votes : ℕ) → result ≡ Some votes → votes ≡ nominal_votes entries.now }
{
    let mut votes = 0u64;
    for entry in entries {
        votes = votes.checked_add(entry.votes)?;
    }
    Some(votes)
}
