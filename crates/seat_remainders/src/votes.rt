//! Sums of votes.
ghost use Rattle.std.specs.Prelude.{◌≡◌, ◌≤◌, ◌^◌};
ghost use Rattle.seat_remainders.specs.Parties.{nominal_votes, votes_of, valid_votes};

use crate::contest::{Contest, Contestant, Entry};

/// The nominal votes of some candidates. The caller owes that they are at most 10^12.
pub fn nominal_votes(entries: &[Entry]) -> u64
    requires { nominal_votes entries.now ≤ 10 ^ 12 }
    ensures { result ≡ nominal_votes entries.now }
{
    entries.iter().map(|entry| entry.votes).sum()
}

/// The valid votes of a party: its party votes and its nominal votes.
pub(crate) fn votes_of(party: &Contestant) -> u64
    requires { votes_of party.now ≤ 10 ^ 12 }
    ensures { result ≡ votes_of party.now }
{
    party.party_votes + nominal_votes(party.candidates.as_slice())
}

/// The valid votes of all parties. The caller owes that they are at most 10^12.
pub fn valid_votes(contest: &Contest) -> u64
    requires { valid_votes contest.now.parties ≤ 10 ^ 12 }
    ensures { result ≡ valid_votes contest.now.parties }
{
    let mut votes = 0u64;
    for party in contest.parties.as_slice() {
        votes += votes_of(party);
    }
    votes
}
