//! The search for the first difference where votes don't stand in the order of choices, as those of a text do that was read.
ghost use Rattle.std.specs.Prelude.{◌≡◌, ◌<◌, map};
ghost use Rattle.std.specs.List.{AllByRecursion};
ghost use Rattle.poll_report.specs.Report.{IsCounted};
ghost use Rattle.record_audit.specs.Finding.{differs_at, named};
ghost use Rattle.record_audit.specs.Walk.{best_of, better};

use crate::recount::{count_lines, said_for};
use poll_report::{Count, OfficeCount};
use vote_kinds::Choice;

/// The first choice at which votes and report differ, each choice that they name being looked at.
pub(crate) fn search(votes: &[Choice], office: &OfficeCount) -> Option<Choice>
    requires { IsCounted office.now }
    ensures { result ≡ best_of (differs_at votes.now office.now) None (named votes.now office.now) }
{
    let first = best_vote(votes, office);
    let first = best_candidate(first, votes, office, office.nominal.as_slice());
    let first = best_party(first, votes, office, office.parties.as_slice());
    let first = better(first, votes, office, Choice::Blank);
    better(first, votes, office, Choice::Null)
}

/// The first of the choices of all votes that differs.
#[tactic(auto, using(crate::proofs::Searching::vote_on), unfolding(crate::specs::Walk::best_of))]
fn best_vote(votes: &[Choice], office: &OfficeCount) -> Option<Choice>
    ensures { result ≡ best_of (differs_at votes.now office.now) None votes.now }
{
    let mut first = None;
    for vote in votes {
        first = better(first, votes, office, *vote);
    }
    first
}

/// The first of a choice and some candidates that differs.
#[tactic(auto, using(crate::proofs::Searching::best_on), unfolding(crate::specs::Walk::best_of))]
fn best_candidate(
    first: Option<Choice>,
    votes: &[Choice],
    office: &OfficeCount,
    counts: &[Count],
) -> Option<Choice>
    ensures { result ≡ best_of (differs_at votes.now office.now) first (map (λ c. Choice.Nominal c.number) counts.now) }
{
    let mut first = first;
    for count in counts {
        first = better(first, votes, office, Choice::Nominal(count.number));
    }
    first
}

/// The first of a choice and some parties that differs.
#[tactic(auto, using(crate::proofs::Searching::best_on), unfolding(crate::specs::Walk::best_of))]
fn best_party(
    first: Option<Choice>,
    votes: &[Choice],
    office: &OfficeCount,
    counts: &[Count],
) -> Option<Choice>
    requires { AllByRecursion (λ c. c.number < 256) counts.now }
    ensures { result ≡ best_of (differs_at votes.now office.now) first (map (λ c. Choice.Party c.number) counts.now) }
{
    let mut first = first;
    for count in counts {
        first = better(first, votes, office, Choice::Party(count.number as u8));
    }
    first
}

/// The earlier of two choices, in the order of choices, where the second differs; else the first.
fn better(
    first: Option<Choice>,
    votes: &[Choice],
    office: &OfficeCount,
    choice: Choice,
) -> Option<Choice>
    ensures { result ≡ better (differs_at votes.now office.now) first choice }
{
    if count_lines(votes, choice) == u64::from(said_for(office, choice)) {
        return first;
    }
    match first {
        Some(first) if first.is_at_or_before(choice) => Some(first),
        _ => Some(choice),
    }
}
