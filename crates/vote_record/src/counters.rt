//! The counters that a bag is stored as, in the order of choices.
ghost use Rattle.std.specs.Prelude.{◌≡◌, ◌<◌, ◌≤◌, ◌+◌, ◌^◌, ◌++◌, false, length, map, take, IfOk, IfSome, IsNone, Some, slice_get, vec_len, vec_capacity};
ghost use Rattle.election_tables.specs.TablesData.{IsTables, candidates_at};
ghost use Rattle.vote_kinds.specs.Ballot.{choices_of, line_of};
ghost use Rattle.vote_kinds.specs.Choice.{AreRising};
ghost use Rattle.vote_record.specs.Bag.{count_of, with_choices};
ghost use Rattle.vote_record.specs.Counters.{counters_before, most_counters};
ghost use Rattle.vote_record.specs.BagData.{IsPlace, choices_in, members_of, no_votes, stands_at};

use election_tables::{MOST_CANDIDATES, MOST_PARTIES, Tables};
use std::alloc::Global;
use urna_base::Memory;
use vote_kinds::{Choice, choice_count, chosen_parties};

/// A choice, and how many votes are it.
#[derive(Clone, Copy, Debug)]
pub struct Counter {
    pub choice: Choice,
    pub votes: u32,
}

/// The most counters of a panel beside its candidates: its parties, blank and null.
const MOST_OTHERS: u32 = MOST_PARTIES as u32 + 2;

/// How many counters more than these tables need the largest ones with as many panels would.
pub fn spare_counters(tables: &Tables) -> u32
    ensures { result + counters_before tables.now (length tables.now.panels) ≡ most_counters (length tables.now.panels) }
{
    let mut spare = MOST_CANDIDATES as u32 + MOST_OTHERS * tables.panels();
    for panel in 0..tables.panels() {
        spare -= choice_count(tables, panel);
    }
    spare
}

/// A counter without votes for each choice of a panel, in the order of choices, with memory for so many counters more.
pub fn new_counters(
    alloc: Global,
    tables: &Tables,
    panel: u32,
    more: usize,
) -> Result<Vec<Counter>, Memory>
    requires panel { panel < length tables.now.panels }
    requires few { more < 2 ^ 33 }
    ensures places { IfOk result (λ counters. counters.items ≡ map no_votes (choices_of (line_of tables.now panel))) }
    ensures memory { IfOk result (λ counters. vec_capacity counters ≡ length counters.items + more) }
    ensures tables { IsTables tables.now }
{
    let choices = choice_count(tables, panel);
    let mut counters = Vec::with_capacity(alloc, choices as usize + more)?;
    put_candidates(&mut counters, tables, panel);
    put_parties(&mut counters, tables, chosen_parties(tables, panel));
    counters.push_reserved(no_votes(Choice::Blank));
    counters.push_reserved(no_votes(Choice::Null));
    Ok(counters)
}

/// Puts a counter for each candidate behind the others.
fn put_candidates(counters: &mut Vec<Counter>, tables: &Tables, panel: u32)
    requires panel { panel < length tables.now.panels }
    requires reserved { vec_len counters.old + length (candidates_at panel tables.now) ≤ vec_capacity counters.old }
    ensures put { counters.new.items ≡ counters.old.items ++ map no_votes (map (λ n. Choice.Nominal n) (line_of tables.now panel).candidates) }
    ensures count { vec_len counters.new ≡ vec_len counters.old + length (candidates_at panel tables.now) }
    ensures memory { vec_capacity counters.new ≡ vec_capacity counters.old }
{
    for i in 0..tables.candidate_count(panel) {
        let candidate = tables.candidate(panel, i);
        counters.push_reserved(no_votes(Choice::Nominal(candidate.number)));
    }
}

/// Puts a counter for each of the first so many parties behind the others.
fn put_parties(counters: &mut Vec<Counter>, tables: &Tables, parties: u32)
    requires parties { parties ≤ length tables.now.parties }
    requires reserved { vec_len counters.old + parties ≤ vec_capacity counters.old }
    ensures put { counters.new.items ≡ counters.old.items ++ map no_votes (map (λ n. Choice.Party n) (take parties (map (λ q. q.number) tables.now.parties))) }
    ensures count { vec_len counters.new ≡ vec_len counters.old + parties }
    ensures memory { vec_capacity counters.new ≡ vec_capacity counters.old }
{
    for i in 0..parties {
        counters.push_reserved(no_votes(Choice::Party(tables.party(i))));
    }
}

/// A counter without votes.
fn no_votes(choice: Choice) -> Counter
    ensures { result ≡ no_votes choice }
{
    Counter { choice, votes: 0 }
}

/// So many votes more of a choice, whose counter may be that at `near`. A counter is put in where it has none, for no votes as
/// well. It takes no memory.
pub fn count_in(counters: &mut Vec<Counter>, near: usize, choice: Choice, votes: u32)
    requires rise { AreRising (choices_in counters.old.items) }
    requires reserved { vec_len counters.old < vec_capacity counters.old }
    requires fits { length (members_of counters.old.items) + votes < 2 ^ 32 }
    ensures counted { members_of counters.new.items ≡ with_choices votes choice (members_of counters.old.items) }
    ensures rise { AreRising (choices_in counters.new.items) }
    ensures few { vec_len counters.new ≤ vec_len counters.old + 1 }
    ensures memory { vec_capacity counters.new ≡ vec_capacity counters.old }
{
    let place = place_near(counters, near, choice);
    if stands_at(counters, place, choice) {
        counters[place].votes += votes;
    } else {
        counters.insert(place, Counter { choice, votes }).unwrap();
    }
}

/// The same as `place_for`. It looks at `near` first.
fn place_near(counters: &[Counter], near: usize, choice: Choice) -> usize
    requires { AreRising (choices_in counters.now) }
    ensures { IsPlace choice counters.now result }
{
    if stands_at(counters, near, choice) {
        near
    } else {
        place_for(counters, choice)
    }
}

/// Where the counter of a choice stands, or is put in where there is none.
pub fn place_for(counters: &[Counter], choice: Choice) -> usize
    requires { AreRising (choices_in counters.now) }
    ensures { IsPlace choice counters.now result }
{
    counters.partition_point(|counter| !choice.is_at_or_before(counter.choice))
}

/// How many votes a choice has, if its counter stands in this place.
pub fn votes_at(counters: &[Counter], place: usize, choice: Choice) -> Option<u32>
    requires { AreRising (choices_in counters.now) }
    ensures votes { IfSome result (λ votes. votes ≡ count_of choice (members_of counters.now)) }
    ensures none { IsNone result → stands_at choice counters.now place ≡ false }
{
    if stands_at(counters, place, choice) {
        Some(counters[place].votes)
    } else {
        None
    }
}

/// Whether the counter in a place is there, and is that of the choice.
fn stands_at(counters: &[Counter], place: usize, choice: Choice) -> bool
    ensures { result ≡ stands_at choice counters.now place }
{
    match counters.get(place) {
        Some(counter) => choice.is_same(counter.choice),
        None => false,
    }
}

/// The i-th of the members that are counted, in the order of choices.
pub fn member(counters: &[Counter], i: u32) -> Choice
    requires { i < length (members_of counters.now) }
    ensures { slice_get (members_of counters.now) i ≡ Some result }
{
    let mut left = i;
    for counter in counters {
        if left < counter.votes {
            return counter.choice;
        }
        left -= counter.votes;
    }
    unreachable!()
}
