//! The votes of each of some numbers.
ghost use Rattle.std.specs.Prelude.{◌≡◌, ◌==◌, ◌<◌, [], ◌∷◌, length, map, IfOk, IfSome, None};
ghost use Rattle.std.specs.List.{HoldsAt, find};
ghost use Rattle.std.specs.List.Sorted.{IsStrictlyIncreasing};
ghost use Rattle.std.specs.Option.{IfNone};
ghost use Rattle.poll_report.specs.Report.{votes_of};
ghost use Rattle.vote_kinds.specs.Ballot.{line_of};
ghost use Rattle.section_intake.specs.Kept.{HaveRoom, tallies_of, votes_at, with_counts};

use election_tables::Tables;
use poll_report::Count;
use std::alloc::Global;
use std::marker::Model;
use urna_base::Memory;

/// A number, and its votes so far.
#[derive(Drop)]
pub struct Tally {
    pub number: u32,
    pub votes: u64,
}

/// Each of some numbers, rising, with its votes so far. Contracts see the list.
#[derive(Drop)]
pub struct Tallies {
    items: Vec<Tally>,
}

impl Model for Tallies {
    ghost use Rattle.std.specs.Prelude.{List, map};
    ghost use Rattle.std.specs.List.Sorted.{IsStrictlyIncreasing};
    ghost use Rattle.section_intake.specs.declared.tallies.Tally.{Tally};

    ghost Value = { List Tally };

    ghost view = { λ t. t.items.items };

    ghost invariant = { λ t. IsStrictlyIncreasing (map (λ tally. tally.number) t.items.items) };
}

impl Tallies {
    /// The candidates of a panel, each with no votes.
    pub(crate) fn of_candidates(
        alloc: Global,
        tables: &Tables,
        panel: u32,
    ) -> Result<Tallies, Memory>
        requires { panel < length tables.now.panels }
        ensures { IfOk result (λ s. s ≡ tallies_of (λ n. 0) (line_of tables.now panel).candidates) }
    {
        // that the candidates rise is known of each call that tells how many panels there are
        let _panels = tables.panels();
        let count = tables.candidate_count(panel);
        let mut items = Vec::with_capacity(alloc, count as usize)?;
        for i in 0..count {
            items.push_reserved(Tally {
                number: tables.candidate(panel, i).number,
                votes: 0,
            });
        }
        Ok(Tallies { items })
    }

    /// The parties, each with no votes.
    pub(crate) fn of_parties(alloc: Global, tables: &Tables) -> Result<Tallies, Memory>
        ensures { IfOk result (λ s. s ≡ tallies_of (λ n. 0) (map (λ q. q.number) tables.now.parties)) }
    {
        let count = tables.party_count();
        let mut items = Vec::with_capacity(alloc, count as usize)?;
        for i in 0..count {
            items.push_reserved(Tally {
                number: u32::from(tables.party(i)),
                votes: 0,
            });
        }
        Ok(Tallies { items })
    }

    /// The votes of a number, 0 where it isn't one of these.
    pub(crate) fn votes(&self, number: u32) -> u64
        ensures { result ≡ votes_at number self.now }
    {
        match place_of(&self.items, number) {
            Some(i) => self.items[i].votes,
            None => 0,
        }
    }

    /// The votes of one count more, whose number is looked for from a place on. The answer is where to look for the next number first, a
    /// guess on which no answer rests.
    fn add_one(&mut self, count: Count, place: usize) -> usize
        requires { HaveRoom count.votes self.old }
        ensures { self.new ≡ with_counts (count ∷ []) self.old }
    {
        match place_from(&self.items, count.number, place) {
            Some(i) => {
                self.items[i].votes += u64::from(count.votes);
                i
            }
            None => place,
        }
    }

    /// The votes of these counts more. As the numbers of a report and those of the tallies rise, one walk over both finds them.
    pub(crate) fn add(&mut self, counts: &[Count])
        requires { HaveRoom (votes_of counts.now) self.old }
        ensures { self.new ≡ with_counts counts.now self.old }
    {
        let mut place = 0;
        for count in counts {
            place = self.add_one(*count, place);
        }
    }
}

/// The place of a number.
fn place_of(tallies: &[Tally], number: u32) -> Option<usize>
    requires { IsStrictlyIncreasing (map (λ t. t.number) tallies.now) }
    ensures found { IfSome result (λ i. (i < length tallies.now) × HoldsAt (λ t. t.number ≡ number) tallies.now i) }
    ensures none { IfNone result (find (λ t. t.number == number) tallies.now ≡ None) }
{
    match tallies.binary_search_by_key(&number, |tally| tally.number) {
        Ok(i) => Some(i),
        Err(_) => None,
    }
}

/// The first place from this one on where a tally has this number or a greater one. It is a guess, on which no answer rests.
fn next_place(tallies: &[Tally], number: u32, from: usize) -> usize {
    for place in from..tallies.len() {
        if number <= tallies[place].number {
            return place;
        }
    }
    tallies.len()
}

/// The place of a number, which is looked for from a place on first.
fn place_from(tallies: &[Tally], number: u32, from: usize) -> Option<usize>
    requires { IsStrictlyIncreasing (map (λ t. t.number) tallies.now) }
    ensures found { IfSome result (λ i. (i < length tallies.now) × HoldsAt (λ t. t.number ≡ number) tallies.now i) }
    ensures none { IfNone result (find (λ t. t.number == number) tallies.now ≡ None) }
{
    let place = next_place(tallies, number, from);
    if place < tallies.len() && tallies[place].number == number {
        Some(place)
    } else {
        place_of(tallies, number)
    }
}
