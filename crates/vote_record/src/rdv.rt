ghost use Rattle.std.specs.Prelude.{◌≡◌, ◌<◌, ◌≤◌, ◌+◌, length, IfOk, Some, slice_get, slice_set};
ghost use Rattle.election_tables.specs.Limits.{most_voters};
ghost use Rattle.election_tables.specs.TablesData.{TablesData};
ghost use Rattle.vote_record.specs.Bag.{IsInOrder, count_of, with_choices, bag_at};
ghost use Rattle.vote_record.specs.Laws.{HasOnlyVotes};
ghost use Rattle.vote_record.specs.RdvData.{IsVote, empty_record, room_at, with_vote_in};

use crate::bag::Bag;
use crate::counters::spare_counters;
use election_tables::Tables;
use std::alloc::Global;
use std::marker::Model;
use urna_base::Memory;
use vote_kinds::Choice;

/// The digital vote record of a section (docs/RULES.md, "The state of a poll"): for each panel a bag of choices, with room
/// for just all votes that there can be, and the memory for it from the start to the end. A bag keeps no order of its own, so
/// the record doesn't tell who voted when. Contracts see it as `RdvData`.
#[derive(Debug, Drop)]
pub struct Rdv {
    bags: Vec<Bag>,
    voters: u32,
    // for each panel how many votes a voter has in it
    places: Vec<u32>,
}

impl Model for Rdv {
    ghost use Rattle.std.specs.Prelude.{map, vec_capacity};
    ghost use Rattle.vote_record.specs.RdvData.{RdvData, AreReserved};

    ghost Value = { RdvData };

    ghost view = { λ r. record { bags = map (λ b. b.members) r.bags.items; voters = r.voters; places = r.places.items } };

    ghost invariant = { λ r. AreReserved r.bags.items r.voters r.places.items (vec_capacity r.bags) (vec_capacity r.places) };
}

impl Rdv {
    /// The record of a section with so many voters, where nobody has voted: a bag for each panel of the tables, with room
    /// for as many votes as all voters have there. All its memory is taken here; `Memory` comes only where an allocation
    /// failed.
    pub fn new(alloc: Global, tables: &Tables, voters: u32) -> Result<Rdv, Memory>
        requires { voters ≤ most_voters }
        ensures { IfOk result (λ r. r ≡ empty_record tables.now voters) }
    {
        let panels = tables.panels();
        let mut bags = Vec::with_capacity(alloc, panels as usize)?;
        let mut places = Vec::with_capacity(alloc, panels as usize)?;
        // What no panel needs of the memory goes to the first, so that all of it is settled by what contracts see of a record.
        let mut spare = spare_counters(tables);
        for panel in 0..panels {
            let votes = tables.places(panel);
            bags.push_reserved(Bag::of_panel(alloc, tables, panel, voters * votes, spare)?);
            places.push_reserved(votes);
            spare = 0;
        }
        Ok(Rdv {
            bags,
            voters,
            places,
        })
    }

    /// One vote more in a panel, wherever its choice stands among the others. It takes no memory. The caller owes that
    /// the panel is one of the record, that the choice is one of the panel's, and that the panel has fewer votes than all
    /// voters have there.
    pub fn add(&mut self, tables: &Tables, panel: u32, choice: Choice)
        requires panel { panel < length self.old.bags }
        requires choice { IsVote tables.now panel choice }
        requires room { length (bag_at self.old.bags panel) < room_at self.old panel }
        ensures { self.new ≡ with_vote_in panel choice self.old }
    {
        self.add_votes(tables, panel, 0, choice, 1);
    }

    /// So many votes of a choice more in a panel, which may be none. The counter of the choice is looked for in this place of the
    /// panel's first, as `count_near` does. It takes no memory, as `add`. The caller owes that the
    /// panel is one of the record, that the choice is one of the panel's, and that with these the panel has no more votes than
    /// all voters have there.
    pub fn add_votes(&mut self, tables: &Tables, panel: u32, place: u32, choice: Choice, votes: u32)
        requires panel { panel < length self.old.bags }
        requires choice { IsVote tables.now panel choice }
        requires room { length (bag_at self.old.bags panel) + votes ≤ room_at self.old panel }
        ensures { self.new ≡ record self.old { bags = slice_set self.old.bags panel (with_choices votes choice (bag_at self.old.bags panel)) } }
    {
        self.bags[panel as usize].add(place, choice, votes);
    }

    /// How many votes of a panel, which is one of the record, are this choice; 0 for a choice that is none of the panel's by
    /// the tables that the record was made and filled with (`laws::records`).
    pub fn count(&self, panel: u32, choice: Choice) -> u32
        requires { panel < length self.now.bags }
        ensures count { result ≡ count_of choice (bag_at self.now.bags panel) }
        ensures lacking { (t : TablesData) → HasOnlyVotes t self.now → ¬ IsVote t panel choice → result ≡ 0 }
    {
        self.bags[panel as usize].count(choice)
    }

    /// The same number as `count`. It is looked for in this place of the panel's counters first, and where the counter of
    /// another choice stands there, as `count` does. In a record that was made with tables whose panel has the choice in this
    /// place, it is found at once; so who goes through all choices of a panel in order asks for each by its place.
    pub fn count_near(&self, panel: u32, place: u32, choice: Choice) -> u32
        requires { panel < length self.now.bags }
        ensures { result ≡ count_of choice (bag_at self.now.bags panel) }
    {
        self.bags[panel as usize].count_near(place, choice)
    }

    /// How many votes a panel, which is one of the record, has.
    pub fn total(&self, panel: u32) -> u32
        requires { panel < length self.now.bags }
        ensures total { result ≡ length (bag_at self.now.bags panel) }
        ensures within { result ≤ room_at self.now panel }
        ensures in_order { IsInOrder (bag_at self.now.bags panel) }
    {
        self.bags[panel as usize].len()
    }

    /// The i-th vote of a panel in the order of choices. The caller owes that the panel is one of the record and has so
    /// many votes.
    pub fn vote(&self, panel: u32, i: u32) -> Choice
        requires panel { panel < length self.now.bags }
        requires vote { i < length (bag_at self.now.bags panel) }
        ensures { slice_get (bag_at self.now.bags panel) i ≡ Some result }
    {
        self.bags[panel as usize].get(i)
    }
}
