//! The bag of one panel. The code has counters in fixed places: one for each choice of the panel, in the order of choices.
ghost use Rattle.std.specs.Prelude.{◌≡◌, ◌<◌, ◌≤◌, ◌+◌, [], length, IfOk, Some, slice_get};
ghost use Rattle.vote_kinds.specs.Ballot.{choices_of, line_of};
ghost use Rattle.vote_record.specs.Bag.{IsInOrder, count_of, with_choices};

use crate::counters::{Counter, count_in, member, new_counters, place_for, votes_at};
use election_tables::Tables;
use std::alloc::Global;
use std::marker::Model;
use urna_base::Memory;
use vote_kinds::Choice;

/// A bag of choices, with room for a number of members that is settled when it is made: all memory is taken then, and no
/// more later.
///
/// It takes a choice that is none of its panel's as well: a counter is put in for it, for which there is memory with each
/// member that there is room for. Contracts see what it has memory for, so no call takes more.
#[derive(Debug, Drop)]
pub struct Bag {
    // in the order of choices
    counters: Vec<Counter>,
    // how many members they count
    total: u32,
    room: u32,
}

impl Model for Bag {
    ghost use Rattle.std.specs.Prelude.{vec_capacity};
    ghost use Rattle.vote_record.specs.BagData.{AreStored, BagData, members_of};

    ghost Value = { BagData };

    ghost view = { λ b. record { members = members_of b.counters.items; room = b.room; memory = vec_capacity b.counters } };

    ghost invariant = { λ b. AreStored b.counters.items b.total b.room (vec_capacity b.counters) };
}

impl Bag {
    /// The empty bag of a panel, with a counter for each choice of the panel, and memory for as many counters more as it has room
    /// for members, and for some that are spare. All its memory is taken here.
    pub fn of_panel(
        alloc: Global,
        tables: &Tables,
        panel: u32,
        room: u32,
        spare: u32,
    ) -> Result<Bag, Memory>
        requires { panel < length tables.now.panels }
        ensures { IfOk result (λ b. b ≡ record { members = []; room = room; memory = length (choices_of (line_of tables.now panel)) + (room + spare) }) }
    {
        let more = room as usize + spare as usize;
        let counters = new_counters(alloc, tables, panel, more)?;
        Ok(Bag {
            counters,
            total: 0,
            room,
        })
    }

    /// How many members it has.
    pub fn len(&self) -> u32
        ensures count { result ≡ length self.now.members }
        ensures within { result ≤ self.now.room }
        ensures in_order { IsInOrder self.now.members }
    {
        self.total
    }

    /// How many members are this choice.
    pub fn count(&self, choice: Choice) -> u32
        ensures { result ≡ count_of choice self.now.members }
    {
        let place = place_for(&self.counters, choice);
        match votes_at(&self.counters, place, choice) {
            Some(votes) => votes,
            None => 0,
        }
    }

    /// The same number, looked for in this place of the counters first.
    pub fn count_near(&self, place: u32, choice: Choice) -> u32
        ensures { result ≡ count_of choice self.now.members }
    {
        match votes_at(&self.counters, place as usize, choice) {
            Some(votes) => votes,
            None => self.count(choice),
        }
    }

    /// The i-th member in the order of choices.
    pub fn get(&self, i: u32) -> Choice
        requires { i < length self.now.members }
        ensures { slice_get self.now.members i ≡ Some result }
    {
        member(&self.counters, i)
    }

    /// So many members more of a choice, whose counter is looked for in this place first. It takes no memory: what the bag has
    /// memory for stays as it is.
    pub fn add(&mut self, place: u32, choice: Choice, votes: u32)
        requires { length self.old.members + votes ≤ self.old.room }
        ensures { self.new ≡ record self.old { members = with_choices votes choice self.old.members } }
    {
        // There is memory for a counter more with a member more, and so none is put in for no members.
        if votes > 0 {
            count_in(&mut self.counters, place as usize, choice, votes);
            self.total += votes;
        }
    }
}
