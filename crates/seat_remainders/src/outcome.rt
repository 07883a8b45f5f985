//! What comes of a contest, and of a majority office. Contracts see each list as its list.
ghost use Rattle.std.specs.Prelude.{◌≡◌, ◌+◌, ◌<◌, ◌^◌, [], ◌∷◌, ◌++◌, length, map, IfOk, OnErr, OnOk, Some, slice_get};
ghost use Rattle.std.specs.List.Sorted.{IsPermutation, IsSorted};
ghost use Rattle.quotients.specs.Order.{average_cmp, parts_of};
ghost use Rattle.seat_remainders.specs.Sorted.{NeverDescend};

use items::Items;
use quotients::Average;
use std::alloc::Global;
use std::marker::Model;
use urna_base::Memory;

/// The seat of one round (art. 109): the phase of the round, which is 2 or 3, and the party that takes the seat.
#[derive(Clone, Copy, Debug, PartialEq, Eq)]
pub struct Award {
    pub phase: u8,
    pub party: u8,
}

/// Awards in the order of the rounds.
pub type Awards = Items<Award>;

/// Averages in order, which contracts see as the list of their parts.
#[derive(Debug, Drop)]
pub struct Averages {
    items: Vec<Average>,
}

impl Model for Averages {
    ghost use Rattle.std.specs.Prelude.{◌<◌, ◌^◌, List, length, map};
    ghost use Rattle.quotients.specs.Average.{AverageData};
    ghost use Rattle.quotients.specs.Order.{parts_of};

    ghost Value = { List AverageData };

    ghost view = { λ l. map parts_of l.items.items };

    ghost invariant = { λ l. length l.items.items < 2 ^ 32 };
}

impl Averages {
    /// No averages.
    pub fn new(alloc: Global) -> Averages
        ensures { result ≡ [] }
    {
        Averages {
            items: Vec::new(alloc),
        }
    }

    /// One average more, behind the others. The caller owes that there are fewer than 2^32 - 1. `Memory` comes only where an allocation
    /// failed, and then nothing has changed.
    pub fn push(&mut self, item: Average) -> Result<(), Memory>
        requires { length self.old + 1 < 2 ^ 32 }
        ensures pushed { OnOk result (self.new ≡ self.old ++ parts_of item ∷ []) }
        ensures kept { OnErr result (self.new ≡ self.old) }
    {
        self.items.push(item)?;
        Ok(())
    }

    /// How many there are.
    pub fn len(&self) -> u32
        ensures { result ≡ length self.now }
    {
        self.items.len() as u32
    }

    /// The i-th, counted from 0.
    pub fn get(&self, i: u32) -> &Average
        requires { i < length self.now }
        ensures { slice_get self.now i ≡ Some (parts_of result.now) }
    {
        &self.items[i as usize]
    }

    /// All of them, sorted. How many parties they are of decides which sort is used, and no answer rests on it. `Memory` comes only where
    /// an allocation failed.
    pub(crate) fn sorted(mut items: Vec<Average>, parties: usize) -> Result<Averages, Memory>
        requires { length items.items < 2 ^ 32 }
        ensures sorted { IfOk result (λ averages. NeverDescend averages) }
        ensures same { IfOk result (λ averages. IsPermutation (map parts_of items.items) averages) }
    {
        sort_averages(&mut items, parties)?;
        Ok(Averages { items })
    }
}

/// From so many averages a party on the stable sort is the quicker one.
const MANY_AVERAGES: usize = 64;

/// Sorts averages that stand party by party. Those of a party come in order, and the stable sort takes such a stretch as it is where it is
/// long; where they are short the unstable sort takes less time.
fn sort_averages(items: &mut Vec<Average>, parties: usize) -> Result<(), Memory>
    ensures same { IsPermutation items.old.items items.new.items }
    ensures sorted { OnOk result (IsSorted average_cmp items.new.items) }
{
    if items.len() / MANY_AVERAGES < parties {
        items.sort_unstable();
    } else {
        items.sort()?;
    }
    Ok(())
}

/// What a party has: its number, its valid votes, its quotient (art. 107) and its seats.
#[derive(Clone, Copy, Debug, PartialEq, Eq)]
pub struct PartySeats {
    pub number: u8,
    pub votes: u64,
    pub quotient: u64,
    pub seats: u32,
}

/// What each party has, in a row.
pub type PartySeatList = Items<PartySeats>;

/// Numbers of candidates in a row.
pub type Numbers = Items<u32>;

/// The seats of a contest: the electoral quotient, what each party has, rising by number, the awards of the rounds, the numbers of the
/// elected, party by party and within a party in the order of candidates, how many seats stay vacant, and the averages by which phase 2
/// gave its seats, in order.
#[derive(Debug, Drop)]
pub struct Seats {
    pub quotient: u64,
    pub parties: PartySeatList,
    pub awards: Awards,
    pub elected: Numbers,
    pub vacant: u32,
    pub averages: Averages,
}

/// What comes of a contest: its seats; or no quotient, for so few valid votes and so many seats; or a first phase that comes to more
/// seats than there are.
#[derive(Debug, Drop)]
pub enum Outcome {
    Seats(Seats),
    NoQuotient { valid: u64, seats: u32 },
    Over { first: u64, seats: u32 },
}

/// What comes of a majority office: a candidate is elected, by number; or two go to a second round, the first of them first; or there
/// are no votes.
#[derive(Clone, Copy, Debug, PartialEq, Eq)]
pub enum MajorityOutcome {
    Elected(u32),
    Runoff(u32, u32),
    Nobody,
}
