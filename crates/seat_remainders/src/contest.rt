//! What the law is applied to: a contest of parties for seats. Contracts see each list as its list.
ghost use Rattle.std.specs.Prelude.{◌≡◌, ◌+◌, ◌<◌, ◌^◌, [], ◌∷◌, ◌++◌, length, IfSome, OnErr, OnOk, Some, slice_get, slice_set};
ghost use Rattle.seat_remainders.specs.Contest.{joined_by};
ghost use Rattle.seat_remainders.specs.declared.contest.Contestant.{Contestant};
ghost use Rattle.std.proofs.Common.{rules};
ghost use Rattle.std.specs.Cmp.{partial_order_from_own_ties};
ghost use Rattle.std.specs.Cmp.Rules.{comparing};
ghost use Rattle.std.specs.Ordering.{nat_cmp, on, flip_args, then_cmp, as_partial_cmp};

use items::Items;
use std::alloc::Global;
use std::cmp::Ordering;
use std::marker::Model;
use urna_base::Memory;

/// A candidate: the number, the date of birth YYYYMMDD, and the nominal votes.
#[derive(Clone, Copy, Debug, PartialEq, Eq)]
pub struct Entry {
    pub number: u32,
    pub birth: u32,
    pub votes: u64,
}

/// The order of candidates (arts. 109, paragraph 1, and 110): more votes, of equal votes the older, of one day of birth the lower
/// number.
impl Ord for Entry {
    ghost cmp = { then_cmp (flip_args (on (λ c. c.votes) nat_cmp)) (then_cmp (on (λ c. c.birth) nat_cmp) (on (λ c. c.number) nat_cmp)) };

    ghost total = { Prim.search (comparing, rules) };

    ghost matches_partial_cmp = { Prim.search (comparing, rules) };

    ghost matches_eq = { Prim.search (comparing, rules) };

    fn cmp(&self, other: &Entry) -> Ordering {
        match other.votes.cmp(&self.votes) {
            Ordering::Equal => {
                let older = self.birth.cmp(&other.birth);
                older.then(self.number.cmp(&other.number))
            }
            unequal => unequal,
        }
    }
}

impl PartialOrd for Entry {
    ghost partial_cmp = { as_partial_cmp (then_cmp (flip_args (on (λ c. c.votes) nat_cmp)) (then_cmp (on (λ c. c.birth) nat_cmp) (on (λ c. c.number) nat_cmp))) };

    ghost laws = { partial_order_from_own_ties (Prim.search (comparing, rules)) (Prim.search (comparing, rules)) };

    fn partial_cmp(&self, other: &Entry) -> Option<Ordering> {
        Some(self.cmp(other))
    }
}

/// Candidates in a row.
pub type Entries = Items<Entry>;

/// A party: its number, its party votes, and its candidates. A federation is one party, with the candidates of all its parties.
#[derive(Debug, Drop)]
pub struct Contestant {
    pub number: u8,
    pub party_votes: u64,
    pub candidates: Entries,
}

/// Parties in a row, which contracts see as their list.
#[derive(Debug, Drop)]
pub struct Contestants {
    items: Vec<Contestant>,
}

impl Model for Contestants {
    ghost use Rattle.std.specs.Prelude.{◌<◌, ◌^◌, List, length};
    ghost use Rattle.seat_remainders.specs.declared.contest.Contestant.{Contestant};

    ghost Value = { List Contestant };

    ghost view = { λ l. l.items.items };

    ghost invariant = { λ l. length l.items.items < 2 ^ 32 };
}

impl Contestants {
    /// No parties.
    pub fn new(alloc: Global) -> Contestants
        ensures { result ≡ [] }
    {
        Contestants {
            items: Vec::new(alloc),
        }
    }

    /// One party more, behind the others. The caller owes that there are fewer than 2^32 - 1. `Memory` comes only where an allocation
    /// failed, and then nothing has changed.
    pub fn push(&mut self, item: Contestant) -> Result<(), Memory>
        requires { length self.old + 1 < 2 ^ 32 }
        ensures pushed { OnOk result (self.new ≡ self.old ++ item ∷ []) }
        ensures kept { OnErr result (self.new ≡ self.old) }
    {
        self.items.push(item)?;
        Ok(())
    }

    /// One candidate more of the i-th party, counted from 0, behind its others. The caller owes that there is such a party, and that it has
    /// fewer than 2^32 - 1 candidates. `Memory` comes only where an allocation failed, and then nothing has changed.
    pub fn push_candidate(&mut self, i: u32, item: Entry) -> Result<(), Memory>
        requires party { i < length self.old }
        requires room { IfSome (slice_get self.old i) (λ party. length party.candidates + 1 < 2 ^ 32) }
        ensures pushed { OnOk result ((party : Contestant) → slice_get self.old i ≡ Some party
            → self.new ≡ slice_set self.old i (joined_by item party)) }
        ensures kept { OnErr result (self.new ≡ self.old) }
    {
        self.items[i as usize].candidates.push(item)
    }

    /// How many there are.
    pub fn len(&self) -> u32
        ensures { result ≡ length self.now }
    {
        self.items.len() as u32
    }

    /// The i-th, counted from 0.
    pub fn get(&self, i: u32) -> &Contestant
        requires { i < length self.now }
        ensures { slice_get self.now i ≡ Some result.now }
    {
        &self.items[i as usize]
    }

    /// All of them.
    pub fn as_slice(&self) -> &[Contestant]
        ensures items { result.now ≡ self.now }
        ensures few { length result.now < 2 ^ 32 }
    {
        self.items.as_slice()
    }
}

/// A proportional office: its seats, and its parties, rising by number.
#[derive(Debug, Drop)]
pub struct Contest {
    pub seats: u32,
    pub parties: Contestants,
}
