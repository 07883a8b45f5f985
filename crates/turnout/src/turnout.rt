ghost use Rattle.std.specs.Prelude.{◌≡◌, ◌<◌, ◌≤◌, true, false, length, replicate, slice_set, IfOk};
ghost use Rattle.turnout.specs.Turnout.{has_come, most_places, number_came};

use std::alloc::Global;
use std::marker::Model;
use urna_base::Memory;

/// Who came (docs/RULES.md, "The state of a poll"): a mark for each place of the roll, of which there are at most 600, and
/// the count of the marks. It has the memory for just these marks, from the start to the end. Contracts see the list of the
/// marks.
#[derive(Debug, Drop)]
pub struct Turnout {
    marks: Vec<bool>,
    count: u32,
}

impl Model for Turnout {
    ghost use Rattle.std.specs.Prelude.{List, Bool, vec_capacity};
    ghost use Rattle.turnout.specs.Turnout.{IsStored};

    ghost Value = { List Bool };

    ghost view = { λ t. t.marks.items };

    ghost invariant = { λ t. IsStored t.marks.items t.count (vec_capacity t.marks) };
}

impl Turnout {
    /// The turnout of a roll of this many voters, of whom nobody came. The caller owes that these are at most 600. All its
    /// memory is taken here; `Memory` comes only where an allocation failed.
    pub fn new(alloc: Global, voters: u32) -> Result<Turnout, Memory>
        requires { voters ≤ most_places }
        ensures { IfOk result (λ t. t ≡ replicate voters false) }
    {
        // one by one, since only these pushes tell that they take no memory more
        let mut marks = Vec::with_capacity(alloc, voters as usize)?;
        for _ in 0..voters {
            marks.push_reserved(false);
        }
        Ok(Turnout { marks, count: 0 })
    }

    /// Whether the voter of a place came. False for a place that the roll does not have.
    pub fn came(&self, place: u32) -> bool
        ensures { result ≡ has_come self.now place }
    {
        self.marks.get(place as usize).copied().unwrap_or(false)
    }

    /// Marks that the voter of a place came. It takes no memory. The caller owes that the place is one of the roll and has
    /// no mark yet.
    pub fn mark(&mut self, place: u32)
        requires known { place < length self.old }
        requires absent { has_come self.old place ≡ false }
        ensures { self.new ≡ slice_set self.old place true }
    {
        self.marks[place as usize] = true;
        self.count += 1;
    }

    /// How many came, in constant time.
    pub fn len(&self) -> u32
        ensures count { result ≡ number_came self.now }
        ensures within { result ≤ length self.now }
        ensures few { result ≤ most_places }
    {
        self.count
    }

    /// How many voters the roll has.
    pub fn voters(&self) -> u32
        ensures count { result ≡ length self.now }
        ensures few { result ≤ most_places }
    {
        self.marks.len() as u32
    }
}
