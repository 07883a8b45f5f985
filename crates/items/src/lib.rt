//! Lists whose length fits a u32.
//!
//! The layer above sees `Items` as its list. What a crate keeps in one has a name there: `pub type Counts = Items<Count>`.
#![tactic(auto)]

ghost use Rattle.std.specs.Prelude.{◌≡◌, ◌+◌, ◌<◌, ◌^◌, [], ◌∷◌, ◌++◌, length, slice_get, IfOk, OnErr, OnOk, Some};

use std::alloc::Global;
use std::marker::Model;
use urna_base::Memory;

/// Items in a row, fewer than 2^32, which contracts see as their list.
#[derive(Debug, Drop)]
pub struct Items<T> {
    items: Vec<T>,
}

impl<T> Model for Items<T> {
    ghost use Rattle.std.specs.Prelude.{◌<◌, ◌^◌, List, length};

    ghost Value = { List T };

    ghost view = { λ l. l.items.items };

    ghost invariant = { λ l. length l.items.items < 2 ^ 32 };
}

impl<T: Drop> Items<T> {
    /// None.
    pub fn new(alloc: Global) -> Items<T>
        ensures { result ≡ [] }
    {
        Items {
            items: Vec::new(alloc),
        }
    }

    /// None, with room for so many. `Memory` comes only where an allocation failed.
    pub fn with_room(alloc: Global, room: u32) -> Result<Items<T>, Memory>
        ensures { IfOk result (λ items. items ≡ []) }
    {
        Ok(Items {
            items: Vec::with_capacity(alloc, room as usize)?,
        })
    }

    /// One more, behind the others. The caller owes that there are fewer than 2^32 - 1. `Memory` comes only where an allocation failed, and
    /// then nothing has changed.
    pub fn push(&mut self, item: T) -> Result<(), Memory>
        requires { length self.old + 1 < 2 ^ 32 }
        ensures pushed { OnOk result (self.new ≡ self.old ++ item ∷ []) }
        ensures kept { OnErr result (self.new ≡ self.old) }
    {
        self.items.push(item)?;
        Ok(())
    }

    /// How many there are.
    pub fn len(&self) -> u32
        ensures { result ≡ length self.now }
    {
        self.items.len() as u32
    }

    /// The i-th, counted from 0.
    pub fn get(&self, i: u32) -> &T
        requires { i < length self.now }
        ensures { slice_get self.now i ≡ Some result.now }
    {
        &self.items[i as usize]
    }

    /// All of them.
    pub fn as_slice(&self) -> &[T]
        ensures items { result.now ≡ self.now }
        ensures few { length result.now < 2 ^ 32 }
    {
        self.items.as_slice()
    }
}
