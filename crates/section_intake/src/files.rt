//! Files in a row.
ghost use Rattle.std.specs.Prelude.{◌≡◌, ◌+◌, ◌<◌, ◌^◌, [], ◌∷◌, ◌++◌, length, slice_get, IfOk, IsTrue, OnErr, OnOk, Some, ◌↔◌};

use std::alloc::Global;
use std::marker::Model;
use urna_base::Memory;

/// The bytes of files, which contracts see as their list.
#[derive(Drop)]
pub struct Files {
    items: Vec<Vec<u8>>,
}

impl Model for Files {
    ghost use Rattle.std.specs.Prelude.{◌<◌, ◌^◌, ℕ, List, length, map};

    ghost Value = { List (List ℕ) };

    ghost view = { λ f. map (λ file. file.items) f.items.items };

    ghost invariant = { λ f. length f.items.items < 2 ^ 32 };
}

impl Files {
    /// No files. The memory that so many of them want beside their bytes is taken here.
    pub(crate) fn with_room(alloc: Global, room: u32) -> Result<Files, Memory>
        ensures { IfOk result (λ f. f ≡ []) }
    {
        let items = Vec::with_capacity(alloc, room as usize)?;
        Ok(Files { items })
    }

    /// How many there are.
    pub(crate) fn len(&self) -> u32
        ensures { result ≡ length self.now }
    {
        self.items.len() as u32
    }

    /// Whether the file at a place has these bytes.
    pub(crate) fn is_at(&self, place: u32, bytes: &[u8]) -> bool
        requires { place < length self.now }
        ensures { IsTrue result ↔ slice_get self.now place ≡ Some bytes.now }
    {
        self.items[place as usize].as_slice() == bytes
    }

    /// A copy of a file more, behind the others. The caller owes that there are fewer than 2^32 - 1. `Memory` comes only where
    /// an allocation failed, and then nothing has changed.
    pub(crate) fn push(&mut self, alloc: Global, bytes: &[u8]) -> Result<(), Memory>
        requires { length self.old + 1 < 2 ^ 32 }
        ensures pushed { OnOk result (self.new ≡ self.old ++ bytes.now ∷ []) }
        ensures kept { OnErr result (self.new ≡ self.old) }
    {
        let copy = bytes.to_vec(alloc)?;
        self.items.push(copy)?;
        Ok(())
    }
}
