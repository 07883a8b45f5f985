//! Files in memory, with room for those that are put, which is reserved beforehand.
ghost use Rattle.std.specs.Prelude.{◌≡◌, ◌+◌, ◌≤◌, ◌∷◌, [], ◌↔◌, All, IfNone, IfOk, IfSome, IsTrue, MatchOption, OnErr, OnOk, length, vec_capacity, vec_len};
ghost use Rattle.urna_outside.specs.Cabinet.{Holds, IsPut, Lacks};
ghost use Rattle.memory_outside.specs.Item.{end_in_row};
ghost use Rattle.memory_outside.specs.Room.{HasRoom, room_after_one};

use crate::item::Item;
use std::alloc::{AllocError, Global};
use urna_base::Memory;

#[derive(Drop)]
pub(crate) struct Items {
    // Of a name that stands twice the first counts.
    items: Vec<Item>,
    // The names and bytes of the files that were put.
    row: Vec<u8>,
    puts_left: u32,
    bytes_left: u32,
    ghost puts_reserved: { vec_len items + puts_left ≤ vec_capacity items },
    ghost bytes_reserved: { vec_len row + bytes_left ≤ vec_capacity row },
    ghost within: { All (λ item. end_in_row item ≤ length row.items) items.items },
}

impl Items {
    ghost use Rattle.memory_outside.specs.Item.{IsFirstNamed};
    ghost use Rattle.memory_outside.specs.Items.{files_in, room_in};

    /// No items, with room for so many puts, whose names and bytes are at most so many bytes together.
    pub(crate) fn new(alloc: Global, puts: u32, bytes: u32) -> Result<Items, AllocError>
        ensures empty { IfOk result (λ items. files_in items ≡ []) }
        ensures room { IfOk result (λ items. room_in items ≡ record { ops = puts; bytes = bytes }) }
    {
        Ok(Items {
            items: Vec::with_capacity(alloc, puts as usize)?,
            row: Vec::with_capacity(alloc, bytes as usize)?,
            puts_left: puts,
            bytes_left: bytes,
        })
    }

    /// The first place with that name, if there is one.
    fn place_of(&self, name: &str) -> Option<usize>
        ensures found { IfSome result (IsFirstNamed self.now.row.items name.now self.now.items.items) }
        ensures none { IfNone result (Lacks name.now (files_in self.now)) }
    {
        for (at, item) in self.items.iter().enumerate() {
            if item.is_named(&self.row, name) {
                return Some(at);
            }
        }
        None
    }

    /// The bytes of the file of that name, if it is there.
    pub(crate) fn get(&self, name: &str) -> Option<&[u8]>
        ensures { MatchOption result (Lacks name.now (files_in self.now))
            (λ bytes. Holds name.now bytes.now (files_in self.now)) }
    {
        match self.place_of(name) {
            Some(at) => Some(self.items[at].bytes(&self.row)),
            None => None,
        }
    }

    /// Places a file, in the stead of one of that name, in memory of its own.
    pub(crate) fn place(&mut self, alloc: Global, name: &str, bytes: &[u8]) -> Result<(), Memory>
        ensures there { OnOk result (Holds name.now bytes.now (files_in self.new)) }
        ensures others { OnOk result (IsPut name.now (files_in self.old) (files_in self.new)) }
        ensures err { OnErr result (files_in self.new ≡ files_in self.old) }
        ensures room { room_in self.new ≡ room_in self.old }
    {
        let at = self.place_of(name);
        let name = String::from_str(alloc, name)?;
        let bytes = bytes.to_vec(alloc)?;
        let placed = Item::Placed { name, bytes };
        match at {
            Some(at) => self.items[at] = placed,
            None => {
                self.items.reserve(self.puts_left as usize + 1)?;
                self.items.insert(0, placed).unwrap();
            }
        }
        Ok(())
    }

    /// Whether one more put with so many bytes of name and file has room.
    pub(crate) fn has_room(&self, bytes: usize) -> bool
        ensures { IsTrue result ↔ HasRoom (room_in self.now) bytes }
    {
        0 < self.puts_left && bytes <= self.bytes_left as usize
    }

    /// Puts a file, for which there is room, before all others.
    pub(crate) fn put(&mut self, name: &str, bytes: &[u8])
        requires { HasRoom (room_in self.old) (length name.now + length bytes.now) }
        ensures files { files_in self.new ≡ record { name = name.now; bytes = bytes.now } ∷ files_in self.old }
        ensures room { room_in self.new ≡ room_after_one (length name.now + length bytes.now) (room_in self.old) }
    {
        let start = self.row.len();
        let name_len = name.len();
        let len = bytes.len();
        let item = Item::Put {
            start,
            name_len,
            len,
        };
        self.row.extend_from_slice(name.as_bytes()).unwrap();
        self.row.extend_from_slice(bytes).unwrap();
        self.items.insert(0, item).unwrap();
        self.puts_left -= 1;
        self.bytes_left -= (name_len + len) as u32;
    }
}
