//! A shelf that notes the names of the files that are put. It keeps the clauses of `Cabinet`, so a command can be given it. What it notes is
//! said by no clause; the scripts of `session_tests` show it.

ghost use Rattle.std.specs.Prelude.{◌≡◌};
ghost use Rattle.memory_outside.specs.Shelf.{shelf_told};

use crate::Shelf;
use std::alloc::Global;
use urna_outside::{Cabinet, CabinetError, Failed};

/// A shelf, the names of the files that were put on it, in their order, and whether one of these couldn't be noted.
#[derive(Drop)]
pub struct WatchedShelf {
    pub shelf: Shelf,
    alloc: Global,
    pub puts: Vec<String>,
    pub lost: bool,
}

impl WatchedShelf {
    /// A shelf on which nothing was put yet.
    pub fn new(alloc: Global, shelf: Shelf) -> WatchedShelf
        ensures { result.shelf ≡ shelf }
    {
        WatchedShelf {
            shelf,
            alloc,
            puts: Vec::new(alloc),
            lost: false,
        }
    }

    /// Notes a name behind the others, or that one is lost.
    fn note(&mut self, name: &str)
        ensures { self.new.shelf ≡ self.old.shelf }
    {
        let noted = match String::from_str(self.alloc, name) {
            Ok(name) => self.puts.push(name).is_ok(),
            Err(_) => false,
        };
        self.lost = self.lost || !noted;
    }
}

impl Cabinet for WatchedShelf {
    ghost told = { λ watched. shelf_told watched.shelf };

    fn take(&mut self, alloc: Global, name: &str, limit: u32) -> Result<Vec<u8>, CabinetError> {
        self.shelf.take(alloc, name, limit)
    }

    fn put(&mut self, name: &str, bytes: &[u8]) -> Result<(), Failed> {
        let put = self.shelf.put(name, bytes);
        if put.is_ok() {
            self.note(name);
        }
        put
    }
}
