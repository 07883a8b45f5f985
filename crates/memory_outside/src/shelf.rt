ghost use Rattle.std.specs.Prelude.{◌≡◌, ◌+◌, ◌≤◌, ◌↔◌, IfOk, IsOk, OnOk, OnErr, IsErrOf, IsTrue, MatchOption, Some, length, vec_len};
ghost use Rattle.std.specs.Option.{ForSome, option_map};
ghost use Rattle.urna_outside.specs.Told.{one_more};
ghost use Rattle.memory_outside.specs.Room.{room_after_one};
ghost use Rattle.urna_outside.specs.Cabinet.{CountsFault, CountsMissing, CountsTooLong, Holds, HoldsLonger, IsPut, Lacks, PutsInto};

use crate::items::Items;
use std::alloc::Global;
use urna_base::Memory;
use urna_outside::{Cabinet, CabinetError, Failed, TakeCounts};

/// For how many puts a shelf has room.
const MOST_PUTS: u32 = 64;

/// A cabinet in memory, which tells its files and the number of calls made.
#[derive(Drop)]
pub struct Shelf {
    alloc: Global,
    items: Items,
    failing: Vec<u32>,
    calls: u64,
    counts: TakeCounts,
}

impl Shelf {
    ghost use Rattle.memory_outside.specs.Shelf.{IsFailingNext, empty_shelf, failing_on, files_on, most_puts, shelf_room, shelf_told};

    /// An empty shelf, with reserved room for 64 puts whose names and bytes have together at most `room` bytes.
    ///
    /// The calls of `take` and `put` are numbered together from 0. One whose number is in `failing` fails and is counted,
    /// and so does a put that finds no room. No other call answers Failed, and one that does leaves the files and the room
    /// as they were.
    pub fn new(alloc: Global, room: u32, failing: &[u32]) -> Result<Shelf, Memory>
        ensures told { IfOk result (λ shelf. shelf_told shelf ≡ empty_shelf) }
        ensures room { IfOk result (λ shelf. shelf_room shelf ≡ record { ops = most_puts; bytes = room }) }
        ensures failing { IfOk result (λ shelf. failing_on shelf ≡ failing.now) }
    {
        Ok(Shelf {
            alloc,
            items: Items::new(alloc, MOST_PUTS, room)?,
            failing: failing.to_vec(alloc)?,
            calls: 0,
            counts: TakeCounts::new(),
        })
    }

    /// Places a file, in the stead of one of the same name. It takes memory of its own and none of the room, and
    /// is none of the numbered calls. Where memory is wanting the files are as they were.
    pub fn place(&mut self, name: &str, bytes: &[u8]) -> Result<(), Memory>
        ensures there { OnOk result (Holds name.now bytes.now (files_on self.new)) }
        ensures others { OnOk result (IsPut name.now (files_on self.old) (files_on self.new)) }
        ensures err { OnErr result (files_on self.new ≡ files_on self.old) }

        ensures told { shelf_told self.new ≡
            record (shelf_told self.old) { files = Some (files_on self.new) } }
        ensures room { shelf_room self.new ≡ shelf_room self.old }
        ensures failing { failing_on self.new ≡ failing_on self.old }
    {
        self.items.place(self.alloc, name, bytes)
    }

    /// The bytes of the file of that name, if there is one. It is none of the numbered calls.
    pub fn get(&self, name: &str) -> Option<&[u8]>
        ensures { MatchOption result (Lacks name.now (files_on self.now))
            (λ bytes. Holds name.now bytes.now (files_on self.now)) }
    {
        self.items.get(name)
    }

    /// Whether the next call is to fail.
    fn is_failing(&self) -> bool
        ensures { IsTrue result ↔ IsFailingNext self.now }
    {
        let next = self.calls;
        self.failing.iter().any(|number| u64::from(*number) == next)
    }

    /// A copy of a file, which neither counts nor changes anything.
    fn copy_of(&self, alloc: Global, name: &str, limit: u32) -> Result<Vec<u8>, CabinetError>
        ensures limit { IfOk result (λ bytes. vec_len bytes ≤ limit) }
        ensures bytes { IfOk result (λ bytes. Holds name.now bytes.items (files_on self.now)) }
        ensures fails { IsErrOf result CabinetError.Failed ↔ IsFailingNext self.now }
        ensures lacking { IsErrOf result CabinetError.Missing → Lacks name.now (files_on self.now) }
        ensures longer { IsErrOf result CabinetError.TooLong →
            HoldsLonger name.now limit (files_on self.now) }
    {
        if self.is_failing() {
            return Err(CabinetError::Failed);
        }
        let Some(bytes) = self.get(name) else {
            return Err(CabinetError::Missing);
        };
        if bytes.len() > limit as usize {
            return Err(CabinetError::TooLong);
        }
        match bytes.to_vec(alloc) {
            Ok(bytes) => Ok(bytes),
            Err(_) => Err(CabinetError::Memory),
        }
    }
}

impl Cabinet for Shelf {
    ghost use Rattle.memory_outside.specs.Shelf.{CanPut, IsFailingNext, failing_on, shelf_room, shelf_told};

    ghost told = { shelf_told };

    fn take(&mut self, alloc: Global, name: &str, limit: u32) -> Result<Vec<u8>, CabinetError>
        ensures ok { OnOk result ((shelf_told self.new).tally ≡ (shelf_told self.old).tally) }
        ensures limit { IfOk result (λ bytes. vec_len bytes ≤ limit) }
        ensures bytes { IfOk result
            (λ bytes. ForSome (shelf_told self.old).files (Holds name.now bytes.items)) }

        ensures memory { IsErrOf result CabinetError.Memory →
            (shelf_told self.new).tally ≡ (shelf_told self.old).tally }
        ensures failed { IsErrOf result CabinetError.Failed →
            CountsFault (shelf_told self.old).tally (shelf_told self.new).tally }

        ensures missing { IsErrOf result CabinetError.Missing →
            CountsMissing (shelf_told self.old).tally (shelf_told self.new).tally }
        ensures lacking { IsErrOf result CabinetError.Missing →
            ForSome (shelf_told self.old).files (Lacks name.now) }

        ensures too_long { IsErrOf result CabinetError.TooLong →
            CountsTooLong (shelf_told self.old).tally (shelf_told self.new).tally }
        ensures longer { IsErrOf result CabinetError.TooLong →
            ForSome (shelf_told self.old).files (HoldsLonger name.now limit) }

        ensures files { (shelf_told self.new).files ≡ (shelf_told self.old).files }
        ensures calls { (shelf_told self.new).calls ≡
            option_map one_more (shelf_told self.old).calls }

        // It fails exactly where it is told to.
        ensures fails { IsErrOf result CabinetError.Failed ↔ IsFailingNext self.old }
        ensures room { shelf_room self.new ≡ shelf_room self.old }
        ensures failing { failing_on self.new ≡ failing_on self.old }
    {
        let outcome = self.copy_of(alloc, name, limit);
        self.calls = self.calls.saturating_add(1);
        if let Err(error) = &outcome {
            self.counts.count(*error);
        }
        outcome
    }

    fn put(&mut self, name: &str, bytes: &[u8]) -> Result<(), Failed>
        ensures ok { OnOk result ((shelf_told self.new).tally ≡ (shelf_told self.old).tally) }
        ensures failed { OnErr result (CountsFault (shelf_told self.old).tally (shelf_told self.new).tally) }

        ensures there { OnOk result (ForSome (shelf_told self.new).files (Holds name.now bytes.now)) }
        ensures others { PutsInto name.now (shelf_told self.old).files (shelf_told self.new).files }
        ensures calls { (shelf_told self.new).calls ≡
            option_map one_more (shelf_told self.old).calls }

        // It fails exactly where it is told to and where it finds no room, and then it leaves files and room as they were.
        ensures can { IsOk result ↔ CanPut self.old (length name.now + length bytes.now) }
        ensures files_stay { OnErr result ((shelf_told self.new).files ≡ (shelf_told self.old).files) }

        ensures room { OnOk result (shelf_room self.new ≡
            room_after_one (length name.now + length bytes.now) (shelf_room self.old)) }
        ensures room_stays { OnErr result (shelf_room self.new ≡ shelf_room self.old) }
        ensures failing { failing_on self.new ≡ failing_on self.old }
    {
        let can_put = !self.is_failing() && self.items.has_room(name.len() + bytes.len());
        self.calls = self.calls.saturating_add(1);
        if can_put {
            self.items.put(name, bytes);
            Ok(())
        } else {
            self.counts.count(CabinetError::Failed);
            Err(Failed)
        }
    }
}
