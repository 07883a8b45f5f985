ghost use Rattle.std.specs.Prelude.{◌≡◌, ◌+◌, ◌^◌, ◌<◌, ◌≤◌, ◌∷◌, [], ◌↔◌, length, IfOk, IsOk, IsTrue, OnOk, OnErr, Some};
ghost use Rattle.std.specs.Option.{ForSome};
ghost use Rattle.urna_outside.specs.Flash.{IsImage, Put, Show, Sync, flash_of, part};
ghost use Rattle.memory_outside.specs.Room.{HasRoom, room_after};
ghost use Rattle.urna_outside.specs.Started.{blank_flashes, clean_flashes, started_told};
ghost use Rattle.memory_outside.specs.Tear.{torn};
ghost use Rattle.urna_outside.specs.Told.{Counts, Does, Runs, IsCalled, IsTornPut, IsTornShow, faults_after, port_of, size_of};
ghost use Rattle.urna_outside.specs.declared.device.Dev.{Dev};
ghost use Rattle.urna_outside.specs.declared.device.Port.TheVariants.{Display};

use crate::Tear;
use crate::call_counts::CallCounts;
use crate::chips::Chips;
use crate::replay::replay;
use crate::tape::Tape;
use std::alloc::Global;
use urna_base::Memory;
use urna_outside::{Dev, Failed, FaultCounts, Machine, Port};

/// A machine in memory that tells everything and fails at the calls that it is told to fail at.
#[derive(Drop)]
pub struct Recorder {
    chips: Chips,
    tape: Tape,
    failing: Vec<u32>,
    faults: FaultCounts,
    calls: CallCounts,
    ghost internal_size: { length chips.internal.bytes.items ≡ length tape.internal.items },
    ghost external_size: { length chips.external.bytes.items ≡ length tape.internal.items },
}

impl Recorder {
    ghost use Rattle.memory_outside.specs.Recorder.{IsNextFailing, failing_calls, flash_after, flashes_of, recorder_told, room_left, started_from, torn_put, torn_show, trail_of};

    /// Two devices of `size` zeros, and reserved room for `ops` operations and `bytes` bytes of trail and display. The
    /// bytes of each operation count once.
    ///
    /// The calls of read, write, sync and show are numbered from 0. One whose number is in `failing`, or that
    /// finds no room, fails and is counted at its port; a read needs no room. A failing write puts the first half of
    /// its bytes and a failing show shows it, as far as there is room; a failing read or sync does nothing.
    pub fn new(
        alloc: Global,
        size: u32,
        ops: u32,
        bytes: u32,
        failing: &[u32],
    ) -> Result<Recorder, Memory>
        ensures told { IfOk result (λ r. recorder_told r ≡ started_told size (blank_flashes size)) }
        ensures started { IfOk result (λ r. started_from r ≡ blank_flashes size) }
        ensures room { IfOk result (λ r. room_left r ≡ record { ops = ops; bytes = bytes }) }
        ensures failing { IfOk result (λ r. failing_calls r ≡ failing.now) }
    {
        let internal = vec![in alloc; 0; size as usize]?;
        let external = vec![in alloc; 0; size as usize]?;
        Recorder::over(alloc, internal, external, ops, bytes, failing)
    }

    /// The same over two images: a machine that is started again, nothing dirty.
    ///
    /// The caller owes that the images are equally long, and shorter than 2^31 bytes.
    pub fn restart(
        alloc: Global,
        internal: Vec<u8>,
        external: Vec<u8>,
        ops: u32,
        bytes: u32,
        failing: &[u32],
    ) -> Result<Recorder, Memory>
        requires same_size { length external.items ≡ length internal.items }
        requires bounded { length internal.items < 2 ^ 31 }
        ensures told { IfOk result (λ r. recorder_told r ≡
            started_told (length internal.items) (clean_flashes internal.items external.items)) }
        ensures started { IfOk result (λ r. started_from r ≡ clean_flashes internal.items external.items) }
        ensures room { IfOk result (λ r. room_left r ≡ record { ops = ops; bytes = bytes }) }
        ensures failing { IfOk result (λ r. failing_calls r ≡ failing.now) }
    {
        Recorder::over(alloc, internal, external, ops, bytes, failing)
    }

    fn over(
        alloc: Global,
        internal: Vec<u8>,
        external: Vec<u8>,
        ops: u32,
        bytes: u32,
        failing: &[u32],
    ) -> Result<Recorder, Memory>
        requires same_size { length external.items ≡ length internal.items }
        requires bounded { length internal.items < 2 ^ 32 }
        ensures told { IfOk result (λ r. recorder_told r ≡
            started_told (length internal.items) (clean_flashes internal.items external.items)) }
        ensures started { IfOk result (λ r. started_from r ≡ clean_flashes internal.items external.items) }
        ensures room { IfOk result (λ r. room_left r ≡ record { ops = ops; bytes = bytes }) }
        ensures failing { IfOk result (λ r. failing_calls r ≡ failing.now) }
    {
        let internal_start = internal.to_vec(alloc)?;
        let external_start = external.to_vec(alloc)?;
        Ok(Recorder {
            chips: Chips::new(alloc, internal, external)?,
            tape: Tape::new(alloc, internal_start, external_start, ops, bytes)?,
            failing: failing.to_vec(alloc)?,
            faults: FaultCounts::new(),
            calls: CallCounts::new(),
        })
    }

    /// The image of a device after the first `ops` operations of the trail, that is, of all since `new` or `restart`.
    ///
    /// The caller owes that the trail has as many.
    pub fn stop(&self, alloc: Global, dev: Dev, ops: u32, tear: Tear) -> Result<Vec<u8>, Memory>
        requires { ops ≤ length (trail_of self.now) }
        ensures torn { IfOk result (λ image. image.items ≡ torn tear (flash_after self.now dev ops)) }
        ensures possible { IfOk result (λ image. IsImage (flash_after self.now dev ops) image.items) }
    {
        let chip = replay(alloc, &self.tape, dev, ops)?;
        Ok(chip.image(alloc, tear)?)
    }

    /// What the display has shown.
    pub fn shown(&self) -> &[u8]
        ensures { (recorder_told self.now).shown ≡ Some result.now }
    {
        self.tape.shown()
    }

    /// What reads of a device give.
    pub fn content(&self, dev: Dev) -> &[u8]
        ensures { result.now ≡ (flash_of dev (flashes_of self.now)).content }
    {
        self.chips.content(dev)
    }

    /// How many operations the trail has.
    pub fn trail_len(&self) -> u32
        ensures { result ≡ length (trail_of self.now) }
    {
        self.tape.len()
    }

    /// Whether the next call is to fail.
    fn is_failing(&self) -> bool
        ensures { IsTrue result ↔ IsNextFailing self.now }
    {
        let next = self.calls.next();
        self.failing.iter().any(|number| u64::from(*number) == next)
    }

    /// Puts bytes for which there is room.
    fn put(&mut self, dev: Dev, at: u32, bytes: &[u8])
        requires within { at + length bytes.now ≤ size_of dev (recorder_told self.old).sizes }
        requires room { HasRoom (room_left self.old) (length bytes.now) }
        ensures done { Does (Put dev at bytes.now ∷ []) (recorder_told self.old) (recorder_told self.new) }
        ensures room { room_left self.new ≡ room_after (Put dev at bytes.now ∷ []) (room_left self.old) }
        ensures failing { failing_calls self.new ≡ failing_calls self.old }
        ensures started { started_from self.new ≡ started_from self.old }
        ensures faults { (recorder_told self.new).faults ≡ (recorder_told self.old).faults }
        ensures calls { (recorder_told self.new).calls ≡ (recorder_told self.old).calls }
    {
        self.chips.put(dev, at, bytes);
        self.tape.keep_put(dev, at, bytes);
    }

    /// Puts what a write that fails puts.
    fn put_torn(&mut self, dev: Dev, at: u32, bytes: &[u8])
        requires { at + length bytes.now ≤ size_of dev (recorder_told self.old).sizes }
        ensures done { Does (torn_put self.old dev at bytes.now) (recorder_told self.old) (recorder_told self.new) }
        ensures room { room_left self.new ≡ room_after (torn_put self.old dev at bytes.now) (room_left self.old) }
        ensures failing { failing_calls self.new ≡ failing_calls self.old }
        ensures started { started_from self.new ≡ started_from self.old }
        ensures faults { (recorder_told self.new).faults ≡ (recorder_told self.old).faults }
        ensures calls { (recorder_told self.new).calls ≡ (recorder_told self.old).calls }
    {
        let len = self.tape.torn_length(bytes.len());
        if len > 0 {
            self.put(dev, at, &bytes[..len]);
        }
    }

    /// Shows what a show that fails shows.
    fn show_torn(&mut self, bytes: &[u8])
        ensures done { Does (torn_show self.old bytes.now) (recorder_told self.old) (recorder_told self.new) }
        ensures room { room_left self.new ≡ room_after (torn_show self.old bytes.now) (room_left self.old) }
        ensures failing { failing_calls self.new ≡ failing_calls self.old }
        ensures started { started_from self.new ≡ started_from self.old }
        ensures faults { (recorder_told self.new).faults ≡ (recorder_told self.old).faults }
        ensures calls { (recorder_told self.new).calls ≡ (recorder_told self.old).calls }
    {
        let len = self.tape.torn_length(bytes.len());
        if len > 0 {
            self.tape.keep_show(&bytes[..len]);
        }
    }
}

impl Machine for Recorder {
    ghost use Rattle.memory_outside.specs.Recorder.{CanKeep, IsNextFailing, failing_calls, recorder_told, room_left, started_from, torn_put, torn_show};
    ghost use Rattle.memory_outside.specs.MachineLaws.{recorder_sized, recorder_bounded};

    ghost told = { recorder_told };

    ghost sized = { recorder_sized };

    ghost bounded = { recorder_bounded };

    fn size(&self, dev: Dev) -> u32 {
        self.chips.len(dev)
    }

    fn read(&mut self, dev: Dev, at: u32, into: &mut [u8]) -> Result<(), Failed>
        requires { at + length into.old ≤ size_of dev (recorder_told self.old).sizes }
        ensures ok { OnOk result (ForSome (recorder_told self.old).flashes
            (λ flashes. into.new ≡ part (flash_of dev flashes).content at (length into.old))) }
        ensures done { Does [] (recorder_told self.old) (recorder_told self.new) }
        ensures counts { Counts (port_of dev) result (recorder_told self.old).faults (recorder_told self.new).faults }
        ensures calls { IsCalled result (recorder_told self.old) (recorder_told self.new) }

        // When it fails, what it gives then, and what is left.
        ensures succeeds { IsOk result ↔ (¬ IsNextFailing self.old) }
        ensures untouched { OnErr result (into.new ≡ into.old) }
        ensures fault { OnErr result
            ((recorder_told self.new).faults ≡ faults_after (port_of dev) (recorder_told self.old).faults) }
        ensures room { room_left self.new ≡ room_left self.old }
        ensures failing { failing_calls self.new ≡ failing_calls self.old }
        ensures started { started_from self.new ≡ started_from self.old }
    {
        let reads = !self.is_failing();
        self.calls.count(reads);
        if !reads {
            return self.faults.fail(Port::from(dev));
        }
        self.chips.read(dev, at, into);
        Ok(())
    }

    fn write(&mut self, dev: Dev, at: u32, bytes: &[u8]) -> Result<(), Failed>
        requires { at + length bytes.now ≤ size_of dev (recorder_told self.old).sizes }
        ensures ok { OnOk result
            (Does (Put dev at bytes.now ∷ []) (recorder_told self.old) (recorder_told self.new)) }
        ensures torn { OnErr result
            (Runs (IsTornPut dev at (length bytes.now)) (recorder_told self.old) (recorder_told self.new)) }
        ensures counts { Counts (port_of dev) result (recorder_told self.old).faults (recorder_told self.new).faults }
        ensures calls { IsCalled result (recorder_told self.old) (recorder_told self.new) }

        // When it fails, what it puts then, and what is left.
        ensures succeeds { IsOk result ↔ CanKeep self.old (length bytes.now) }
        ensures half { OnErr result
            (Does (torn_put self.old dev at bytes.now) (recorder_told self.old) (recorder_told self.new)) }
        ensures fault { OnErr result
            ((recorder_told self.new).faults ≡ faults_after (port_of dev) (recorder_told self.old).faults) }
        ensures room { OnOk result
            (room_left self.new ≡ room_after (Put dev at bytes.now ∷ []) (room_left self.old)) }
        ensures room_torn { OnErr result
            (room_left self.new ≡ room_after (torn_put self.old dev at bytes.now) (room_left self.old)) }
        ensures failing { failing_calls self.new ≡ failing_calls self.old }
        ensures started { started_from self.new ≡ started_from self.old }
    {
        let writes = !self.is_failing() && self.tape.has_room(bytes.len());
        self.calls.count(writes);
        if !writes {
            self.put_torn(dev, at, bytes);
            return self.faults.fail(Port::from(dev));
        }
        self.put(dev, at, bytes);
        Ok(())
    }

    fn sync(&mut self, dev: Dev) -> Result<(), Failed>
        ensures ok { OnOk result (Does (Sync dev ∷ []) (recorder_told self.old) (recorder_told self.new)) }
        ensures err { OnErr result (Does [] (recorder_told self.old) (recorder_told self.new)) }
        ensures counts { Counts (port_of dev) result (recorder_told self.old).faults (recorder_told self.new).faults }
        ensures calls { IsCalled result (recorder_told self.old) (recorder_told self.new) }

        // When it fails, and what is left.
        ensures succeeds { IsOk result ↔ CanKeep self.old 0 }
        ensures fault { OnErr result
            ((recorder_told self.new).faults ≡ faults_after (port_of dev) (recorder_told self.old).faults) }
        ensures room { OnOk result (room_left self.new ≡ room_after (Sync dev ∷ []) (room_left self.old)) }
        ensures room_failed { OnErr result (room_left self.new ≡ room_left self.old) }
        ensures failing { failing_calls self.new ≡ failing_calls self.old }
        ensures started { started_from self.new ≡ started_from self.old }
    {
        let syncs = !self.is_failing() && self.tape.has_room(0);
        self.calls.count(syncs);
        if !syncs {
            return self.faults.fail(Port::from(dev));
        }
        self.chips.sync(dev);
        self.tape.keep_sync(dev);
        Ok(())
    }

    fn show(&mut self, bytes: &[u8]) -> Result<(), Failed>
        ensures ok { OnOk result
            (Does (Show bytes.now ∷ []) (recorder_told self.old) (recorder_told self.new)) }
        ensures torn { OnErr result
            (Runs (IsTornShow bytes.now) (recorder_told self.old) (recorder_told self.new)) }
        ensures counts { Counts Display result (recorder_told self.old).faults (recorder_told self.new).faults }
        ensures calls { IsCalled result (recorder_told self.old) (recorder_told self.new) }

        // When it fails, what it shows then, and what is left.
        ensures succeeds { IsOk result ↔ CanKeep self.old (length bytes.now) }
        ensures half { OnErr result
            (Does (torn_show self.old bytes.now) (recorder_told self.old) (recorder_told self.new)) }
        ensures fault { OnErr result
            ((recorder_told self.new).faults ≡ faults_after Display (recorder_told self.old).faults) }
        ensures room { OnOk result
            (room_left self.new ≡ room_after (Show bytes.now ∷ []) (room_left self.old)) }
        ensures room_torn { OnErr result
            (room_left self.new ≡ room_after (torn_show self.old bytes.now) (room_left self.old)) }
        ensures failing { failing_calls self.new ≡ failing_calls self.old }
        ensures started { started_from self.new ≡ started_from self.old }
    {
        let shows = !self.is_failing() && self.tape.has_room(bytes.len());
        self.calls.count(shows);
        if !shows {
            self.show_torn(bytes);
            return self.faults.fail(Port::Display);
        }
        self.tape.keep_show(bytes);
        Ok(())
    }
}
