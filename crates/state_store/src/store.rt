//! The state of a poll on two flashes.
ghost use Rattle.std.specs.Prelude.{◌≡◌, ◌++◌, List, length, IfOk, IfErr, OnOk};
ghost use Rattle.std.specs.Option.{ForSome};
ghost use Rattle.urna_outside.specs.Faults.{FailsAt, IsFaultless};
ghost use Rattle.urna_outside.specs.Flash.{Op};
ghost use Rattle.urna_outside.specs.Told.{Runs, port_of};
ghost use Rattle.gate_slot.specs.Front.{RunsUpTo};
ghost use Rattle.twin_image.specs.Rewrite.{PutsAtMost};
ghost use Rattle.image_codec.specs.Encoding.{IsStateOf};
ghost use Rattle.image_codec.specs.State.{State};
ghost use Rattle.image_codec.specs.Valid.{ready_state};
ghost use Rattle.flash_store.specs.Calls.{Commits};
ghost use Rattle.flash_store.specs.Syncs.{IsSynced, both_synced};
ghost use Rattle.state_store.specs.Calls.{AreFound, FailsToLoad, FailsToPeek, FailsToRecover, IsRecovery, Loads, Recovers};
ghost use Rattle.state_store.specs.Held.{poll};
ghost use Rattle.state_store.specs.Cost.{commit_bytes};
ghost use Rattle.state_store.specs.Load.{IsSectionOf, load_of};
ghost use Rattle.state_store.specs.Order.{IsCommit, IsLoad};
ghost use Rattle.state_store.specs.Store.{AreDevices, IsBelow, IsLoadedWith, Keeps};

use crate::find::find;
use crate::in_use::test_free;
use crate::load::Load;
use crate::ranks::Ranks;
use crate::room::Room;
use crate::version::bring_up;
use election_tables::{Roll, Section, Tables};
use flash_store::sync_both;
use image_codec::{BODY_SIZE, State, encode_into};
use std::alloc::Global;
use std::marker::Model;
use twin_image::Level;
use urna_outside::{Dev, Machine};

/// Why a poll was not found on the flashes.
#[derive(Clone, Copy, Debug, PartialEq, Eq)]
pub enum StoreError {
    /// Want of memory. Nothing was done.
    Memory,
    /// The device failed, and its count of faults rose.
    Flash(Dev),
    /// The device has not the frame of a load of these tables and this roll.
    Foreign(Dev),
    /// No slot stands.
    NoImage,
}

/// Why the flashes were not loaded.
#[derive(Clone, Copy, Debug, PartialEq, Eq)]
pub enum LoadError {
    /// Want of memory. Nothing was done.
    Memory,
    /// The device failed, and its count of faults rose.
    Flash(Dev),
    /// The device is in use.
    Busy(Dev),
}

/// A poll that both flashes keep. Contracts see the load and the body of the slots.
#[derive(Drop)]
pub struct Store {
    load: Load,
    level: Level<BODY_SIZE>,
    // where the next body is written, with memory for just that
    next: Vec<u8>,
}

impl Model for Store {
    ghost use Rattle.std.specs.Prelude.{vec_capacity};
    ghost use Rattle.state_store.specs.Store.{StoreData, IsBuffer};
    ghost use Rattle.twin_image.specs.Level.{HasTokens, body_of};

    ghost Value = { StoreData };

    ghost view = { λ s. record { load = s.load; body = body_of s.level } };

    ghost invariant = { λ s. IsBuffer s.next.items (vec_capacity s.next) × HasTokens s.level };
}

impl Store {
    /// Loads both flashes with the poll of a section before it begins: headers, zeros behind the gates, open gates and the
    /// ready state in all four slots. It takes its memory, syncs both devices and tests whether one is in use, Internal
    /// first, before it writes. No device is in use at any stop behind the syncs. The order of all that is done is that of
    /// `IsLoad`, up to a fault a front of it.
    ///
    /// The caller owes that both devices have the size of a flash, and that the section is one of the tables with as many
    /// voters as the roll. `Memory` comes where an allocation failed, before any call of the machine; `Busy` where that
    /// device is in use, and nothing was written; `Flash` only where that device's count of faults rose.
    pub fn format<M: Machine>(
        alloc: Global,
        tables: &Tables,
        roll: &Roll,
        section: Section,
        m: &mut M,
    ) -> Result<Store, LoadError>
        requires devices { AreDevices (M.told m.old).sizes }
        requires section { IsSectionOf tables.now roll.now section }
        ensures store { IfOk result (λ store. store.load ≡ load_of tables.now roll.now section) }
        ensures kept { IfOk result (λ store. Keeps tables.now (M.told m.new) store (ready_state tables.now (length roll.now.titles))) }
        ensures ran { OnOk result (Runs (λ ops. (rest : List Op) × (ops ≡ both_synced ++ rest) × Loads (M.told m.old) rest) (M.told m.old) (M.told m.new)) }
        ensures order { ForSome (M.told m.old).flashes (λ start. RunsUpTo result
            (IsLoad tables.now (load_of tables.now roll.now section) (ready_state tables.now (length roll.now.titles)) start) (M.told m.old) (M.told m.new)) }
        ensures fine { OnOk result (IsFaultless (M.told m.old) (M.told m.new)) }
        ensures fails { IfErr result (FailsToLoad (M.told m.old) (M.told m.new)) }
    {
        let Ok(room) = Room::new(alloc, tables, roll.len()) else {
            return Err(LoadError::Memory);
        };
        if let Err(dev) = sync_both(m) {
            return Err(LoadError::Flash(dev));
        }
        test_free(m)?;
        let Room {
            twin,
            state,
            mut next,
        } = room;
        encode_into(&state, tables, &mut next);
        let load = Load::of(tables, roll, section);
        let internal = load.header(Dev::Internal);
        let external = load.header(Dev::External);
        match twin.lay(m, &internal, &external, &next) {
            Ok(level) => Ok(Store { load, level, next }),
            Err(dev) => Err(LoadError::Flash(dev)),
        }
    }

    /// The poll that both flashes keep, whatever a power cut left of them. It takes its memory, syncs both devices, looks
    /// at the frames and the slots, and heals the slots that don't stand with the held body, and no other. Where that body is
    /// an encoding of version 1, all four slots are then brought to that of version 2. All this is done in that order, the
    /// internal device first; where a device fails, the first operations of it were done, and of the next one a part or
    /// nothing. Both flashes hold the state at each stop behind the syncs. No frame is written.
    ///
    /// The caller owes that both devices have the size of a flash. `Memory` comes where an allocation failed, before any
    /// call of the machine; `Foreign(Internal)` where the internal frame is that of no section of the tables with as many
    /// voters as the roll, `Foreign(External)` where the external one isn't that of the same section; `NoImage` where no
    /// slot stands; `Flash` only where that device's count of faults rose.
    pub fn recover<M: Machine>(
        alloc: Global,
        tables: &Tables,
        roll: &Roll,
        m: &mut M,
    ) -> Result<(Store, State), StoreError>
        requires devices { AreDevices (M.told m.old).sizes }
        ensures loaded { IfOk result (λ found. IsLoadedWith tables.now roll.now found.0.load) }
        ensures kept { IfOk result (λ found. Keeps tables.now (M.told m.new) found.0 found.1) }
        ensures ran { IfOk result (λ found. Runs (λ ops. (rest : List Op) × (ops ≡ both_synced ++ rest)
            × Recovers tables.now roll.now found.0.load.section found.1 (M.told m.old) rest) (M.told m.old) (M.told m.new)) }
        ensures exact { IfOk result (λ found. ForSome (M.told m.old).flashes (λ start. Runs (IsRecovery tables.now (length roll.now.titles) found.1 start) (M.told m.old) (M.told m.new))) }
        ensures fine { OnOk result (IsFaultless (M.told m.old) (M.told m.new)) }
        ensures fails { IfErr result (FailsToRecover tables.now roll.now (M.told m.old) (M.told m.new)) }
    {
        let Ok(room) = Room::new(alloc, tables, roll.len()) else {
            return Err(StoreError::Memory);
        };
        if let Err(dev) = sync_both(m) {
            return Err(StoreError::Flash(dev));
        }
        let Room {
            twin,
            mut state,
            mut next,
        } = room;
        let (section, found) = find(tables, roll, twin, m)?;
        let level = match found.heal(m) {
            Ok(level) => level,
            Err(dev) => return Err(StoreError::Flash(dev)),
        };
        // it has a rank, so it is the encoding of a state
        let loaded = state.load(tables, level.body());
        prove!(loaded);
        let level = match bring_up(m, tables, &state, level, &mut next) {
            Ok(level) => level,
            Err(dev) => return Err(StoreError::Flash(dev)),
        };
        let load = Load::of(tables, roll, section);
        Ok((Store { load, level, next }, state))
    }

    /// The section whose poll the flashes hold, and its state: the held state of both. It takes its memory, syncs both devices, looks
    /// at the frames and the slots, and writes nothing: slots that don't stand are left as they are.
    ///
    /// The caller owes that both devices have the size of a flash. The errors come as those of `recover`.
    pub fn peek<M: Machine>(
        alloc: Global,
        tables: &Tables,
        roll: &Roll,
        m: &mut M,
    ) -> Result<(Section, State), StoreError>
        requires devices { AreDevices (M.told m.old).sizes }
        ensures section { IfOk result (λ found. IsSectionOf tables.now roll.now found.0) }
        ensures state { IfOk result (λ found. IsStateOf tables.now found.0.voters found.1) }
        ensures found { IfOk result (λ found. ForSome (M.told m.old).flashes (AreFound tables.now roll.now found.0 found.1)) }
        ensures synced { OnOk result (IsSynced (M.told m.old) (M.told m.new)) }
        ensures fails { IfErr result (FailsToPeek tables.now roll.now (M.told m.old) (M.told m.new)) }
    {
        let Ok(room) = Room::new(alloc, tables, roll.len()) else {
            return Err(StoreError::Memory);
        };
        if let Err(dev) = sync_both(m) {
            return Err(StoreError::Flash(dev));
        }
        let Room {
            twin,
            mut state,
            ..
        } = room;
        let (section, found) = find(tables, roll, twin, m)?;
        // it has a rank, so it is the encoding of a state
        let loaded = state.load(tables, found.body());
        prove!(loaded);
        Ok((section, state))
    }

    /// Brings both flashes to a state of greater rank. At each stop both flashes, and each alone, hold the old state or the
    /// new one; no frame is written. The slots have their turns in the order of `IsCommit`, up to a fault a front of it. It
    /// takes no memory.
    ///
    /// The caller owes that the flashes are at rest with the store's state, and that the new state is one of the same poll
    /// and of greater rank. A device is answered only where its count of faults rose; the store is then gone, and a
    /// recovery says what the flashes hold.
    pub fn commit<M: Machine>(self, tables: &Tables, m: &mut M, state: &State) -> Result<Store, Dev>
        requires devices { AreDevices (M.told m.old).sizes }
        requires below { IsBelow tables.now (M.told m.old) self state.now }
        requires state { IsStateOf tables.now self.load.section.voters state.now }
        ensures load { IfOk result (λ store. store.load ≡ self.load) }
        ensures kept { IfOk result (λ store. Keeps tables.now (M.told m.new) store state.now) }
        ensures ran { (s : State) → Keeps tables.now (M.told m.old) self s
            → Runs (Commits (poll tables.now self.load.section.voters) s state.now (M.told m.old)) (M.told m.old) (M.told m.new) }
        ensures order { (s : State) → Keeps tables.now (M.told m.old) self s → ForSome (M.told m.old).flashes
            (λ start. RunsUpTo result (IsCommit tables.now s state.now) (M.told m.old) (M.told m.new)) }
        // In each slot the pages that change are put, and two gates.
        ensures bytes { (s : State) → Keeps tables.now (M.told m.old) self s
            → Runs (PutsAtMost (commit_bytes tables.now s state.now)) (M.told m.old) (M.told m.new) }
        ensures fails { FailsAt port_of result (M.told m.old) (M.told m.new) }
    {
        let Store {
            load,
            level,
            mut next,
        } = self;
        encode_into(state, tables, &mut next);
        let ranks = Ranks::of(tables, state.turnout().voters());
        let level = level.commit(m, &ranks, &next)?;
        Ok(Store { load, level, next })
    }

    /// The section whose poll it is.
    pub fn section(&self) -> Section
        ensures { result ≡ self.now.load.section }
    {
        self.load.section
    }
}
