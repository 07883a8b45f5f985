//! Bringing a device that was replaced to the state that the one beside it holds.
ghost use Rattle.std.specs.Prelude.{◌≡◌, ◌++◌, List, IfOk, IfErr, OnOk};
ghost use Rattle.std.specs.Option.{ForSome};
ghost use Rattle.urna_outside.specs.Faults.{IsFaultless};
ghost use Rattle.urna_outside.specs.Flash.{Op};
ghost use Rattle.urna_outside.specs.Told.{Runs};
ghost use Rattle.image_codec.specs.Encoding.{IsStateOf};
ghost use Rattle.flash_store.specs.Syncs.{both_synced};
ghost use Rattle.state_store.specs.Load.{IsSectionOf, load_of};
ghost use Rattle.state_store.specs.Rest.{AreAtRest};
ghost use Rattle.state_store.specs.Store.{AreDevices};
ghost use Rattle.contingency.specs.Calls.{FailsToReplace, IsReplacement, Replaces};

use crate::find::find;
use crate::restore::restore;
use election_tables::{Roll, Section, Tables};
use flash_store::sync_both;
use image_codec::State;
use state_store::{Room, header};
use std::alloc::Global;
use urna_outside::{Dev, Machine};

/// Why a device was not replaced.
#[derive(Clone, Copy, Debug, PartialEq, Eq)]
pub enum ReplaceError {
    /// Want of memory. Nothing was done.
    Memory,
    /// The device failed, and its count of faults rose.
    Flash(Dev),
    /// The device beside the replaced one has the frame of no load of these tables and this roll.
    Foreign(Dev),
    /// No slot of the device beside the replaced one stands.
    NoStanding(Dev),
    /// The replaced device is in use.
    Busy(Dev),
}

/// Brings a device, which is in the place of one that broke, to the state that the one beside it holds: the section whose poll it
/// is, and the state. It takes its memory, syncs both devices, looks at the frame and the slots of the standing one and whether the
/// replaced one is in use, and writes nothing before all that. Then it brings both slots of the standing device to the body that it
/// holds, and then, where that is of version 1, to the state's encoding of version 2; and it loads the replaced one with that encoding.
/// The order of all that is done is that of `IsReplacement`, and up to a fault of a flash it is a front of it. At each stop behind the
/// syncs the standing device alone holds the state; and the replaced one isn't in use, or both together are the poll in that state.
///
/// The caller owes that both devices have the size of a flash. `Memory` comes where an allocation failed, before any call of the
/// machine; `Foreign` where the standing device's frame is that of no section of the tables with as many voters as the roll; else
/// `NoStanding` where no slot of it stands; else `Busy` where the replaced device is in use; `Flash` only where that device's count of
/// faults rose.
pub fn replace<M: Machine>(
    alloc: Global,
    tables: &Tables,
    roll: &Roll,
    m: &mut M,
    replaced: Dev,
) -> Result<(Section, State), ReplaceError>
    requires devices { AreDevices (M.told m.old).sizes }
    ensures section { IfOk result (λ found. IsSectionOf tables.now roll.now found.0) }
    ensures state { IfOk result (λ found. IsStateOf tables.now found.0.voters found.1) }
    ensures rest { IfOk result (λ found. ForSome (M.told m.new).flashes (AreAtRest tables.now (load_of tables.now roll.now found.0) found.1)) }
    ensures ran { IfOk result (λ found. Runs (λ ops. (rest : List Op) × (ops ≡ both_synced ++ rest)
        × Replaces tables.now roll.now found.0 found.1 replaced (M.told m.old) rest) (M.told m.old) (M.told m.new)) }
    ensures exact { IfOk result (λ found. ForSome (M.told m.old).flashes
        (λ start. Runs (IsReplacement tables.now roll.now found.0 found.1 replaced start) (M.told m.old) (M.told m.new))) }
    ensures fine { OnOk result (IsFaultless (M.told m.old) (M.told m.new)) }
    ensures fails { IfErr result (FailsToReplace tables.now roll.now replaced (M.told m.old) (M.told m.new)) }
{
    let Ok(room) = Room::new(alloc, tables, roll.len()) else {
        return Err(ReplaceError::Memory);
    };
    if let Err(dev) = sync_both(m) {
        return Err(ReplaceError::Flash(dev));
    }
    let Room {
        twin,
        mut state,
        mut next,
    } = room;
    let (section, found) = find(tables, roll, twin, m, replaced)?;
    // it has a rank, so it is the encoding of a state
    let loaded = state.load(tables, found.body());
    prove!(loaded);
    let header = header(tables, roll, section, replaced);
    match restore(
        m,
        tables,
        &state,
        replaced,
        &header,
        found.body(),
        &mut next,
    ) {
        Ok(()) => Ok((section, state)),
        Err(dev) => Err(ReplaceError::Flash(dev)),
    }
}
