//! The command `vota TABLES ROLL KEYS OUT`: the session of a section's poll, and its files of results.
ghost use Rattle.std.specs.Prelude.{◌≡◌, IfErr, IfOk};
ghost use Rattle.urna_outside.specs.Cabinet.{CabinetTold};
ghost use Rattle.election_tables.specs.TablesData.{IsTables};
ghost use Rattle.state_store.specs.Store.{AreDevices};
ghost use Rattle.station.specs.Station.{IsStationed};
ghost use Rattle.urna_commands.specs.Holding.{FailsToHold};
ghost use Rattle.urna_commands.specs.Taking.{HasTaken, status_in};
ghost use Rattle.urna_commands.specs.Vota.{HasVoted, IsGiven, VotaEnds};

use crate::command::VotaNames;
use crate::results::deliver;
use crate::status::Status;
use command_parts::{Document, take_tables_and};
use election_tables::{Roll, Tables};
use key_script::Script;
use station::{StartError, Station};
use std::alloc::Global;
use urna_outside::{Cabinet, Machine, Port};

/// Why a session was not held to its end.
#[derive(Clone, Copy, Debug, PartialEq, Eq)]
pub(crate) enum HoldError {
    /// The station didn't start.
    Start(StartError),
    /// A port failed in the session.
    Port(Port),
}

/// Holds the session of the keys over the poll that the flashes hold, and gives the station as it then stands.
fn hold<M: Machine>(
    alloc: Global,
    tables: &Tables,
    roll: &Roll,
    script: &Script,
    machine: &mut M,
) -> Result<Station, HoldError>
    requires devices { AreDevices (M.told machine.old).sizes }
    ensures ok { IfOk result (λ end. (held : HasVoted tables.now roll.now script.now (M.told machine.old) (M.told machine.new))
        × (held.load ≡ end.store.load) × (held.last ≡ end.standing.state)) }
    ensures stationed { IfOk result (IsStationed tables.now roll.now (M.told machine.new)) }
    ensures err { IfErr result (FailsToHold tables.now roll.now script.now (M.told machine.old) (M.told machine.new)) }
{
    let station = match Station::start(alloc, tables, roll, machine) {
        Ok(station) => station,
        Err(error) => return Err(HoldError::Start(error)),
    };
    match station.run(tables, roll, machine, script) {
        Ok(end) => Ok(end),
        Err(port) => Err(HoldError::Port(port)),
    }
}

/// The session of the files of these names: each is taken and read, the keys are pressed, and where the poll is sealed then its
/// files of results are put.
pub(crate) fn vota<M: Machine, C: Cabinet>(
    alloc: Global,
    names: VotaNames<'_>,
    machine: &mut M,
    cabinet: &mut C,
) -> Result<(), Status>
    requires { AreDevices (M.told machine.old).sizes }
    ensures { VotaEnds (record { tables = names.entry.tables.now; roll = names.entry.roll.now; keys = names.entry.keys.now; out = names.entry.out.now })
        (C.told cabinet.old) (C.told cabinet.new) (M.told machine.old) (M.told machine.new) (status_in result) }
{
    let (tables, roll) = take_tables_and::<C, Roll>(alloc, cabinet, names.tables, names.roll)?;
    let script = Script::take_document(alloc, cabinet, names.keys)?;
    vota_over(alloc, names, &tables, &roll, &script, machine, cabinet)
}

/// The session, once its documents are taken. These are lent, so that no way out lets go of them.
fn vota_over<M: Machine, C: Cabinet>(
    alloc: Global,
    names: VotaNames<'_>,
    tables: &Tables,
    roll: &Roll,
    script: &Script,
    machine: &mut M,
    cabinet: &mut C,
) -> Result<(), Status>
    requires devices { AreDevices (M.told machine.old).sizes }
    requires valid { IsTables tables.now }
    ensures { (c : CabinetTold)
        → IsGiven c.files (record { tables = names.entry.tables.now; roll = names.entry.roll.now; keys = names.entry.keys.now; out = names.entry.out.now })
        tables.now roll.now script.now
        → HasTaken 3 Status.Done c (C.told cabinet.old)
        → VotaEnds (record { tables = names.entry.tables.now; roll = names.entry.roll.now; keys = names.entry.keys.now; out = names.entry.out.now })
        c (C.told cabinet.new) (M.told machine.old) (M.told machine.new) (status_in result) }
{
    let station = hold(alloc, tables, roll, script, machine)?;
    deliver(
        alloc,
        cabinet,
        names.out,
        tables,
        station.section(),
        station.state(),
    )
}
