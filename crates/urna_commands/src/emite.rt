//! The command `emite TABLES ROLL OUT`: writes the files of results of the sealed poll that the flashes hold.
ghost use Rattle.std.specs.Prelude.{◌≡◌};
ghost use Rattle.urna_outside.specs.Cabinet.{CabinetTold};
ghost use Rattle.election_tables.specs.TablesData.{IsTables};
ghost use Rattle.election_tables.specs.declared.tables.sections.Section.{Section};
ghost use Rattle.state_store.specs.Store.{AreDevices};
ghost use Rattle.command_parts.specs.Documents.{HasDocuments};
ghost use Rattle.urna_commands.specs.Emite.{EmiteEnds, emitted_line};
ghost use Rattle.urna_commands.specs.Taking.{HasTaken, status_in};

use crate::command::EmiteNames;
use crate::results::deliver_sealed;
use crate::status::Status;
use crate::telling::tell_line;
use command_parts::take_tables_and;
use election_tables::{Roll, Section, Tables};
use state_store::Store;
use std::alloc::Global;
use turnout::Phase;
use urna_base::{LineBuffer, two_number_line};
use urna_outside::{Cabinet, Machine};

/// The line that tells that the files of a section are put.
fn emitted_line(section: Section) -> LineBuffer
    ensures { result ≡ emitted_line section }
{
    two_number_line(
        b"EMITIDO ",
        u64::from(section.zone),
        b" ",
        u64::from(section.number),
    )
}

/// The files of results of the poll of these names: the tables and the roll are taken and read, the flashes are looked at, the files
/// are made and put, and then the line tells it. Nothing is written on a flash.
pub(crate) fn emite<M: Machine, C: Cabinet>(
    alloc: Global,
    names: EmiteNames<'_>,
    machine: &mut M,
    cabinet: &mut C,
) -> Result<(), Status>
    requires { AreDevices (M.told machine.old).sizes }
    ensures { EmiteEnds (record { tables = names.entry.tables.now; roll = names.entry.roll.now; out = names.entry.out.now })
        (C.told cabinet.old) (C.told cabinet.new) (M.told machine.old) (M.told machine.new) (status_in result) }
{
    let (tables, roll) = take_tables_and::<C, Roll>(alloc, cabinet, names.tables, names.roll)?;
    emite_over(alloc, names, &tables, &roll, machine, cabinet)
}

/// The files of results, once the tables and the roll are taken. These are lent, so that no way out lets go of them.
fn emite_over<M: Machine, C: Cabinet>(
    alloc: Global,
    names: EmiteNames<'_>,
    tables: &Tables,
    roll: &Roll,
    machine: &mut M,
    cabinet: &mut C,
) -> Result<(), Status>
    requires devices { AreDevices (M.told machine.old).sizes }
    requires valid { IsTables tables.now }
    ensures { (c : CabinetTold) → HasDocuments c.files names.entry.tables.now names.entry.roll.now tables.now roll.now → HasTaken 2 Status.Done c (C.told cabinet.old)
        → EmiteEnds (record { tables = names.entry.tables.now; roll = names.entry.roll.now; out = names.entry.out.now })
        c (C.told cabinet.new) (M.told machine.old) (M.told machine.new) (status_in result) }
{
    let (section, state) = Store::peek(alloc, tables, roll, machine)?;
    let Phase::Sealed { opened, closed } = state.phase() else {
        return Err(Status::NotSealed);
    };
    deliver_sealed(
        alloc, cabinet, names.out, tables, section, &state, opened, closed,
    )?;
    tell_line(machine, &emitted_line(section))
}
