//! The command `repoe TABLES ROLL interna`, or `externa`: loads a flash that was replaced from the other one.
ghost use Rattle.std.specs.Prelude.{◌≡◌};
ghost use Rattle.election_tables.specs.declared.tables.sections.Section.{Section};
ghost use Rattle.state_store.specs.Store.{AreDevices};
ghost use Rattle.urna_commands.specs.Repoe.{RepoeEnds, replaced_line};
ghost use Rattle.urna_commands.specs.Taking.{status_in};

use crate::command::RepoeNames;
use crate::status::Status;
use crate::telling::tell_line;
use command_parts::{device_word, take_tables_and};
use contingency::replace;
use election_tables::{Roll, Section};
use image_codec::State;
use std::alloc::Global;
use urna_base::LineBuffer;
use urna_outside::{Cabinet, Dev, Machine};

/// The line that tells that a flash was replaced.
fn replaced_line(replaced: Dev, section: Section, state: &State) -> LineBuffer
    ensures { result ≡ replaced_line replaced section state.now }
{
    let mut line = LineBuffer::new();
    line.push_text(b"REPOSTA ");
    line.push_text(device_word(replaced));
    line.push_numbered(b" ", u64::from(section.zone));
    line.push_numbered(b" ", u64::from(section.number));
    line.push_numbered(b" ", u64::from(state.turnout().len()));
    line.push_text(b"\n");
    line
}

/// The replacement of a flash for the poll of these names: the tables and the roll are taken and read, the flash is loaded from the other
/// one, and then the line tells it.
pub(crate) fn repoe<M: Machine, C: Cabinet>(
    alloc: Global,
    names: RepoeNames<'_>,
    machine: &mut M,
    cabinet: &mut C,
) -> Result<(), Status>
    requires { AreDevices (M.told machine.old).sizes }
    ensures { RepoeEnds (record { tables = names.entry.tables.now; roll = names.entry.roll.now; replaced = names.entry.replaced })
        (C.told cabinet.old) (C.told cabinet.new) (M.told machine.old) (M.told machine.new) (status_in result) }
{
    let (tables, roll) = take_tables_and::<C, Roll>(alloc, cabinet, names.tables, names.roll)?;
    let (section, state) = replace(alloc, &tables, &roll, machine, names.replaced)?;
    tell_line(machine, &replaced_line(names.replaced, section, &state))
}
