//! The command `carga TABLES ROLL ZONE SECTION`: loads both flashes for a section.
ghost use Rattle.std.specs.Prelude.{◌≡◌, IfNone, IfSome};
ghost use Rattle.election_tables.specs.declared.tables.sections.Section.{Section};
ghost use Rattle.state_store.specs.Load.{IsSectionOf};
ghost use Rattle.state_store.specs.Store.{AreDevices};
ghost use Rattle.urna_commands.specs.Carga.{CargaEnds, loaded_line};
ghost use Rattle.urna_commands.specs.Taking.{status_in};

use crate::command::CargaNames;
use crate::status::Status;
use crate::telling::tell_line;
use command_parts::take_tables_and;
use election_tables::{Roll, Section, Tables};
use state_store::Store;
use std::alloc::Global;
use urna_base::LineBuffer;
use urna_outside::{Cabinet, Machine};

/// The section of a zone and number, where it has as many voters as the roll.
fn asked_section(tables: &Tables, roll: &Roll, zone: u32, number: u32) -> Option<Section>
    ensures some { IfSome result (λ section. IsSectionOf tables.now roll.now section) }
    ensures asked { IfSome result (λ section. (section.zone ≡ zone) × (section.number ≡ number)) }
    ensures none { IfNone result ((section : Section) → IsSectionOf tables.now roll.now section → section.zone ≡ zone → ¬ (section.number ≡ number)) }
{
    let section = tables.find_section(zone, number)?;
    if section.voters == roll.len() {
        Some(section)
    } else {
        None
    }
}

/// The line that tells that a section is loaded.
fn loaded_line(section: Section) -> LineBuffer
    ensures { result ≡ loaded_line section }
{
    let mut line = LineBuffer::new();
    line.push_numbered(b"CARGA ", u64::from(section.zone));
    line.push_numbered(b" ", u64::from(section.number));
    line.push_numbered(b" ", u64::from(section.voters));
    line.push_text(b"\n");
    line
}

/// The load of the section of these names: the tables and the roll are taken and read, the section is tested, both flashes are
/// loaded, and then the line tells it.
pub(crate) fn carga<M: Machine, C: Cabinet>(
    alloc: Global,
    names: CargaNames<'_>,
    machine: &mut M,
    cabinet: &mut C,
) -> Result<(), Status>
    requires { AreDevices (M.told machine.old).sizes }
    ensures { CargaEnds (record { tables = names.entry.tables.now; roll = names.entry.roll.now; zone = names.entry.zone; number = names.entry.number })
        (C.told cabinet.old) (C.told cabinet.new) (M.told machine.old) (M.told machine.new) (status_in result) }
{
    let (tables, roll) = take_tables_and::<C, Roll>(alloc, cabinet, names.tables, names.roll)?;
    let Some(section) = asked_section(&tables, &roll, names.zone, names.number) else {
        return Err(Status::NoSection);
    };
    let _store = Store::format(alloc, &tables, &roll, section, machine)?;
    tell_line(machine, &loaded_line(section))
}
