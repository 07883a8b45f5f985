//! The command `totaliza TABLES LIST`: tells a verdict on each listed report, and the totals over those that were accepted.
ghost use Rattle.std.specs.Prelude.{◌≡◌};
ghost use Rattle.urna_outside.specs.Cabinet.{CabinetTold};
ghost use Rattle.command_parts.specs.Documents.{IsListed};
ghost use Rattle.urna_commands.specs.Command.{Totaliza};
ghost use Rattle.urna_commands.specs.Taking.{HasTaken, status_in};
ghost use Rattle.urna_commands.specs.Totaliza.{TotalizaEnds, refused_status};

use crate::command::TotalizaNames;
use crate::offering::{Telling, offer_all};
use crate::status::Status;
use crate::telling::tell_lines;
use command_parts::take_tables_and;
use election_tables::Tables;
use key_script::Names;
use section_intake::Intake;
use std::alloc::Global;
use totals::total_lines;
use urna_outside::{Cabinet, Machine};

/// The totals of these names: the tables and the list are taken, each listed report is taken and offered in order, with a line that tells
/// its verdict, and then lines tell the totals. All memory for these is taken before the first of them is shown.
pub(crate) fn totaliza<M: Machine, C: Cabinet>(
    alloc: Global,
    names: TotalizaNames<'_>,
    machine: &mut M,
    cabinet: &mut C,
) -> Result<(), Status>
    ensures { TotalizaEnds (record { tables = names.entry.tables.now; list = names.entry.list.now })
        (C.told cabinet.old) (C.told cabinet.new) (M.told machine.old) (M.told machine.new) (status_in result) }
{
    let (tables, list) = take_tables_and::<C, Names>(alloc, cabinet, names.tables, names.list)?;
    totaliza_over(alloc, &tables, &list, machine, cabinet)
}

/// The totals, once the tables and the list are taken. These are lent, so that no way out lets go of them.
fn totaliza_over<M: Machine, C: Cabinet>(
    alloc: Global,
    tables: &Tables,
    list: &Names,
    machine: &mut M,
    cabinet: &mut C,
) -> Result<(), Status>
    ensures { (names : Totaliza) (c : CabinetTold) → IsListed c.files names.tables names.list tables.now list.now → HasTaken 2 Status.Done c (C.told cabinet.old)
        → TotalizaEnds names c (C.told cabinet.new) (M.told machine.old) (M.told machine.new) (status_in result) }
{
    let mut intake = Intake::new(alloc, tables)?;
    let refused = offer_all(
        alloc,
        tables,
        list,
        Telling::Verdicts,
        &mut intake,
        machine,
        cabinet,
    )?;
    let lines = total_lines(alloc, tables, &intake)?;
    tell_lines(machine, &lines)?;
    ended_with(refused)
}

/// How the command ends where so many reports were refused.
fn ended_with(refused: u32) -> Result<(), Status>
    ensures { status_in result ≡ refused_status refused }
{
    if refused == 0 {
        Ok(())
    } else {
        Err(Status::SomeRefused(refused))
    }
}
