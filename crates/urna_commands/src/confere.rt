//! The command `confere TABLES REPORT`: tells whether the file of a report is whole and fits the tables.
ghost use Rattle.urna_commands.specs.Confere.{ConfereEnds};
ghost use Rattle.urna_commands.specs.Taking.{status_in};

use crate::command::ConfereNames;
use crate::status::Status;
use crate::telling::tell_line;
use crate::verdict::ended_by;
use command_parts::take_tables_and;
use report_lines::verdict_line;
use section_intake::check;
use std::alloc::Global;
use urna_outside::{Cabinet, Machine};

/// The verdict on the report of these names: the tables and the report are taken, and a line tells the verdict.
pub(crate) fn confere<M: Machine, C: Cabinet>(
    alloc: Global,
    names: ConfereNames<'_>,
    machine: &mut M,
    cabinet: &mut C,
) -> Result<(), Status>
    ensures { ConfereEnds (record { tables = names.entry.tables.now; report = names.entry.report.now })
        (C.told cabinet.old) (C.told cabinet.new) (M.told machine.old) (M.told machine.new) (status_in result) }
{
    let (tables, bytes) = take_tables_and::<C, Vec<u8>>(
        alloc,
        cabinet,
        names.tables,
        names.report,
    )?;
    let verdict = check(alloc, &tables, &bytes)?;
    tell_line(machine, &verdict_line(verdict))?;
    ended_by(verdict)
}
