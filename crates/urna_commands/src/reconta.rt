//! The command `reconta REPORT RECORD`: tells whether the votes of a digital vote record are those of a report.
ghost use Rattle.urna_commands.specs.Reconta.{RecontaEnds};
ghost use Rattle.urna_commands.specs.Taking.{status_in};

use crate::command::RecontaNames;
use crate::finding::{ended_by_finding, finding_line};
use crate::status::Status;
use crate::telling::tell_answer;
use crate::verdict::tell_verdict;
use command_parts::Document;
use record_audit::{RecordText, audit};
use section_intake::{Refusal, Verdict, read_file};
use std::alloc::Global;
use urna_outside::{Cabinet, Machine};

/// The recount of the record of these names against their report: the report is taken and read, then the record, and a line tells the first
/// place at which they differ, or that they agree. Of a file that is that of no report a line tells its verdict.
pub(crate) fn reconta<M: Machine, C: Cabinet>(
    alloc: Global,
    names: RecontaNames<'_>,
    machine: &mut M,
    cabinet: &mut C,
) -> Result<(), Status>
    ensures { RecontaEnds (record { report = names.entry.report.now; rdv = names.entry.rdv.now })
        (C.told cabinet.old) (C.told cabinet.new) (M.told machine.old) (M.told machine.new) (status_in result) }
{
    let bytes = Vec::<u8>::take_document(alloc, cabinet, names.report)?;
    let report = match read_file(alloc, &bytes) {
        Ok(report) => report,
        Err(Refusal::Memory) => return Err(Status::Memory),
        Err(Refusal::Part(fault)) => return tell_verdict(machine, Verdict::Part(fault)),
        Err(Refusal::Fields(fault)) => return tell_verdict(machine, Verdict::Fields(fault)),
    };
    let text = RecordText::take_document(alloc, cabinet, names.rdv)?;
    let finding = audit(&text, &report);
    tell_answer(
        machine,
        &finding_line(&text, finding),
        ended_by_finding(finding),
    )
}
