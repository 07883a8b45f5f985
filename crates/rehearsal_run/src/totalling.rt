//! The report of the rehearsal's poll, and what comes of it.
ghost use Rattle.std.specs.Prelude.{◌≡◌, IfOk};
ghost use Rattle.election_tables.specs.TablesData.{IsTables};
ghost use Rattle.turnout.specs.declared.phase.Phase.TheVariants as phase;
ghost use Rattle.image_codec.specs.Encoding.{IsStateOf};
ghost use Rattle.vote_record.specs.RecordText.{record_text};
ghost use Rattle.poll_report.specs.Counted.{report_of};
ghost use Rattle.section_intake.specs.Verdict.{IsVerdict};
ghost use Rattle.section_intake.specs.declared.verdict.Verdict.TheVariants as verdict;
ghost use Rattle.result_files.specs.Reports.{report_file};
ghost use Rattle.rehearsal.specs.Tables.{generated_section, generated_tables};
ghost use Rattle.rehearsal_run.specs.Lines.{TellRehearsal};

use crate::lines::rehearsal_lines;
use crate::poll::section_of;
use election_tables::Tables;
use image_codec::State;
use result_files::{Results, results_of};
use section_intake::Intake;
use std::alloc::Global;
use urna_base::{LineBuffer, Memory};

/// The files of results of a rehearsal's poll, and the lines that tell it.
#[derive(Drop)]
pub(crate) struct Totalled {
    pub results: Results,
    pub lines: Vec<LineBuffer>,
}

/// The report of the sealed poll of `n` voters is made, offered to an intake and totalled. Want of memory is the only error: the intake
/// accepts it.
pub(crate) fn total(
    alloc: Global,
    n: u32,
    tables: &Tables,
    state: &State,
    opened: u64,
    closed: u64,
) -> Result<Totalled, Memory>
    requires valid { IsTables tables.now }
    requires tables { tables.now ≡ generated_tables n tables.now.digest }
    requires state { IsStateOf tables.now n state.now }
    requires sealed { state.now.phase ≡ phase.Sealed opened closed }
    ensures report { IfOk result (λ x. x.results.report.items ≡ report_file tables.now (generated_section n) state.now opened closed) }
    ensures accepted { IfOk result (λ x. IsVerdict tables.now x.results.report.items (verdict.Accepted 1 1)) }
    ensures record_file { IfOk result (λ x. x.results.record.items ≡ record_text tables.now (generated_section n) state.now.bags) }
    ensures lines { IfOk result (λ x. TellRehearsal n tables.now
        (report_of tables.now (generated_section n) state.now.bags state.now.came opened closed) x.lines.items) }
{
    let results = results_of(alloc, tables, section_of(n), state, opened, closed)?;
    let mut intake = Intake::new(alloc, tables)?;
    intake.offer(tables, &results.report)?;
    let came = state.turnout().len();
    let lines = rehearsal_lines(alloc, n, tables, &intake, came, results.parts)?;
    Ok(Totalled { results, lines })
}
