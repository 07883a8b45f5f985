//! The files of results of a sealed poll.
ghost use Rattle.std.specs.Prelude.{◌≡◌, IfOk, length};
ghost use Rattle.std.specs.List.{Contains};
ghost use Rattle.urna_base.specs.Words.{pieces};
ghost use Rattle.election_tables.specs.TablesData.{IsTables};
ghost use Rattle.turnout.specs.declared.phase.Phase.TheVariants as phase;
ghost use Rattle.image_codec.specs.Encoding.{IsStateOf};
ghost use Rattle.vote_record.specs.RecordText.{record_text};
ghost use Rattle.poll_report.specs.Counted.{report_of};
ghost use Rattle.qr_text.specs.Spelling.{report_text};
ghost use Rattle.hash_chain.specs.Cut.{cut};
ghost use Rattle.result_files.specs.Reports.{report_file};

use election_tables::{Section, Tables};
use hash_chain::{count_parts, make_parts};
use image_codec::State;
use poll_report::Report;
use qr_text::write_fields;
use std::alloc::Global;
use urna_base::Memory;
use vote_record::rdv_text;

/// The bytes of the files of results.
#[derive(Drop)]
pub struct Results {
    pub report: Vec<u8>,
    /// How many parts the report has.
    pub parts: u64,
    pub record: Vec<u8>,
}

/// The files of the sealed poll of a section, opened and closed at these moments (docs/FORMATS.md, "Report text", "Parts" and "Record
/// text").
///
/// The caller owes that the state is one of this section of the tables, and sealed at these moments. `Memory` comes only where an
/// allocation failed.
pub fn results_of(
    alloc: Global,
    tables: &Tables,
    section: Section,
    state: &State,
    opened: u64,
    closed: u64,
) -> Result<Results, Memory>
    requires valid { IsTables tables.now }
    requires section { Contains tables.now.sections section }
    requires state { IsStateOf tables.now section.voters state.now }
    requires sealed { state.now.phase ≡ phase.Sealed opened closed }
    ensures report { IfOk result (λ r. r.report.items ≡ report_file tables.now section state.now opened closed) }
    ensures parts { IfOk result (λ r. r.parts ≡ length (cut (pieces (report_text (report_of tables.now section state.now.bags state.now.came opened closed))))) }
    ensures record { IfOk result (λ r. r.record.items ≡ record_text tables.now section state.now.bags) }
{
    let report = Report::of(
        alloc,
        tables,
        section,
        state.votes(),
        state.turnout(),
        opened,
        closed,
    )?;
    let fields = write_fields(alloc, &report)?;
    Ok(Results {
        report: make_parts(alloc, &fields)?,
        parts: count_parts(&fields),
        record: rdv_text(alloc, tables, section, state.votes())?,
    })
}
