//! The rehearsal.
ghost use Rattle.std.specs.Prelude.{◌≤◌, IfOk};
ghost use Rattle.election_tables.specs.Limits.{most_voters};
ghost use Rattle.rehearsal_run.specs.Rehearsed.{IsRehearsed};

use crate::poll::hold_rehearsal;
use crate::totalling::total;
use rehearsal::{read_roll, read_tables, rehearsal_keys};
use std::alloc::Global;
use turnout::Phase;
use urna_base::{LineBuffer, Memory};

/// All that a rehearsal leaves: the bytes of its six files, and the ten lines that tell it.
#[derive(Drop)]
pub struct Rehearsal {
    pub tables: Vec<u8>,
    pub roll: Vec<u8>,
    pub keys: Vec<u8>,
    /// The whole internal flash at rest with the sealed poll.
    pub flash: Vec<u8>,
    pub report: Vec<u8>,
    pub record: Vec<u8>,
    pub lines: Vec<LineBuffer>,
}

/// The rehearsal of `n` voters (docs/FORMATS.md, "The rehearsal"): its texts are made and read, its poll is held over a machine in memory,
/// and the report of that poll is offered to an intake and totalled.
///
/// The caller owes that `n` is 1 to 600. Want of memory is the only error.
pub fn rehearse(alloc: Global, n: u32) -> Result<Rehearsal, Memory>
    requires some { 1 ≤ n }
    requires few { n ≤ most_voters }
    ensures { IfOk result (IsRehearsed n) }
{
    let keys = rehearsal_keys(alloc, n)?;
    let (tables_text, tables) = read_tables(alloc, n)?;
    let (roll_text, roll) = read_roll(alloc, n)?;
    let held = hold_rehearsal(alloc, n, &tables, &roll)?;
    let state = held.station.state();
    let Phase::Sealed { opened, closed } = state.phase() else {
        unreachable!()
    };
    let totalled = total(alloc, n, &tables, state, opened, closed)?;
    Ok(Rehearsal {
        tables: tables_text,
        roll: roll_text,
        keys,
        flash: held.flash,
        report: totalled.results.report,
        record: totalled.results.record,
        lines: totalled.lines,
    })
}
