//! The command `totais TABLES`: tells the sums of the ledger that the flashes hold.
ghost use Rattle.intake_ledger.specs.Kept.{AreDevices};
ghost use Rattle.ledger_commands.specs.Documents.{status_in};
ghost use Rattle.ledger_commands.specs.Totais.{TotaisEnds};

use crate::documents::take;
use crate::lines::ledger_lines;
use crate::status::LedgerStatus;
use crate::telling::tell_lines;
use election_tables::Tables;
use intake_ledger::Ledger;
use std::alloc::Global;
use urna_outside::{Cabinet, Machine};

/// The ledger of the tables of this name: it is opened, and lines tell its sums. All memory for these is taken before the first is shown.
pub(crate) fn totais<M: Machine, C: Cabinet>(
    alloc: Global,
    tables: &str,
    machine: &mut M,
    cabinet: &mut C,
) -> Result<(), LedgerStatus>
    requires { AreDevices (M.told machine.old).sizes }
    ensures { TotaisEnds tables.now (C.told cabinet.old) (C.told cabinet.new) (M.told machine.old) (M.told machine.new) (status_in result) }
{
    let tables = take::<C, Tables>(alloc, cabinet, tables)?;
    let ledger = Ledger::open(alloc, &tables, machine)?;
    let lines = ledger_lines(alloc, &tables, ledger.totals())?;
    tell_lines(machine, &lines)
}
