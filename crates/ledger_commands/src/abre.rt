//! The command `abre TABLES`: lays the ledger before the first report on both flashes.
ghost use Rattle.ledger_commands.specs.Abre.{AbreEnds};
ghost use Rattle.ledger_commands.specs.Documents.{status_in};
ghost use Rattle.intake_ledger.specs.Kept.{AreDevices};

use crate::documents::take;
use crate::lines::ledger_line;
use crate::status::LedgerStatus;
use crate::telling::tell_line;
use election_tables::Tables;
use intake_ledger::Ledger;
use std::alloc::Global;
use urna_outside::{Cabinet, Machine};

/// The ledger of the tables of this name: it is laid before the first report, and a line tells it.
pub(crate) fn abre<M: Machine, C: Cabinet>(
    alloc: Global,
    tables: &str,
    machine: &mut M,
    cabinet: &mut C,
) -> Result<(), LedgerStatus>
    requires { AreDevices (M.told machine.old).sizes }
    ensures { AbreEnds tables.now (C.told cabinet.old) (C.told cabinet.new) (M.told machine.old) (M.told machine.new) (status_in result) }
{
    let tables = take::<C, Tables>(alloc, cabinet, tables)?;
    let _ledger = Ledger::format(alloc, &tables, machine)?;
    tell_line(machine, &ledger_line(0))
}
