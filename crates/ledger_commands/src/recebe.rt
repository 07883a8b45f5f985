//! The command `recebe TABLES LIST`: takes the listed reports in.
ghost use Rattle.std.specs.Prelude.{◌≡◌};
ghost use Rattle.urna_outside.specs.Cabinet.{CabinetTold};
ghost use Rattle.election_tables.specs.TablesData.{IsTables};
ghost use Rattle.intake_ledger.specs.Calls.{Keeps};
ghost use Rattle.intake_ledger.specs.Kept.{AreDevices};
ghost use Rattle.intake_ledger.specs.Ledger.{LedgerData};
ghost use Rattle.command_parts.specs.Documents.{IsListed};
ghost use Rattle.ledger_commands.specs.Command.{Recebe};
ghost use Rattle.ledger_commands.specs.Documents.{HasTaken, status_in};
ghost use Rattle.ledger_commands.specs.Receiving.{OfferEnds, OffersEnd};
ghost use Rattle.ledger_commands.specs.Recebe.{RecebeEnds, refused_status};

use crate::command::RecebeNames;
use crate::documents::{take, take_tables_and_list};
use crate::lines::ledger_line;
use crate::status::LedgerStatus;
use crate::telling::tell_line;
use election_tables::Tables;
use intake_ledger::Ledger;
use key_script::Names;
use section_intake::Verdict;
use std::alloc::Global;
use urna_outside::{Cabinet, Machine};

/// The reports that the list of these names has: the ledger is opened and told, and then each is taken and offered, in order.
pub(crate) fn recebe<M: Machine, C: Cabinet>(
    alloc: Global,
    names: RecebeNames<'_>,
    machine: &mut M,
    cabinet: &mut C,
) -> Result<(), LedgerStatus>
    requires { AreDevices (M.told machine.old).sizes }
    ensures { RecebeEnds (record { tables = names.entry.tables.now; list = names.entry.list.now })
        (C.told cabinet.old) (C.told cabinet.new) (M.told machine.old) (M.told machine.new) (status_in result) }
{
    let (tables, list) = take_tables_and_list(alloc, cabinet, names.tables, names.list)?;
    recebe_over(alloc, &tables, &list, machine, cabinet)
}

/// The reports, once the tables and the list are taken. These are lent, so that no way out lets go of them.
fn recebe_over<M: Machine, C: Cabinet>(
    alloc: Global,
    tables: &Tables,
    list: &Names,
    machine: &mut M,
    cabinet: &mut C,
) -> Result<(), LedgerStatus>
    requires devices { AreDevices (M.told machine.old).sizes }
    requires valid { IsTables tables.now }
    ensures { (names : Recebe) (c : CabinetTold) → IsListed c.files names.tables names.list tables.now list.now → HasTaken 2 LedgerStatus.Done c (C.told cabinet.old)
        → RecebeEnds names c (C.told cabinet.new) (M.told machine.old) (M.told machine.new) (status_in result) }
{
    let ledger = Ledger::open(alloc, tables, machine)?;
    tell_line(machine, &ledger_line(ledger.totals().accepted()))?;
    let refused = offer_all(alloc, tables, list, ledger, machine, cabinet)?;
    ended_with(refused)
}

/// How the command ends where so many reports were refused.
fn ended_with(refused: u32) -> Result<(), LedgerStatus>
    ensures { status_in result ≡ refused_status refused }
{
    if refused == 0 {
        Ok(())
    } else {
        Err(LedgerStatus::SomeRefused(refused))
    }
}

/// Each listed report is taken and offered, in order. Answers how many were refused.
fn offer_all<M: Machine, C: Cabinet>(
    alloc: Global,
    tables: &Tables,
    list: &Names,
    ledger: Ledger,
    machine: &mut M,
    cabinet: &mut C,
) -> Result<u32, LedgerStatus>
    requires devices { AreDevices (M.told machine.old).sizes }
    requires valid { IsTables tables.now }
    requires kept { (l : LedgerData) × Keeps tables.now (M.told machine.old) ledger l }
    ensures { (l : LedgerData) → Keeps tables.now (M.told machine.old) ledger l
        → OffersEnd tables.now l list.now (C.told cabinet.old) (C.told cabinet.new) (M.told machine.old) (M.told machine.new) result }
{
    let mut ledger = ledger;
    let mut refused = 0;
    for i in 0..list.len() {
        let (behind, verdict) = offer(
            alloc,
            tables,
            list.name(i),
            i + 1,
            ledger,
            machine,
            cabinet,
        )?;
        ledger = behind;
        if !verdict.is_accepted() {
            refused += 1;
        }
    }
    Ok(refused)
}

/// A report is taken and offered, and a line tells the verdict and its number in the list.
fn offer<M: Machine, C: Cabinet>(
    alloc: Global,
    tables: &Tables,
    name: &str,
    number: u32,
    ledger: Ledger,
    machine: &mut M,
    cabinet: &mut C,
) -> Result<(Ledger, Verdict), LedgerStatus>
    requires devices { AreDevices (M.told machine.old).sizes }
    requires kept { (l : LedgerData) × Keeps tables.now (M.told machine.old) ledger l }
    ensures { (l : LedgerData) → Keeps tables.now (M.told machine.old) ledger l
        → OfferEnds tables.now l name.now number (C.told cabinet.old) (C.told cabinet.new) (M.told machine.old) (M.told machine.new) result }
{
    let bytes = take::<C, Vec<u8>>(alloc, cabinet, name)?;
    let offered = ledger.offer(tables, machine, number, &bytes)?;
    Ok(offered)
}
