//! The commands of `urna_ledger`, the program of a counting centre: the words name a command and its files, and the status says how it ended.
//!
//! `urna_ledger` is the call by which the program does its command. What it says of the flashes, of the text that is shown and of each status
//! stands in `specs/Ending.antt`, and by command in `specs/Abre.antt`, `specs/Recebe.antt` and `specs/Totais.antt` (docs/FORMATS.md,
//! "Commands of the ledger").
#![tactic(auto)]

ghost use Rattle.std.specs.Prelude.{map, string_bytes};
ghost use Rattle.intake_ledger.specs.Kept.{AreDevices};
ghost use Rattle.ledger_commands.specs.Command.{command_of};
ghost use Rattle.ledger_commands.specs.Documents.{status_in};
ghost use Rattle.ledger_commands.specs.Ending.{CommandEnds, Ends};

mod abre;
mod command;
mod documents;
mod lines;
mod recebe;
mod status;
mod telling;
mod totais;

use abre::abre;
use command::{Command, command_of};
use command_parts::tell_fault;
use recebe::recebe;
pub use status::{LedgerDoc, LedgerStatus};
use std::alloc::Global;
use totais::totais;
use urna_outside::{Cabinet, Machine};

/// One command: the words after the program's name, over a machine with two flashes of the ledger's DEVICE_SIZE bytes and a cabinet.
///
/// `abre TABLES` lays the ledger before the first report on both flashes. `recebe TABLES LIST` opens the ledger that they hold, takes each
/// report that the list names and offers it, and tells the verdicts. `totais TABLES` opens it, and tells its sums. Where the command was
/// refused, a line tells why.
pub fn urna_ledger<M: Machine, C: Cabinet>(
    alloc: Global,
    words: &[String],
    machine: &mut M,
    cabinet: &mut C,
) -> LedgerStatus
    requires { AreDevices (M.told machine.old).sizes }
    ensures { Ends (map string_bytes words.now) (C.told cabinet.old) (C.told cabinet.new) (M.told machine.old) (M.told machine.new) result }
{
    let status = match run_command(alloc, words, machine, cabinet) {
        Ok(()) => LedgerStatus::Done,
        Err(status) => status,
    };
    tell_fault(machine, status.fault_line());
    status
}

/// The command of the words.
fn run_command<M: Machine, C: Cabinet>(
    alloc: Global,
    words: &[String],
    machine: &mut M,
    cabinet: &mut C,
) -> Result<(), LedgerStatus>
    requires { AreDevices (M.told machine.old).sizes }
    ensures { CommandEnds (command_of (map string_bytes words.now)) (C.told cabinet.old) (C.told cabinet.new) (M.told machine.old) (M.told machine.new) (status_in result) }
{
    match command_of(words) {
        None => Err(LedgerStatus::Usage),
        Some(Command::Abre(tables)) => abre(alloc, tables, machine, cabinet),
        Some(Command::Recebe(names)) => recebe(alloc, names, machine, cabinet),
        Some(Command::Totais(tables)) => totais(alloc, tables, machine, cabinet),
    }
}
