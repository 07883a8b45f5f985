//! The commands of `urna`: the words name a command and its files, and the status says how the command ended.
//!
//! `urna` is the call by which the program does its command. What it says of the files, of the text that is shown and of each
//! status stands in `specs/Ending.antt`, and by command in `specs/Vota.antt`, `specs/Carga.antt`, `specs/Emite.antt`,
//! `specs/Confere.antt`, `specs/Totaliza.antt`, `specs/Ensaio.antt`, `specs/Repoe.antt`, `specs/Reconta.antt`, `specs/Certifica.antt` and
//! `specs/Verifica.antt` (docs/RULES.md, "The run"; docs/FORMATS.md, "Statuses").
#![tactic(auto)]

ghost use Rattle.std.specs.Prelude.{map, string_bytes};
ghost use Rattle.state_store.specs.Store.{AreDevices};
ghost use Rattle.urna_commands.specs.Command.{command_of};
ghost use Rattle.urna_commands.specs.Ending.{CommandEnds, Ends};
ghost use Rattle.urna_commands.specs.Taking.{status_in};

mod carga;
mod certifica;
mod command;
mod confere;
mod emite;
mod ensaio;
mod errors;
mod fault;
mod finding;
mod offering;
mod office;
mod reconta;
mod repoe;
mod results;
mod status;
mod telling;
mod totaliza;
mod verdict;
mod verifica;
mod vota;

use carga::carga;
use certifica::certifica;
use command::{Command, command_of};
pub use command_parts::Doc;
use command_parts::tell_fault;
use confere::confere;
use emite::emite;
use ensaio::ensaio;
use fault::fault_line;
use reconta::reconta;
use repoe::repoe;
pub use status::Status;
use std::alloc::Global;
use totaliza::totaliza;
pub use totals::contest_of;
use urna_outside::{Cabinet, Machine};
use verifica::verifica;
use vota::vota;

/// One command: the words after the program's name, over a machine with two flashes of DEVICE_SIZE bytes and a cabinet.
///
/// `carga TABLES ROLL ZONE SECTION` loads both flashes for a section of the tables. `vota TABLES ROLL KEYS OUT` takes the three files,
/// recovers the poll that the flashes hold, runs the session of the keys over it, and where the poll is sealed then puts its report and
/// its record as `OUT.bu` and `OUT.rdv`. `emite TABLES ROLL OUT` puts these two files of the sealed poll that the flashes hold, and writes
/// nothing on a flash. `confere TABLES REPORT` tells whether the file of a report is whole and fits the tables. `totaliza TABLES LIST` tells
/// that of each report that the list names, and the sums and the seats, or the elected, of each office over those that are accepted.
/// `ensaio N` rehearses a whole election of N voters in memory, puts its files and tells its lines. `repoe TABLES ROLL interna` or
/// `externa` loads the flash that was replaced from the other one. `reconta REPORT RECORD` tells whether the votes of the text of a record are
/// those of the file of a report. `certifica TABLES LIST CODE OUT` puts the certificate of the seats of an office as `OUT.cer` and tells the
/// substitutes, and `verifica TABLES LIST CODE FILE` tells whether a certificate is the law's for the reports. Where the command was refused,
/// a line tells why.
pub fn urna<M: Machine, C: Cabinet>(
    alloc: Global,
    words: &[String],
    machine: &mut M,
    cabinet: &mut C,
) -> Status
    requires { AreDevices (M.told machine.old).sizes }
    ensures { Ends (map string_bytes words.now) (C.told cabinet.old) (C.told cabinet.new) (M.told machine.old) (M.told machine.new) result }
{
    let status = match run_command(alloc, words, machine, cabinet) {
        Ok(()) => Status::Done,
        Err(status) => status,
    };
    tell_fault(machine, fault_line(&status));
    status
}

/// The command of the words.
fn run_command<M: Machine, C: Cabinet>(
    alloc: Global,
    words: &[String],
    machine: &mut M,
    cabinet: &mut C,
) -> Result<(), Status>
    requires { AreDevices (M.told machine.old).sizes }
    ensures { CommandEnds (command_of (map string_bytes words.now)) (C.told cabinet.old) (C.told cabinet.new) (M.told machine.old) (M.told machine.new) (status_in result) }
{
    match command_of(words) {
        None => Err(Status::Usage),
        Some(Command::Vota(names)) => vota(alloc, names, machine, cabinet),
        Some(Command::Carga(names)) => carga(alloc, names, machine, cabinet),
        Some(Command::Emite(names)) => emite(alloc, names, machine, cabinet),
        Some(Command::Confere(names)) => confere(alloc, names, machine, cabinet),
        Some(Command::Totaliza(names)) => totaliza(alloc, names, machine, cabinet),
        Some(Command::Ensaio(voters)) => ensaio(alloc, voters, machine, cabinet),
        Some(Command::Repoe(names)) => repoe(alloc, names, machine, cabinet),
        Some(Command::Reconta(names)) => reconta(alloc, names, machine, cabinet),
        Some(Command::Certifica(names)) => certifica(alloc, names, machine, cabinet),
        Some(Command::Verifica(names)) => verifica(alloc, names, machine, cabinet),
    }
}
