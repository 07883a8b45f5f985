//! The lines that a command shows.
ghost use Rattle.std.specs.Prelude.{◌≡◌, ◌∷◌, [], IfErr};
ghost use Rattle.urna_outside.specs.ShownLines.{Shows};

use crate::status::LedgerStatus;
use command_parts::show_lines;
use urna_base::LineBuffer;
use urna_outside::{Machine, show_line};

/// Shows the line of a command, and nothing else. It is Display where the display failed, which may have shown a front of the line.
pub(crate) fn tell_line<M: Machine>(machine: &mut M, line: &LineBuffer) -> Result<(), LedgerStatus>
    ensures shown { Shows result (line.now ∷ []) (M.told machine.old) (M.told machine.new) }
    ensures err { IfErr result (λ s. s ≡ LedgerStatus.Display) }
{
    match show_line(machine, line.as_bytes()) {
        Ok(()) => Ok(()),
        Err(_) => Err(LedgerStatus::Display),
    }
}

/// Shows lines in order. It is Display where the display failed, which may have shown a front of them.
pub(crate) fn tell_lines<M: Machine>(
    machine: &mut M,
    lines: &[LineBuffer],
) -> Result<(), LedgerStatus>
    ensures shown { Shows result lines.now (M.told machine.old) (M.told machine.new) }
    ensures err { IfErr result (λ s. s ≡ LedgerStatus.Display) }
{
    match show_lines(machine, lines) {
        Ok(()) => Ok(()),
        Err(_) => Err(LedgerStatus::Display),
    }
}
