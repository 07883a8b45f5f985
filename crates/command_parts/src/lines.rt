//! Lines that are shown one behind the other.
ghost use Rattle.urna_outside.specs.ShownLines.{Shows};

use urna_base::LineBuffer;
use urna_outside::{Failed, Machine, show_line};

/// Shows lines in order. It fails where the display failed, which may have shown a front of them.
pub fn show_lines<M: Machine>(machine: &mut M, lines: &[LineBuffer]) -> Result<(), Failed>
    ensures { Shows result lines.now (M.told machine.old) (M.told machine.new) }
{
    for line in lines {
        show_line(machine, line.as_bytes())?;
    }
    Ok(())
}
