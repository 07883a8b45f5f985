ghost use Rattle.std.specs.Prelude.{ℕ, List, [], ◌∷◌};
ghost use Rattle.std.specs.List.{concat};
ghost use Rattle.urna_outside.specs.Flash.{Op};
ghost use Rattle.urna_outside.specs.ShownLines.{IsCutShort, Shows, shows};
ghost use Rattle.urna_outside.specs.Shows.{ShowsFront, ShowsText};

use crate::{Failed, Machine};

/// Shows one line, which has its line feed. It fails only where the display's count of faults rose, and a front of the line was
/// then shown.
pub fn show_line<M: Machine>(machine: &mut M, line: &[u8]) -> Result<(), Failed>
    ensures { Shows result (line.now ∷ []) (M.told machine.old) (M.told machine.new) }
{
    machine.show(line)
}

/// Law of shown lines: together they show their text, and where they are cut short, a front of it.
pub fn lines_show_their_text()
    ensures whole { (lines : List (List ℕ)) → ShowsText (concat lines) (shows lines) }
    ensures cut { (lines : List (List ℕ)) (ops : List Op) → IsCutShort lines ops → ShowsFront (concat lines) ops }
{}
