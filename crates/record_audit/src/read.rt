//! A whole record text is read.
ghost use Rattle.std.specs.Prelude.{◌≡◌, ◌≢◌, ◌<◌, ◌⊎◌, ◌++◌, ◌∷◌, [], ℕ, length, IfOk, IfSome, IsNone, Err, None, Ok, Some};
ghost use Rattle.vote_record.specs.RecordText.{line_end};
ghost use Rattle.record_audit.specs.Fault.{IsLineFault, rows_of};
ghost use Rattle.record_audit.specs.Reading.{MatchRead, line_in, reading};
ghost use Rattle.record_audit.specs.Spelling.{Spells};
ghost use Rattle.record_audit.specs.declared.fault.RecordError.TheVariants as error;
ghost use Rattle.record_audit.specs.declared.stage.Stage.TheVariants.{Start};
ghost use Rattle.record_audit.specs.declared.text.RecordText.{RecordText};

use crate::fault::RecordError;
use crate::stage::Stage;
use crate::text::RecordText;
use std::alloc::Global;
use urna_base::cut_at;

/// The record that a text spells, or the number of the first line that may not stand there (docs/FORMATS.md, "Record text"); each text
/// has one of both. `Memory` comes only where an allocation failed.
pub fn read_record(alloc: Global, bytes: &[u8]) -> Result<RecordText, RecordError>
    ensures ok { IfOk result (λ r. Spells bytes.now r) }
    ensures fault { (k : ℕ) → result ≡ Err (error.Line k) → IsLineFault bytes.now k }
    ensures ok_there { result ≢ Err error.Memory → (r : RecordText) → Spells bytes.now r → result ≡ Ok r }
    ensures fault_there { result ≢ Err error.Memory → (k : ℕ) → IsLineFault bytes.now k → result ≡ Err (error.Line k) }
{
    read_lines(alloc, bytes)
}

/// The same, told of the answer that there is: that there is no other follows from the laws of texts.
fn read_lines(alloc: Global, bytes: &[u8]) -> Result<RecordText, RecordError>
    ensures { MatchRead result (λ r. reading 1 Start (rows_of bytes.now) ≡ Ok r) (λ k. reading 1 Start (rows_of bytes.now) ≡ Err k) }
{
    let mut stage = Stage::Start;
    let mut number = 1;
    let mut rest = bytes;
    while let Some((line, behind)) = next_line(rest) {
        stage = match stage.with_line(alloc, line)? {
            Some(next) => next,
            None => return Err(RecordError::Line(number)),
        };
        number += 1;
        rest = behind;
    }
    if !rest.is_empty() {
        return Err(RecordError::Line(number));
    }
    match stage.whole_text() {
        Some(text) => Ok(text),
        None => Err(RecordError::Line(number)),
    }
}

/// The first line of a text without its line feed, and what stands behind that; `None` where the text has no line feed.
fn next_line(text: &[u8]) -> Option<(&[u8], &[u8])>
    ensures none { IsNone result → (text.now ≡ []) ⊎ ((rows_of text.now ≡ text.now ∷ []) × (line_in text.now ≡ None)) }
    ensures split { IfSome result (λ x. rows_of text.now ≡ (x.0.now ++ line_end) ∷ rows_of x.1.now) }
    ensures line { IfSome result (λ x. line_in (x.0.now ++ line_end) ≡ Some x.0.now) }
    ensures shorter { IfSome result (λ x. length x.1.now < length text.now) }
{
    cut_at(b'\n', text)
}
