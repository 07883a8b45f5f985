//! The rehearsal: tables, a roll and a script of a whole poll, made from a number of voters (docs/FORMATS.md, "The rehearsal").
//!
//! `rehearsal_tables`, `rehearsal_roll` and `rehearsal_keys` make the texts. What their readers make of them stands in
//! `specs/Tables.antt`, `specs/Roll.antt` and `specs/Script.antt`, and in `specs/Typing.antt` what each voter types. `read_tables`,
//! `read_roll` and `read_script` read the texts as well: no reader refuses its text (`laws`), so want of memory is their only error too.
//! `is_suspended` says whom the clerk suspends.
#![tactic(auto)]

ghost use Rattle.std.specs.Prelude.{◌≡◌, ◌^◌, ◌<◌, ◌≤◌, false, IfOk, Some, vec_len};
ghost use Rattle.sha2.specs.Sha256.{sha256};
ghost use Rattle.toml.specs.Text.{IsDocumentText};
ghost use Rattle.election_tables.specs.Limits.{most_voters};
ghost use Rattle.election_tables.specs.Roll.{IsRollOf};
ghost use Rattle.election_tables.specs.Tables.{IsDocument, IsReadAs};
ghost use Rattle.key_script.specs.Script.{events_of};
ghost use Rattle.rehearsal.specs.Document.{document};
ghost use Rattle.rehearsal.specs.Roll.{generated_roll, roll_text, title_at};
ghost use Rattle.rehearsal.specs.Script.{generated_events, script_text};
ghost use Rattle.rehearsal.specs.Tables.{generated_tables};

mod document;
pub mod laws;
mod members;
mod printing;
mod readers;
mod typing;

use printing::{put_numbered, put_visits};
pub use readers::{read_roll, read_script, read_tables};
use std::alloc::Global;
pub use typing::is_suspended;
use urna_base::{Memory, put_digits};

/// The moment at which the poll opens.
const OPENING: u64 = 20_261_004_080_000;

/// The moment at which it is sealed.
const CLOSING: u64 = 20_261_004_170_000;

/// The text of the tables for `n` voters, as `toml` prints their document.
///
/// The caller owes that `n` is 1 to 600. Want of memory is the only error.
pub fn rehearsal_tables(alloc: Global, n: u32) -> Result<Vec<u8>, Memory>
    requires some { 1 ≤ n }
    requires few { n ≤ most_voters }
    ensures printed { IfOk result (λ text. IsDocumentText false (document n) text.items) }
    ensures document { IfOk result (λ text. IsDocument text.items (document n)) }
    ensures read { IfOk result (λ text. IsReadAs text.items (generated_tables n (sha256 text.items))) }
{
    let text = document::text(alloc, n)?;
    laws::no_text_is_refused();
    Ok(text.into_bytes())
}

/// The text of the roll of `n` voters.
///
/// The caller owes that `n` is 1 to 600. Want of memory is the only error.
pub fn rehearsal_roll(alloc: Global, n: u32) -> Result<Vec<u8>, Memory>
    requires some { 1 ≤ n }
    requires few { n ≤ most_voters }
    ensures lines { IfOk result (λ text. text.items ≡ roll_text n) }
    ensures read { IfOk result (λ text. IsRollOf text.items (generated_roll n (sha256 text.items))) }
{
    let mut text = Vec::new(alloc);
    for place in 0..n {
        put_digits(&mut text, title(place), 12)?;
        text.push(b'\n')?;
    }
    laws::no_text_is_refused();
    Ok(text)
}

/// The text of the script for `n` voters, short enough for `Script::read`.
///
/// The caller owes that `n` is 1 to 600. Want of memory is the only error.
pub fn rehearsal_keys(alloc: Global, n: u32) -> Result<Vec<u8>, Memory>
    requires some { 1 ≤ n }
    requires few { n ≤ most_voters }
    ensures lines { IfOk result (λ text. text.items ≡ script_text n) }
    ensures read { IfOk result (λ text. events_of text.items ≡ Some (generated_events n)) }
    ensures short { IfOk result (λ text. vec_len text < 2 ^ 31) }
{
    let mut text = Vec::new(alloc);
    put_numbered(&mut text, b"M ABRE ", OPENING, 14)?;
    put_visits(&mut text, n)?;
    put_numbered(&mut text, b"M ENCERRA ", CLOSING, 14)?;
    laws::no_text_is_refused();
    Ok(text)
}

/// The title of the voter at a place.
fn title(place: u32) -> u64
    ensures { result ≡ title_at place }
{
    100_000_000_000 + u64::from(place)
}
