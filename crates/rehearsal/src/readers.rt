//! What the readers make of the three texts. They never refuse them (`laws::no_text_is_refused`): want of memory is the only error.
ghost use Rattle.std.specs.Prelude.{◌≡◌, ◌≢◌, ◌≤◌, false, Err, IfErr, IfOk};
ghost use Rattle.sha2.specs.Sha256.{sha256};
ghost use Rattle.election_tables.specs.Limits.{most_voters};
ghost use Rattle.election_tables.specs.Roll.{IsRoll, IsRollOf};
ghost use Rattle.election_tables.specs.Tables.{IsReadAs};
ghost use Rattle.election_tables.specs.TablesData.{IsTables};
ghost use Rattle.toml.specs.Text.{IsDocumentText};
ghost use Rattle.rehearsal.specs.Document.{document};
ghost use Rattle.rehearsal.specs.Roll.{generated_roll, roll_text};
ghost use Rattle.rehearsal.specs.Script.{generated_events};
ghost use Rattle.rehearsal.specs.Tables.{generated_tables};

use crate::{laws, rehearsal_keys, rehearsal_roll, rehearsal_tables};
use election_tables::{Roll, RollError, Tables, TablesError};
use key_script::Script;
use std::alloc::Global;
use urna_base::Memory;

/// What the reader of tables answered where it did not want memory. `Err` is its own want of memory and nothing else, so a refusal stays one.
fn tables_answer(answer: Result<Tables, TablesError>) -> Result<Result<Tables, TablesError>, Memory>
    ensures memory { IfErr result (λ _. answer ≡ Err TablesError.Memory) }
    ensures answer { IfOk result (λ same. (same ≡ answer) × (answer ≢ Err TablesError.Memory)) }
{
    match answer {
        Err(TablesError::Memory) => Err(Memory),
        same => Ok(same),
    }
}

/// What the reader of a roll answered where it did not want memory, and `Err` as with tables.
fn roll_answer(answer: Result<Roll, RollError>) -> Result<Result<Roll, RollError>, Memory>
    ensures memory { IfErr result (λ _. answer ≡ Err RollError.Memory) }
    ensures answer { IfOk result (λ same. (same ≡ answer) × (answer ≢ Err RollError.Memory)) }
{
    match answer {
        Err(RollError::Memory) => Err(Memory),
        same => Ok(same),
    }
}

/// The text of the tables for `n` voters, and the tables that `Tables::read` makes of it.
///
/// The caller owes that `n` is 1 to 600.
pub fn read_tables(alloc: Global, n: u32) -> Result<(Vec<u8>, Tables), Memory>
    requires some { 1 ≤ n }
    requires few { n ≤ most_voters }
    ensures printed { IfOk result (λ r. IsDocumentText false (document n) r.0.items) }
    ensures read { IfOk result (λ r. IsReadAs r.0.items r.1) }
    ensures tables { IfOk result (λ r. r.1 ≡ generated_tables n (sha256 r.0.items)) }
    ensures valid { IfOk result (λ r. IsTables r.1) }
{
    let text = rehearsal_tables(alloc, n)?;
    // bytes have one reading, so it is that of the clause of `rehearsal_tables`, by which the reader doesn't refuse them
    election_tables::laws::reading_is_determined();
    let answer = tables_answer(Tables::read(alloc, &text))?;
    Ok((text, answer.unwrap()))
}

/// The text of the roll of `n` voters, and the roll that `Roll::read` makes of it.
///
/// The caller owes that `n` is 1 to 600.
pub fn read_roll(alloc: Global, n: u32) -> Result<(Vec<u8>, Roll), Memory>
    requires some { 1 ≤ n }
    requires few { n ≤ most_voters }
    ensures lines { IfOk result (λ r. r.0.items ≡ roll_text n) }
    ensures read { IfOk result (λ r. IsRollOf r.0.items r.1) }
    ensures roll { IfOk result (λ r. r.1 ≡ generated_roll n (sha256 r.0.items)) }
    ensures valid { IfOk result (λ r. IsRoll r.1) }
{
    let text = rehearsal_roll(alloc, n)?;
    // and so it is with a roll
    election_tables::laws::reading_is_determined();
    let answer = roll_answer(Roll::read(alloc, &text))?;
    Ok((text, answer.unwrap()))
}

/// The script that `Script::read` makes of the text for `n` voters.
///
/// The caller owes that `n` is 1 to 600.
pub fn read_script(alloc: Global, n: u32) -> Result<Script, Memory>
    requires some { 1 ≤ n }
    requires few { n ≤ most_voters }
    ensures { IfOk result (λ script. script ≡ generated_events n) }
{
    let text = rehearsal_keys(alloc, n)?;
    // no line is outside the form, and that is the only error of this reader, which takes no memory
    laws::no_text_is_refused();
    Ok(Script::read(text).unwrap())
}
