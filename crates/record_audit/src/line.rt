//! What one line of a record text says.
ghost use Rattle.std.specs.Prelude.{◌≡◌, ◌^◌, ◌<◌, ◌≤◌, ◌==◌, [], length, IfSome, MatchOption, None, Some};
ghost use Rattle.std.specs.List.{list_any};
ghost use Rattle.urna_base.specs.Digits.{decimal_within};
ghost use Rattle.election_tables.specs.Limits.{most_offices};
ghost use Rattle.poll_report.specs.Report.{digits_in, may_have_code};
ghost use Rattle.record_audit.specs.Reading.{candidate_in, cell, choice_in, date_cell, date_in, heading_in, may_follow, number_cell, office_in, party_in, section_in, vote_in};
ghost use Rattle.record_audit.specs.Spelling.{codes_in, most_votes};

use crate::text::{RecordOffice, RecordOffices, RecordText};
use election_tables::{
    GREATEST_CODE, GREATEST_PROCESS, GREATEST_SECTION, MOST_OFFICES, MOST_VOTERS, code_digits,
    code_proportional, has_digits,
};
use poll_report::digits_in;
use std::alloc::Global;
use urna_base::{after, cut_at, date_ok, decimal, decimal_within, digits};
use vote_kinds::Choice;

/// The most votes of an office: two of each voter.
const MOST_VOTES: u64 = 2 * MOST_VOTERS;

/// Which election and section the second line names, with no offices.
#[tactic(auto, unfolding(crate::specs::Reading::heading_in))]
pub(crate) fn heading_of(alloc: Global, line: &[u8]) -> Option<RecordText>
    ensures value { result ≡ heading_in line.now }
    ensures none { IfSome result (λ r. r.offices ≡ []) }
{
    let (process, rest) = number_cell(b"PROC ", 1, GREATEST_PROCESS, line)?;
    let (date, rest) = date_cell(b"DTPL ", rest)?;
    let (turn, rest) = number_cell(b"TURN ", 1, 2, rest)?;
    let (zone, rest) = number_cell(b"ZONA ", 1, GREATEST_SECTION, rest)?;
    let section = section_of(rest)?;
    Some(RecordText {
        process,
        date,
        turn: turn as u8,
        zone,
        section,
        offices: RecordOffices::new(alloc),
    })
}

/// The section, behind its word at the end of a line.
#[tactic(auto, unfolding(crate::specs::Reading::section_in))]
fn section_of(text: &[u8]) -> Option<u32>
    ensures { result ≡ section_in text.now }
{
    number_of(1, GREATEST_SECTION, after(b"SECA ", text)?)
}

/// The code of the office that a line names behind others, and how many votes it has.
#[tactic(auto, unfolding(crate::specs::Reading::office_in))]
pub(crate) fn office_of(before: &RecordOffices, line: &[u8]) -> Option<(u8, u32)>
    ensures value { result ≡ office_in (codes_in before.now) line.now }
    ensures votes { IfSome result (λ x. x.1 ≤ most_votes) }
    ensures offices { IfSome result (λ x. length before.now < most_offices) }
{
    let (code, rest) = number_cell(b"CARG ", 0, u64::from(GREATEST_CODE), line)?;
    let votes = number_of(0, MOST_VOTES, rest)?;
    let code = code as u8;
    if may_have_code(before.as_slice(), code) {
        Some((code, votes))
    } else {
        None
    }
}

/// Whether an office with this code may stand behind others.
fn may_have_code(before: &[RecordOffice], code: u8) -> bool
    ensures { result ≡ may_have_code (codes_in before.now) code }
{
    before.len() < MOST_OFFICES && (code_digits(code).is_some() && !was_used(before, code))
}

/// Whether one of these offices has the code.
fn was_used(before: &[RecordOffice], code: u8) -> bool
    ensures { result ≡ list_any (λ c. c == code) (codes_in before.now) }
{
    before
        .iter()
        .map(|office| office.code)
        .any(|used| used == code)
}

/// The choice of a line that may stand behind the votes of an office.
#[tactic(auto, unfolding(crate::specs::Reading::vote_in))]
pub(crate) fn vote_of(office: &RecordOffice, line: &[u8]) -> Option<Choice>
    ensures { result ≡ vote_in office.now line.now }
{
    let choice = choice_of(office.code, line)?;
    if may_follow(office.votes.as_slice(), choice) {
        Some(choice)
    } else {
        None
    }
}

/// Whether a choice stands at or behind the last of some.
fn may_follow(votes: &[Choice], choice: Choice) -> bool
    ensures { result ≡ may_follow votes.now choice }
{
    match votes.last() {
        Some(last) => last.is_at_or_before(choice),
        None => true,
    }
}

/// The choice that the line of a vote names.
#[tactic(auto, unfolding(crate::specs::Reading::choice_in))]
fn choice_of(code: u8, line: &[u8]) -> Option<Choice>
    ensures { result ≡ choice_in code line.now }
{
    if line == b"B".as_slice() {
        return Some(Choice::Blank);
    }
    if line == b"X".as_slice() {
        return Some(Choice::Null);
    }
    match after(b"N ", line) {
        Some(text) => candidate_of(code, text),
        None => party_of(code, after(b"L ", line)?),
    }
}

/// The candidate of an office whose number a text writes.
#[tactic(auto, using(crate::proofs::LineLaws::candidate_narrow), unfolding(crate::specs::Reading::candidate_in))]
fn candidate_of(code: u8, text: &[u8]) -> Option<Choice>
    ensures { result ≡ candidate_in code text.now }
{
    let number = decimal(text)?;
    if has_digits(digits_in(code), number) {
        Some(Choice::Nominal(number as u32))
    } else {
        None
    }
}

/// The party whose number a text writes, in an office that is decided in proportion.
#[tactic(auto, unfolding(crate::specs::Reading::party_in))]
fn party_of(code: u8, text: &[u8]) -> Option<Choice>
    ensures { result ≡ party_in code text.now }
{
    let number = number_of(10, 99, text)?;
    if code_proportional(code) {
        Some(Choice::Party(number as u8))
    } else {
        None
    }
}

/// A number behind a word, and what stands behind the space that ends it.
#[tactic(auto, unfolding(crate::specs::Reading::number_cell))]
fn number_cell<'a>(word: &[u8], low: u64, high: u64, text: &'a [u8]) -> Option<(u32, &'a [u8])>
    requires { high < 2 ^ 32 }
    ensures value { MatchOption result (number_cell word.now low high text.now ≡ None) (λ x. number_cell word.now low high text.now ≡ Some (x.0, x.1.now)) }
    ensures few { IfSome result (λ x. x.0 ≤ high) }
{
    let (cell, rest) = split_cell(word, text)?;
    Some((number_of(low, high, cell)?, rest))
}

/// A date behind a word, and what stands behind the space that ends it.
#[tactic(auto, unfolding(crate::specs::Reading::date_cell))]
fn date_cell<'a>(word: &[u8], text: &'a [u8]) -> Option<(u32, &'a [u8])>
    ensures { MatchOption result (date_cell word.now text.now ≡ None) (λ x. date_cell word.now text.now ≡ Some (x.0, x.1.now)) }
{
    let (cell, rest) = split_cell(word, text)?;
    Some((date_of(cell)?, rest))
}

/// What stands behind a word, up to the next space, and what stands behind that space.
#[tactic(auto, unfolding(crate::specs::Reading::cell))]
fn split_cell<'a>(word: &[u8], text: &'a [u8]) -> Option<(&'a [u8], &'a [u8])>
    ensures { MatchOption result (cell word.now text.now ≡ None) (λ x. cell word.now text.now ≡ Some (x.0.now, x.1.now)) }
{
    cut_at(b' ', after(word, text)?)
}

/// The number in a range that a text writes.
fn number_of(low: u64, high: u64, text: &[u8]) -> Option<u32>
    requires { high < 2 ^ 32 }
    ensures value { result ≡ decimal_within low high text.now }
    ensures few { IfSome result (λ n. n ≤ high) }
{
    let number = decimal_within(text, low, high)?;
    Some(number as u32)
}

/// The date that a text writes.
#[tactic(auto, using(crate::proofs::LineLaws::date_small), unfolding(crate::specs::Reading::date_in))]
fn date_of(text: &[u8]) -> Option<u32>
    ensures { result ≡ date_in text.now }
{
    let date = digits(text, 8)?;
    if date_ok(date) {
        Some(date as u32)
    } else {
        None
    }
}
