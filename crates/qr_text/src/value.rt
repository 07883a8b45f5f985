//! What one field of a text writes: the number of a row of the table, or a candidate and its votes.
ghost use Rattle.std.specs.Prelude.{◌≡◌, ◌≤◌};
ghost use Rattle.election_tables.specs.Fields.{has_digits};
ghost use Rattle.poll_report.specs.Report.{is_vote};
ghost use Rattle.qr_text.specs.Reading.{number_at, value_at, written_value};
ghost use Rattle.qr_text.specs.Table.{fits};
ghost use Rattle.qr_text.specs.Votes.{belongs, party_after, places_of, vote_after, vote_by_colon};
ghost use Rattle.qr_text.specs.declared.table.TheConstants.{TABLE};

use crate::table::{Form, Row, TABLE};
use election_tables::{first_two, has_digits, may_have_places};
use poll_report::Count;
use urna_base::{after, date_ok, decimal, digits, first_place};

/// The number that a field writes, if it is a field of the row.
#[tactic(auto, unfolding(crate::specs::Reading::number_at))]
pub(crate) fn number_of(row: &Row, field: &[u8]) -> Option<u64>
    ensures { result ≡ number_at row.now field.now }
{
    let value = after(b":", after(&row.key, field)?)?;
    value_of(row.form, value)
}

/// The number of the form that a text writes.
#[tactic(auto, unfolding(crate::specs::Reading::value_at))]
fn value_of(form: Form, text: &[u8]) -> Option<u64>
    ensures { result ≡ value_at form text.now }
{
    let value = written(form, text)?;
    if fits(form, value) { Some(value) } else { None }
}

/// The number that a text of the form writes, whether or not a field may have it.
fn written(form: Form, text: &[u8]) -> Option<u64>
    ensures { result ≡ written_value form text.now }
{
    match form {
        Form::Vota => {
            if text == b"VOTA".as_slice() {
                Some(0)
            } else {
                None
            }
        }
        Form::Between { .. } => decimal(text),
        Form::Date => digits(text, 8),
        Form::Time => digits(text, 6),
    }
}

/// Whether a field of this form may have the number.
fn fits(form: Form, value: u64) -> bool
    ensures { result ≡ fits form value }
{
    match form {
        Form::Vota => value == 0,
        Form::Between { low, high } => low <= value && value <= high,
        Form::Date => date_ok(value),
        Form::Time => value / 10_000 <= 23 && value / 100 % 100 <= 59 && value % 100 <= 59,
    }
}

/// The candidate of a field, if it may stand behind the last: its number is greater, and begins with the party's, if one is named.
#[tactic(auto, using(crate::proofs::VoteLaws::colon_same), unfolding(crate::specs::Votes::vote_after))]
pub(crate) fn vote_after(digits: u8, party: Option<u32>, last: u32, field: &[u8]) -> Option<Count>
    requires { digits ≤ 5 }
    ensures { result ≡ vote_after digits party last field.now }
{
    let count = vote_of(digits, field)?;
    if belongs(digits, party, count.number) && last < count.number {
        Some(count)
    } else {
        None
    }
}

/// The candidate and the votes that a field writes.
#[tactic(auto, using(crate::proofs::VoteLaws::number_narrow, crate::proofs::VoteLaws::votes_narrow), unfolding(crate::specs::Votes::vote_by_colon))]
fn vote_of(digits: u8, field: &[u8]) -> Option<Count>
    requires { digits ≤ 5 }
    ensures { result ≡ vote_by_colon digits field.now }
{
    let end = first_place(b':', field)?;
    let number = decimal(&field[..end])?;
    let votes = decimal(&field[end + 1..])?;
    if is_vote(digits, number, votes) {
        Some(Count {
            number: number as u32,
            votes: votes as u32,
        })
    } else {
        None
    }
}

/// Whether a candidate's number has the digits of the office, the first not zero, and there is a vote.
fn is_vote(digits: u8, number: u64, votes: u64) -> bool
    requires { digits ≤ 5 }
    ensures { result ≡ is_vote digits (record { number = number; votes = votes }) }
{
    has_digits(digits, number) && fits(TABLE.votes, votes)
}

/// Whether a candidate is one of the party, if one is named.
fn belongs(digits: u8, party: Option<u32>, number: u32) -> bool
    requires { digits ≤ 5 }
    ensures { result ≡ belongs digits party number }
{
    match party {
        Some(party) => first_two(digits, u64::from(number)) == u64::from(party),
        None => true,
    }
}

/// The party of a field, if it may stand behind the last: its number is greater.
#[tactic(auto, using(crate::proofs::FieldLaws::party_narrow), unfolding(crate::specs::Votes::party_after))]
pub(crate) fn party_after(last: u32, field: &[u8]) -> Option<u32>
    ensures { result ≡ party_after last field.now }
{
    let number = number_of(&TABLE.party, field)? as u32;
    if last < number { Some(number) } else { None }
}

/// The places of a field, in an office with this code, if it may have so many.
#[tactic(auto, using(crate::proofs::FieldLaws::places_narrow), unfolding(crate::specs::Votes::places_of))]
pub(crate) fn places_of(code: u8, field: &[u8]) -> Option<u32>
    ensures { result ≡ places_of code field.now }
{
    let places = number_of(&TABLE.places, field)? as u32;
    if may_have_places(code, places) {
        Some(places)
    } else {
        None
    }
}
