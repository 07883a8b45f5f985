//! A text that is read field by field.
ghost use Rattle.std.specs.Prelude.{◌≡◌, ◌+◌, ◌^◌, ◌<◌, ◌≤◌, ◌↔◌, ◌∷◌, [], length, true, IfOk, IfSome, IsTrue, MatchOption, MatchResult, Err, None, Ok, Some};
ghost use Rattle.urna_base.specs.Words.{pieces};
ghost use Rattle.poll_report.specs.Report.{greatest_count};
ghost use Rattle.qr_text.specs.Sections.{is_narrow, row_reading, sum_reading};
ghost use Rattle.qr_text.specs.Table.{fits};
ghost use Rattle.qr_text.specs.Votes.{party_first, places_first, vote_first};

use crate::fault::FieldFault;
use crate::table::Row;
use crate::value::{number_of, party_after, places_of, vote_after};
use poll_report::Count;
use std::marker::Model;
use urna_base::split_piece;

/// The number of the next field, by the name of its row in the table; or this sum, which the field is to say.
macro_rules! read {
    ($reader:ident, $row:ident) => {
        $reader.number(&TABLE.$row)?
    };
    ($reader:ident, $row:ident, $sum:expr) => {
        $reader.sum(&TABLE.$row, $sum)?
    };
}

pub(crate) use read;

/// The fields of a text that are left to be read, which contracts see as their list and the number of the first.
#[derive(Drop)]
pub(crate) struct Reader<'a> {
    // None where the text has ended: behind a last space there is an empty field.
    rest: Option<&'a [u8]>,
    next: u32,
}

impl<'a> Model for Reader<'a> {
    ghost use Rattle.std.specs.Prelude.{◌+◌, ◌^◌, ◌<◌, length};
    ghost use Rattle.urna_base.specs.Words.{pieces_left};
    ghost use Rattle.qr_text.specs.Sections.{FieldsLeft};

    ghost Value = { FieldsLeft };

    ghost view = { λ r. record { left = pieces_left r.rest; next = r.next } };

    ghost invariant = { λ r. r.next + length (pieces_left r.rest) < 2 ^ 32 };
}

impl<'a> Reader<'a> {
    /// All fields of a text. The caller owes that it is shorter than 2^31 bytes, so that their numbers have 32 bits.
    pub fn new(text: &'a [u8]) -> Reader<'a>
        requires { length text.now < 2 ^ 31 }
        ensures left { result.left ≡ pieces text.entry.now }
        ensures next { result.next ≡ 1 }
    {
        Reader {
            rest: Some(text),
            next: 1,
        }
    }

    /// The number of the next field, from 1. All fields that are left have numbers of 32 bits.
    pub fn place(&self) -> u32
        ensures next { result ≡ self.now.next }
        ensures few { result + length self.now.left < 2 ^ 32 }
    {
        self.next
    }

    /// Whether no field is left.
    pub fn has_ended(&self) -> bool
        ensures { IsTrue result ↔ (self.now.left ≡ []) }
    {
        match self.rest {
            Some(_) => false,
            None => true,
        }
    }

    /// The next field, whatever it is.
    fn field(&mut self) -> Option<&'a [u8]>
        ensures { MatchOption result ((self.old.left ≡ []) × (self.new ≡ self.old)) (λ p. (self.old.left ≡ p.now ∷ self.new.left) × (self.new.next ≡ self.old.next + 1)) }
    {
        let (field, rest) = split_piece(self.rest?);
        self.rest = rest;
        self.next += 1;
        Some(field)
    }

    /// The number of the next field, which is to be one of a row.
    pub fn number(&mut self, row: &Row) -> Result<u32, FieldFault>
        requires { is_narrow row.now.form ≡ true }
        ensures exact { MatchResult result
            (λ v. row_reading row.now self.old ≡ Ok (v, self.new))
            (λ e. row_reading row.now self.old ≡ Err e) }
        ensures fits { IfOk result (λ v. fits row.now.form v ≡ true) }
        ensures one { IfOk result (λ v. length self.old.left ≡ length self.new.left + 1) }
    {
        let fault = FieldFault::Field(self.next);
        let Some(field) = self.field() else {
            return Err(fault);
        };
        match number_of(row, field) {
            Some(value) => Ok(value as u32),
            None => Err(fault),
        }
    }

    /// The next field, which is to be one of a row and to say this sum.
    #[tactic(auto, unfolding(crate::specs::Sections::agreed, crate::specs::Sections::sum_reading))]
    pub fn sum(&mut self, row: &Row, sum: u64) -> Result<u32, FieldFault>
        requires { is_narrow row.now.form ≡ true }
        ensures exact { MatchResult result
            (λ v. sum_reading row.now sum self.old ≡ Ok (v, self.new))
            (λ e. sum_reading row.now sum self.old ≡ Err e) }
        ensures fits { IfOk result (λ v. fits row.now.form v ≡ true) }
        ensures same { IfOk result (λ v. v ≡ sum) }
        ensures one { IfOk result (λ v. length self.old.left ≡ length self.new.left + 1) }
    {
        let field = self.next;
        let value = self.number(row)?;
        let said = u64::from(value);
        if sum != said {
            return Err(FieldFault::Sum { field, sum, said });
        }
        Ok(value)
    }

    /// The candidate of the next field, if that is one that may stand behind the last; else nothing is read.
    pub fn try_vote(&mut self, digits: u8, party: Option<u32>, last: u32) -> Option<Count>
        requires { digits ≤ 5 }
        ensures exact { MatchOption result
            ((vote_first digits party last self.old ≡ None) × (self.new ≡ self.old))
            (λ c. vote_first digits party last self.old ≡ Some (c, self.new)) }
        ensures few { IfSome result (λ c. c.votes ≤ greatest_count) }
        ensures one { IfSome result (λ c. length self.old.left ≡ length self.new.left + 1) }
    {
        let Some(text) = self.rest else {
            return None;
        };
        let (field, rest) = split_piece(text);
        match vote_after(digits, party, last, field) {
            Some(count) => {
                self.rest = rest;
                self.next += 1;
                Some(count)
            }
            None => None,
        }
    }

    /// The places of the next field, if that is one that may stand in an office with this code; else nothing is read.
    pub fn try_places(&mut self, code: u8) -> Option<u32>
        ensures exact { MatchOption result
            ((places_first code self.old ≡ None) × (self.new ≡ self.old))
            (λ n. places_first code self.old ≡ Some (n, self.new)) }
        ensures one { IfSome result (λ n. length self.old.left ≡ length self.new.left + 1) }
    {
        let Some(text) = self.rest else {
            return None;
        };
        let (field, rest) = split_piece(text);
        match places_of(code, field) {
            Some(places) => {
                self.rest = rest;
                self.next += 1;
                Some(places)
            }
            None => None,
        }
    }

    /// The party of the next field, if that is one that may stand behind the last; else nothing is read.
    pub fn try_party(&mut self, last: u32) -> Option<u32>
        ensures exact { MatchOption result
            ((party_first last self.old ≡ None) × (self.new ≡ self.old))
            (λ n. party_first last self.old ≡ Some (n, self.new)) }
        ensures one { IfSome result (λ n. length self.old.left ≡ length self.new.left + 1) }
    {
        let Some(text) = self.rest else {
            return None;
        };
        let (field, rest) = split_piece(text);
        match party_after(last, field) {
            Some(number) => {
                self.rest = rest;
                self.next += 1;
                Some(number)
            }
            None => None,
        }
    }
}
