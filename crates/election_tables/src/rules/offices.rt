//! The rules on offices: 5, 6 and 14.
ghost use Rattle.std.specs.Prelude.{◌≡◌, ◌≤◌, is_some, map, IfOk, IfSome};
ghost use Rattle.std.specs.List.{list_all};
ghost use Rattle.election_tables.specs.Rules.{digits_by_code, kind_fits, seats_in_range, rule_5, rule_6, rule_14};

use super::distinct::numbers_differ;
use super::fields::{is_within, natural};
use crate::document::{Document, OfficeEntry};
use crate::office::{Kind, allows, digits_of_code, most_seats};
use std::alloc::{AllocError, Global};

/// The digits of an office, if the code is one.
pub(crate) fn digits_by_code(code: i64) -> Option<u8>
    ensures digits { result ≡ digits_by_code code }
    ensures few { IfSome result (λ digits. (2 ≤ digits) × (digits ≤ 5)) }
{
    match natural(code) {
        Some(n) => digits_of_code(n),
        None => None,
    }
}

fn codes_known(offices: &[OfficeEntry]) -> bool
    ensures { result ≡ list_all (λ o. is_some (digits_by_code o.code)) offices.now }
{
    offices.iter().all(|o| digits_by_code(o.code).is_some())
}

fn office_codes(alloc: Global, offices: &[OfficeEntry]) -> Result<Vec<i64>, AllocError>
    ensures { IfOk result (λ v. v.items ≡ map (λ o. o.code) offices.now) }
{
    offices.iter().map(|o| o.code).collect(alloc)
}

fn kind_fits(code: i64, kind: Option<Kind>) -> bool
    ensures { result ≡ kind_fits code kind }
{
    match kind {
        Some(kind) => match natural(code) {
            Some(n) => allows(n, kind),
            None => false,
        },
        None => false,
    }
}

fn kinds_fit(offices: &[OfficeEntry]) -> bool
    ensures { result ≡ list_all (λ o. kind_fits o.code o.kind) offices.now }
{
    offices.iter().all(|o| kind_fits(o.code, o.kind))
}

fn seats_in_range(office: &OfficeEntry) -> bool
    ensures { result ≡ seats_in_range office.now }
{
    match natural(office.code) {
        Some(code) => is_within(office.seats, 1, most_seats(code)),
        None => false,
    }
}

fn all_seats_in_range(offices: &[OfficeEntry]) -> bool
    ensures { result ≡ list_all seats_in_range offices.now }
{
    offices.iter().all(|o| seats_in_range(o))
}

impl Document {
    /// Whether each code is an office's and none stands twice.
    pub(crate) fn keeps_rule_5(&self, alloc: Global) -> Result<bool, AllocError>
        ensures { IfOk result (λ b. b ≡ rule_5 self.now) }
    {
        let codes = office_codes(alloc, &self.offices)?;
        Ok(codes_known(&self.offices) && numbers_differ(codes))
    }

    /// Whether each office may be decided as `regra` says.
    pub(crate) fn keeps_rule_6(&self) -> bool
        ensures { result ≡ rule_6 self.now }
    {
        kinds_fit(&self.offices)
    }

    /// Whether each office has as many seats as it may have.
    pub(crate) fn keeps_rule_14(&self) -> bool
        ensures { result ≡ rule_14 self.now }
    {
        all_seats_in_range(&self.offices)
    }
}
