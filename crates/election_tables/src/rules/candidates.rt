//! The rules on parties and candidates: 7 to 12.
ghost use Rattle.std.specs.Prelude.{◌≡◌, map, IfOk, pos};
ghost use Rattle.std.specs.List.{list_all, list_any};
ghost use Rattle.std.specs.Ordering.{int_eq};
ghost use Rattle.election_tables.specs.Rules.{has_office, has_party, rule_7, rule_8, rule_9, rule_10, rule_11, rule_12};

use super::distinct::{numbers_differ, pairs_differ};
use super::fields::{first_two, has_digits, is_number, is_valid_date, is_within, natural};
use super::offices::digits_by_code;
use crate::document::{CandidateEntry, Document, OfficeEntry, PartyEntry};
use std::alloc::{AllocError, Global};

fn party_numbers(alloc: Global, parties: &[PartyEntry]) -> Result<Vec<i64>, AllocError>
    ensures { IfOk result (λ v. v.items ≡ map (λ p. p.number) parties.now) }
{
    parties.iter().map(|p| p.number).collect(alloc)
}

fn candidate_keys(
    alloc: Global,
    candidates: &[CandidateEntry],
) -> Result<Vec<(i64, i64)>, AllocError>
    ensures { IfOk result (λ v. v.items ≡ map (λ c. (c.office, c.number)) candidates.now) }
{
    candidates
        .iter()
        .map(|c| (c.office, c.number))
        .collect(alloc)
}

fn has_code(offices: &[OfficeEntry], code: i64) -> bool
    ensures { result ≡ list_any (λ o. int_eq o.code code) offices.now }
{
    offices.iter().any(|o| o.code == code)
}

fn has_office(offices: &[OfficeEntry], candidate: &CandidateEntry) -> bool
    ensures { result ≡ has_office offices.now candidate.now }
{
    if !has_code(offices, candidate.office) {
        return false;
    }
    match digits_by_code(candidate.office) {
        Some(digits) => match natural(candidate.number) {
            Some(n) => has_digits(digits, n),
            None => false,
        },
        None => false,
    }
}

fn all_have_office(offices: &[OfficeEntry], candidates: &[CandidateEntry]) -> bool
    ensures { result ≡ list_all (has_office offices.now) candidates.now }
{
    candidates.iter().all(|c| has_office(offices, c))
}

fn has_number(parties: &[PartyEntry], number: u64) -> bool
    ensures { result ≡ list_any (λ p. int_eq p.number (pos number)) parties.now }
{
    parties.iter().any(|p| is_number(p.number, number))
}

fn has_party(parties: &[PartyEntry], candidate: &CandidateEntry) -> bool
    ensures { result ≡ has_party parties.now candidate.now }
{
    match digits_by_code(candidate.office) {
        Some(digits) => match natural(candidate.number) {
            Some(n) => has_number(parties, first_two(digits, n)),
            None => false,
        },
        None => false,
    }
}

fn all_have_party(parties: &[PartyEntry], candidates: &[CandidateEntry]) -> bool
    ensures { result ≡ list_all (has_party parties.now) candidates.now }
{
    candidates.iter().all(|c| has_party(parties, c))
}

impl Document {
    /// Whether each party number has two digits.
    pub(crate) fn keeps_rule_7(&self) -> bool
        ensures { result ≡ rule_7 self.now }
    {
        self.parties.iter().all(|p| is_within(p.number, 10, 99))
    }

    /// Whether no party number stands twice.
    pub(crate) fn keeps_rule_8(&self, alloc: Global) -> Result<bool, AllocError>
        ensures { IfOk result (λ b. b ≡ rule_8 self.now) }
    {
        let numbers = party_numbers(alloc, &self.parties)?;
        Ok(numbers_differ(numbers))
    }

    /// Whether each candidate has an office of the document, and a number with its digits.
    pub(crate) fn keeps_rule_9(&self) -> bool
        ensures { result ≡ rule_9 self.now }
    {
        all_have_office(&self.offices, &self.candidates)
    }

    /// Whether each candidate's number begins with a party's.
    pub(crate) fn keeps_rule_10(&self) -> bool
        ensures { result ≡ rule_10 self.now }
    {
        all_have_party(&self.parties, &self.candidates)
    }

    /// Whether no two candidates of an office have one number.
    pub(crate) fn keeps_rule_11(&self, alloc: Global) -> Result<bool, AllocError>
        ensures { IfOk result (λ b. b ≡ rule_11 self.now) }
    {
        let keys = candidate_keys(alloc, &self.candidates)?;
        Ok(pairs_differ(keys))
    }

    /// Whether each birth date is valid.
    pub(crate) fn keeps_rule_12(&self) -> bool
        ensures { result ≡ rule_12 self.now }
    {
        self.candidates.iter().all(|c| is_valid_date(c.birth))
    }
}
