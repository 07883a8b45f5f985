//! The candidates of one office, rising by number.
ghost use Rattle.std.specs.Prelude.{◌≡◌, ◌<◌, true, Some, pos, length, map, slice_get, option_map, IfOk, IsPermutation, option_copied};
ghost use Rattle.std.specs.List.{list_all};
ghost use Rattle.election_tables.specs.Rules.{are_distinct, same_pair};
ghost use Rattle.election_tables.specs.Fitting.{candidate_fits};
ghost use Rattle.election_tables.specs.Tables.{candidates_of, entry_of_candidate};
ghost use Rattle.election_tables.specs.TablesData.{CandidatesRise, candidate_name, without_name};

use super::to_u32;
use crate::document::{CandidateEntry, Name};
use std::alloc::{AllocError, Global};
use std::marker::Model;

/// A candidate: the number, and the birth date as YYYYMMDD.
#[derive(Clone, Copy, Debug, PartialEq, Eq)]
pub struct Candidate {
    pub number: u32,
    pub birth: u32,
}

/// A candidate with a name.
#[derive(Drop)]
pub struct NamedCandidate {
    pub number: u32,
    pub birth: u32,
    pub name: Name,
}

/// The candidates of an office, rising by number, which contracts see as their list.
#[derive(Drop)]
pub struct Candidates {
    items: Vec<NamedCandidate>,
}

impl Model for Candidates {
    ghost use Rattle.std.specs.Prelude.{List};
    ghost use Rattle.election_tables.specs.declared.tables.candidates.NamedCandidate.{NamedCandidate};

    ghost Value = { List NamedCandidate };

    ghost use Rattle.election_tables.specs.TablesData.{CandidatesRise};

    ghost view = { λ c. c.items.items };

    ghost invariant = { λ c. CandidatesRise c.items.items };
}

#[tactic(auto, using(crate::proofs::Signs::within_low, crate::proofs::Signs::within_high))]
fn to_candidate(alloc: Global, entry: &CandidateEntry) -> Result<NamedCandidate, AllocError>
    requires { candidate_fits entry.now ≡ true }
    ensures { IfOk result (λ c. record { office = entry.now.office; number = pos c.number; birth = pos c.birth; name = c.name } ≡ entry.now) }
{
    let name = Name::copied(alloc, entry.name.as_str())?;
    Ok(NamedCandidate {
        number: to_u32(entry.number),
        birth: to_u32(entry.birth),
        name,
    })
}

/// The candidates of an office, in the document's order.
fn picked(
    alloc: Global,
    code: u8,
    entries: &[CandidateEntry],
) -> Result<Vec<NamedCandidate>, AllocError>
    requires { list_all candidate_fits entries.now ≡ true }
    ensures { IfOk result (λ v. map (entry_of_candidate code) v.items ≡ candidates_of code entries.now) }
{
    let office = i64::from(code);
    let mut candidates = Vec::new(alloc);
    for entry in entries {
        if entry.office == office {
            candidates.push(to_candidate(alloc, entry)?)?;
        }
    }
    Ok(candidates)
}

impl Candidates {
    /// The document's candidates of an office, rising by number.
    pub(crate) fn of_office(
        alloc: Global,
        code: u8,
        entries: &[CandidateEntry],
    ) -> Result<Candidates, AllocError>
        requires in_range { list_all candidate_fits entries.now ≡ true }
        requires distinct { are_distinct same_pair (map (λ c. (c.office, c.number)) entries.now) ≡ true }
        ensures ok { IfOk result (λ v. IsPermutation (candidates_of code entries.now) (map (entry_of_candidate code) v)) }
        ensures rise { IfOk result CandidatesRise }
    {
        let mut items = picked(alloc, code, entries)?;
        items.sort_unstable_by_key(|c| c.number);
        Ok(Candidates { items })
    }

    pub(crate) fn len(&self) -> usize
        ensures { result ≡ length self.now }
    {
        self.items.len()
    }

    /// The candidate at a place, in rising order.
    pub(crate) fn at(&self, i: usize) -> Candidate
        requires { i < length self.now }
        ensures { option_map without_name (slice_get self.now i) ≡ Some result }
    {
        let candidate = &self.items[i];
        Candidate {
            number: candidate.number,
            birth: candidate.birth,
        }
    }

    /// The name of the candidate of a number, by binary search.
    pub(crate) fn name_of(&self, number: u32) -> Option<&str>
        ensures { option_copied result ≡ candidate_name number self.now }
    {
        match self.items.binary_search_by_key(&number, |c| c.number) {
            Ok(i) => Some(self.items[i].name.as_str()),
            Err(_) => None,
        }
    }
}
