//! The panels of the ballot: each office with its candidates, in the document's order.
ghost use Rattle.std.specs.Prelude.{◌≡◌, true, Some, map, IfOk};
ghost use Rattle.std.specs.List.{All, list_all};
ghost use Rattle.election_tables.specs.Offices.{code_digits};
ghost use Rattle.election_tables.specs.Rules.{are_distinct, same_pair};
ghost use Rattle.election_tables.specs.Fitting.{candidate_fits, office_fits};
ghost use Rattle.election_tables.specs.Tables.{entry_of_office, IsPanelOf};

use super::candidates::Candidates;
use super::to_u32;
use crate::document::{CandidateEntry, OfficeEntry};
use crate::office::{Office, code_digits};
use std::alloc::{AllocError, Global};

/// An office and its candidates.
#[derive(Drop)]
pub struct Panel {
    pub office: Office,
    pub candidates: Candidates,
}

fn to_office(entry: &OfficeEntry) -> Office
    requires { office_fits entry.now ≡ true }
    ensures entry { entry_of_office result ≡ entry.now }
    ensures digits { code_digits result.code ≡ Some result.digits }
{
    let code = to_u32(entry.code) as u8;
    Office {
        code,
        digits: code_digits(code).unwrap(),
        kind: entry.kind.unwrap(),
        seats: to_u32(entry.seats),
    }
}

fn panel_of(
    alloc: Global,
    entry: &OfficeEntry,
    candidates: &[CandidateEntry],
) -> Result<Panel, AllocError>
    requires office { office_fits entry.now ≡ true }
    requires in_range { list_all candidate_fits candidates.now ≡ true }
    requires distinct { are_distinct same_pair (map (λ c. (c.office, c.number)) candidates.now) ≡ true }
    ensures office { IfOk result (λ p. entry_of_office p.office ≡ entry.now) }
    ensures panel { IfOk result (IsPanelOf candidates.now) }
{
    let office = to_office(entry);
    let candidates = Candidates::of_office(alloc, office.code, candidates)?;
    Ok(Panel { office, candidates })
}

/// The panels of a document: its offices in their order, each with its candidates.
pub(crate) fn panels_of(
    alloc: Global,
    offices: &[OfficeEntry],
    candidates: &[CandidateEntry],
) -> Result<Vec<Panel>, AllocError>
    requires offices { list_all office_fits offices.now ≡ true }
    requires in_range { list_all candidate_fits candidates.now ≡ true }
    requires distinct { are_distinct same_pair (map (λ c. (c.office, c.number)) candidates.now) ≡ true }
    ensures offices { IfOk result (λ v. map (λ p. entry_of_office p.office) v.items ≡ offices.now) }
    ensures panels { IfOk result (λ v. All (IsPanelOf candidates.now) v.items) }
{
    let mut panels = Vec::new(alloc);
    for office in offices {
        panels.push(panel_of(alloc, office, candidates)?)?;
    }
    Ok(panels)
}
