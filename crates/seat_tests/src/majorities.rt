//! What comes of a majority office.
use crate::owed::candidate_votes;
use crate::rows::MAJORITIES;
use seat_remainders::{Entry, MajorityOutcome, majority};
use std::alloc::{AllocError, Global};
use std::test::Fail;

/// The candidates of a row, numbered from 1.
fn entries_of(alloc: Global, candidates: &[(u64, u32)]) -> Result<Vec<Entry>, AllocError> {
    let mut entries = Vec::new(alloc);
    let mut number = 0u32;
    for (votes, birth) in candidates {
        number = number.wrapping_add(1);
        entries.push(Entry {
            number,
            birth: *birth,
            votes: *votes,
        })?;
    }
    Ok(entries)
}

/// What comes of some candidates, if they have few enough votes.
fn outcome_of(entries: &[Entry], absolute: bool) -> Option<MajorityOutcome> {
    match candidate_votes(entries) {
        Some(votes) if votes <= 1_000_000_000_000 => Some(majority(entries, absolute)),
        _ => None,
    }
}

#[test]
fn each_majority_office_has_its_outcome(rt: HostRuntime) -> Result<(), Fail> {
    for (candidates, absolute, outcome) in MAJORITIES {
        let entries = entries_of(rt.alloc(), candidates)?;
        assert!(rt; outcome_of(&entries, *absolute) == Some(*outcome));
    }
    Ok(())
}
