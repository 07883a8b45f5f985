//! Files of reports, joined and made again, and the verdict on one (the crates `hash_chain` and `section_intake`).

use crate::reports::TABLES;
use election_tables::Tables;
use hash_chain::{PartError, join_parts, make_parts};
use hex::encode_upper;
use section_intake::{Verdict, check};
use sha2::{Digest, Sha512};
use std::alloc::{AllocError, Global};
use std::test::Fail;
use urna_base::Memory;

mod rows;

pub(crate) use rows::REPORT;
use rows::{MADE, ONE_PART, Part};

/// Whether a file is made again of its text as it is.
fn is_made_again(alloc: Global, file: &[u8]) -> Result<bool, Memory> {
    if file.len() >= 1 << 31 {
        return Ok(false);
    }
    match join_parts(alloc, file) {
        Ok(text) => Ok(make_parts(alloc, &text)?.as_slice() == file),
        Err(PartError::Memory) => Err(Memory),
        Err(PartError::Fault(_)) => Ok(false),
    }
}

/// The text of a part, which has a run of letters.
fn text_of(alloc: Global, part: &Part<'_>) -> Result<String, AllocError> {
    let (front, run, behind) = part;
    let mut text = String::from_str(alloc, front)?;
    for _ in 0..*run {
        text.push_str("A")?;
    }
    text.push_str(behind)?;
    Ok(text)
}

/// A file of these parts, each with its hash.
fn made(alloc: Global, parts: &[Part<'_>]) -> Result<String, AllocError> {
    let mut file = String::new(alloc);
    let mut before = String::new(alloc);
    for part in parts {
        let text = text_of(alloc, part)?;
        let mut hasher = Sha512::new();
        hasher.update(before.as_bytes());
        hasher.update(text.as_bytes());
        before = encode_upper(alloc, hasher.finalize())?;
        file.push_str(&text)?;
        file.push_str(" HASH:")?;
        file.push_str(&before)?;
        file.push_str("\n")?;
    }
    Ok(file)
}

#[test]
fn files_are_made_again_of_their_texts(rt: HostRuntime) -> Result<(), Fail> {
    assert!(rt; is_made_again(rt.alloc(), ONE_PART.as_bytes())?);
    for parts in MADE {
        let file = made(rt.alloc(), *parts)?;
        assert!(rt;
            is_made_again(rt.alloc(), file.as_bytes())?,
            "{}",
            file.as_str()
        );
    }
    Ok(())
}

#[test]
fn a_file_has_its_verdict(rt: HostRuntime) -> Result<(), Fail> {
    let tables = Tables::read(rt.alloc(), TABLES)?;
    let verdict = check(rt.alloc(), &tables, REPORT)?;
    assert!(rt;
        verdict
            == Verdict::Accepted {
                zone: 1,
                section: 42
            }
    );
    Ok(())
}
