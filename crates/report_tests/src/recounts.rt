//! A record that was made by hand, whose votes stand in another order than each text has them (the crate `record_audit`).

use crate::reports::TWO_OFFICES;
use qr_text::read_fields;
use record_audit::{Choices, Finding, RecordOffice, RecordOffices, RecordText, audit};
use std::alloc::Global;
use std::test::Fail;
use urna_base::Memory;
use vote_kinds::Choice;

/// Votes in this order.
fn votes_of(alloc: Global, votes: &[Choice; 3]) -> Result<Choices, Memory> {
    let mut choices = Choices::new(alloc);
    choices.push(votes[0])?;
    choices.push(votes[1])?;
    choices.push(votes[2])?;
    Ok(choices)
}

/// The record of the report of two offices, with these votes in the first of them.
fn record_with(alloc: Global, votes: &[Choice; 3]) -> Result<RecordText, Memory> {
    let mut offices = RecordOffices::new(alloc);
    offices.push(RecordOffice {
        code: 13,
        votes: votes_of(alloc, votes)?,
    })?;
    offices.push(RecordOffice {
        code: 11,
        votes: votes_of(
            alloc,
            &[Choice::Null, Choice::Nominal(45), Choice::Nominal(13)],
        )?,
    })?;
    Ok(RecordText {
        process: 7,
        date: 20261004,
        turn: 1,
        zone: 1,
        section: 42,
        offices,
    })
}

/// What a recount of it finds.
fn found(alloc: Global, votes: &[Choice; 3]) -> Result<Option<Finding>, Memory> {
    let Ok(report) = read_fields(alloc, TWO_OFFICES.as_bytes()) else {
        return Ok(None);
    };
    let record = record_with(alloc, votes)?;
    Ok(Some(audit(&record, &report)))
}

#[test]
fn votes_out_of_order_are_counted(rt: HostRuntime) -> Result<(), Fail> {
    let same = [Choice::Blank, Choice::Nominal(13001), Choice::Party(45)];
    assert!(rt; found(rt.alloc(), &same)? == Some(Finding::Agree));
    // The party's vote is for another candidate.
    let other = [
        Choice::Blank,
        Choice::Nominal(99999),
        Choice::Nominal(13001),
    ];
    let first = Finding::Differs {
        panel: 0,
        choice: Choice::Nominal(99999),
        lines: 1,
        said: 0,
    };
    assert!(rt; found(rt.alloc(), &other)? == Some(first));
    Ok(())
}
