//! The record of the votes (the crate `vote_record`).
ghost use Rattle.std.specs.Prelude.{◌<◌, length};

use crate::tables::GOOD;
use election_tables::Tables;
use std::test::Fail;
use vote_kinds::{Choice, is_choice};
use vote_record::Rdv;

/// Whether the votes of the first panel are these, in this order, each once.
fn has_votes(votes: &Rdv, kept: [Choice; 6]) -> bool
    requires { 0 < length votes.now.bags }
{
    for (i, choice) in (0..6).zip(kept) {
        if i >= votes.total(0) || votes.vote(0, i) != choice || votes.count(0, choice) != 1 {
            return false;
        }
    }
    votes.total(0) == 6 && votes.count(0, Choice::Nominal(13)) == 0
}

#[test]
fn tells_votes_in_the_order_of_choices(rt: HostRuntime) -> Result<(), Fail> {
    let tables = Tables::read(rt.alloc(), GOOD.as_bytes())?;
    assert!(rt; tables.panels() == 3);
    let mut votes = Rdv::new(rt.alloc(), &tables, 6)?;
    let typed = [
        Choice::Null,
        Choice::Party(45),
        Choice::Blank,
        Choice::Nominal(45001),
        Choice::Party(13),
        Choice::Nominal(13001),
    ];
    for choice in typed {
        assert!(rt; votes.total(0) < 6 && is_choice(&tables, 0, choice));
        votes.add(&tables, 0, choice);
    }
    let kept = [
        Choice::Nominal(13001),
        Choice::Nominal(45001),
        Choice::Party(13),
        Choice::Party(45),
        Choice::Blank,
        Choice::Null,
    ];
    assert!(rt; has_votes(&votes, kept));
    Ok(())
}
