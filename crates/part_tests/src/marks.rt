//! The turnout of a roll (the crate `turnout`).
use std::process::Abort;
use std::test::Fail;
use turnout::Turnout;

/// Of three voters the last one comes, and then the first.
fn check_marks(rt: &impl Abort, turnout: &mut Turnout) {
    for (place, came) in [(2, 1), (0, 2)] {
        assert!(rt; place < turnout.voters() && !turnout.came(place), "{place}");
        turnout.mark(place);
        assert!(rt; turnout.len() == came, "after {place}");
    }
    assert!(rt; turnout.voters() == 3);
    for (place, came) in [(0, true), (1, false), (2, true), (3, false)] {
        assert!(rt; turnout.came(place) == came, "{place}");
    }
}

#[test]
fn counts_who_came(rt: HostRuntime) -> Result<(), Fail> {
    let mut turnout = Turnout::new(rt.alloc(), 3)?;
    check_marks(&rt, &mut turnout);
    Ok(())
}
