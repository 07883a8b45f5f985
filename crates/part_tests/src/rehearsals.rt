//! The texts of a rehearsal (the crate `rehearsal`).
use rehearsal::{
    read_roll, read_script, read_tables, rehearsal_keys, rehearsal_roll, rehearsal_tables,
};
use std::test::Fail;

/// The keys for one voter, and how many presses they are.
const ONE_VOTER: &[u8] = b"M ABRE 20261004080000
M TITULO 100000000000
M LIBERA
E 10100C
E 10C
M ENCERRA 20261004170000
";

const ONE_VOTER_PRESSES: u32 = 13;

/// How the text of the tables begins: the keys of a document are printed in the order of their bytes.
const TABLES_BEGIN: &[u8] = b"data = 20261004
processo = 1
turno = 1

[[candidato]]
";

#[test]
fn the_tables_for_one_voter_are_read(rt: HostRuntime) -> Result<(), Fail> {
    let text = rehearsal_tables(rt.alloc(), 1)?;
    assert!(rt; text.starts_with(TABLES_BEGIN));
    let (read, tables) = read_tables(rt.alloc(), 1)?;
    assert!(rt; read.as_slice() == text.as_slice());
    assert!(rt; tables.candidate_count(0) == 1_000 && tables.candidate_count(1) == 6);
    Ok(())
}

#[test]
fn the_roll_for_one_voter_is_read(rt: HostRuntime) -> Result<(), Fail> {
    let text = rehearsal_roll(rt.alloc(), 1)?;
    assert!(rt; text.as_slice() == b"100000000000\n".as_slice());
    let (_, roll) = read_roll(rt.alloc(), 1)?;
    assert!(rt; roll.len() == 1);
    Ok(())
}

#[test]
fn the_keys_for_one_voter_are_read(rt: HostRuntime) -> Result<(), Fail> {
    let keys = rehearsal_keys(rt.alloc(), 1)?;
    assert!(rt; keys.as_slice() == ONE_VOTER);
    let script = read_script(rt.alloc(), 1)?;
    let mut presses = 0u32;
    for _ in script.events() {
        presses = presses.saturating_add(1);
    }
    assert!(rt; presses == ONE_VOTER_PRESSES);
    Ok(())
}
