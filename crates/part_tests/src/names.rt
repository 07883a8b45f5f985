//! Lists of names (the crate `key_script`).
use key_script::Names;
use std::alloc::{AllocError, Global};
use std::process::Abort;
use std::test::Fail;

/// A text that begins with some bytes, then has a line or a letter many times, and then ends with some bytes.
fn text(
    alloc: Global,
    front: &[u8],
    often: &[u8],
    times: u32,
    end: &[u8],
) -> Result<Vec<u8>, AllocError> {
    let mut text = Vec::from_slice(alloc, front)?;
    for _ in 0..times {
        text.extend_from_slice(often)?;
    }
    text.extend_from_slice(end)?;
    Ok(text)
}

/// A list has so many names, of which these stand at their places.
fn check_names(rt: &impl Abort, names: &Names, count: u32, rows: &[(u32, &str)]) {
    assert!(rt; names.len() == count);
    for (place, name) in rows {
        assert!(rt; *place < names.len());
        assert!(rt; names.name(*place) == *name, "{name}");
    }
}

/// The same of the list that a short text is.
fn check_list(rt: &impl Abort, text: Vec<u8>, count: u32, rows: &[(u32, &str)]) {
    assert!(rt; text.len() < 10_000);
    let names = Names::read(text).expect(rt, "a list");
    check_names(rt, &names, count, rows);
}

#[test]
fn names_stand_at_their_places(rt: HostRuntime) -> Result<(), Fail> {
    let few = text(
        rt.alloc(),
        b"\xC3\xA1.bu\nb\r\n\r\n \nsub/c.bu",
        b"",
        0,
        b"",
    )?;
    check_list(
        &rt,
        few,
        5,
        &[
            (0, "á.bu"),
            (1, "b\r"),
            (2, "\r"),
            (3, " "),
            (4, "sub/c.bu"),
        ],
    );
    let ends: [&[u8]; 2] = [b"last", b"last\n"];
    for end in ends {
        let many = text(rt.alloc(), b"first\n", b"a\n", 4_094, end)?;
        check_list(
            &rt,
            many,
            4_096,
            &[(0, "first"), (4_094, "a"), (4_095, "last")],
        );
    }
    Ok(())
}
