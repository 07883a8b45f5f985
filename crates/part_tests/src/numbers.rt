//! Numbers and bytes (the crate `urna_base`).
use crate::lines::sealed_line;
use std::test::Fail;
use urna_base::{
    be32, be64, date_ok, decimal, decimal_into, digits, moment_ok, put_be32, put_be64, put_decimal,
    put_digits, split_line, zeros,
};

#[test]
fn a_line_is_its_pieces_joined(rt: HostRuntime) {
    let line = sealed_line(20_261_004_170_000, 600);
    assert!(rt; line.as_bytes() == b"ENCERRADA 20261004170000 600\n".as_slice());
}

#[test]
fn digits_and_decimals_read_as_written(rt: HostRuntime) {
    let rows: [(&[u8], Option<u64>, Option<u64>); 7] = [
        (b"07", Some(7), None),
        (b"70", Some(70), Some(70)),
        (b"0", None, Some(0)),
        (b"", None, None),
        (b"1X", None, None),
        (b"999999999999999999", None, Some(999_999_999_999_999_999)),
        (b"1000000000000000000", None, None),
    ];
    for (text, two, any) in rows {
        assert!(rt; digits(text, 2) == two);
        assert!(rt; decimal(text) == any);
    }
}

#[test]
fn dates_and_moments_have_their_ranges(rt: HostRuntime) {
    for (moment, valid) in [
        (20_261_004_080_000, true),
        (99_991_231_235_959, true),
        (20_261_004_240_000, false),
        (20_261_004_236_000, false),
        (20_261_004_235_960, false),
        (20_261_304_080_000, false),
        (20_261_032_080_000, false),
        (9_991_231_235_959, false),
    ] {
        assert!(rt; moment_ok(moment) == valid, "{moment}");
    }
    assert!(rt; date_ok(20_261_004));
}

#[test]
fn numbers_print_with_ample_memory(rt: HostRuntime) {
    let mut out = Vec::new(rt.alloc());
    assert!(rt; put_digits(&mut out, 12, 4).is_ok());
    assert!(rt; put_decimal(&mut out, u64::MAX).is_ok());
    assert!(rt; out.as_slice() == b"001218446744073709551615".as_slice());
    let mut text = [b'-'; 20];
    assert!(rt; decimal_into(600, &mut text) == 3);
    assert!(rt; text == *b"600-----------------");
}

#[test]
fn big_endian_has_the_highest_byte_first(rt: HostRuntime) {
    assert!(rt; put_be32(0x0102_0304) == [1, 2, 3, 4]);
    assert!(rt; be32([1, 2, 3, 4]) == 0x0102_0304);
    assert!(rt; put_be64(0x0102_0304_0506_0708) == [1, 2, 3, 4, 5, 6, 7, 8]);
    assert!(rt; be64([1, 2, 3, 4, 5, 6, 7, 8]) == 0x0102_0304_0506_0708);
}

#[test]
fn lines_are_split_at_line_feeds(rt: HostRuntime) {
    let text: &[u8] = b"ab\n\nc";
    let mut rest = text;
    for want in [b"ab".as_slice(), b"".as_slice(), b"c".as_slice()] {
        if let Some((line, others)) = split_line(rest) {
            assert!(rt; line == want);
            rest = others;
        }
    }
    assert!(rt; split_line(rest).is_none());
}

#[test]
fn a_buffer_is_zeros(rt: HostRuntime) -> Result<(), Fail> {
    assert!(rt; zeros(rt.alloc(), 3)?.as_slice() == [0, 0, 0].as_slice());
    Ok(())
}
