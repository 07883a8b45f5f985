//! The voter's terminal on one panel, key by key (the crate `voter_term`).
ghost use Rattle.key_script.specs.Event.{IsKey};

use crate::tables::GOOD;
use election_tables::Tables;
use key_script::Key;
use std::process::Abort;
use std::test::Fail;
use vote_kinds::{Choice, office_digits};
use voter_term::{Panel, Shown, screen};

/// The key of a byte of a row; C, as any other byte, confirms.
fn key_of(byte: u8) -> Key
    ensures { IsKey result }
{
    match byte {
        b'B' => Key::Blank,
        b'R' => Key::Correct,
        b'0'..=b'9' => Key::Digit(byte - b'0'),
        _ => Key::Confirm,
    }
}

/// What keys show on a panel of CAP digits, and each choice with which one ends a line of it, where `before` is the choice of the line
/// before, of the same panel.
fn shown_by<const CAP: u8>(
    rt: &(impl Abort + AllocGlobal),
    tables: &Tables,
    number: u32,
    before: Option<Choice>,
    keys: &str,
) -> Result<String, Fail> {
    assert!(rt; number < tables.panels());
    assert!(rt; office_digits(tables, number) == CAP);
    let mut panel = Panel::<CAP>::new();
    let mut text = String::new(rt.alloc());
    for &byte in keys.as_bytes() {
        match panel.key(tables, number, before, key_of(byte)) {
            Shown::Nothing => {}
            Shown::Screen => {
                let mut line = [b'#'; 128];
                let length = screen(tables, number, before, &panel.field(), &mut line);
                text.push_str(std::str::from_utf8(&line[..length as usize])?)?;
            }
            Shown::Voted(choice) => write!(text, "{choice:?}")?,
        }
    }
    Ok(text)
}

/// The keys of each row, behind its choice of the line before, show its text on a panel of CAP digits.
fn check_rows<const CAP: u8>(
    rt: &(impl Abort + AllocGlobal),
    tables: &Tables,
    number: u32,
    rows: &[(Option<Choice>, &str, &str)],
) -> Result<(), Fail> {
    for (before, keys, want) in rows {
        let shown = shown_by::<CAP>(rt, tables, number, *before, keys)?;
        assert!(rt; shown.as_str() == *want, "{keys}");
    }
    Ok(())
}

#[test]
fn five_digits_of_a_proportional_office(rt: HostRuntime) -> Result<(), Fail> {
    let tables = Tables::read(rt.alloc(), GOOD.as_bytes())?;
    let rows = [
        (None, "45C", "TELA 4\nTELA 45 LEGENDA PB\nParty(45)"),
        (None, "4B5C", "TELA 4\nTELA 45 LEGENDA PB\nParty(45)"),
        (
            None,
            "4599C",
            "TELA 4\nTELA 45 LEGENDA PB\nTELA 459 LEGENDA PB\nTELA 4599 LEGENDA PB\nParty(45)",
        ),
        (None, "99C", "TELA 9\nTELA 99 NULO\nNull"),
        (None, "01", "TELA 0\nTELA 01 NULO\n"),
        (None, "BC", "TELA BRANCO\nBlank"),
        (
            None,
            "B45RC45C",
            "TELA BRANCO\nTELA VAZIA\nTELA 4\nTELA 45 LEGENDA PB\nParty(45)",
        ),
        (
            None,
            "130017C",
            "TELA 1\nTELA 13 LEGENDA PA\nTELA 130 LEGENDA PA\nTELA 1300 LEGENDA PA\nTELA 13001 CANDIDATO ANA\nNominal(13001)",
        ),
    ];
    check_rows::<5>(&rt, &tables, 0, &rows)
}

#[test]
fn two_digits_of_a_majority_office(rt: HostRuntime) -> Result<(), Fail> {
    let tables = Tables::read(rt.alloc(), GOOD.as_bytes())?;
    let rows = [
        (None, "C", ""),
        (None, "9C", "TELA 9\n"),
        (None, "9C9C", "TELA 9\nTELA 99 NULO\nNull"),
        (None, "13C", "TELA 1\nTELA 13 CANDIDATO CARLA\nNominal(13)"),
        (None, "BRRC", "TELA BRANCO\nTELA VAZIA\n"),
        (
            Some(Choice::Nominal(13)),
            "13C",
            "TELA 1\nTELA 13 NULO\nNull",
        ),
        (
            Some(Choice::Nominal(45)),
            "13C",
            "TELA 1\nTELA 13 CANDIDATO CARLA\nNominal(13)",
        ),
    ];
    check_rows::<2>(&rt, &tables, 1, &rows)
}
