//! Tables and rolls read from text, and each call on them once (the crate `election_tables`).
use election_tables::{Candidate, Office, Roll, Section, Tables, code_digits, code_proportional};
use sha2::{Digest, Sha256};
use std::alloc::{AllocError, Global};
use std::test::Fail;

mod documents;

pub(crate) use documents::GOOD;
use documents::{DOCUMENTS, GOOD_PANELS, PanelRow, SPELLINGS};

/// The first answer that isn't as the good document has it, but for the panels.
fn wrong_list(tables: &Tables) -> Option<&'static str> {
    let first = Section {
        zone: 1,
        number: 42,
        voters: 600,
    };
    let second = Section {
        zone: 2,
        number: 1,
        voters: 3,
    };
    if (tables.process(), tables.date(), tables.turn()) != (7, 20261004, 1) {
        return Some("the head");
    }
    if tables.party_count() != 2 || tables.section_count() != 2 {
        return Some("how many parties or sections");
    }
    if (tables.party(0), tables.party(1)) != (13, 45) {
        return Some("the parties");
    }
    if tables.party_name(45) != Some("PB") || tables.party_name(46) != None {
        return Some("the names of parties");
    }
    if (tables.section(0), tables.section(1)) != (first, second) {
        return Some("the sections");
    }
    if tables.find_section(2, 1) != Some(second) {
        return Some("the section of a zone and number");
    }
    if tables.find_section(1, 2) != None || tables.find_section(42, 1) != None {
        return Some("a section that isn't there");
    }
    if tables.section_place(2, 1) != Some(1) || tables.section_place(1, 2) != None {
        return Some("the place of a section");
    }
    None
}

/// Whether a panel has this office and, rising, these candidates: number, birth and name.
fn has_panel(tables: &Tables, panel: u32, office: Office, candidates: &[(u32, u32, &str)]) -> bool {
    if panel >= tables.panels() || tables.office(panel) != office || tables.places(panel) != 1 {
        return false;
    }
    if tables.candidate_count(panel) as usize != candidates.len() {
        return false;
    }
    for i in 0..tables.candidate_count(panel) {
        let Some((number, birth, name)) = candidates.get(i as usize) else {
            return false;
        };
        let candidate = Candidate {
            number: *number,
            birth: *birth,
        };
        if tables.candidate(panel, i) != candidate {
            return false;
        }
        if tables.candidate_name(panel, *number) != Some(*name) {
            return false;
        }
    }
    true
}

/// The first panel of the tables that isn't the one of its place among these.
fn wrong_panel(tables: &Tables, panels: &[PanelRow]) -> Option<u32> {
    for panel in 0..tables.panels() {
        let Some((code, digits, kind, seats, candidates)) = panels.get(panel as usize) else {
            return Some(panel);
        };
        let office = Office {
            code: *code,
            digits: *digits,
            kind: *kind,
            seats: *seats,
        };
        if !has_panel(tables, panel, office, candidates) {
            return Some(panel);
        }
    }
    None
}

#[test]
fn tables_answer(rt: HostRuntime) -> Result<(), Fail> {
    let tables = Tables::read(rt.alloc(), GOOD.as_bytes())?;
    let wrong = wrong_list(&tables);
    assert!(rt; wrong == None, "{}", wrong.unwrap_or(""));
    assert!(rt; tables.candidate_name(0, 45) == None && tables.candidate_name(3, 45) == None);
    assert!(rt; tables.digest() == Sha256::digest(GOOD.as_bytes()));
    Ok(())
}

#[test]
fn each_document_has_its_panels(rt: HostRuntime) -> Result<(), Fail> {
    for (text, panels) in DOCUMENTS {
        let tables = Tables::read(rt.alloc(), text.as_bytes())?;
        assert!(rt; tables.panels() as usize == panels.len());
        let wrong = wrong_panel(&tables, *panels);
        assert!(rt; wrong == None, "panel {} of {text}", wrong.unwrap_or(0));
    }
    Ok(())
}

/// The good document in another spelling: each text in the place of another, one after the other.
fn spelled(alloc: Global, changes: &[(&str, &str)]) -> Result<String, AllocError> {
    let mut text = String::from_str(alloc, GOOD)?;
    for (old, new) in changes {
        text = text.as_str().replace(alloc, *old, *new)?;
    }
    Ok(text)
}

#[test]
fn other_spellings_are_the_same_tables(rt: HostRuntime) -> Result<(), Fail> {
    for changes in SPELLINGS {
        let text = spelled(rt.alloc(), *changes)?;
        let tables = Tables::read(rt.alloc(), text.as_str().as_bytes())?;
        assert!(rt; text.as_str() != GOOD);
        assert!(rt; wrong_list(&tables) == None, "{}", text.as_str());
        assert!(rt;
            wrong_panel(&tables, GOOD_PANELS) == None,
            "{}",
            text.as_str()
        );
    }
    Ok(())
}

/// A document with 4,096 candidates and 2,000 sections, all falling.
fn falling(alloc: Global) -> Result<String, AllocError> {
    let mut text = String::from_str(
        alloc,
        "processo = 7\ndata = 20261004\nturno = 1\ncargo = [{codigo = 13, regra = \"proporcional\", cadeiras = 200}]\n",
    )?;
    for party in 10..15 {
        text.push_str(format!(in alloc;
            "[[partido]]\nnumero = {party}\nnome = \"{party}\"\n"
        )?.as_str())?;
    }
    for k in 0..4096u32 {
        let number = 14095 - k;
        text.push_str(format!(in alloc;
            "[[candidato]]\ncargo = 13\nnumero = {number}\nnascimento = 19600303\nnome = \"{number}\"\n"
        )?.as_str())?;
    }
    for k in 0..2000u32 {
        let zone = 2000 - k;
        text.push_str(format!(in alloc;
            "[[secao]]\nzona = {zone}\nsecao = 7\neleitores = 600\n"
        )?.as_str())?;
    }
    Ok(text)
}

/// Whether the candidates 10000 to 14095 and the sections of the zones 1 to 2000 rise.
fn rises(alloc: Global, tables: &Tables) -> Result<bool, AllocError> {
    if tables.panels() != 1 {
        return Ok(false);
    }
    if (tables.candidate_count(0), tables.section_count()) != (4096, 2000) {
        return Ok(false);
    }
    for i in 0..4096u32 {
        let number = 10000 + i;
        let name = format!(in alloc; "{number}")?;
        if tables.candidate(0, i).number != number
            || tables.candidate_name(0, number) != Some(name.as_str())
        {
            return Ok(false);
        }
    }
    for i in 0..2000u32 {
        let section = Section {
            zone: 1 + i,
            number: 7,
            voters: 600,
        };
        if tables.section(i) != section || tables.find_section(1 + i, 7) != Some(section) {
            return Ok(false);
        }
    }
    Ok(true)
}

#[test]
fn long_lists_rise(rt: HostRuntime) -> Result<(), Fail> {
    let text = falling(rt.alloc())?;
    let tables = Tables::read(rt.alloc(), text.as_str().as_bytes())?;
    assert!(rt; rises(rt.alloc(), &tables)?);
    Ok(())
}

#[test]
fn a_roll_answers(rt: HostRuntime) -> Result<(), Fail> {
    let text = b"010000000001\n010000000002\n010000000003\n";
    let roll = Roll::read(rt.alloc(), text)?;
    assert!(rt; roll.len() == 3);
    assert!(rt; roll.title(2) == 10000000003);
    assert!(rt; roll.place(10000000002) == Some(1));
    assert!(rt; roll.place(10000000004) == None);
    assert!(rt; roll.digest() == Sha256::digest(text));
    Ok(())
}

#[test]
fn codes_have_digits_and_kinds(rt: HostRuntime) {
    for (code, digits, proportional) in [
        (1, Some(2), false),
        (3, Some(2), false),
        (5, Some(3), false),
        (6, Some(4), true),
        (7, Some(5), true),
        (8, Some(5), true),
        (11, Some(2), false),
        (13, Some(5), true),
        (2, None, false),
    ] {
        assert!(rt; code_digits(code) == digits, "at {code}");
        assert!(rt; code_proportional(code) == proportional, "at {code}");
    }
}
