//! The texts of reports, read and written again (the crates `poll_report` and `qr_text`).
ghost use Rattle.std.specs.List.{Contains};
ghost use Rattle.image_codec.specs.Encoding.{IsStateOf};

use crate::bodies::body_of;
use election_tables::{Section, Tables};
use image_codec::{State, decode};
use poll_report::{Count, OfficeCount, Report};
use qr_text::{FieldError, FieldFault, read_fields, write_fields};
use std::alloc::Global;
use std::test::Fail;
use turnout::Phase;
use urna_base::Memory;

mod texts;

pub(crate) use texts::TWO_OFFICES;
use texts::{GOOD, NO_PART};

/// The first field of a text that is at fault; nothing where there is none, or a sum disagrees.
fn field_at_fault(alloc: Global, text: &str) -> Result<Option<u32>, Memory> {
    if text.len() >= 1 << 31 {
        return Ok(None);
    }
    match read_fields(alloc, text.as_bytes()) {
        Ok(_) => Ok(None),
        Err(FieldError::Memory) => Err(Memory),
        Err(FieldError::Fault(FieldFault::Field(field))) => Ok(Some(field)),
        Err(FieldError::Fault(FieldFault::Sum { .. })) => Ok(None),
    }
}

#[test]
fn texts_that_no_part_holds_have_their_fault(rt: HostRuntime) -> Result<(), Fail> {
    for (old, new, field) in NO_PART {
        let text = TWO_OFFICES.replace(rt.alloc(), *old, *new)?;
        assert!(rt;
            field_at_fault(rt.alloc(), text.as_str())? == Some(*field),
            "{new}"
        );
    }
    Ok(())
}

/// Whether an office has these counts, with one place.
fn has_counts(
    office: &OfficeCount,
    code: u8,
    nominal: &[Count],
    parties: &[Count],
    others: (u32, u32),
) -> bool {
    office.code == code
        && office.places == 1
        && office.nominal.as_slice() == nominal
        && office.parties.as_slice() == parties
        && (office.blank, office.null_votes) == others
}

/// One vote for a number.
fn one_for(number: u32) -> Count {
    Count { number, votes: 1 }
}

/// Whether a report is that of the text of two offices.
fn is_of_two(report: &Report) -> bool {
    let poll = (report.process, report.date, report.turn) == (7, 20261004, 1);
    let section = (report.zone, report.section, report.able, report.came) == (1, 42, 3, 3);
    let hours = (report.opened, report.closed) == (20261004080000, 20261004170000);
    let offices = report.offices.as_slice();
    poll && section
        && hours
        && offices.len() == 2
        && has_counts(&offices[0], 13, &[one_for(13001)], &[one_for(45)], (1, 0))
        && has_counts(&offices[1], 11, &[one_for(13), one_for(45)], &[], (0, 1))
}

/// Whether the text of two offices spells its report.
fn is_read(alloc: Global) -> Result<bool, Memory> {
    match read_fields(alloc, TWO_OFFICES.as_bytes()) {
        Ok(report) => Ok(is_of_two(&report)),
        Err(FieldError::Memory) => Err(Memory),
        Err(FieldError::Fault(_)) => Ok(false),
    }
}

#[test]
fn a_text_gives_the_numbers_of_its_report(rt: HostRuntime) -> Result<(), Fail> {
    assert!(rt; is_read(rt.alloc())?);
    Ok(())
}

/// Whether a text is written as it was read.
fn is_rewritten(alloc: Global, text: &str) -> Result<bool, Memory> {
    if text.len() >= 1 << 31 {
        return Ok(false);
    }
    match read_fields(alloc, text.as_bytes()) {
        Ok(report) => Ok(write_fields(alloc, &report)?.as_slice() == text.as_bytes()),
        Err(FieldError::Memory) => Err(Memory),
        Err(FieldError::Fault(_)) => Ok(false),
    }
}

#[test]
fn each_report_is_written_as_it_was_read(rt: HostRuntime) -> Result<(), Fail> {
    for text in GOOD {
        assert!(rt; is_rewritten(rt.alloc(), *text)?, "{text}");
    }
    Ok(())
}

/// Two offices and two sections, which the tests of files and of the intake read too.
pub(crate) const TABLES: &[u8] = br#"
processo = 7
data = 20261004
turno = 1
cargo = [
  {codigo = 13, regra = "proporcional", cadeiras = 5},
  {codigo = 11, regra = "absoluta", cadeiras = 1},
]
partido = [
  {numero = 13, nome = "PA"},
  {numero = 45, nome = "PB"},
]
candidato = [
  {cargo = 13, numero = 13001, nascimento = 19700101, nome = "ANA"},
  {cargo = 13, numero = 45001, nascimento = 19650520, nome = "BRUNO"},
  {cargo = 11, numero = 13, nascimento = 19600303, nome = "CARLA"},
  {cargo = 11, numero = 45, nascimento = 19751212, nome = "DAVI"},
]
secao = [
  {zona = 1, secao = 42, eleitores = 3},
  {zona = 2, secao = 1, eleitores = 5},
]
"#;

/// A sealed poll: version and phase, 20261004080000, 20261004170000, how many came, all three voters.
const SEALED: [u8; 23] = [
    1, 2, 0, 0, 18, 109, 97, 243, 115, 128, 0, 0, 18, 109, 97, 244, 211, 16, 0, 0, 0, 3, 224,
];

/// Two panels: a vote for candidate 13001, one for party 45 and a blank one; one for candidate 13, one for candidate 45 and a null
/// one.
const VOTES: [u8; 39] = [
    2, 0, 0, 0, 3, 1, 0, 0, 50, 201, 2, 0, 0, 0, 45, 3, 0, 0, 0, 0, 0, 0, 0, 3, 1, 0, 0, 0, 13, 1,
    0, 0, 0, 45, 4, 0, 0, 0, 0,
];

/// The text of the report of a sealed poll; nothing where it isn't sealed.
fn state_text(
    alloc: Global,
    tables: &Tables,
    section: Section,
    state: &State,
) -> Result<Option<Vec<u8>>, Memory>
    requires section { Contains tables.now.sections section }
    requires state { IsStateOf tables.now section.voters state.now }
{
    let Phase::Sealed { opened, closed } = state.phase() else {
        return Ok(None);
    };
    let report = Report::of(
        alloc,
        tables,
        section,
        state.votes(),
        state.turnout(),
        opened,
        closed,
    )?;
    Ok(Some(write_fields(alloc, &report)?))
}

/// The text of the report of the sealed poll of these tables; nothing where it is none.
fn sealed_text(alloc: Global, tables: &Tables) -> Result<Option<Vec<u8>>, Memory> {
    if tables.section_count() == 0 {
        return Ok(None);
    }
    let section = tables.section(0);
    let body = body_of(alloc, &SEALED, &VOTES)?;
    match decode(alloc, tables, section.voters, &body)? {
        Some(state) => state_text(alloc, tables, section, &state),
        None => Ok(None),
    }
}

/// Whether the report of the sealed poll has this text.
fn has_text(alloc: Global, tables: &Tables, text: &str) -> Result<bool, Memory> {
    match sealed_text(alloc, tables)? {
        Some(written) => Ok(written.as_slice() == text.as_bytes()),
        None => Ok(false),
    }
}

#[test]
fn a_sealed_poll_has_its_report(rt: HostRuntime) -> Result<(), Fail> {
    let tables = Tables::read(rt.alloc(), TABLES)?;
    assert!(rt; has_text(rt.alloc(), &tables, TWO_OFFICES)?);
    Ok(())
}
