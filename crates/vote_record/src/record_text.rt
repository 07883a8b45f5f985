ghost use Rattle.std.specs.Prelude.{◌≡◌, ◌<◌, ◌++◌, length, IfOk, OnOk};
ghost use Rattle.std.specs.List.{concat, flat_map, zip};
ghost use Rattle.vote_kinds.specs.Ballot.{panel_at};
ghost use Rattle.vote_record.specs.Bag.{bag_at};
ghost use Rattle.vote_record.specs.RecordText.{heading_words, line_end, office_words, panel_lines, record_text, vote_line};

use crate::rdv::Rdv;
use election_tables::{Section, Tables};
use std::alloc::Global;
use urna_base::{Memory, put_digits, put_numbered};
use vote_kinds::Choice;

/// The text of a section's record (docs/FORMATS.md, "Record text"). It is made of the tables, the section and the bags alone, so it
/// doesn't tell in which order the voters came.
///
/// The caller owes that the record is one of these tables. `Memory` comes only where an allocation failed.
pub fn rdv_text(
    alloc: Global,
    tables: &Tables,
    section: Section,
    votes: &Rdv,
) -> Result<Vec<u8>, Memory>
    requires { length votes.now.bags ≡ length tables.now.panels }
    ensures { IfOk result (λ text. text.items ≡ record_text tables.now section votes.now.bags) }
{
    let mut text = Vec::new(alloc);
    text.extend_from_slice(b"RDV U1\n")?;
    put_heading(&mut text, tables, section)?;
    put_panels(&mut text, tables, votes)?;
    text.extend_from_slice(b"FIM\n")?;
    Ok(text)
}

#[tactic(auto, using(crate::proofs::TextLaws::short_date))]
fn put_heading(out: &mut Vec<u8>, tables: &Tables, section: Section) -> Result<(), Memory>
    ensures { OnOk result (out.new.items ≡ out.old.items
        ++ (heading_words tables.now.process tables.now.date tables.now.turn section.zone section.number ++ line_end)) }
{
    // From here on it is known that the date has at most eight digits.
    let _panels = tables.panels();
    put_numbered(out, b"PROC ", u64::from(tables.process()))?;
    out.extend_from_slice(b" DTPL ")?;
    put_digits(out, u64::from(tables.date()), 8)?;
    put_numbered(out, b" TURN ", u64::from(tables.turn()))?;
    put_numbered(out, b" ZONA ", u64::from(section.zone))?;
    put_numbered(out, b" SECA ", u64::from(section.number))?;
    out.push(b'\n')?;
    Ok(())
}

fn put_panels(out: &mut Vec<u8>, tables: &Tables, votes: &Rdv) -> Result<(), Memory>
    requires { length votes.now.bags ≡ length tables.now.panels }
    ensures { OnOk result (out.new.items ≡ out.old.items ++ concat (flat_map panel_lines (zip tables.now.panels votes.now.bags))) }
{
    for panel in 0..tables.panels() {
        put_panel(out, tables, votes, panel)?;
    }
    Ok(())
}

fn put_panel(out: &mut Vec<u8>, tables: &Tables, votes: &Rdv, panel: u32) -> Result<(), Memory>
    requires panel { panel < length tables.now.panels }
    requires bag { panel < length votes.now.bags }
    ensures { OnOk result (out.new.items ≡ out.old.items ++ concat (panel_lines (panel_at tables.now panel, bag_at votes.now.bags panel))) }
{
    put_office(out, tables.office(panel).code, votes.total(panel))?;
    put_votes(out, votes, panel)
}

fn put_office(out: &mut Vec<u8>, code: u8, votes: u32) -> Result<(), Memory>
    ensures { OnOk result (out.new.items ≡ out.old.items ++ (office_words code votes ++ line_end)) }
{
    put_numbered(out, b"CARG ", u64::from(code))?;
    put_numbered(out, b" ", u64::from(votes))?;
    out.push(b'\n')?;
    Ok(())
}

/// Appends a line for each vote of a panel, in the order of choices.
fn put_votes(out: &mut Vec<u8>, votes: &Rdv, panel: u32) -> Result<(), Memory>
    requires { panel < length votes.now.bags }
    ensures { OnOk result (out.new.items ≡ out.old.items ++ flat_map vote_line (bag_at votes.now.bags panel)) }
{
    for i in 0..votes.total(panel) {
        put_vote(out, votes.vote(panel, i))?;
    }
    Ok(())
}

fn put_vote(out: &mut Vec<u8>, choice: Choice) -> Result<(), Memory>
    ensures { OnOk result (out.new.items ≡ out.old.items ++ vote_line choice) }
{
    match choice {
        Choice::Nominal(number) => put_numbered(out, b"N ", u64::from(number))?,
        Choice::Party(number) => put_numbered(out, b"L ", u64::from(number))?,
        Choice::Blank => out.push(b'B')?,
        Choice::Null => out.push(b'X')?,
    }
    out.push(b'\n')?;
    Ok(())
}
