//! The count lines of a record.
ghost use Rattle.std.specs.Prelude.{◌≡◌, ◌<◌, ◌≤◌, [], ◌∷◌, length};
ghost use Rattle.urna_base.specs.Lines.{number_line};
ghost use Rattle.election_tables.specs.TablesData.{candidates_at};
ghost use Rattle.urna_outside.specs.ShownLines.{Shows};
ghost use Rattle.vote_kinds.specs.declared.choice.Choice.TheVariants.{Blank, Null};
ghost use Rattle.vote_kinds.specs.Ballot.{panel_at};
ghost use Rattle.vote_record.specs.Bag.{bag_at};
ghost use Rattle.poll_report.specs.Counts.{candidate_lines, count_lines, kind_lines, panel_lines, party_lines, total_lines, votes_line};

use election_tables::{Kind, Tables};
use urna_base::{number_line, two_number_line};
use urna_outside::{Failed, Machine, show_line};
use vote_kinds::Choice;
use vote_record::Rdv;

/// Shows the counts of a record under a title, one line with each show (docs/FORMATS.md, "Shown texts"). `title` is the title's
/// whole line, with its line feed.
///
/// The caller owes that the record has a bag for each panel of the tables. It fails only where the display failed.
pub fn show_counts<M: Machine>(
    m: &mut M,
    title: &[u8],
    tables: &Tables,
    votes: &Rdv,
) -> Result<(), Failed>
    requires { length votes.now.bags ≡ length tables.now.panels }
    ensures { Shows result (title.now ∷ count_lines tables.now votes.now.bags) (M.told m.old) (M.told m.new) }
{
    show_line(m, title)?;
    show_panels(m, tables, votes)
}

fn show_panels<M: Machine>(m: &mut M, tables: &Tables, votes: &Rdv) -> Result<(), Failed>
    requires { length votes.now.bags ≡ length tables.now.panels }
    ensures { Shows result (count_lines tables.now votes.now.bags) (M.told m.old) (M.told m.new) }
{
    for panel in 0..tables.panels() {
        show_panel(m, tables, votes, panel)?;
    }
    Ok(())
}

fn show_panel<M: Machine>(m: &mut M, tables: &Tables, votes: &Rdv, panel: u32) -> Result<(), Failed>
    requires panel { panel < length tables.now.panels }
    requires bag { panel < length votes.now.bags }
    ensures { Shows result (panel_lines tables.now (panel_at tables.now panel) (bag_at votes.now.bags panel)) (M.told m.old) (M.told m.new) }
{
    let office = tables.office(panel);
    show_number(m, b"CARGO ", u32::from(office.code))?;
    show_candidates(m, tables, votes, panel)?;
    show_parties(m, tables, votes, panel, office.kind)?;
    show_totals(m, votes, panel)
}

/// One line for each candidate of a panel.
fn show_candidates<M: Machine>(
    m: &mut M,
    tables: &Tables,
    votes: &Rdv,
    panel: u32,
) -> Result<(), Failed>
    requires panel { panel < length tables.now.panels }
    requires bag { panel < length votes.now.bags }
    ensures { Shows result (candidate_lines (candidates_at panel tables.now) (bag_at votes.now.bags panel)) (M.told m.old) (M.told m.new) }
{
    for i in 0..tables.candidate_count(panel) {
        let number = tables.candidate(panel, i).number;
        let count = votes.count(panel, Choice::Nominal(number));
        show_votes(m, number, count)?;
    }
    Ok(())
}

/// One line for each party, in a proportional office.
fn show_parties<M: Machine>(
    m: &mut M,
    tables: &Tables,
    votes: &Rdv,
    panel: u32,
    kind: Kind,
) -> Result<(), Failed>
    requires { panel < length votes.now.bags }
    ensures { Shows result (kind_lines kind tables.now (bag_at votes.now.bags panel)) (M.told m.old) (M.told m.new) }
{
    match kind {
        Kind::Proportional => show_all_parties(m, tables, votes, panel),
        Kind::Absolute => Ok(()),
        Kind::Simple => Ok(()),
    }
}

fn show_all_parties<M: Machine>(
    m: &mut M,
    tables: &Tables,
    votes: &Rdv,
    panel: u32,
) -> Result<(), Failed>
    requires { panel < length votes.now.bags }
    ensures { Shows result (party_lines tables.now.parties (bag_at votes.now.bags panel)) (M.told m.old) (M.told m.new) }
{
    for i in 0..tables.party_count() {
        let number = tables.party(i);
        let count = votes.count(panel, Choice::Party(number));
        show_votes(m, u32::from(number), count)?;
    }
    Ok(())
}

fn show_totals<M: Machine>(m: &mut M, votes: &Rdv, panel: u32) -> Result<(), Failed>
    requires { panel < length votes.now.bags }
    ensures { Shows result (total_lines (bag_at votes.now.bags panel)) (M.told m.old) (M.told m.new) }
{
    show_number(m, b"BRANCO ", votes.count(panel, Choice::Blank))?;
    show_number(m, b"NULO ", votes.count(panel, Choice::Null))?;
    show_number(m, b"TOTAL ", votes.total(panel))
}

/// The line of a word and a number.
fn show_number<M: Machine>(m: &mut M, word: &[u8], number: u32) -> Result<(), Failed>
    requires { length word.now ≤ 40 }
    ensures { Shows result (number_line word.now number ∷ []) (M.told m.old) (M.told m.new) }
{
    let line = number_line(word, u64::from(number));
    show_line(m, line.as_bytes())
}

/// The line of a number and its votes.
fn show_votes<M: Machine>(m: &mut M, number: u32, votes: u32) -> Result<(), Failed>
    ensures { Shows result (votes_line number votes ∷ []) (M.told m.old) (M.told m.new) }
{
    let line = two_number_line(b"", u64::from(number), b" ", u64::from(votes));
    show_line(m, line.as_bytes())
}
