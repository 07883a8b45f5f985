//! The lines that tell a ledger.
ghost use Rattle.std.specs.Prelude.{◌≡◌, ◌++◌, ◌<◌, ◌≤◌, ◌^◌, length, IfOk, OnOk};
ghost use Rattle.election_tables.specs.Limits.{most_candidates};
ghost use Rattle.election_tables.specs.TablesData.{IsTables};
ghost use Rattle.intake_ledger.specs.Ledger.{LedgerData};
ghost use Rattle.intake_ledger.specs.Totals.{AreTotals};
ghost use Rattle.totals.specs.Lines.{total_of};
ghost use Rattle.vote_kinds.specs.Ballot.{panel_at};
ghost use Rattle.ledger_commands.specs.Lines.{entries_told, ledger_lines, panel_lines, votes_told};
ghost use Rattle.ledger_commands.specs.Opening.{ledger_line};

use election_tables::Tables;
use intake_ledger::Totals;
use seat_remainders::{Entries, Entry, nominal_votes};
use std::alloc::Global;
use totals::{PanelVotes, office_line, push_candidates, section_line};
use urna_base::{LineBuffer, Memory, number_line};

/// The line that tells how many sections of a ledger are accepted.
pub(crate) fn ledger_line(accepted: u32) -> LineBuffer
    ensures { result ≡ ledger_line accepted }
{
    number_line(b"LIVRO ", u64::from(accepted))
}

/// The lines that tell the sums of a ledger: how many sections are accepted, and of each office all votes and those of each candidate.
///
/// The caller owes that these are the totals of a ledger of the tables. `Memory` comes only where an allocation failed.
pub(crate) fn ledger_lines(
    alloc: Global,
    tables: &Tables,
    sums: &Totals,
) -> Result<Vec<LineBuffer>, Memory>
    requires valid { IsTables tables.now }
    requires sums { (l : LedgerData) × AreTotals tables.now l sums.now }
    ensures { IfOk result (λ lines. (l : LedgerData) → AreTotals tables.now l sums.now → lines.items ≡ ledger_lines tables.now l) }
{
    let mut lines = Vec::new(alloc);
    lines.push(section_line(sums.accepted(), tables.section_count()))?;
    for panel in 0..tables.panels() {
        push_panel(alloc, &mut lines, tables, sums, panel)?;
    }
    Ok(lines)
}

/// The lines of a panel.
fn push_panel(
    alloc: Global,
    lines: &mut Vec<LineBuffer>,
    tables: &Tables,
    sums: &Totals,
    panel: u32,
) -> Result<(), Memory>
    requires panel { panel < length tables.now.panels }
    requires valid { IsTables tables.now }
    requires sums { (l : LedgerData) × AreTotals tables.now l sums.now }
    ensures { OnOk result ((l : LedgerData) → AreTotals tables.now l sums.now
        → lines.new.items ≡ lines.old.items ++ panel_lines tables.now l panel (panel_at tables.now panel)) }
{
    let entries = entries_of(alloc, tables, sums, panel)?;
    let votes = votes_of(tables, sums, panel, entries.as_slice());
    lines.push(office_line(tables.office(panel).code, votes))?;
    push_candidates(lines, entries.as_slice())
}

/// The candidates of a panel, rising, with their sums.
fn entries_of(alloc: Global, tables: &Tables, sums: &Totals, panel: u32) -> Result<Entries, Memory>
    requires panel { panel < length tables.now.panels }
    ensures entries { IfOk result (λ entries. (l : LedgerData) → AreTotals tables.now l sums.now → entries ≡ entries_told tables.now l panel (panel_at tables.now panel)) }
    ensures few { IfOk result (λ entries. length entries ≤ most_candidates) }
{
    let mut entries = Entries::new(alloc);
    for i in 0..tables.candidate_count(panel) {
        let candidate = tables.candidate(panel, i);
        entries.push(Entry {
            number: candidate.number,
            birth: candidate.birth,
            votes: sums.nominal(panel, candidate.number),
        })?;
    }
    Ok(entries)
}

/// All votes of a panel whose candidates are these.
fn votes_of(tables: &Tables, sums: &Totals, panel: u32, entries: &[Entry]) -> PanelVotes
    requires valid { IsTables tables.now }
    requires sums { (l : LedgerData) × AreTotals tables.now l sums.now }
    requires entries { (l : LedgerData) → AreTotals tables.now l sums.now → entries.now ≡ entries_told tables.now l panel (panel_at tables.now panel) }
    requires few { length entries.now ≤ most_candidates }
    ensures votes { (l : LedgerData) → AreTotals tables.now l sums.now → result ≡ votes_told tables.now l panel (panel_at tables.now panel) }
    ensures few { total_of result < 10 ^ 11 }
{
    PanelVotes {
        nominal: nominal_votes(entries),
        party: party_votes(tables, sums, panel),
        blank: sums.blank(panel),
        null_votes: sums.null_votes(panel),
    }
}

/// The party votes of all parties in a panel.
fn party_votes(tables: &Tables, sums: &Totals, panel: u32) -> u64
    requires valid { IsTables tables.now }
    requires sums { (l : LedgerData) × AreTotals tables.now l sums.now }
    ensures { (l : LedgerData) → AreTotals tables.now l sums.now → result ≡ (votes_told tables.now l panel (panel_at tables.now panel)).party }
{
    let mut votes = 0u64;
    for i in 0..tables.party_count() {
        votes += sums.party(panel, tables.party(i));
    }
    votes
}
