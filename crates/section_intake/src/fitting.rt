//! Whether a report is of the election of some tables.
ghost use Rattle.std.specs.Prelude.{◌≡◌, ◌<◌, length};
ghost use Rattle.election_tables.specs.TablesData.{IsTables};
ghost use Rattle.vote_kinds.specs.Ballot.{is_choice, line_of, lines_by_panel};
ghost use Rattle.section_intake.specs.Fitting.{are_candidates, are_parties, fit_lines, fits, fits_election, fits_line, fits_section, is_party};

use election_tables::Tables;
use poll_report::{Count, OfficeCount, Report};
use vote_kinds::{Choice, is_choice};

/// Whether a report is of the election of these tables: of one of their sections with as many voters, and of their offices.
pub(crate) fn fits(tables: &Tables, report: &Report) -> bool
    ensures value { result ≡ fits tables.now report.now }
    ensures tables { IsTables tables.now }
{
    fits_section(tables, report)
        && (fits_election(tables, report) && fit_panels(tables, report.offices.as_slice()))
}

fn fits_election(tables: &Tables, report: &Report) -> bool
    ensures { result ≡ fits_election tables.now report.now }
{
    report.process == tables.process()
        && (report.date == tables.date() && report.turn == tables.turn())
}

/// Whether the section is one of the tables, with as many voters.
fn fits_section(tables: &Tables, report: &Report) -> bool
    ensures value { result ≡ fits_section tables.now.sections report.now }
    ensures tables { IsTables tables.now }
{
    match tables.find_section(report.zone, report.section) {
        Some(section) => section.voters == report.able,
        None => false,
    }
}

/// Whether these offices are the panels of the tables, in order.
fn fit_panels(tables: &Tables, offices: &[OfficeCount]) -> bool
    ensures { result ≡ fit_lines (lines_by_panel tables.now) offices.now }
{
    let panels = tables.panels();
    if offices.len() != panels as usize {
        return false;
    }
    for panel in 0..panels {
        if !fits_panel(tables, panel, &offices[panel as usize]) {
            return false;
        }
    }
    true
}

/// Whether these counts are those of a panel.
#[tactic(auto, unfolding(crate::specs::Fitting::fits_line), using(vote_kinds::proofs::Lookups::office_known, vote_kinds::proofs::Lookups::places_known))]
fn fits_panel(tables: &Tables, panel: u32, office: &OfficeCount) -> bool
    requires { panel < length tables.now.panels }
    ensures { result ≡ fits_line (line_of tables.now panel) office.now }
{
    (office.code == tables.office(panel).code && office.places == tables.places(panel))
        && (are_candidates(tables, panel, office.nominal.as_slice())
            && are_parties(tables, panel, office.parties.as_slice()))
}

/// Where a number is looked for first: the first place from this one on where a candidate of the panel has it or a greater one. It is a
/// guess, on which no answer rests.
fn next_place(tables: &Tables, panel: u32, from: u32, number: u32) -> u32
    requires { panel < length tables.now.panels }
{
    let end = tables.candidate_count(panel);
    for place in from..end {
        if number <= tables.candidate(panel, place).number {
            return place;
        }
    }
    end
}

/// Whether the number is one of a candidate of the panel, who is looked for at this place first.
#[tactic(auto, using(crate::proofs::FitLaws::stands_there))]
fn is_candidate(tables: &Tables, panel: u32, place: u32, number: u32) -> bool
    requires { panel < length tables.now.panels }
    ensures { result ≡ is_choice (line_of tables.now panel) (Choice.Nominal number) }
{
    (place < tables.candidate_count(panel) && tables.candidate(panel, place).number == number)
        || is_choice(tables, panel, Choice::Nominal(number))
}

/// Whether each of these numbers is one of a candidate of the panel. As the numbers of a report and those of the tables rise,
/// one walk over both finds them.
fn are_candidates(tables: &Tables, panel: u32, counts: &[Count]) -> bool
    requires { panel < length tables.now.panels }
    ensures { result ≡ are_candidates (line_of tables.now panel) counts.now }
{
    let mut place = 0;
    for count in counts {
        place = next_place(tables, panel, place, count.number);
        if !is_candidate(tables, panel, place, count.number) {
            return false;
        }
    }
    true
}

/// Whether each is one of a party, in a proportional office.
fn are_parties(tables: &Tables, panel: u32, counts: &[Count]) -> bool
    requires { panel < length tables.now.panels }
    ensures { result ≡ are_parties (line_of tables.now panel) counts.now }
{
    for count in counts {
        if !is_party(tables, panel, count.number) {
            return false;
        }
    }
    true
}

/// Whether the number is one of a party, in a proportional office.
fn is_party(tables: &Tables, panel: u32, number: u32) -> bool
    requires { panel < length tables.now.panels }
    ensures { result ≡ is_party (line_of tables.now panel) number }
{
    number <= 99 && is_choice(tables, panel, Choice::Party(number as u8))
}
