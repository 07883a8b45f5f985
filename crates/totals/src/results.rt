//! What comes of each office, and the lines that tell it.
ghost use Rattle.std.specs.List.Sorted.{IsStrictlyIncreasing};
ghost use Rattle.std.specs.Prelude.{◌≡◌, ◌+◌, ◌<◌, ◌≤◌, ◌^◌, [], ◌∷◌, ◌++◌, ℕ, List, length, map, IfOk, OnOk};
ghost use Rattle.election_tables.specs.TablesData.{TablesData};
ghost use Rattle.poll_report.specs.declared.report.Report.{Report};
ghost use Rattle.section_intake.specs.Intake.{IsIntakeFor, accepted_files, panels_of};
ghost use Rattle.section_intake.specs.Sums.{AreReportsOf, nominal_sum};
ghost use Rattle.vote_kinds.specs.Ballot.{panel_at};
ghost use Rattle.seat_remainders.specs.Majority.{majority_outcome};
ghost use Rattle.seat_remainders.specs.Outcome.{IsOutcome};
ghost use Rattle.seat_remainders.specs.Parties.{nominal_votes};
ghost use Rattle.seat_remainders.specs.declared.outcome.Outcome.{Outcome};
ghost use Rattle.totals.specs.Contest.{contest_in};
ghost use Rattle.totals.specs.Lines.{award_lines, bloc_line, candidate_line, elected_lines, majority_line, outcome_lines, seats_lines, simple_lines};
ghost use Rattle.totals.specs.Simple.{elected_simply};
ghost use Rattle.totals.specs.Totals.{AreTotals, TellPanel};

use crate::contest::contest_of;
use crate::entries::entries_of;
use crate::lines::{
    award_line, bloc_line, candidate_line, elected_line, majority_line, office_line, section_line,
};
use crate::simple_rule::elected_simply;
use crate::votes::PanelVotes;
use election_tables::{Kind, Tables};
use seat_remainders::{
    Awards, Entries, Entry, MajorityOutcome, Numbers, Outcome, PartySeatList, Seats, distribute,
    majority,
};
use section_intake::Intake;
use std::alloc::Global;
use urna_base::{LineBuffer, Memory, number_line, two_number_line};

/// The lines that tell the totals over the reports of the accepted files (docs/FORMATS.md, "Totals"): how many there are, and for each
/// office its votes, those of each candidate, and what comes of them by law.
///
/// The caller owes that the intake was made for these tables. `Memory` comes only where an allocation failed.
pub fn total_lines(
    alloc: Global,
    tables: &Tables,
    intake: &Intake,
) -> Result<Vec<LineBuffer>, Memory>
    requires { IsIntakeFor tables.now intake.now }
    ensures { IfOk result (λ lines. (reports : List Report) → AreReportsOf (accepted_files intake.now) reports
        → AreTotals tables.now reports lines.items) }
{
    let mut lines = Vec::new(alloc);
    lines.push(section_line(intake.accepted(), tables.section_count()))?;
    for panel in 0..tables.panels() {
        push_panel(alloc, &mut lines, tables, intake, panel)?;
    }
    Ok(lines)
}

/// The lines of a panel.
fn push_panel(
    alloc: Global,
    lines: &mut Vec<LineBuffer>,
    tables: &Tables,
    intake: &Intake,
    panel: u32,
) -> Result<(), Memory>
    requires panel { panel < length tables.now.panels }
    requires made { IsIntakeFor tables.now intake.now }
    ensures { OnOk result ((reports : List Report) → AreReportsOf (accepted_files intake.now) reports
        → (own : List (List ℕ)) × TellPanel tables.now reports panel (panel_at tables.now panel) own × (lines.new.items ≡ lines.old.items ++ own)) }
{
    let office = tables.office(panel);
    let entries = entries_of(alloc, tables, intake, panel)?;
    let votes = PanelVotes::of(tables, intake, panel, entries.as_slice());
    lines.push(office_line(office.code, votes))?;
    push_candidates(lines, entries.as_slice())?;
    match office.kind {
        Kind::Proportional => push_contest(alloc, lines, tables, intake, panel),
        Kind::Absolute => push_majority(lines, entries.as_slice(), tables.turn() == 1),
        Kind::Simple => push_simple(alloc, lines, entries, office.seats),
    }
}

/// Appends one line for each candidate. `Memory` comes only where an allocation failed, and says nothing of `lines`.
pub fn push_candidates(lines: &mut Vec<LineBuffer>, entries: &[Entry]) -> Result<(), Memory>
    ensures { OnOk result (lines.new.items ≡ lines.old.items ++ map candidate_line entries.now) }
{
    for entry in entries {
        lines.push(candidate_line(*entry))?;
    }
    Ok(())
}

/// What comes of an office of the absolute majority, by the absolute or the simple rule.
fn push_majority(
    lines: &mut Vec<LineBuffer>,
    entries: &[Entry],
    absolute: bool,
) -> Result<(), Memory>
    requires { nominal_votes entries.now ≤ 10 ^ 12 }
    ensures { OnOk result (lines.new.items ≡ lines.old.items ++ majority_line (majority_outcome entries.now absolute) ∷ []) }
{
    lines.push(majority_line(majority(entries, absolute)))?;
    Ok(())
}

/// Whom the simple rule elects to so many seats.
fn push_simple(
    alloc: Global,
    lines: &mut Vec<LineBuffer>,
    entries: Entries,
    seats: u32,
) -> Result<(), Memory>
    requires rising { IsStrictlyIncreasing (map (λ c. c.number) entries) }
    requires votes { nominal_votes entries ≤ 10 ^ 12 }
    ensures { OnOk result (lines.new.items ≡ lines.old.items ++ simple_lines (elected_simply seats entries)) }
{
    let elected = elected_simply(alloc, entries, seats)?;
    push_elected_simply(lines, &elected)
}

/// One line for each of the elected, or that there is nobody.
fn push_elected_simply(lines: &mut Vec<LineBuffer>, elected: &Numbers) -> Result<(), Memory>
    ensures { OnOk result (lines.new.items ≡ lines.old.items ++ simple_lines elected.now) }
{
    if elected.len() == 0 {
        lines.push(majority_line(MajorityOutcome::Nobody))?;
        return Ok(());
    }
    for i in 0..elected.len() {
        lines.push(majority_line(MajorityOutcome::Elected(*elected.get(i))))?;
    }
    Ok(())
}

/// The seats of a proportional office.
fn push_contest(
    alloc: Global,
    lines: &mut Vec<LineBuffer>,
    tables: &Tables,
    intake: &Intake,
    panel: u32,
) -> Result<(), Memory>
    requires panel { panel < length tables.now.panels }
    requires made { IsIntakeFor tables.now intake.now }
    ensures { OnOk result ((reports : List Report) → AreReportsOf (accepted_files intake.now) reports
        → (o : Outcome) × IsOutcome (contest_in tables.now reports panel) o
        × (lines.new.items ≡ lines.old.items ++ outcome_lines tables.now (λ number. nominal_sum panel number reports) o)) }
{
    let contest = contest_of(alloc, tables, intake, panel)?;
    let outcome = distribute(alloc, &contest)?;
    push_outcome(lines, tables, intake, panel, &outcome)
}

/// What comes of a contest.
fn push_outcome(
    lines: &mut Vec<LineBuffer>,
    tables: &Tables,
    intake: &Intake,
    panel: u32,
    outcome: &Outcome,
) -> Result<(), Memory>
    requires panel { panel < panels_of intake.now }
    requires made { IsIntakeFor tables.now intake.now }
    ensures { OnOk result ((reports : List Report) → AreReportsOf (accepted_files intake.now) reports
        → lines.new.items ≡ lines.old.items ++ outcome_lines tables.now (λ number. nominal_sum panel number reports) outcome.now) }
{
    match outcome {
        Outcome::Seats(seats) => push_seats(lines, tables, intake, panel, seats),
        Outcome::NoQuotient { valid, seats } => {
            lines.push(two_number_line(b"SEM QUOCIENTE ", *valid, b" ", u64::from(*seats)))?;
            Ok(())
        }
        Outcome::Over { first, seats } => {
            lines.push(two_number_line(b"QUOCIENTE EXCEDIDO ", *first, b" ", u64::from(*seats)))?;
            Ok(())
        }
    }
}

/// The seats that were given.
fn push_seats(
    lines: &mut Vec<LineBuffer>,
    tables: &Tables,
    intake: &Intake,
    panel: u32,
    seats: &Seats,
) -> Result<(), Memory>
    requires panel { panel < panels_of intake.now }
    requires made { IsIntakeFor tables.now intake.now }
    ensures { OnOk result ((reports : List Report) → AreReportsOf (accepted_files intake.now) reports
        → lines.new.items ≡ lines.old.items ++ seats_lines tables.now (λ number. nominal_sum panel number reports) seats.now) }
{
    lines.push(number_line(b"QUOCIENTE ", seats.quotient))?;
    push_blocs(lines, tables, &seats.parties)?;
    push_awards(lines, tables, &seats.awards)?;
    push_elected(lines, intake, panel, &seats.elected)?;
    lines.push(number_line(b"VAGAS VAZIAS ", u64::from(seats.vacant)))?;
    Ok(())
}

/// One line for each bloc.
fn push_blocs(
    lines: &mut Vec<LineBuffer>,
    tables: &Tables,
    blocs: &PartySeatList,
) -> Result<(), Memory>
    ensures { OnOk result (lines.new.items ≡ lines.old.items ++ map (bloc_line tables.now) blocs.now) }
{
    for i in 0..blocs.len() {
        lines.push(bloc_line(tables, *blocs.get(i)))?;
    }
    Ok(())
}

/// One line for each round.
fn push_awards(lines: &mut Vec<LineBuffer>, tables: &Tables, awards: &Awards) -> Result<(), Memory>
    ensures { OnOk result (lines.new.items ≡ lines.old.items ++ award_lines tables.now 1 awards.now) }
{
    for i in 0..awards.len() {
        lines.push(award_line(tables, i + 1, *awards.get(i)))?;
    }
    Ok(())
}

/// One line for each of the elected.
fn push_elected(
    lines: &mut Vec<LineBuffer>,
    intake: &Intake,
    panel: u32,
    elected: &Numbers,
) -> Result<(), Memory>
    requires { panel < panels_of intake.now }
    ensures { OnOk result ((t : TablesData) (reports : List Report) → IsIntakeFor t intake.now → AreReportsOf (accepted_files intake.now) reports
        → lines.new.items ≡ lines.old.items ++ elected_lines (λ number. nominal_sum panel number reports) elected.now) }
{
    for i in 0..elected.len() {
        let number = *elected.get(i);
        lines.push(elected_line(number, intake.nominal(panel, number)))?;
    }
    Ok(())
}
