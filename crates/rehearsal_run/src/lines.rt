//! The ten lines that tell a rehearsal (docs/FORMATS.md, "The rehearsal").
ghost use Rattle.std.specs.Prelude.{◌≡◌, ◌+◌, ◌*◌, ◌<◌, ◌≤◌, ◌^◌, ℕ, true, List, [], ◌∷◌, ◌++◌, length, sum_by, IfOk};
ghost use Rattle.poll_report.specs.declared.report.Report.{Report};
ghost use Rattle.qr_text.specs.Spelling.{report_text};
ghost use Rattle.urna_base.specs.Words.{pieces};
ghost use Rattle.hash_chain.specs.Cut.{cut};
ghost use Rattle.vote_kinds.specs.Ballot.{panel_at};
ghost use Rattle.seat_remainders.specs.Majority.{majority_outcome};
ghost use Rattle.seat_remainders.specs.Outcome.{IsOutcome};
ghost use Rattle.section_intake.specs.Intake.{IsIntakeFor, accepted_files};
ghost use Rattle.section_intake.specs.Sums.{AreReportsOf};
ghost use Rattle.totals.specs.Contest.{contest_in, entries_in, votes_in};
ghost use Rattle.totals.specs.Lines.{total_of};
ghost use Rattle.rehearsal.specs.Tables.{generated_tables};
ghost use Rattle.rehearsal_run.specs.Lines.{TellRehearsal, elected_line, mayor_line, parties_in, quotient_line, seats_line, seats_words, suspended_among, votes_line};

use election_tables::Tables;
use rehearsal::is_suspended;
use seat_remainders::{MajorityOutcome, Outcome, distribute, majority};
use section_intake::Intake;
use std::alloc::Global;
use totals::{PanelVotes, contest_of, entries_of};
use urna_base::{LineBuffer, Memory, number_line, two_number_line, word_line};

/// The panel of the councillors.
const COUNCILLOR: u32 = 0;

/// The panel of the mayor.
const MAYOR: u32 = 1;

/// How many lines tell a rehearsal.
const LINES: usize = 10;

/// The lines of a poll of `n` voters of whom so many came, whose report has so many parts and alone is accepted.
pub(crate) fn rehearsal_lines(
    alloc: Global,
    n: u32,
    tables: &Tables,
    intake: &Intake,
    came: u32,
    parts: u64,
) -> Result<Vec<LineBuffer>, Memory>
    requires made { IsIntakeFor tables.now intake.now }
    requires tables { (digest : List ℕ) × (tables.now ≡ generated_tables n digest) }
    requires few { came ≤ n }
    ensures { (r : Report) → AreReportsOf (accepted_files intake.now) (r ∷ []) → r.able ≡ n → r.came ≡ came
        → length (cut (pieces (report_text r))) ≡ parts → IfOk result (λ lines. TellRehearsal n tables.now r lines.items) }
{
    let councillor = votes_of(alloc, tables, intake, COUNCILLOR)?;
    let mayor = votes_of(alloc, tables, intake, MAYOR)?;
    let elected = mayor_outcome(alloc, tables, intake)?;
    let outcome = councillor_outcome(alloc, tables, intake)?;
    // no line can fail here, so that no further way out lets go of what was made
    let mut lines = Vec::with_capacity(alloc, LINES)?;
    lines.push_reserved(number_line(b"ENSAIO ", u64::from(n)));
    lines.push_reserved(number_line(b"COMP ", u64::from(came)));
    lines.push_reserved(number_line(b"FALT ", u64::from(n - came)));
    lines.push_reserved(number_line(b"SUSPENSOS ", u64::from(suspended_among(n))));
    lines.push_reserved(votes_line(13, councillor));
    lines.push_reserved(quotient_line(&outcome));
    lines.push_reserved(elected_line(&outcome));
    lines.push_reserved(votes_line(11, mayor));
    lines.push_reserved(mayor_line(elected));
    lines.push_reserved(number_line(b"PARTES ", parts));
    Ok(lines)
}

/// The votes of a panel.
fn votes_of(
    alloc: Global,
    tables: &Tables,
    intake: &Intake,
    panel: u32,
) -> Result<PanelVotes, Memory>
    requires panel { panel < length tables.now.panels }
    requires made { IsIntakeFor tables.now intake.now }
    ensures votes { IfOk result (λ votes. (reports : List Report) → AreReportsOf (accepted_files intake.now) reports → votes ≡ votes_in reports panel) }
    ensures few { IfOk result (λ votes. total_of votes < 10 ^ 8) }
{
    let entries = entries_of(alloc, tables, intake, panel)?;
    Ok(PanelVotes::of(tables, intake, panel, entries.as_slice()))
}

/// What comes of the office of mayor.
fn mayor_outcome(alloc: Global, tables: &Tables, intake: &Intake) -> Result<MajorityOutcome, Memory>
    requires panel { 1 < length tables.now.panels }
    requires made { IsIntakeFor tables.now intake.now }
    ensures { IfOk result (λ elected. (reports : List Report) → AreReportsOf (accepted_files intake.now) reports
        → elected ≡ majority_outcome (entries_in reports 1 (panel_at tables.now 1)) true) }
{
    let entries = entries_of(alloc, tables, intake, MAYOR)?;
    Ok(majority(entries.as_slice(), true))
}

/// What comes of the office of councillor. The caller owes that it has 9 seats at most.
fn councillor_outcome(alloc: Global, tables: &Tables, intake: &Intake) -> Result<Outcome, Memory>
    requires panel { 0 < length tables.now.panels }
    requires seats { (panel_at tables.now 0).office.seats ≤ 9 }
    requires made { IsIntakeFor tables.now intake.now }
    ensures lawful { IfOk result (λ outcome. (reports : List Report) → AreReportsOf (accepted_files intake.now) reports
        → IsOutcome (contest_in tables.now reports 0) outcome) }
    ensures few { IfOk result (λ outcome. sum_by (λ p. p.seats) (parties_in outcome) ≤ 9) }
{
    let contest = contest_of(alloc, tables, intake, COUNCILLOR)?;
    seat_remainders::laws::seats();
    distribute(alloc, &contest)
}

/// How many of `n` voters the clerk suspends.
fn suspended_among(n: u32) -> u32
    ensures { result ≡ suspended_among n }
{
    let mut count = 0;
    for place in 0..n {
        if is_suspended(place) {
            count += 1;
        }
    }
    count
}

/// The votes of an office. The caller owes that they are fewer than 10^8.
fn votes_line(code: u8, votes: PanelVotes) -> LineBuffer
    requires { total_of votes < 10 ^ 8 }
    ensures { result ≡ votes_line code votes }
{
    let mut line = LineBuffer::new();
    line.push_numbered(b"CARGO ", u64::from(code));
    line.push_numbered(b" VALIDOS ", votes.valid());
    line.push_numbered(b" BRANCOS ", votes.blank);
    line.push_numbered(b" NULOS ", votes.null_votes);
    line.push_text(b"\n");
    line
}

/// The electoral quotient of the councillors, or why there are no seats.
fn quotient_line(outcome: &Outcome) -> LineBuffer
    ensures { result ≡ quotient_line outcome.now }
{
    match outcome {
        Outcome::Seats(seats) => seats_line(seats.quotient, seats.vacant),
        Outcome::NoQuotient { valid, seats } => {
            two_number_line(b"CARGO 13 SEM QUOCIENTE ", *valid, b" ", u64::from(*seats))
        }
        Outcome::Over { first, seats } => {
            two_number_line(
                b"CARGO 13 QUOCIENTE EXCEDIDO ",
                *first,
                b" ",
                u64::from(*seats),
            )
        }
    }
}

/// The electoral quotient, and how many of the 9 seats stay vacant.
fn seats_line(quotient: u64, vacant: u32) -> LineBuffer
    ensures { result ≡ seats_line quotient vacant }
{
    two_number_line(
        b"CARGO 13 QUOCIENTE ",
        quotient,
        b" VAGAS 9 VACANTES ",
        u64::from(vacant),
    )
}

/// The parties with seats. The caller owes that these are 9 seats at most, so that they fit a line.
fn elected_line(outcome: &Outcome) -> LineBuffer
    requires { sum_by (λ p. p.seats) (parties_in outcome.now) ≤ 9 }
    ensures { result ≡ elected_line outcome.now }
{
    let mut line = LineBuffer::new();
    line.push_text(b"CARGO 13 ELEITOS");
    if let Outcome::Seats(seats) = outcome {
        for i in 0..seats.parties.len() {
            let party = seats.parties.get(i);
            push_seats(&mut line, party.number, party.seats);
        }
    }
    line.push_text(b"\n");
    line
}

/// Appends a party and its seats, if it has any.
#[tactic(auto, using(crate::proofs::LineLaws::seat_lengths))]
fn push_seats(line: &mut LineBuffer, party: u8, seats: u32)
    requires few { seats ≤ 9 }
    requires room { length line.old + 6 * seats ≤ 127 }
    ensures text { line.new ≡ line.old ++ seats_words party seats }
    ensures short { length line.new ≤ length line.old + 6 * seats }
{
    if seats > 0 {
        line.push_text(b" ");
        line.push_decimal(u64::from(party));
        line.push_text(b":");
        line.push_decimal(u64::from(seats));
    }
}

/// The line of what comes of the office of mayor.
fn mayor_line(outcome: MajorityOutcome) -> LineBuffer
    ensures { result ≡ mayor_line outcome }
{
    match outcome {
        MajorityOutcome::Elected(number) => number_line(b"CARGO 11 ELEITO ", u64::from(number)),
        MajorityOutcome::Runoff(first, second) => two_number_line(
            b"CARGO 11 SEGUNDO TURNO ",
            u64::from(first),
            b" ",
            u64::from(second),
        ),
        MajorityOutcome::Nobody => word_line(b"CARGO 11 NINGUEM"),
    }
}
