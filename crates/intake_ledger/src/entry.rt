//! A report is entered in the body of a ledger, in its place: the number, a bit, a hash and sums. Nothing else is written, so that few
//! pages of the body change.
ghost use Rattle.std.specs.Prelude.{◌≡◌, ◌≢◌, ℕ, ◌+◌, ◌<◌, ◌≤◌, ◌^◌, ◌/◌, length, true, false};
ghost use Rattle.std.specs.List.Sorted.{IsStrictlyIncreasing};
ghost use Rattle.urna_outside.specs.Confined.{IsInRange};
ghost use Rattle.election_tables.specs.TablesData.{IsTables};
ghost use Rattle.poll_report.specs.Report.{IsReport, greatest_count, numbers_of};
ghost use Rattle.section_intake.specs.Sums.{votes_for};
ghost use Rattle.intake_ledger.specs.Body.{StandsFor, is_body, is_marked, number_in, sum_in, sum_offset};
ghost use Rattle.intake_ledger.specs.Entry.{HasAdded, HasSection, KeepsBytes};
ghost use Rattle.intake_ledger.specs.Layout.{body_size, marked_sections, marks_offset, most_sums, number_offset, number_size, sum_size};
ghost use Rattle.intake_ledger.specs.Ledger.{LedgerData, panel_choices, votes_in, votes_of_choice, with_report};

use crate::body::{number_in, sum_in};
use crate::layout::{HASH_SIZE, HASHES_OFFSET, MARKS_OFFSET, NUMBER_OFFSET, SUM_SIZE, SUMS_OFFSET};
use election_tables::Tables;
use poll_report::{Count, OfficeCount, Report};
use urna_base::{put_be32, put_be64};
use urna_outside::overwrite;
use vote_kinds::Choice;

/// Enters a report of the section in a place, which has none, with the hash of the report's last part. The caller owes the body of a
/// ledger of these tables, the choices of all their panels in order, and that the report's numbers lie in their ranges.
pub(crate) fn enter(
    into: &mut [u8],
    tables: &Tables,
    choices: &[(u32, Choice)],
    place: u32,
    hash: &[u8; HASH_SIZE],
    report: &Report,
)
    requires body { is_body tables.now into.old ≡ true }
    requires choices { choices.now ≡ panel_choices tables.now }
    requires place { place < length tables.now.sections }
    requires free { is_marked into.old place ≡ false }
    requires report { IsReport report.now }
    ensures stands { (l : LedgerData) → StandsFor tables.now l into.old
        → StandsFor tables.now (with_report tables.now place hash.now report.now l) into.new }
    ensures number { number_in into.new ≡ number_in into.old + 1 }
    ensures tables { IsTables tables.now }
{
    // that the tables are whole is known of each call on them
    let _panels = tables.panels();
    put_section(into, place, hash);
    add_report(into, choices, report);
}

/// One section more has a report: that in a place, with the hash of the report's last part.
fn put_section(into: &mut [u8], place: u32, hash: &[u8; HASH_SIZE])
    requires size { length into.old ≡ body_size }
    requires few { number_in into.old < marked_sections }
    requires place { place < marked_sections }
    ensures { HasSection place hash.now into.old into.new }
{
    count_one(into);
    set_mark(into, place);
    overwrite(into, HASHES_OFFSET + HASH_SIZE * place as usize, hash);
}

/// One section more is accepted.
fn count_one(into: &mut [u8])
    requires size { length into.old ≡ body_size }
    requires few { number_in into.old < marked_sections }
    ensures number { number_in into.new ≡ number_in into.old + 1 }
    ensures kept { KeepsBytes (IsInRange number_offset number_size) into.old into.new }
{
    let number = number_in(into);
    overwrite(into, NUMBER_OFFSET, &put_be32(number + 1));
}

/// Sets the bit of a section.
fn set_mark(into: &mut [u8], place: u32)
    requires size { length into.old ≡ body_size }
    requires place { place < marked_sections }
    ensures marked { is_marked into.new place ≡ true }
    ensures others { (other : ℕ) → other ≢ place → is_marked into.new other ≡ is_marked into.old other }
    ensures kept { KeepsBytes (λ k. k ≡ marks_offset + place / 8) into.old into.new }
{
    into[MARKS_OFFSET + (place / 8) as usize] |= 1 << (7 - place % 8);
}

/// The votes of a report more in the sums of these choices.
fn add_report(into: &mut [u8], choices: &[(u32, Choice)], report: &Report)
    requires size { length into.old ≡ body_size }
    requires few { length choices.now ≤ most_sums }
    requires report { IsReport report.now }
    requires room { (place : ℕ) → place < length choices.now → sum_in into.old place + greatest_count < 2 ^ 64 }
    ensures { HasAdded choices.now report.now (length choices.now) into.old into.new }
{
    // As the choices of a panel rise by number, and the counts of a report too, one walk over the counts finds them all.
    let mut at = 0;
    for (place, (panel, choice)) in choices.iter().enumerate() {
        let votes = votes_in(report, *panel, *choice, &mut at);
        add_votes(into, place as u32, votes);
    }
}

/// So many votes more in the sum in a place.
fn add_votes(into: &mut [u8], place: u32, votes: u32)
    requires size { length into.old ≡ body_size }
    requires place { place < most_sums }
    requires room { sum_in into.old place + votes < 2 ^ 64 }
    ensures sum { sum_in into.new place ≡ sum_in into.old place + votes }
    ensures kept { KeepsBytes (IsInRange (sum_offset place) sum_size) into.old into.new }
{
    let sum = sum_in(into, place) + u64::from(votes);
    overwrite(
        into,
        SUMS_OFFSET + SUM_SIZE * place as usize,
        &put_be64(sum),
    );
}

/// The votes of a panel's choice in a report; none where the report has no such panel. A number is looked for from a place on.
fn votes_in(report: &Report, panel: u32, choice: Choice, at: &mut usize) -> u32
    requires { IsReport report.now }
    ensures votes { result ≡ votes_in (panel, choice) report.now }
    ensures few { result ≤ greatest_count }
{
    if panel < report.offices.len() {
        votes_of_choice(report.offices.get(panel), choice, at)
    } else {
        0
    }
}

/// The votes of a choice in an office's counts, where a number is looked for from a place on.
fn votes_of_choice(office: &OfficeCount, choice: Choice, at: &mut usize) -> u32
    requires candidates { IsStrictlyIncreasing (numbers_of office.now.nominal) }
    requires parties { IsStrictlyIncreasing (numbers_of office.now.parties) }
    ensures { result ≡ votes_of_choice choice office.now }
{
    match choice {
        Choice::Nominal(number) => votes_for(office.nominal.as_slice(), number, at),
        Choice::Party(number) => votes_for(office.parties.as_slice(), u32::from(number), at),
        Choice::Blank => office.blank,
        Choice::Null => office.null_votes,
    }
}

/// The votes of a number. It is looked for from a place on, that of the number before it, or from the first one, where that is too far. The
/// place is a guess, on which no answer rests.
fn votes_for(counts: &[Count], number: u32, at: &mut usize) -> u32
    requires { IsStrictlyIncreasing (numbers_of counts.now) }
    ensures { result ≡ votes_for number counts.now }
{
    // the place is too far, as one of another list may be
    if *at >= counts.len() || number < counts[*at].number {
        *at = 0;
    }
    while *at + 1 < counts.len() && counts[*at + 1].number <= number {
        *at += 1;
    }
    if *at < counts.len() && counts[*at].number == number {
        counts[*at].votes
    } else {
        0
    }
}
