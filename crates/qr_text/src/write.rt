//! A whole report is written.
ghost use Rattle.std.specs.Prelude.{◌≡◌, ◌≤◌, ◌+◌, ◌++◌, ◌==◌, true, IfOk, OnOk};
ghost use Rattle.std.specs.List.{flat_map, prefix_len};
ghost use Rattle.election_tables.specs.Fields.{first_two};
ghost use Rattle.election_tables.specs.Offices.{code_proportional};
ghost use Rattle.poll_report.specs.Report.{IsReport, digits_in, greatest_count, votes_of, IsCounted};
ghost use Rattle.qr_text.specs.Spelling.{report_text};
ghost use Rattle.qr_text.specs.Writing.{spaced_office, spaced_office_votes, spaced_parties, spaced_party, spaced_places, spaced_votes, with_code, with_last, with_office, with_sums, with_total};
ghost use Rattle.qr_text.specs.declared.table.TheConstants.{TABLE};

use crate::field::{party_of, put_field, put_next, put_vote};
use crate::table::TABLE;
use election_tables::code_proportional;
use poll_report::{Count, OfficeCount, Report};
use std::alloc::Global;
use urna_base::Memory;

/// Appends the field of the table that has this name, behind a space.
macro_rules! next {
    ($out:ident, $row:ident, $value:expr) => {
        put_next($out, &TABLE.$row, u64::from($value))?
    };
}

/// The field text of a report: its one spelling (docs/FORMATS.md, "Report text").
///
/// The caller owes that the report is one that can be spelled. `Memory` comes only where an allocation failed.
#[tactic(auto, using(crate::proofs::WriteLaws::date_small_of, crate::proofs::WriteLaws::moments_small))]
pub fn write_fields(alloc: Global, report: &Report) -> Result<Vec<u8>, Memory>
    requires { IsReport report.now }
    ensures { IfOk result (λ v. v.items ≡ report_text report.now) }
{
    let mut text = Vec::new(alloc);
    let out = &mut text;
    put_field(out, &TABLE.orig, 0)?;
    next!(out, process, report.process);
    next!(out, date, report.date);
    next!(out, turn, report.turn);
    next!(out, zone, report.zone);
    next!(out, section, report.section);
    next!(out, able, report.able);
    next!(out, came, report.came);
    next!(out, missed, report.able - report.came);
    next!(out, open_date, report.opened / 1_000_000);
    next!(out, open_time, report.opened % 1_000_000);
    next!(out, close_date, report.closed / 1_000_000);
    next!(out, close_time, report.closed % 1_000_000);
    put_offices(out, report)?;
    Ok(text)
}

fn put_offices(out: &mut Vec<u8>, report: &Report) -> Result<(), Memory>
    requires { IsReport report.now }
    ensures { OnOk result (out.new.items ≡ out.old.items ++ flat_map (spaced_office report.now) report.now.offices) }
{
    for office in report.offices.as_slice() {
        put_office(out, report, office)?;
    }
    Ok(())
}

#[tactic(auto, unfolding(crate::specs::Writing::with_office))]
fn put_office(out: &mut Vec<u8>, report: &Report, office: &OfficeCount) -> Result<(), Memory>
    requires { IsCounted office.now }
    ensures { OnOk result (out.new.items ≡ with_office report.now out.old.items office.now) }
{
    let nominal = votes_of(office.nominal.as_slice());
    let legend = votes_of(office.parties.as_slice());
    let total = nominal + legend + office.blank + office.null_votes;
    let proportional = code_proportional(office.code);
    put_code(out, office.code, proportional)?;
    put_office_votes(out, office)?;
    put_sums(out, report.able, proportional, nominal, legend)?;
    put_last(out, office.blank, office.null_votes, total)
}

#[tactic(auto, unfolding(crate::specs::Writing::with_code))]
fn put_code(out: &mut Vec<u8>, code: u8, proportional: bool) -> Result<(), Memory>
    ensures { OnOk result (out.new.items ≡ with_code code proportional out.old.items) }
{
    next!(out, office, code);
    next!(out, kind, proportional);
    Ok(())
}

/// Appends the votes of an office, by party where it is proportional, and else behind its places.
#[tactic(auto, unfolding(crate::specs::Writing::spaced_office_votes))]
fn put_office_votes(out: &mut Vec<u8>, office: &OfficeCount) -> Result<(), Memory>
    requires { IsCounted office.now }
    ensures { OnOk result (out.new.items ≡ out.old.items ++ spaced_office_votes office.now) }
{
    if code_proportional(office.code) {
        put_parties(out, office)
    } else {
        put_places(out, office.places)?;
        put_votes(out, office.nominal.as_slice())
    }
}

/// Appends how many votes each voter has, where it isn't one.
fn put_places(out: &mut Vec<u8>, places: u32) -> Result<(), Memory>
    ensures { OnOk result (out.new.items ≡ out.old.items ++ spaced_places places) }
{
    if places != 1 {
        next!(out, places, places);
    }
    Ok(())
}

/// Appends the sums of an office, the party votes only where it is proportional.
#[tactic(auto, unfolding(crate::specs::Writing::with_sums))]
fn put_sums(
    out: &mut Vec<u8>,
    able: u32,
    proportional: bool,
    nominal: u32,
    legend: u32,
) -> Result<(), Memory>
    ensures { OnOk result (out.new.items ≡ with_sums able proportional nominal legend out.old.items) }
{
    next!(out, office_able, able);
    next!(out, nominal, nominal);
    if proportional {
        next!(out, legend, legend);
    }
    Ok(())
}

/// Appends what stands last in an office.
#[tactic(auto, unfolding(crate::specs::Writing::with_last))]
fn put_last(out: &mut Vec<u8>, blank: u32, null_votes: u32, total: u32) -> Result<(), Memory>
    ensures { OnOk result (out.new.items ≡ with_last blank null_votes total out.old.items) }
{
    next!(out, blank, blank);
    next!(out, null_votes, null_votes);
    next!(out, total, total);
    Ok(())
}

/// Appends the parties that have votes, of 10 to 99, rising. Candidates and parties rise, so what a party has stands first in what is
/// left, and is cut off there: the work grows with the text.
fn put_parties(out: &mut Vec<u8>, office: &OfficeCount) -> Result<(), Memory>
    requires counted { IsCounted office.now }
    requires proportional { code_proportional office.now.code ≡ true }
    ensures { OnOk result (out.new.items ≡ out.old.items ++ spaced_parties office.now 90) }
{
    let mut candidates = office.nominal.as_slice();
    let mut legends = office.parties.as_slice();
    for party in 10..100 {
        let (own, others) = candidates.split_at(first_of_party(candidates, office.code, party));
        let (legend, later) = legends.split_at(first_of_number(legends, party));
        put_party(out, party, own, votes_of(legend))?;
        candidates = others;
        legends = later;
    }
    Ok(())
}

/// How many candidates of a party stand first among some.
fn first_of_party(counts: &[Count], code: u8, party: u32) -> usize
    ensures { result ≡ prefix_len (λ c. first_two (digits_in code) c.number == party) counts.now }
{
    counts
        .iter()
        .take_while(|count| party_of(code, count.number) == party)
        .count()
}

/// How many entries of a party stand first among some.
fn first_of_number(counts: &[Count], party: u32) -> usize
    ensures { result ≡ prefix_len (λ c. c.number == party) counts.now }
{
    counts
        .iter()
        .take_while(|count| count.number == party)
        .count()
}

/// Appends a party, if it has votes.
fn put_party(out: &mut Vec<u8>, party: u32, candidates: &[Count], legend: u32) -> Result<(), Memory>
    requires { votes_of candidates.now + legend ≤ greatest_count }
    ensures { OnOk result (out.new.items ≡ out.old.items ++ spaced_party (with_total party candidates.now legend)) }
{
    let total = votes_of(candidates) + legend;
    if total > 0 {
        next!(out, party, party);
        put_votes(out, candidates)?;
        next!(out, party_legend, legend);
        next!(out, party_total, total);
    }
    Ok(())
}

/// Appends candidates with their votes.
fn put_votes(out: &mut Vec<u8>, counts: &[Count]) -> Result<(), Memory>
    ensures { OnOk result (out.new.items ≡ out.old.items ++ spaced_votes counts.now) }
{
    for count in counts {
        put_vote(out, *count)?;
    }
    Ok(())
}

/// All votes of some numbers.
fn votes_of(counts: &[Count]) -> u32
    requires { votes_of counts.now ≤ greatest_count }
    ensures { result ≡ votes_of counts.now }
{
    let mut votes = 0;
    for count in counts {
        votes += count.votes;
    }
    votes
}
