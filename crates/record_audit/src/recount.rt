//! A record is compared with a report.
ghost use Rattle.std.specs.Prelude.{◌≡◌, ◌<◌, ◌≤◌, map, length, MatchResult, Err, Ok};
ghost use Rattle.std.specs.List.{AllByRecursion};
ghost use Rattle.election_tables.specs.Limits.{most_offices};
ghost use Rattle.vote_record.specs.Bag.{count_of};
ghost use Rattle.poll_report.specs.Report.{IsReport, IsCounted};
ghost use Rattle.record_audit.specs.Finding.{codes_counted, difference, finding, first_apart, first_differing, has_same_heading, said_for, votes_for};
ghost use Rattle.record_audit.specs.Spelling.{codes_in};
ghost use Rattle.record_audit.specs.Walk.{first_before, for_candidate, for_party, in_order, listing, passed, passed_all, run};

use crate::finding::Finding;
use crate::search::search;
use crate::text::{RecordOffice, RecordText};
use poll_report::{Count, OfficeCount, Report};
use vote_kinds::Choice;

/// What a recount of a record against a report finds (docs/RULES.md, "The recount"). It takes no memory.
///
/// The caller owes that the report is one that has a spelling.
#[tactic(auto, unfolding(crate::specs::Finding::finding))]
pub fn audit(text: &RecordText, report: &Report) -> Finding
    requires { IsReport report.now }
    ensures { result ≡ finding text.now report.now }
{
    if !has_same_heading(text, report) {
        return Finding::Heading;
    }
    let offices = text.offices.as_slice();
    let counts = report.offices.as_slice();
    match first_apart(offices, counts) {
        Some(place) => Finding::Office(place),
        None => first_differing(offices, counts),
    }
}

/// Whether both are of one election and of one section.
fn has_same_heading(text: &RecordText, report: &Report) -> bool
    ensures { result ≡ has_same_heading text.now report.now }
{
    text.process == report.process
        && text.date == report.date
        && text.turn == report.turn
        && text.zone == report.zone
        && text.section == report.section
}

/// The first place, counted from 1, at which the codes of offices differ, or some have ended.
fn first_apart(offices: &[RecordOffice], counts: &[OfficeCount]) -> Option<u32>
    requires { length counts.now ≤ most_offices }
    ensures { result ≡ first_apart 1 (codes_in offices.now) (codes_counted counts.now) }
{
    let mut record = offices;
    let mut report = counts;
    let mut place = 1;
    while let Some((count, others)) = report.split_first() {
        let Some((office, behind)) = record.split_first() else {
            return Some(place);
        };
        if office.code != count.code {
            return Some(place);
        }
        record = behind;
        report = others;
        place += 1;
    }
    if record.is_empty() { None } else { Some(place) }
}

/// The first panel whose votes differ.
fn first_differing(offices: &[RecordOffice], counts: &[OfficeCount]) -> Finding
    requires few { length counts.now ≤ most_offices }
    requires counted { AllByRecursion IsCounted counts.now }
    ensures { result ≡ first_differing 0 offices.now counts.now }
{
    let mut record = offices;
    let mut report = counts;
    let mut panel = 0;
    while let Some((count, others)) = report.split_first() {
        let Some((office, behind)) = record.split_first() else {
            return Finding::Agree;
        };
        let votes = office.votes.as_slice();
        if let Some(choice) = difference(votes, count) {
            return Finding::Differs {
                panel,
                choice,
                lines: count_lines(votes, choice),
                said: u64::from(said_for(count, choice)),
            };
        }
        record = behind;
        report = others;
        panel += 1;
    }
    Finding::Agree
}

/// How many votes are this choice.
pub(crate) fn count_lines(votes: &[Choice], choice: Choice) -> u64
    ensures { result ≡ count_of choice votes.now }
{
    votes.iter().filter(|vote| choice.is_same(**vote)).count() as u64
}

/// The number that a report says for a choice.
pub(crate) fn said_for(office: &OfficeCount, choice: Choice) -> u32
    ensures { result ≡ said_for office.now choice }
{
    match choice {
        Choice::Nominal(number) => votes_for(number, office.nominal.as_slice()),
        Choice::Party(number) => votes_for(u32::from(number), office.parties.as_slice()),
        Choice::Blank => office.blank,
        Choice::Null => office.null_votes,
    }
}

/// The votes of a number, 0 if it isn't listed.
fn votes_for(number: u32, counts: &[Count]) -> u32
    ensures { result ≡ votes_for number counts.now }
{
    for count in counts {
        if count.number == number {
            return count.votes;
        }
    }
    0
}

/// The first choice, in the order of choices, at which votes and report differ.
fn difference(votes: &[Choice], office: &OfficeCount) -> Option<Choice>
    requires { IsCounted office.now }
    ensures { result ≡ difference votes.now office.now }
{
    // The votes of a text that was read are in order.
    if !is_in_order(votes) {
        return search(votes, office);
    }
    match walk(votes, office) {
        Ok(_) => None,
        Err(choice) => Some(choice),
    }
}

/// Whether no vote stands before the one in front of it.
fn is_in_order(votes: &[Choice]) -> bool
    ensures { result ≡ in_order votes.now }
{
    let mut rest = votes;
    while let Some((vote, behind)) = rest.split_first() {
        if let Some(_) = first_before(*vote, behind) {
            return false;
        }
        rest = behind;
    }
    true
}

/// One walk through votes that stand in the order of choices, and through the report's numbers: what is left behind all of these, or the
/// first choice that differs.
fn walk<'a>(votes: &'a [Choice], office: &OfficeCount) -> Result<&'a [Choice], Choice>
    requires { IsCounted office.now }
    ensures { MatchResult result (λ rest. passed_all (listing office.now) votes.entry.now ≡ Ok rest.now) (λ c. passed_all (listing office.now) votes.entry.now ≡ Err c) }
{
    let rest = pass_candidates(votes, office.nominal.as_slice())?;
    let rest = pass_parties(rest, office.parties.as_slice())?;
    let rest = pass(rest, Choice::Blank, office.blank)?;
    pass(rest, Choice::Null, office.null_votes)
}

/// The votes behind those of all these candidates, or the first choice that differs.
#[tactic(auto, using(crate::proofs::Walking::counts_on, crate::proofs::Walking::counts_stop), unfolding(crate::specs::Walk::passed_all))]
fn pass_candidates<'a>(votes: &'a [Choice], counts: &[Count]) -> Result<&'a [Choice], Choice>
    ensures { MatchResult result (λ rest. passed_all (map for_candidate counts.now) votes.entry.now ≡ Ok rest.now) (λ c. passed_all (map for_candidate counts.now) votes.entry.now ≡ Err c) }
{
    let mut rest = votes;
    for count in counts {
        rest = pass(rest, Choice::Nominal(count.number), count.votes)?;
    }
    Ok(rest)
}

/// The same of parties.
#[tactic(auto, using(crate::proofs::Walking::counts_on, crate::proofs::Walking::counts_stop), unfolding(crate::specs::Walk::passed_all))]
fn pass_parties<'a>(votes: &'a [Choice], counts: &[Count]) -> Result<&'a [Choice], Choice>
    requires { AllByRecursion (λ c. c.number < 256) counts.now }
    ensures { MatchResult result (λ rest. passed_all (map for_party counts.now) votes.entry.now ≡ Ok rest.now) (λ c. passed_all (map for_party counts.now) votes.entry.now ≡ Err c) }
{
    let mut rest = votes;
    for count in counts {
        rest = pass(rest, Choice::Party(count.number as u8), count.votes)?;
    }
    Ok(rest)
}

/// The votes behind those of a choice, if there are so many of it; else the first choice that differs.
#[tactic(auto, unfolding(crate::specs::Walk::passed))]
fn pass(votes: &[Choice], choice: Choice, said: u32) -> Result<&[Choice], Choice>
    ensures { MatchResult result (λ rest. passed choice said votes.now ≡ Ok rest.now) (λ c. passed choice said votes.now ≡ Err c) }
{
    if let Some(first) = first_before(choice, votes) {
        return Err(first);
    }
    let lines = run(choice, votes);
    if lines == said as usize {
        Ok(&votes[lines..])
    } else {
        Err(choice)
    }
}

/// The first vote, if it stands before a choice.
fn first_before(choice: Choice, votes: &[Choice]) -> Option<Choice>
    ensures { result ≡ first_before choice votes.now }
{
    match votes {
        [first, ..] if !choice.is_at_or_before(*first) => Some(*first),
        _ => None,
    }
}

/// How many of the first votes stand at or before a choice.
#[tactic(auto, using(crate::proofs::Walking::run_more, crate::proofs::Walking::run_ends), unfolding(crate::specs::Walk::run))]
fn run(choice: Choice, votes: &[Choice]) -> usize
    ensures count { result ≡ run choice votes.now }
    ensures within { result ≤ length votes.now }
{
    let mut lines = 0;
    for vote in votes {
        if !vote.is_at_or_before(choice) {
            return lines;
        }
        lines += 1;
    }
    lines
}
