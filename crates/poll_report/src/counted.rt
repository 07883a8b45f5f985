//! The report of a section: each number in it is a number of members of a bag.
ghost use Rattle.std.specs.Prelude.{◌≡◌, ◌+◌, ◌^◌, ◌<◌, [], ◌∷◌, ◌++◌, length, map, nat_lt, IfOk, OnOk};
ghost use Rattle.std.specs.List.{filter};
ghost use Rattle.election_tables.specs.TablesData.{IsTables, candidates_at};
ghost use Rattle.vote_kinds.specs.Ballot.{panel_at};
ghost use Rattle.vote_kinds.specs.declared.choice.Choice.TheVariants as choice;
ghost use Rattle.vote_record.specs.Bag.{bag_at};
ghost use Rattle.poll_report.specs.Counted.{HasReport, listed, office_count, office_counts, party_counts, report_of};
ghost use Rattle.poll_report.specs.Report.{IsReport};

use crate::report::{Count, Counts, OfficeCount, OfficeCounts, Report};
use election_tables::{Kind, Section, Tables};
use std::alloc::Global;
use turnout::Turnout;
use urna_base::Memory;
use vote_kinds::Choice;
use vote_record::Rdv;

impl Report {
    /// The report of a section of the tables, as its record and its turnout are, opened and closed at these moments
    /// YYYYMMDDHHMMSS (docs/RULES.md, "The report"). Each count of votes is the number of members of a bag.
    ///
    /// The caller owes that the record is one of these tables and has the votes of all who came, that the section is one of
    /// the tables and has as many voters as the turnout, that both moments are valid, and that closing isn't below opening.
    /// `Memory` comes only where an allocation failed.
    pub fn of(
        alloc: Global,
        tables: &Tables,
        section: Section,
        votes: &Rdv,
        turnout: &Turnout,
        opened: u64,
        closed: u64,
    ) -> Result<Report, Memory>
        requires { HasReport tables.now section votes.now turnout.now opened closed }
        ensures counted { IfOk result (λ r. r ≡ report_of tables.now section votes.now.bags turnout.now opened closed) }
        ensures spelled { IfOk result IsReport }
    {
        Ok(Report {
            process: tables.process(),
            date: tables.date(),
            turn: tables.turn(),
            zone: section.zone,
            section: section.number,
            able: section.voters,
            came: turnout.len(),
            opened,
            closed,
            offices: count_offices(alloc, tables, votes)?,
        })
    }
}

fn count_offices(alloc: Global, tables: &Tables, votes: &Rdv) -> Result<OfficeCounts, Memory>
    requires { length votes.now.bags ≡ length tables.now.panels }
    ensures counts { IfOk result (λ offices. offices ≡ office_counts tables.now votes.now.bags) }
    ensures tables { IsTables tables.now }
{
    let mut offices = OfficeCounts::new(alloc);
    for panel in 0..tables.panels() {
        offices.push(count_office(alloc, tables, votes, panel)?)?;
    }
    Ok(offices)
}

fn count_office(
    alloc: Global,
    tables: &Tables,
    votes: &Rdv,
    panel: u32,
) -> Result<OfficeCount, Memory>
    requires panel { panel < length tables.now.panels }
    requires bag { panel < length votes.now.bags }
    ensures { IfOk result (λ o. o ≡ office_count tables.now (panel_at tables.now panel) (bag_at votes.now.bags panel)) }
{
    let office = tables.office(panel);
    Ok(OfficeCount {
        code: office.code,
        places: tables.places(panel),
        nominal: count_candidates(alloc, tables, votes, panel)?,
        parties: count_parties(alloc, tables, votes, panel, office.kind)?,
        blank: votes.count(panel, Choice::Blank),
        null_votes: votes.count(panel, Choice::Null),
    })
}

/// The candidates of a panel who have a vote.
fn count_candidates(
    alloc: Global,
    tables: &Tables,
    votes: &Rdv,
    panel: u32,
) -> Result<Counts, Memory>
    requires panel { panel < length tables.now.panels }
    requires bag { panel < length votes.now.bags }
    ensures { IfOk result (λ counts. counts ≡ listed (λ n. choice.Nominal n) (map (λ c. c.number) (candidates_at panel tables.now)) (bag_at votes.now.bags panel)) }
{
    let mut counts = Counts::new(alloc);
    for i in 0..tables.candidate_count(panel) {
        let number = tables.candidate(panel, i).number;
        let votes = votes.count(panel, Choice::Nominal(number));
        list(&mut counts, Count { number, votes })?;
    }
    Ok(counts)
}

/// The parties that have a party vote in a panel, in a proportional office.
fn count_parties(
    alloc: Global,
    tables: &Tables,
    votes: &Rdv,
    panel: u32,
    kind: Kind,
) -> Result<Counts, Memory>
    requires { panel < length votes.now.bags }
    ensures { IfOk result (λ counts. counts ≡ party_counts kind tables.now (bag_at votes.now.bags panel)) }
{
    match kind {
        Kind::Proportional => count_all_parties(alloc, tables, votes, panel),
        Kind::Absolute => Ok(Counts::new(alloc)),
        Kind::Simple => Ok(Counts::new(alloc)),
    }
}

fn count_all_parties(
    alloc: Global,
    tables: &Tables,
    votes: &Rdv,
    panel: u32,
) -> Result<Counts, Memory>
    requires { panel < length votes.now.bags }
    ensures { IfOk result (λ counts. counts ≡ listed (λ n. choice.Party n) (map (λ q. q.number) tables.now.parties) (bag_at votes.now.bags panel)) }
{
    let mut counts = Counts::new(alloc);
    for i in 0..tables.party_count() {
        let number = tables.party(i);
        let votes = votes.count(panel, Choice::Party(number));
        list(
            &mut counts,
            Count {
                number: u32::from(number),
                votes,
            },
        )?;
    }
    Ok(counts)
}

/// One count more, where it has a vote.
fn list(counts: &mut Counts, count: Count) -> Result<(), Memory>
    requires { length counts.old + 1 < 2 ^ 32 }
    ensures { OnOk result (counts.new ≡ counts.old ++ filter (λ c. nat_lt 0 c.votes) (count ∷ [])) }
{
    if count.votes > 0 {
        counts.push(count)?;
    }
    Ok(())
}
