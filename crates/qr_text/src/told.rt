//! The report that was said: its numbers and votes, without the sums.
ghost use Rattle.std.specs.Prelude.{◌≡◌, ◌+◌, ◌++◌, ◌<◌, ◌^◌, length, IfOk, OnOk};
ghost use Rattle.poll_report.specs.Report.{IsReport};
ghost use Rattle.qr_text.specs.Reported.{all_candidates, legend_of, legends, told_office, told_report};

use crate::head::moment;
use crate::said::{Said, SaidOffice, SaidParties, SaidParty};
use poll_report::{Count, Counts, OfficeCount, OfficeCounts, Report};
use std::alloc::Global;
use urna_base::Memory;

/// The report that was said. The caller owes that there is such a report, so that its lists are short.
pub(crate) fn told_report(alloc: Global, said: &Said) -> Result<Report, Memory>
    requires { IsReport (told_report said.now) }
    ensures { IfOk result (λ r. r ≡ told_report said.now) }
{
    let mut offices = OfficeCounts::new(alloc);
    for office in said.offices.as_slice() {
        offices.push(told_office(alloc, office)?)?;
    }
    Ok(Report {
        process: said.process,
        date: said.date,
        turn: said.turn,
        zone: said.zone,
        section: said.section,
        able: said.able,
        came: said.came,
        opened: moment(said.open_date, said.open_time),
        closed: moment(said.close_date, said.close_time),
        offices,
    })
}

/// The counts of an office.
fn told_office(alloc: Global, office: &SaidOffice) -> Result<OfficeCount, Memory>
    requires candidates { length (all_candidates office.now) < 2 ^ 32 }
    requires legends { length (legends office.now.parties) < 2 ^ 32 }
    ensures { IfOk result (λ o. o ≡ told_office office.now) }
{
    let nominal = candidates_of(alloc, office)?;
    let parties = legends_of(alloc, &office.parties)?;
    Ok(OfficeCount {
        code: office.code,
        places: office.places,
        nominal,
        parties,
        blank: office.blank,
        null_votes: office.null_votes,
    })
}

/// The candidates of an office, party by party where they stand so.
fn candidates_of(alloc: Global, office: &SaidOffice) -> Result<Counts, Memory>
    requires { length (all_candidates office.now) < 2 ^ 32 }
    ensures { IfOk result (λ cs. cs ≡ all_candidates office.now) }
{
    let mut counts = Counts::new(alloc);
    push_all(&mut counts, &office.candidates)?;
    for party in office.parties.as_slice() {
        push_all(&mut counts, &party.candidates)?;
    }
    Ok(counts)
}

/// Counts behind others.
fn push_all(counts: &mut Counts, others: &Counts) -> Result<(), Memory>
    requires { length counts.old + length others.now < 2 ^ 32 }
    ensures { OnOk result (counts.new ≡ counts.old ++ others.now) }
{
    for count in others.as_slice() {
        counts.push(*count)?;
    }
    Ok(())
}

/// The party votes of these parties.
fn legends_of(alloc: Global, parties: &SaidParties) -> Result<Counts, Memory>
    requires { length (legends parties.now) < 2 ^ 32 }
    ensures { IfOk result (λ cs. cs ≡ legends parties.now) }
{
    let mut counts = Counts::new(alloc);
    for party in parties.as_slice() {
        push_legend(&mut counts, party)?;
    }
    Ok(counts)
}

/// The party votes of a party behind others, if it has any.
fn push_legend(counts: &mut Counts, party: &SaidParty) -> Result<(), Memory>
    requires { length counts.old + length (legend_of party.now) < 2 ^ 32 }
    ensures { OnOk result (counts.new ≡ counts.old ++ legend_of party.now) }
{
    if 0 < party.legend {
        counts.push(Count {
            number: party.number,
            votes: party.legend,
        })?;
    }
    Ok(())
}
