//! The candidates of a panel with their votes.
ghost use Rattle.std.specs.Prelude.{◌≡◌, ◌==◌, ◌<◌, ◌≤◌, ◌^◌, List, filter, length, not, IfOk};
ghost use Rattle.election_tables.specs.Limits.{most_candidates};
ghost use Rattle.poll_report.specs.declared.report.Report.{Report};
ghost use Rattle.section_intake.specs.Intake.{IsIntakeFor, accepted_files};
ghost use Rattle.section_intake.specs.Sums.{AreReportsOf};
ghost use Rattle.seat_remainders.specs.Parties.{nominal_votes};
ghost use Rattle.vote_kinds.specs.Ballot.{panel_at};
ghost use Rattle.totals.specs.Contest.{entries_in};

use election_tables::Tables;
use seat_remainders::{Entries, Entry};
use section_intake::Intake;
use std::alloc::Global;
use urna_base::Memory;

/// The candidates of a panel, rising, with their nominal votes over the reports of the accepted files.
///
/// The caller owes that there is such a panel, and that the intake was made for these tables. `Memory` comes only where an allocation
/// failed.
pub fn entries_of(
    alloc: Global,
    tables: &Tables,
    intake: &Intake,
    panel: u32,
) -> Result<Entries, Memory>
    requires panel { panel < length tables.now.panels }
    requires made { IsIntakeFor tables.now intake.now }
    ensures entries { IfOk result (λ entries. (reports : List Report) → AreReportsOf (accepted_files intake.now) reports
        → entries ≡ entries_in reports panel (panel_at tables.now panel)) }
    ensures few { IfOk result (λ entries. length entries ≤ most_candidates) }
    ensures votes { IfOk result (λ entries. nominal_votes entries < 10 ^ 8) }
{
    let mut entries = Entries::new(alloc);
    for i in 0..tables.candidate_count(panel) {
        let candidate = tables.candidate(panel, i);
        entries.push(Entry {
            number: candidate.number,
            birth: candidate.birth,
            votes: intake.nominal(panel, candidate.number),
        })?;
    }
    Ok(entries)
}

/// Those with another number, in the same order.
pub(crate) fn without(alloc: Global, entries: &[Entry], number: u32) -> Result<Entries, Memory>
    requires { length entries.now < 2 ^ 32 }
    ensures { IfOk result (λ others. others ≡ filter (λ c. not (c.number == number)) entries.now) }
{
    let mut others = Entries::new(alloc);
    for entry in entries {
        if entry.number != number {
            others.push(*entry)?;
        }
    }
    Ok(others)
}
