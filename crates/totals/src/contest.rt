//! The contest of a panel.
ghost use Rattle.std.specs.Prelude.{◌≡◌, ◌==◌, ◌<◌, ◌≤◌, List, [], length, map, true, IfOk, IfSome, OnOk};
ghost use Rattle.std.specs.List.{AllByRecursion, list_any, position};
ghost use Rattle.election_tables.specs.Fields.{first_two};
ghost use Rattle.election_tables.specs.TablesData.{IsTables};
ghost use Rattle.election_tables.specs.Limits.{most_candidates};
ghost use Rattle.poll_report.specs.declared.report.Report.{Report};
ghost use Rattle.seat_remainders.specs.Contest.{IsContest};
ghost use Rattle.section_intake.specs.Intake.{IsIntakeFor, accepted_files};
ghost use Rattle.section_intake.specs.Sums.{AreReportsOf};
ghost use Rattle.totals.specs.Contest.{blocs_of, contest_in};
ghost use Rattle.totals.specs.Giving.{IsPlaceOf, with_candidates};

use crate::blocs::{bloc_of, blocs_without_candidates};
use crate::entries::entries_of;
use election_tables::{Tables, first_two};
use seat_remainders::{Contest, Contestant, Contestants, Entry};
use section_intake::Intake;
use std::alloc::Global;
use urna_base::Memory;

/// The contest of a panel over the reports of the accepted files: the seats of its office, and each bloc of the tables, rising, with the
/// party votes of its parties and their candidates of this office, rising, each with the date of birth and the votes (docs/RULES.md, "The
/// totals"). It is one that `distribute` takes.
///
/// The caller owes that there is such a panel, and that the intake was made for these tables. `Memory` comes only where an allocation
/// failed.
pub fn contest_of(
    alloc: Global,
    tables: &Tables,
    intake: &Intake,
    panel: u32,
) -> Result<Contest, Memory>
    requires panel { panel < length tables.now.panels }
    requires made { IsIntakeFor tables.now intake.now }
    ensures contest { IfOk result (λ contest. (reports : List Report) → AreReportsOf (accepted_files intake.now) reports
        → contest ≡ contest_in tables.now reports panel) }
    ensures lawful { IfOk result IsContest }
{
    let office = tables.office(panel);
    let entries = entries_of(alloc, tables, intake, panel)?;
    let mut blocs = blocs_without_candidates(alloc, tables, intake, panel)?;
    add_candidates(tables, office.digits, entries.as_slice(), &mut blocs)?;
    Ok(Contest {
        seats: office.seats,
        parties: blocs,
    })
}

/// Gives each candidate to its bloc. Where candidates rise by number those of one party stand together, so that a bloc is looked for once
/// a party.
fn add_candidates(
    tables: &Tables,
    digits: u8,
    entries: &[Entry],
    blocs: &mut Contestants,
) -> Result<(), Memory>
    requires some { 2 ≤ digits }
    requires few_digits { digits ≤ 5 }
    requires few { length entries.now ≤ most_candidates }
    requires tables { IsTables tables.now }
    requires parties { AllByRecursion (λ c. list_any (λ q. q.number == first_two digits c.number) tables.now.parties ≡ true) entries.now }
    requires blocs { map (λ b. b.number) blocs.old ≡ blocs_of tables.now }
    requires none { AllByRecursion (λ b. b.candidates ≡ []) blocs.old }
    ensures { OnOk result (blocs.new ≡ map (with_candidates tables.now digits entries.now) blocs.old) }
{
    let mut known = None;
    for entry in entries {
        let party = first_two(digits, u64::from(entry.number)) as u8;
        let place = place_for(tables, blocs, known, party);
        blocs.push_candidate(place, *entry)?;
        known = Some((party, place));
    }
    Ok(())
}

/// The place of the bloc of a party. What may be known is that of another party: the party, and the place of its bloc.
fn place_for(tables: &Tables, blocs: &Contestants, known: Option<(u8, u32)>, party: u8) -> u32
    requires tables { IsTables tables.now }
    requires party { list_any (λ q. q.number == party) tables.now.parties ≡ true }
    requires blocs { map (λ b. b.number) blocs.now ≡ blocs_of tables.now }
    requires known { IfSome known (IsPlaceOf tables.now) }
    ensures { IsPlaceOf tables.now (party, result) }
{
    match known {
        Some((last, place)) if last == party => place,
        _ => place_of(blocs.as_slice(), bloc_of(tables, party)).unwrap() as u32,
    }
}

/// The place of the bloc of a number.
fn place_of(blocs: &[Contestant], number: u8) -> Option<usize>
    ensures { result ≡ position (λ b. b.number == number) blocs.now }
{
    blocs.iter().position(|b| b.number == number)
}
