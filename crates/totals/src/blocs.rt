//! The blocs of the tables: a federation, or a party that is in none (Lei 9.096/1995, art. 11-A).
ghost use Rattle.std.specs.Prelude.{◌≡◌, ◌==◌, ◌<◌, ◌≤◌, true, List, length, map, IfOk};
ghost use Rattle.std.specs.List.{list_any};
ghost use Rattle.election_tables.specs.TablesData.{bloc_of};
ghost use Rattle.poll_report.specs.declared.report.Report.{Report};
ghost use Rattle.section_intake.specs.Intake.{IsIntakeFor, accepted_files};
ghost use Rattle.section_intake.specs.Sums.{AreReportsOf};
ghost use Rattle.totals.specs.Contest.{blocs_of};
ghost use Rattle.totals.specs.Giving.{party_votes_for, without_candidates};
ghost use Rattle.totals.specs.Lines.{bloc_word};

use election_tables::Tables;
use seat_remainders::{Contestant, Contestants, Entries};
use section_intake::Intake;
use std::alloc::Global;
use urna_base::Memory;

/// The blocs of the tables, rising, each with the party votes of its parties and without candidates.
pub(crate) fn blocs_without_candidates(
    alloc: Global,
    tables: &Tables,
    intake: &Intake,
    panel: u32,
) -> Result<Contestants, Memory>
    requires panel { panel < length tables.now.panels }
    requires made { IsIntakeFor tables.now intake.now }
    ensures { IfOk result (λ blocs. (reports : List Report) → AreReportsOf (accepted_files intake.now) reports
        → blocs ≡ map (without_candidates tables.now reports panel) (blocs_of tables.now)) }
{
    let mut blocs = Contestants::new(alloc);
    for i in 0..tables.party_count() {
        let party = tables.party(i);
        if bloc_of(tables, party) == party {
            blocs.push(Contestant {
                number: party,
                party_votes: party_votes_for(tables, intake, panel, party),
                candidates: Entries::new(alloc),
            })?;
        }
    }
    Ok(blocs)
}

/// The party votes of the parties of a bloc.
fn party_votes_for(tables: &Tables, intake: &Intake, panel: u32, bloc: u8) -> u64
    requires panel { panel < length tables.now.panels }
    requires made { IsIntakeFor tables.now intake.now }
    ensures { (reports : List Report) → AreReportsOf (accepted_files intake.now) reports
        → result ≡ party_votes_for tables.now reports panel bloc }
{
    let mut votes = 0u64;
    for i in 0..tables.party_count() {
        let party = tables.party(i);
        if bloc_of(tables, party) == bloc {
            votes += intake.party(panel, party);
        }
    }
    votes
}

/// The number of the bloc of a party of the tables.
pub(crate) fn bloc_of(tables: &Tables, party: u8) -> u8
    requires { list_any (λ q. q.number == party) tables.now.parties ≡ true }
    ensures { result ≡ bloc_of tables.now.federations party }
{
    tables.bloc(party).unwrap()
}

/// The word for a bloc in the lines of the totals.
pub(crate) fn bloc_word(tables: &Tables, bloc: u8) -> &'static [u8]
    ensures word { result.now ≡ bloc_word tables.now bloc }
    ensures short { length result.now ≤ 10 }
{
    if tables.is_federation(bloc) {
        return b"FEDERACAO ";
    }
    b"PARTIDO "
}
