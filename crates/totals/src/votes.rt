//! All votes of a panel.
ghost use Rattle.std.specs.Prelude.{◌≡◌, ◌<◌, ◌^◌, List, length};
ghost use Rattle.poll_report.specs.declared.report.Report.{Report};
ghost use Rattle.section_intake.specs.Intake.{IsIntakeFor, accepted_files};
ghost use Rattle.section_intake.specs.Sums.{AreReportsOf, all_party};
ghost use Rattle.seat_remainders.specs.Parties.{nominal_votes};
ghost use Rattle.vote_kinds.specs.Ballot.{panel_at};
ghost use Rattle.totals.specs.Contest.{entries_in, votes_in};
ghost use Rattle.totals.specs.Lines.{total_of, valid_of};

use election_tables::Tables;
use seat_remainders::{Entry, nominal_votes};
use section_intake::Intake;

/// The votes of a panel over all accepted reports.
#[derive(Clone, Copy, Debug, PartialEq, Eq)]
pub struct PanelVotes {
    pub nominal: u64,
    pub party: u64,
    pub blank: u64,
    pub null_votes: u64,
}

impl PanelVotes {
    /// The votes of a panel whose candidates are these, over the reports of the accepted files.
    ///
    /// The caller owes that there is such a panel, that the intake was made for these tables, and that the candidates are those of
    /// `entries_of`, and have fewer than 10^8 votes.
    pub fn of(tables: &Tables, intake: &Intake, panel: u32, entries: &[Entry]) -> PanelVotes
        requires panel { panel < length tables.now.panels }
        requires made { IsIntakeFor tables.now intake.now }
        requires entries { (reports : List Report) → AreReportsOf (accepted_files intake.now) reports
            → entries.now ≡ entries_in reports panel (panel_at tables.now panel) }
        requires few { nominal_votes entries.now < 10 ^ 8 }
        ensures votes { (reports : List Report) → AreReportsOf (accepted_files intake.now) reports → result ≡ votes_in reports panel }
        ensures few { total_of result < 10 ^ 8 }
    {
        PanelVotes {
            nominal: nominal_votes(entries),
            party: party_votes(tables, intake, panel),
            blank: intake.blank(panel),
            null_votes: intake.null_votes(panel),
        }
    }

    /// The valid ones: the nominal and the party votes. The caller owes that all votes are fewer than 10^11, as those of a panel are.
    pub fn valid(&self) -> u64
        requires { total_of self.now < 10 ^ 11 }
        ensures { result ≡ valid_of self.now }
    {
        self.nominal + self.party
    }

    /// All of them.
    pub(crate) fn total(&self) -> u64
        requires { total_of self.now < 10 ^ 11 }
        ensures { result ≡ total_of self.now }
    {
        self.valid() + (self.blank + self.null_votes)
    }
}

/// The party votes of all parties in a panel.
fn party_votes(tables: &Tables, intake: &Intake, panel: u32) -> u64
    requires panel { panel < length tables.now.panels }
    requires made { IsIntakeFor tables.now intake.now }
    ensures { (reports : List Report) → AreReportsOf (accepted_files intake.now) reports → result ≡ all_party panel reports }
{
    let mut votes = 0u64;
    for i in 0..tables.party_count() {
        votes += intake.party(panel, tables.party(i));
    }
    votes
}
