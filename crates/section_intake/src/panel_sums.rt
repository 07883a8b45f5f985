//! What is counted in each panel over the reports of an intake.
ghost use Rattle.std.specs.Prelude.{◌≡◌, ◌<◌, ◌≤◌, [], length, slice_get, IfOk, Some, ℕ};
ghost use Rattle.poll_report.specs.Report.{total_of};
ghost use Rattle.section_intake.specs.Kept.{HasRoomFor, sums_at, with_office, with_offices};

use crate::tallies::Tallies;
use election_tables::Tables;
use poll_report::OfficeCount;
use std::alloc::Global;
use urna_base::Memory;

/// The sums of a panel: of each of its candidates, of the party votes of each party, and of the blank and the null votes.
#[derive(Drop)]
pub struct PanelSums {
    pub(crate) nominal: Tallies,
    pub(crate) parties: Tallies,
    pub(crate) blank: u64,
    pub(crate) null_votes: u64,
}

impl PanelSums {
    /// No votes. All memory for the sums is taken here.
    fn new(alloc: Global, tables: &Tables, panel: u32) -> Result<PanelSums, Memory>
        requires { panel < length tables.now.panels }
        ensures { IfOk result (λ s. s ≡ sums_at tables.now [] panel) }
    {
        Ok(PanelSums {
            nominal: Tallies::of_candidates(alloc, tables, panel)?,
            parties: Tallies::of_parties(alloc, tables)?,
            blank: 0,
            null_votes: 0,
        })
    }

    /// The votes of an office more.
    fn add(&mut self, office: &OfficeCount)
        requires { HasRoomFor (total_of office.now) self.old }
        ensures { self.new ≡ with_office office.now self.old }
    {
        self.nominal.add(office.nominal.as_slice());
        self.parties.add(office.parties.as_slice());
        self.blank += u64::from(office.blank);
        self.null_votes += u64::from(office.null_votes);
    }
}

/// The sums of each panel, with no votes.
pub(crate) fn no_sums(alloc: Global, tables: &Tables) -> Result<Vec<PanelSums>, Memory>
    ensures count { IfOk result (λ v. length v.items ≡ length tables.now.panels) }
    ensures sums { IfOk result (λ v. (panel : ℕ) → panel < length tables.now.panels → slice_get v.items panel ≡ Some (sums_at tables.now [] panel)) }
{
    let panels = tables.panels();
    let mut sums = Vec::with_capacity(alloc, panels as usize)?;
    for panel in 0..panels {
        sums.push_reserved(PanelSums::new(alloc, tables, panel)?);
    }
    Ok(sums)
}

/// The votes of the offices of a report more, each in its panel.
pub(crate) fn add_offices(sums: &mut [PanelSums], offices: &[OfficeCount])
    requires count { length offices.now ≤ length sums.old }
    requires room { (panel : ℕ) (s : PanelSums) (o : OfficeCount) → slice_get sums.old panel ≡ Some s → slice_get offices.now panel ≡ Some o → HasRoomFor (total_of o) s }
    ensures { sums.new ≡ with_offices offices.now sums.old }
{
    for panel in 0..offices.len() {
        sums[panel].add(&offices[panel]);
    }
}
