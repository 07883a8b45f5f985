//! Files are offered one behind the other, and the reports of the accepted ones are summed.
ghost use Rattle.std.specs.Prelude.{◌≡◌, ◌+◌, ◌<◌, ◌≤◌, ◌^◌, ℕ, false, List, [], ◌∷◌, ◌++◌, length, map, slice_get, slice_set, Option, None, Some, IfOk, OnErr, OnOk};
ghost use Rattle.election_tables.specs.TablesData.{TablesData};
ghost use Rattle.election_tables.specs.declared.tables.sections.Section.{Section};
ghost use Rattle.poll_report.specs.Report.{total_of};
ghost use Rattle.poll_report.specs.declared.report.OfficeCount.{OfficeCount};
ghost use Rattle.poll_report.specs.declared.report.Report.{Report};
ghost use Rattle.vote_kinds.specs.Ballot.{is_choice, line_of};
ghost use Rattle.vote_kinds.specs.declared.choice.Choice.TheVariants as Choice;
ghost use Rattle.section_intake.specs.Accepted.{IsVerdictBehind, accepted_with, is_accepted};
ghost use Rattle.section_intake.specs.Intake.{IsIntakeFor, accepted_files, panels_of};
ghost use Rattle.section_intake.specs.Kept.{HasRoomFor, with_offices};
ghost use Rattle.section_intake.specs.Sums.{AreReportsOf, blank_sum, nominal_sum, null_sum, party_sum};
ghost use Rattle.section_intake.specs.Verdict.{IsReportFile};
ghost use Rattle.section_intake.specs.declared.panel_sums.PanelSums.{PanelSums};
ghost use Rattle.section_intake.specs.declared.verdict.Verdict.{Verdict};

use crate::checking::{Refusal, read_file};
use crate::files::Files;
use crate::fitting::fits;
use crate::panel_sums::{PanelSums, add_offices, no_sums};
use crate::verdict::Verdict;
use election_tables::Tables;
use poll_report::Report;
use std::alloc::Global;
use urna_base::Memory;

/// The reports of an election: the files that were accepted, one at most for each section, and the sums over their reports
/// (docs/FORMATS.md, "Verdicts"). Contracts see the files by `accepted_files` (`specs/Intake.antt`).
#[derive(Drop)]
pub struct Intake {
    alloc: Global,
    // in the order of acceptance
    files: Files,
    // for each section of the tables, by its place, the place of its file
    holders: Vec<Option<u32>>,
    panels: Vec<PanelSums>,
}

impl Intake {
    /// Nothing accepted yet. All memory that stays is taken here, but that for the bytes of the files. `Memory` comes only where
    /// an allocation failed.
    pub fn new(alloc: Global, tables: &Tables) -> Result<Intake, Memory>
        ensures made { IfOk result (IsIntakeFor tables.now) }
        ensures empty { IfOk result (λ i. accepted_files i ≡ []) }
    {
        let sections = tables.section_count();
        Ok(Intake {
            alloc,
            files: Files::with_room(alloc, sections)?,
            holders: no_holders(alloc, sections)?,
            panels: no_sums(alloc, tables)?,
        })
    }

    /// The verdict on a file (docs/FORMATS.md, "Verdicts"), as `check` has it, but that the report of a section of which a
    /// file was accepted is `Repeated` if its bytes are those of that file, and `Conflict` if not. An accepted file is kept,
    /// and its report counted; no other verdict changes the intake.
    ///
    /// The caller owes that the file is shorter than 2^31 bytes, and that the intake was made for these tables. `Memory`
    /// comes only where an allocation failed, and then nothing has changed.
    pub fn offer(&mut self, tables: &Tables, bytes: &[u8]) -> Result<Verdict, Memory>
        requires short { length bytes.now < 2 ^ 31 }
        requires made { IsIntakeFor tables.now self.old }
        ensures verdict { IfOk result (λ v. IsVerdictBehind tables.now (accepted_files self.old) bytes.now v) }
        ensures there { (v : Verdict) → IsVerdictBehind tables.now (accepted_files self.old) bytes.now v → IfOk result (λ w. w ≡ v) }
        ensures accepted { IfOk result (λ v. accepted_files self.new ≡ accepted_with (accepted_files self.old) v bytes.now) }
        ensures unchanged { IfOk result (λ v. is_accepted v ≡ false → self.new ≡ self.old) }
        ensures memory { OnErr result (self.new ≡ self.old) }
        ensures still { IsIntakeFor tables.now self.new }
    {
        self.judge(tables, bytes)
    }

    /// The same, told of the verdict that there is: that there is no other follows from the laws of files.
    fn judge(&mut self, tables: &Tables, bytes: &[u8]) -> Result<Verdict, Memory>
        requires short { length bytes.now < 2 ^ 31 }
        requires made { IsIntakeFor tables.now self.old }
        ensures verdict { IfOk result (λ v. IsVerdictBehind tables.now (accepted_files self.old) bytes.now v) }
        ensures accepted { IfOk result (λ v. accepted_files self.new ≡ accepted_with (accepted_files self.old) v bytes.now) }
        ensures unchanged { IfOk result (λ v. is_accepted v ≡ false → self.new ≡ self.old) }
        ensures memory { OnErr result (self.new ≡ self.old) }
        ensures still { IsIntakeFor tables.now self.new }
    {
        match read_file(self.alloc, bytes) {
            Ok(report) => self.judge_report(tables, bytes, &report),
            Err(Refusal::Memory) => Err(Memory),
            Err(Refusal::Part(fault)) => Ok(Verdict::Part(fault)),
            Err(Refusal::Fields(fault)) => Ok(Verdict::Fields(fault)),
        }
    }

    /// The verdict on a file that has a report.
    fn judge_report(
        &mut self,
        tables: &Tables,
        bytes: &[u8],
        report: &Report,
    ) -> Result<Verdict, Memory>
        requires short { length bytes.now < 2 ^ 31 }
        requires report { IsReportFile bytes.now report.now }
        requires made { IsIntakeFor tables.now self.old }
        ensures verdict { IfOk result (λ v. IsVerdictBehind tables.now (accepted_files self.old) bytes.now v) }
        ensures accepted { IfOk result (λ v. accepted_files self.new ≡ accepted_with (accepted_files self.old) v bytes.now) }
        ensures unchanged { IfOk result (λ v. is_accepted v ≡ false → self.new ≡ self.old) }
        ensures memory { OnErr result (self.new ≡ self.old) }
        ensures still { IsIntakeFor tables.now self.new }
    {
        let zone = report.zone;
        let section = report.section;
        let place = match tables.section_place(zone, section) {
            Some(place) => place,
            None => return Ok(Verdict::Strange),
        };
        if !fits(tables, report) {
            return Ok(Verdict::Strange);
        }
        match self.holders[place as usize] {
            Some(file) => {
                if self.files.is_at(file, bytes) {
                    Ok(Verdict::Repeated { zone, section })
                } else {
                    Ok(Verdict::Conflict { zone, section })
                }
            }
            None => {
                self.keep(place, bytes, report)?;
                Ok(Verdict::Accepted { zone, section })
            }
        }
    }

    /// Keeps the file of the section at a place, and counts its report. The copy of the file comes first, since nothing
    /// behind it can fail.
    fn keep(&mut self, place: u32, bytes: &[u8], report: &Report) -> Result<(), Memory>
        requires place { place < length self.old.holders.items }
        requires files { length (accepted_files self.old) + 1 < 2 ^ 32 }
        requires offices { length report.now.offices ≤ length self.old.panels.items }
        requires room { (panel : ℕ) (s : PanelSums) (o : OfficeCount) → slice_get self.old.panels.items panel ≡ Some s → slice_get report.now.offices panel ≡ Some o → HasRoomFor (total_of o) s }
        ensures file { OnOk result (accepted_files self.new ≡ accepted_files self.old ++ bytes.now ∷ []) }
        ensures holder { OnOk result (self.new.holders.items ≡ slice_set self.old.holders.items place (Some (length (accepted_files self.old)))) }
        ensures sums { OnOk result (self.new.panels.items ≡ with_offices report.now.offices self.old.panels.items) }
        ensures memory { OnErr result (self.new ≡ self.old) }
    {
        let file = self.files.len();
        self.files.push(self.alloc, bytes)?;
        self.holders[place as usize] = Some(file);
        add_offices(self.panels.as_mut_slice(), report.offices.as_slice());
        Ok(())
    }

    /// How many files were accepted: one for each section that has a report.
    pub fn accepted(&self) -> u32
        ensures { result ≡ length (accepted_files self.now) }
    {
        self.files.len()
    }

    /// The votes of a candidate of a panel over all accepted reports; 0 for a number that the tables lack. The caller owes
    /// that the panel is in range.
    pub fn nominal(&self, panel: u32, number: u32) -> u64
        requires { panel < panels_of self.now }
        ensures sum { (t : TablesData) (reports : List Report) → IsIntakeFor t self.now → AreReportsOf (accepted_files self.now) reports → result ≡ nominal_sum panel number reports }
        ensures lacking { (t : TablesData) → IsIntakeFor t self.now → is_choice (line_of t panel) (Choice.Nominal number) ≡ false → result ≡ 0 }
    {
        self.panels[panel as usize].nominal.votes(number)
    }

    /// The party votes alone of a party in a panel, over all accepted reports; 0 for a number that the tables lack, and
    /// where the office is not decided in proportion. The caller owes that the panel is in range.
    pub fn party(&self, panel: u32, number: u8) -> u64
        requires { panel < panels_of self.now }
        ensures sum { (t : TablesData) (reports : List Report) → IsIntakeFor t self.now → AreReportsOf (accepted_files self.now) reports → result ≡ party_sum panel number reports }
        ensures lacking { (t : TablesData) → IsIntakeFor t self.now → is_choice (line_of t panel) (Choice.Party number) ≡ false → result ≡ 0 }
    {
        self.panels[panel as usize].parties.votes(u32::from(number))
    }

    /// The blank votes of a panel over all accepted reports. The caller owes that the panel is in range.
    pub fn blank(&self, panel: u32) -> u64
        requires { panel < panels_of self.now }
        ensures { (t : TablesData) (reports : List Report) → IsIntakeFor t self.now → AreReportsOf (accepted_files self.now) reports → result ≡ blank_sum panel reports }
    {
        self.panels[panel as usize].blank
    }

    /// The null votes of a panel over all accepted reports. The caller owes that the panel is in range.
    pub fn null_votes(&self, panel: u32) -> u64
        requires { panel < panels_of self.now }
        ensures { (t : TablesData) (reports : List Report) → IsIntakeFor t self.now → AreReportsOf (accepted_files self.now) reports → result ≡ null_sum panel reports }
    {
        self.panels[panel as usize].null_votes
    }
}

/// So many sections, none of which has a file.
fn no_holders(alloc: Global, sections: u32) -> Result<Vec<Option<u32>>, Memory>
    ensures { (xs : List Section) → length xs ≡ sections → IfOk result (λ v. v.items ≡ map (λ s. None) xs) }
{
    let mut holders = Vec::with_capacity(alloc, sections as usize)?;
    for _ in 0..sections {
        holders.push_reserved(None);
    }
    Ok(holders)
}
