//! Rule 4, the counts and ranges, and rule 13, on sections.
ghost use Rattle.std.specs.Prelude.{◌≡◌, map, IfOk};
ghost use Rattle.std.specs.List.{list_all};
ghost use Rattle.election_tables.specs.Fields.{is_name};
ghost use Rattle.election_tables.specs.Rules.{section_in_range, counts_in_range, head_in_range, names_in_range, rule_4, rule_13};

use super::distinct::pairs_differ;
use super::fields::{is_name, is_valid_date, is_within};
use crate::document::{CandidateEntry, Document, FederationEntry, PartyEntry, SectionEntry};
use crate::limits::{
    GREATEST_PROCESS, GREATEST_SECTION, MOST_CANDIDATES, MOST_FEDERATIONS, MOST_OFFICES,
    MOST_PARTIES, MOST_SECTIONS, MOST_VOTERS,
};
use std::alloc::{AllocError, Global};

fn section_in_range(section: &SectionEntry) -> bool
    ensures { result ≡ section_in_range section.now }
{
    is_within(section.zone, 1, GREATEST_SECTION)
        && is_within(section.number, 1, GREATEST_SECTION)
        && is_within(section.voters, 1, MOST_VOTERS)
}

fn sections_in_range(sections: &[SectionEntry]) -> bool
    ensures { result ≡ list_all section_in_range sections.now }
{
    sections.iter().all(|s| section_in_range(s))
}

fn section_keys(alloc: Global, sections: &[SectionEntry]) -> Result<Vec<(i64, i64)>, AllocError>
    ensures { IfOk result (λ v. v.items ≡ map (λ s. (s.zone, s.number)) sections.now) }
{
    sections.iter().map(|s| (s.zone, s.number)).collect(alloc)
}

fn parties_have_names(parties: &[PartyEntry]) -> bool
    ensures { result ≡ list_all (λ p. is_name p.name) parties.now }
{
    parties.iter().all(|p| is_name(&p.name))
}

fn candidates_have_names(candidates: &[CandidateEntry]) -> bool
    ensures { result ≡ list_all (λ c. is_name c.name) candidates.now }
{
    candidates.iter().all(|c| is_name(&c.name))
}

fn federations_have_names(federations: &[FederationEntry]) -> bool
    ensures { result ≡ list_all (λ f. is_name f.name) federations.now }
{
    federations.iter().all(|f| is_name(&f.name))
}

impl Document {
    fn counts_in_range(&self) -> bool
        ensures { result ≡ counts_in_range self.now }
    {
        let offices = self.offices.len();
        let parties = self.parties.len();
        let sections = self.sections.len();
        (1 <= offices && offices <= MOST_OFFICES)
            && ((1 <= parties && parties <= MOST_PARTIES)
                && (self.candidates.len() <= MOST_CANDIDATES
                    && ((1 <= sections && sections <= MOST_SECTIONS)
                        && self.federations.len() <= MOST_FEDERATIONS)))
    }

    fn head_in_range(&self) -> bool
        ensures { result ≡ head_in_range self.now }
    {
        is_within(self.process, 1, GREATEST_PROCESS)
            && (is_valid_date(self.date) && is_within(self.turn, 1, 2))
    }

    fn names_in_range(&self) -> bool
        ensures { result ≡ names_in_range self.now }
    {
        parties_have_names(&self.parties)
            && (candidates_have_names(&self.candidates)
                && federations_have_names(&self.federations))
    }

    /// Whether the counts, the numbers of the document and of its sections, and the names are in their ranges.
    pub(crate) fn keeps_rule_4(&self) -> bool
        ensures { result ≡ rule_4 self.now }
    {
        (self.counts_in_range() && self.head_in_range())
            && (sections_in_range(&self.sections) && self.names_in_range())
    }

    /// Whether no two sections have one zone and number.
    pub(crate) fn keeps_rule_13(&self, alloc: Global) -> Result<bool, AllocError>
        ensures { IfOk result (λ b. b ≡ rule_13 self.now) }
    {
        let keys = section_keys(alloc, &self.sections)?;
        Ok(pairs_differ(keys))
    }
}
