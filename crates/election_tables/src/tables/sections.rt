//! The sections, rising by zone, then by number.
ghost use Rattle.std.specs.Prelude.{◌≡◌, ◌<◌, true, Some, length, map, slice_get, IfOk, IfSome, IsPermutation};
ghost use Rattle.std.specs.List.{list_all};
ghost use Rattle.election_tables.specs.Rules.{section_in_range, are_distinct, same_pair};
ghost use Rattle.election_tables.specs.Tables.{entry_of_section};
ghost use Rattle.election_tables.specs.TablesData.{SectionsRise, place_with, section_with};

use super::to_u32;
use crate::document::SectionEntry;
use std::alloc::{AllocError, Global};
use std::marker::Model;

/// A section: its zone, its number and how many voters it has.
#[derive(Clone, Copy, Debug, PartialEq, Eq)]
pub struct Section {
    pub zone: u32,
    pub number: u32,
    pub voters: u32,
}

/// The sections, rising by zone, then by number, which contracts see as their list.
#[derive(Drop)]
pub struct Sections {
    items: Vec<Section>,
}

impl Model for Sections {
    ghost use Rattle.std.specs.Prelude.{List};
    ghost use Rattle.election_tables.specs.declared.tables.sections.Section.{Section};

    ghost Value = { List Section };

    ghost use Rattle.election_tables.specs.TablesData.{SectionsRise};

    ghost view = { λ s. s.items.items };

    ghost invariant = { λ s. SectionsRise s.items.items };
}

#[tactic(auto, using(crate::proofs::Signs::within_low, crate::proofs::Signs::within_high))]
fn to_section(entry: &SectionEntry) -> Section
    requires { section_in_range entry.now ≡ true }
    ensures { entry_of_section result ≡ entry.now }
{
    Section {
        zone: to_u32(entry.zone),
        number: to_u32(entry.number),
        voters: to_u32(entry.voters),
    }
}

fn to_sections(alloc: Global, entries: &[SectionEntry]) -> Result<Vec<Section>, AllocError>
    requires { list_all section_in_range entries.now ≡ true }
    ensures { IfOk result (λ v. map entry_of_section v.items ≡ entries.now) }
{
    let mut sections = Vec::new(alloc);
    for entry in entries {
        sections.push(to_section(entry))?;
    }
    Ok(sections)
}

impl Sections {
    /// The document's sections, rising by zone, then by number.
    pub(crate) fn of(alloc: Global, entries: &[SectionEntry]) -> Result<Sections, AllocError>
        requires in_range { list_all section_in_range entries.now ≡ true }
        requires distinct { are_distinct same_pair (map (λ s. (s.zone, s.number)) entries.now) ≡ true }
        ensures ok { IfOk result (λ v. IsPermutation entries.now (map entry_of_section v)) }
        ensures rise { IfOk result SectionsRise }
    {
        let mut items = to_sections(alloc, entries)?;
        items.sort_unstable_by_key(|s| (s.zone, s.number));
        Ok(Sections { items })
    }

    pub(crate) fn len(&self) -> usize
        ensures { result ≡ length self.now }
    {
        self.items.len()
    }

    /// The section at a place, in rising order.
    pub(crate) fn at(&self, i: usize) -> Section
        requires { i < length self.now }
        ensures { slice_get self.now i ≡ Some result }
    {
        self.items[i]
    }

    /// The place of the section of a zone and number, by binary search.
    pub(crate) fn place_of(&self, zone: u32, number: u32) -> Option<usize>
        ensures place { result ≡ place_with zone number self.now }
        ensures within { IfSome result (λ i. i < length self.now) }
    {
        match self
            .items
            .binary_search_by_key(&(zone, number), |s| (s.zone, s.number))
        {
            Ok(i) => Some(i),
            Err(_) => None,
        }
    }

    /// The section of a zone and number.
    pub(crate) fn with(&self, zone: u32, number: u32) -> Option<Section>
        ensures { result ≡ section_with zone number self.now }
    {
        match self.place_of(zone, number) {
            Some(i) => Some(self.items[i]),
            None => None,
        }
    }
}
