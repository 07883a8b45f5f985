//! The tables as the layers above use them.
ghost use Rattle.std.specs.Prelude.{◌≡◌, ◌≢◌, ◌<◌, ◌≤◌, ◌<ℤ◌, ◌≤ℤ◌, ℕ, None, Some, Err, pos, IsOk, IfOk, IfSome, IsTrue, length, option_map, option_copied, slice_get};
ghost use Rattle.toml.specs.View.{table_view};
ghost use Rattle.election_tables.specs.Fields.{is_name};
ghost use Rattle.election_tables.specs.Limits.{longest_name, most_candidates, most_lines, most_voters};
ghost use Rattle.election_tables.specs.Rules.{broken_rule, first_broken, typed_rules};
ghost use Rattle.election_tables.specs.Tables.{AreTablesOf, BreaksFirst, IsNoDocument, IsReadAs, KeepsRules};
ghost use Rattle.election_tables.specs.Verdict.{IsAnswerFor};
ghost use Rattle.election_tables.specs.TablesData.{TablesData, IsOffice, IsTables, bloc_in, candidate_name, candidates_at, is_federation, line_panels, party_name, place_with, places_at, section_with, without_name};

mod candidates;
mod federations;
mod panels;
mod parties;
mod sections;

use crate::document::Document;
use crate::office::{Office, places_by};
use crate::shape::broken_shape;
pub use candidates::Candidate;
use federations::{Federation, bloc_of, federations_of, is_federation};
use panels::{Panel, panels_of};
use parties::Parties;
pub use sections::Section;
use sections::Sections;
use sha2::{Digest, Sha256};
use std::alloc::{AllocError, Global};
use std::marker::Model;
use thiserror::Error;
use toml::Table;

/// The tables of an election. Contracts see them as `TablesData` (`specs/TablesData.antt`).
#[derive(Drop)]
pub struct Tables {
    process: u32,
    date: u32,
    turn: u8,
    panels: Vec<Panel>,
    parties: Parties,
    sections: Sections,
    federations: Vec<Federation>,
    digest: [u8; 32],
}

impl Model for Tables {
    ghost use Rattle.election_tables.specs.TablesData.{TablesData, IsTables};

    ghost Value = { TablesData };

    ghost view = { λ t. record {
      process = t.process;
      date = t.date;
      turn = t.turn;
      panels = t.panels.items;
      parties = t.parties;
      sections = t.sections;
      federations = t.federations.items;
      digest = t.digest;
    } };

    ghost invariant = { λ t. IsTables (record {
      process = t.process;
      date = t.date;
      turn = t.turn;
      panels = t.panels.items;
      parties = t.parties;
      sections = t.sections;
      federations = t.federations.items;
      digest = t.digest;
    }) };
}

/// A number of the document, which its rules keep in range.
fn to_u32(z: i64) -> u32
    requires low { pos 0 ≤ℤ z }
    requires high { z <ℤ pos 4294967296 }
    ensures { pos result ≡ z }
{
    z as u32
}

/// Why a document gives no tables.
#[derive(Clone, Copy, Debug, PartialEq, Eq, Error)]
pub enum TablesError {
    /// Memory ran out.
    #[error("out of memory")]
    Memory,
    /// The bytes are no TOML document.
    #[error("the tables are no TOML document")]
    NotToml,
    /// The first rule of docs/FORMATS.md, "Election tables", that the document breaks.
    #[error("the tables break rule {0}")]
    Rule(u8),
}

impl Tables {
    /// The tables of a document that keeps the rules from 4 on.
    fn of(alloc: Global, document: &Document, digest: [u8; 32]) -> Result<Tables, AllocError>
        requires { first_broken 4 (typed_rules document.now) ≡ None }
        ensures ok { IfOk result (AreTablesOf document.now) }
        ensures digest { IfOk result (λ t. t.digest ≡ digest) }
    {
        Ok(Tables {
            process: to_u32(document.process),
            date: to_u32(document.date),
            turn: to_u32(document.turn) as u8,
            panels: panels_of(alloc, &document.offices, &document.candidates)?,
            parties: Parties::of(alloc, &document.parties)?,
            sections: Sections::of(alloc, &document.sections)?,
            federations: federations_of(alloc, &document.federations)?,
            digest,
        })
    }

    /// The tables in a TOML document, and the digest of its bytes.
    #[tactic(auto, using(crate::proofs::Breaks::broken_by_shape, crate::proofs::Breaks::broken_by_entries))]
    fn from_table(alloc: Global, table: &Table, digest: [u8; 32]) -> Result<Tables, TablesError>
        ensures { IsAnswerFor (table_view table.now) digest result }
    {
        if let Some(k) = broken_shape(table) {
            return Err(TablesError::Rule(k));
        }
        let document = match Document::read(alloc, table) {
            Ok(document) => document,
            Err(_) => return Err(TablesError::Memory),
        };
        match document.broken_rule(alloc) {
            Ok(None) => {}
            Ok(Some(k)) => return Err(TablesError::Rule(k)),
            Err(_) => return Err(TablesError::Memory),
        }
        match Tables::of(alloc, &document, digest) {
            Ok(tables) => Ok(tables),
            Err(_) => Err(TablesError::Memory),
        }
    }

    /// The tables in some bytes: a TOML document that keeps the rules of docs/FORMATS.md, "Election tables", with its
    /// entries in any order. Bytes of any length may be given; the largest document that keeps the rules has about
    /// 0.7 MB.
    ///
    /// Errors: `NotToml` where the bytes are no TOML document, `Rule(k)` where rule k is the first that doesn't hold,
    /// `Memory` where memory ran out.
    pub fn read(alloc: Global, bytes: &[u8]) -> Result<Tables, TablesError>
        ensures ok { IfOk result (IsReadAs bytes.now) }
        ensures tables { IfOk result IsTables }

        ensures not_toml { result ≡ Err TablesError.NotToml → IsNoDocument bytes.now }
        ensures rule { (k : ℕ) → result ≡ Err (TablesError.Rule k) → BreaksFirst bytes.now k }
        ensures rule_number { (k : ℕ) → result ≡ Err (TablesError.Rule k) → (1 ≤ k) × (k ≤ 17) }

        // and exactly there, unless memory ran out
        ensures not_toml_there { result ≢ Err TablesError.Memory → IsNoDocument bytes.now → result ≡ Err TablesError.NotToml }
        ensures rule_there { result ≢ Err TablesError.Memory → (k : ℕ) → BreaksFirst bytes.now k → result ≡ Err (TablesError.Rule k) }
        ensures ok_there { result ≢ Err TablesError.Memory → KeepsRules bytes.now → IsOk result }
    {
        match toml::table_from_slice(alloc, bytes) {
            Ok(table) => Tables::from_table(alloc, &table, Sha256::digest(bytes)),
            Err(e) => {
                if e.is_memory() {
                    return Err(TablesError::Memory);
                }
                Err(TablesError::NotToml)
            }
        }
    }
}

impl Tables {
    /// How many panels the ballot has: one for each office, in the order of the document.
    pub fn panels(&self) -> u32
        ensures count { result ≡ length self.now.panels }
        ensures tables { IsTables self.now }
    {
        self.panels.len() as u32
    }

    /// The office of a panel.
    pub fn office(&self, panel: u32) -> Office
        requires { panel < length self.now.panels }
        ensures office { option_map (λ p. p.office) (slice_get self.now.panels panel) ≡ Some result }
        ensures fits { IsOffice result }
        ensures digits { (2 ≤ result.digits) × (result.digits ≤ 5) }
    {
        self.panels[panel as usize].office
    }

    /// How many votes each voter has in a panel.
    pub fn places(&self, panel: u32) -> u32
        requires { panel < length self.now.panels }
        ensures places { result ≡ places_at self.now panel }
        ensures few { (1 ≤ result) × (result ≤ 2) }
    {
        let office = self.office(panel);
        places_by(office.code, u64::from(office.seats)) as u32
    }

    /// How many lines the ballot has: one line for each vote that a voter has in a panel, each that of its panel.
    pub fn ballot_lines(&self) -> u32
        ensures count { result ≡ length (line_panels self.now) }
        ensures few { result ≤ most_lines }
        ensures tables { IsTables self.now }
    {
        let mut lines = 0;
        for panel in 0..self.panels() {
            lines += self.places(panel);
        }
        lines
    }

    /// The panel of a line of the ballot, counted from 0. Panels stand in their order.
    pub fn line_panel(&self, line: u32) -> u32
        requires { line < length (line_panels self.now) }
        ensures panel { slice_get (line_panels self.now) line ≡ Some result }
        ensures within { result < length self.now.panels }
    {
        // few enough to count
        let _panels = self.panels();
        let mut panel = 0;
        let mut left = line;
        while self.places(panel) <= left {
            left -= self.places(panel);
            panel += 1;
        }
        panel
    }

    /// How many parties there are.
    pub fn party_count(&self) -> u32
        ensures count { result ≡ length self.now.parties }
        ensures tables { IsTables self.now }
    {
        self.parties.len() as u32
    }

    /// The number of the party at a place, in rising order.
    pub fn party(&self, i: u32) -> u8
        requires { i < length self.now.parties }
        ensures party { option_map (λ q. q.number) (slice_get self.now.parties i) ≡ Some result }
        ensures two_digits { (10 ≤ result) × (result ≤ 99) }
    {
        self.parties.at(i as usize)
    }

    /// The name of the party of a number; `None` exactly where the tables have no such party.
    pub fn party_name(&self, number: u8) -> Option<&str>
        ensures name { option_copied result ≡ party_name number self.now.parties }
        ensures printable { IfSome result (λ name. IsTrue (is_name name.now)) }
        ensures short { IfSome result (λ name. (1 ≤ length name.now) × (length name.now ≤ longest_name)) }
    {
        self.parties.name_of(number)
    }

    /// The number of the bloc of a party: a federation counts as one party, by the lowest number of its parties, and a party
    /// that is in none is a bloc by itself (Lei 9.096/1995, art. 11-A). `None` exactly where the tables have no such party.
    pub fn bloc(&self, party: u8) -> Option<u8>
        ensures bloc { result ≡ bloc_in self.now party }
        ensures two_digits { IfSome result (λ b. (10 ≤ b) × (b ≤ 99)) }
    {
        if !self.parties.has(party) {
            return None;
        }
        Some(bloc_of(&self.federations, party))
    }

    /// Whether a number is that of a federation, the lowest of its parties (Lei 9.096/1995, art. 11-A).
    pub fn is_federation(&self, bloc: u8) -> bool
        ensures { result ≡ is_federation self.now.federations bloc }
    {
        is_federation(&self.federations, bloc)
    }

    /// How many candidates the office of a panel has.
    pub fn candidate_count(&self, panel: u32) -> u32
        requires { panel < length self.now.panels }
        ensures count { result ≡ length (candidates_at panel self.now) }
        ensures few { result ≤ most_candidates }
    {
        let panel = &self.panels[panel as usize];
        panel.candidates.len() as u32
    }

    /// The candidate at a place of a panel, in rising order of the numbers.
    pub fn candidate(&self, panel: u32, i: u32) -> Candidate
        requires panel { panel < length self.now.panels }
        requires place { i < length (candidates_at panel self.now) }
        ensures candidate { option_map without_name (slice_get (candidates_at panel self.now) i) ≡ Some result }
        ensures digits { (10 ≤ result.number) × (result.number ≤ 99999) }
    {
        let panel = &self.panels[panel as usize];
        panel.candidates.at(i as usize)
    }

    /// The name of the candidate of a number; `None` exactly where the panel has no such candidate, or there is no such
    /// panel.
    pub fn candidate_name(&self, panel: u32, number: u32) -> Option<&str>
        ensures name { option_copied result ≡ candidate_name number (candidates_at panel self.now) }
        ensures printable { IfSome result (λ name. IsTrue (is_name name.now)) }
        ensures short { IfSome result (λ name. (1 ≤ length name.now) × (length name.now ≤ longest_name)) }
    {
        match self.panels.get(panel as usize) {
            Some(panel) => panel.candidates.name_of(number),
            None => None,
        }
    }

    /// How many sections there are.
    pub fn section_count(&self) -> u32
        ensures count { result ≡ length self.now.sections }
        ensures tables { IsTables self.now }
    {
        self.sections.len() as u32
    }

    /// The section at a place, rising by zone, then by number.
    pub fn section(&self, i: u32) -> Section
        requires { i < length self.now.sections }
        ensures section { slice_get self.now.sections i ≡ Some result }
        ensures voters { (1 ≤ result.voters) × (result.voters ≤ most_voters) }
    {
        self.sections.at(i as usize)
    }

    /// The section of a zone and number; `None` exactly where the tables have no such section.
    pub fn find_section(&self, zone: u32, number: u32) -> Option<Section>
        ensures section { result ≡ section_with zone number self.now.sections }
        ensures tables { IsTables self.now }
        ensures voters { IfSome result (λ s. (1 ≤ s.voters) × (s.voters ≤ most_voters)) }
    {
        self.sections.with(zone, number)
    }

    /// The place of the section of a zone and number, where `section` tells it; `None` exactly where the tables have no such
    /// section.
    pub fn section_place(&self, zone: u32, number: u32) -> Option<u32>
        ensures place { result ≡ place_with zone number self.now.sections }
        ensures within { IfSome result (λ i. i < length self.now.sections) }
        ensures tables { IsTables self.now }
    {
        match self.sections.place_of(zone, number) {
            Some(i) => Some(i as u32),
            None => None,
        }
    }

    /// The number of the election.
    pub fn process(&self) -> u32
        ensures { result ≡ self.now.process }
    {
        self.process
    }

    /// The date of the poll, as YYYYMMDD.
    pub fn date(&self) -> u32
        ensures { result ≡ self.now.date }
    {
        self.date
    }

    /// The turn, 1 or 2.
    pub fn turn(&self) -> u8
        ensures { result ≡ self.now.turn }
    {
        self.turn
    }

    /// The SHA-256 of the bytes that the tables were read from.
    pub fn digest(&self) -> [u8; 32]
        ensures { result ≡ self.now.digest }
    {
        self.digest
    }
}
