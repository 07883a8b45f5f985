//! The document's typed lists: what its tables say, in the order of the document.
ghost use Rattle.std.specs.Prelude.{◌≡◌, map, IfOk, unwrap_or, []};
ghost use Rattle.std.specs.List.{filter_map};
ghost use Rattle.toml.specs.Data.{as_integer, as_str, as_table, Members};
ghost use Rattle.toml.specs.View.{view, table_view, array_view};
ghost use Rattle.election_tables.specs.Shape.{data_of, tables_in, tables_at};
ghost use Rattle.election_tables.specs.Entries.{number_at, text_at, numbers_at, kind_named, office_of, party_of, candidate_of, section_of, federation_of, document_of};

use crate::office::Kind;
use crate::shape::{array_at, find, is_same_key};
use std::alloc::{AllocError, Global};
use std::marker::Model;
use toml::Table;
use toml::value::Array;

/// A text of the document, which contracts see as its bytes.
#[derive(Drop)]
pub struct Name {
    text: String,
}

impl Model for Name {
    ghost use Rattle.std.specs.Prelude.{List, ℕ, string_bytes};

    ghost Value = { List ℕ };

    ghost view = { λ n. string_bytes n.text };
}

/// The numbers of an array of the document, which contracts see as their list.
#[derive(Drop)]
pub struct Numbers {
    items: Vec<i64>,
}

impl Model for Numbers {
    ghost use Rattle.std.specs.Prelude.{List, ℤ};

    ghost Value = { List ℤ };

    ghost view = { λ n. n.items.items };
}

/// A table of `cargo`. The kind is that of `regra`, if it names one.
#[derive(Drop)]
pub struct OfficeEntry {
    pub code: i64,
    pub kind: Option<Kind>,
    pub seats: i64,
}

/// A table of `partido`.
#[derive(Drop)]
pub struct PartyEntry {
    pub number: i64,
    pub name: Name,
}

/// A table of `candidato`.
#[derive(Drop)]
pub struct CandidateEntry {
    pub office: i64,
    pub number: i64,
    pub birth: i64,
    pub name: Name,
}

/// A table of `secao`.
#[derive(Drop)]
pub struct SectionEntry {
    pub zone: i64,
    pub number: i64,
    pub voters: i64,
}

/// A table of `federacao`.
#[derive(Drop)]
pub struct FederationEntry {
    pub name: Name,
    pub parties: Numbers,
}

/// The document as typed lists.
#[derive(Drop)]
pub struct Document {
    pub(crate) process: i64,
    pub(crate) date: i64,
    pub(crate) turn: i64,
    pub(crate) offices: Vec<OfficeEntry>,
    pub(crate) parties: Vec<PartyEntry>,
    pub(crate) candidates: Vec<CandidateEntry>,
    pub(crate) sections: Vec<SectionEntry>,
    pub(crate) federations: Vec<FederationEntry>,
}

impl Model for Document {
    ghost use Rattle.election_tables.specs.DocumentData.{DocumentData};

    ghost Value = { DocumentData };

    ghost view = { λ d. record {
      process = d.process;
      date = d.date;
      turn = d.turn;
      offices = d.offices.items;
      parties = d.parties.items;
      candidates = d.candidates.items;
      sections = d.sections.items;
      federations = d.federations.items;
    } };
}

impl Name {
    /// A copy of the text.
    pub fn copied(alloc: Global, text: &str) -> Result<Name, AllocError>
        ensures { IfOk result (λ n. n ≡ text.now) }
    {
        Ok(Name {
            text: String::from_str(alloc, text)?,
        })
    }

    pub fn as_str(&self) -> &str
        ensures { result.now ≡ self.now }
    {
        self.text.as_str()
    }
}

impl Numbers {
    pub fn as_slice(&self) -> &[i64]
        ensures { result.now ≡ self.now }
    {
        self.items.as_slice()
    }
}

fn number_at(table: &Table, key: &str) -> i64
    ensures { result ≡ number_at key.now (table_view table.now) }
{
    match find(table, key) {
        Some(value) => value.as_integer().unwrap_or(0),
        None => 0,
    }
}

fn text_at<'a>(table: &'a Table, key: &str) -> &'a str
    ensures { result.now ≡ text_at key.now (table_view table.now) }
{
    match find(table, key) {
        Some(value) => value.as_str().unwrap_or(""),
        None => "",
    }
}

fn numbers_in(alloc: Global, items: &Array) -> Result<Vec<i64>, AllocError>
    ensures { IfOk result (λ v. v.items ≡ filter_map as_integer (data_of (array_view items.now))) }
{
    let mut numbers = Vec::new(alloc);
    for item in items {
        if let Some(number) = item.as_integer() {
            numbers.push(number)?;
        }
    }
    Ok(numbers)
}

fn numbers_at(alloc: Global, table: &Table, key: &str) -> Result<Numbers, AllocError>
    ensures { IfOk result (λ n. n ≡ numbers_at key.now (table_view table.now)) }
{
    let items = match array_at(table, key) {
        Some(items) => numbers_in(alloc, items)?,
        None => Vec::new(alloc),
    };
    Ok(Numbers { items })
}

fn kind_named(text: &str) -> Option<Kind>
    ensures { result ≡ kind_named text.now }
{
    if is_same_key(text, "proporcional") {
        return Some(Kind::Proportional);
    }
    if is_same_key(text, "absoluta") {
        return Some(Kind::Absolute);
    }
    if is_same_key(text, "simples") {
        return Some(Kind::Simple);
    }
    None
}

/// A table of the document that is read as one of its entries.
pub trait Entry: Sized + Drop {
    /// What a table says.
    ghost entry_of: { Members → Self };

    fn read(alloc: Global, table: &Table) -> Result<Self, AllocError>
        ensures { IfOk result (λ e. e ≡ entry_of (table_view table.now)) };
}

impl Entry for OfficeEntry {
    ghost entry_of = { office_of };

    fn read(alloc: Global, table: &Table) -> Result<Self, AllocError> {
        let _ = alloc;
        Ok(OfficeEntry {
            code: number_at(table, "codigo"),
            kind: kind_named(text_at(table, "regra")),
            seats: number_at(table, "cadeiras"),
        })
    }
}

impl Entry for PartyEntry {
    ghost entry_of = { party_of };

    fn read(alloc: Global, table: &Table) -> Result<Self, AllocError> {
        Ok(PartyEntry {
            number: number_at(table, "numero"),
            name: Name::copied(alloc, text_at(table, "nome"))?,
        })
    }
}

impl Entry for CandidateEntry {
    ghost entry_of = { candidate_of };

    fn read(alloc: Global, table: &Table) -> Result<Self, AllocError> {
        Ok(CandidateEntry {
            office: number_at(table, "cargo"),
            number: number_at(table, "numero"),
            birth: number_at(table, "nascimento"),
            name: Name::copied(alloc, text_at(table, "nome"))?,
        })
    }
}

impl Entry for SectionEntry {
    ghost entry_of = { section_of };

    fn read(alloc: Global, table: &Table) -> Result<Self, AllocError> {
        let _ = alloc;
        Ok(SectionEntry {
            zone: number_at(table, "zona"),
            number: number_at(table, "secao"),
            voters: number_at(table, "eleitores"),
        })
    }
}

impl Entry for FederationEntry {
    ghost entry_of = { federation_of };

    fn read(alloc: Global, table: &Table) -> Result<Self, AllocError> {
        Ok(FederationEntry {
            name: Name::copied(alloc, text_at(table, "nome"))?,
            parties: numbers_at(alloc, table, "partidos")?,
        })
    }
}

fn entries_in<E: Entry>(alloc: Global, rows: &Array) -> Result<Vec<E>, AllocError>
    ensures { IfOk result (λ v. v.items ≡ map E.entry_of (tables_in (array_view rows.now))) }
{
    let mut entries = Vec::new(alloc);
    for row in rows {
        if let Some(table) = row.as_table() {
            entries.push(E::read(alloc, table)?)?;
        }
    }
    Ok(entries)
}

fn entries_at<E: Entry>(alloc: Global, table: &Table, key: &str) -> Result<Vec<E>, AllocError>
    ensures { IfOk result (λ v. v.items ≡ map E.entry_of (tables_at key.now (table_view table.now))) }
{
    match array_at(table, key) {
        Some(rows) => entries_in(alloc, rows),
        None => Ok(Vec::new(alloc)),
    }
}

impl Document {
    /// The typed lists of a document.
    pub fn read(alloc: Global, table: &Table) -> Result<Document, AllocError>
        ensures { IfOk result (λ d. d ≡ document_of (table_view table.now)) }
    {
        Ok(Document {
            process: number_at(table, "processo"),
            date: number_at(table, "data"),
            turn: number_at(table, "turno"),
            offices: entries_at(alloc, table, "cargo")?,
            parties: entries_at(alloc, table, "partido")?,
            candidates: entries_at(alloc, table, "candidato")?,
            sections: entries_at(alloc, table, "secao")?,
            federations: entries_at(alloc, table, "federacao")?,
        })
    }
}
