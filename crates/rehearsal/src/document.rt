//! The document of the tables, and its text.
ghost use Rattle.std.specs.Prelude.{◌≡◌, ◌+◌, ◌≤◌, ◌++◌, false, map, IfOk, OnOk, IsUtf8, Some, string_bytes};
ghost use Rattle.std.specs.List.{range_with_len};
ghost use Rattle.toml.specs.Data.{array};
ghost use Rattle.toml.specs.Parse.{parse_document};
ghost use Rattle.toml.specs.Text.{IsDocumentText};
ghost use Rattle.toml.specs.View.{items_of, table_view, view};
ghost use Rattle.rehearsal.specs.Document.{candidate_table, candidate_tables, document, office_tables, party_tables, section_tables};

use crate::members::{candidate, office, party, put, put_number, section};
use std::alloc::Global;
use toml::ser::Error;
use toml::{Table, Value};
use urna_base::Memory;

/// The array `cargo`.
fn offices(alloc: Global) -> Result<Value, Memory>
    ensures { IfOk result (λ v. view v ≡ array (items_of office_tables)) }
{
    let mut tables = Vec::new(alloc);
    tables.push(office(alloc, 13, "proporcional", 9)?)?;
    tables.push(office(alloc, 11, "absoluta", 1)?)?;
    Ok(Value::Array(tables))
}

/// The array `partido`.
fn parties(alloc: Global) -> Result<Value, Memory>
    ensures { IfOk result (λ v. view v ≡ array (items_of party_tables)) }
{
    let mut tables = Vec::new(alloc);
    for number in 10..30 {
        tables.push(party(alloc, number)?)?;
    }
    Ok(Value::Array(tables))
}

/// Appends the tables of so many candidates of an office, from a number on.
fn push_candidates(
    alloc: Global,
    tables: &mut Vec<Value>,
    office: u32,
    first: u32,
    count: u32,
) -> Result<(), Memory>
    requires { first + count ≤ 100000 }
    ensures { OnOk result (map view tables.new.items ≡ map view tables.old.items ++ map (candidate_table office) (range_with_len first count)) }
{
    for number in first..first + count {
        tables.push(candidate(alloc, office, number)?)?;
    }
    Ok(())
}

/// The array `candidato`.
fn candidates(alloc: Global) -> Result<Value, Memory>
    ensures { IfOk result (λ v. view v ≡ array (items_of candidate_tables)) }
{
    let mut tables = Vec::new(alloc);
    for party in 10..30 {
        push_candidates(alloc, &mut tables, 13, 1000 * party + 100, 50)?;
    }
    push_candidates(alloc, &mut tables, 11, 10, 6)?;
    Ok(Value::Array(tables))
}

/// The array `secao`.
fn sections(alloc: Global, voters: u32) -> Result<Value, Memory>
    ensures { IfOk result (λ v. view v ≡ array (items_of (section_tables voters))) }
{
    let mut tables = Vec::new(alloc);
    tables.push(section(alloc, voters)?)?;
    Ok(Value::Array(tables))
}

fn document(alloc: Global, voters: u32) -> Result<Table, Memory>
    ensures { IfOk result (λ t. table_view t ≡ document voters) }
{
    let mut table = Table::new(alloc);
    put_number(alloc, &mut table, "processo", 1)?;
    put_number(alloc, &mut table, "data", 20_261_004)?;
    put_number(alloc, &mut table, "turno", 1)?;
    put(alloc, &mut table, "cargo", offices(alloc)?)?;
    put(alloc, &mut table, "partido", parties(alloc)?)?;
    put(alloc, &mut table, "candidato", candidates(alloc)?)?;
    put(alloc, &mut table, "secao", sections(alloc, voters)?)?;
    Ok(table)
}

/// The text of the document.
pub(crate) fn text(alloc: Global, voters: u32) -> Result<String, Memory>
    ensures printed { IfOk result (λ s. IsDocumentText false (document voters) (string_bytes s)) }
    ensures utf8 { IfOk result (λ s. IsUtf8 (string_bytes s)) }
    ensures reads { IfOk result (λ s. parse_document (string_bytes s) ≡ Some (document voters)) }
{
    let table = document(alloc, voters)?;
    match toml::table_to_string(alloc, &table) {
        Ok(text) => Ok(text),
        Err(Error::OutOfMemory) => Err(Memory),
        // the document has no date of its own type
        Err(Error::DateInvalid) => unreachable!(),
    }
}
