//! The tables of the document's four arrays.
ghost use Rattle.std.specs.Prelude.{◌≡◌, IfOk, OnOk};
ghost use Rattle.toml.specs.View.{view, table_view};
ghost use Rattle.rehearsal.specs.Document.{candidate_table, number_data, office_table, party_table, section_table};
ghost use Rattle.rehearsal.specs.Members.{with_member};

use std::alloc::Global;
use toml::{Table, Value};
use urna_base::Memory;

/// Sets a value at a key of a table.
pub(crate) fn put(alloc: Global, table: &mut Table, key: &str, value: Value) -> Result<(), Memory>
    ensures { OnOk result (table_view table.new ≡ with_member key.now (view value) (table_view table.old)) }
{
    let key = String::from_str(alloc, key)?;
    table.insert(key, value)?;
    Ok(())
}

/// Sets a number at a key of a table.
pub(crate) fn put_number(
    alloc: Global,
    table: &mut Table,
    key: &str,
    number: u32,
) -> Result<(), Memory>
    ensures { OnOk result (table_view table.new ≡ with_member key.now (number_data number) (table_view table.old)) }
{
    put(alloc, table, key, Value::from(i64::from(number)))
}

/// A table of `cargo`.
pub(crate) fn office(alloc: Global, code: u32, rule: &str, seats: u32) -> Result<Value, Memory>
    ensures { IfOk result (λ v. view v ≡ office_table code rule.now seats) }
{
    let mut table = Table::new(alloc);
    put_number(alloc, &mut table, "codigo", code)?;
    put(alloc, &mut table, "regra", Value::string(alloc, rule)?)?;
    put_number(alloc, &mut table, "cadeiras", seats)?;
    Ok(Value::Table(table))
}

/// A table of `partido`.
pub(crate) fn party(alloc: Global, number: u32) -> Result<Value, Memory>
    ensures { IfOk result (λ v. view v ≡ party_table number) }
{
    let name = format!(in alloc; "P{number}")?;
    let mut table = Table::new(alloc);
    put_number(alloc, &mut table, "numero", number)?;
    put(alloc, &mut table, "nome", Value::from(name))?;
    Ok(Value::Table(table))
}

/// A table of `candidato`.
pub(crate) fn candidate(alloc: Global, office: u32, number: u32) -> Result<Value, Memory>
    ensures { IfOk result (λ v. view v ≡ candidate_table office number) }
{
    let name = format!(in alloc; "C{number}")?;
    let mut table = Table::new(alloc);
    put_number(alloc, &mut table, "cargo", office)?;
    put_number(alloc, &mut table, "numero", number)?;
    put_number(alloc, &mut table, "nascimento", 19_600_101)?;
    put(alloc, &mut table, "nome", Value::from(name))?;
    Ok(Value::Table(table))
}

/// A table of `secao`.
pub(crate) fn section(alloc: Global, voters: u32) -> Result<Value, Memory>
    ensures { IfOk result (λ v. view v ≡ section_table voters) }
{
    let mut table = Table::new(alloc);
    put_number(alloc, &mut table, "zona", 1)?;
    put_number(alloc, &mut table, "secao", 1)?;
    put_number(alloc, &mut table, "eleitores", voters)?;
    Ok(Value::Table(table))
}
