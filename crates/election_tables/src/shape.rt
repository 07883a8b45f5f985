//! Rules 1 to 3: which keys stand in the document and in the tables of its arrays, and of which types they are.
ghost use Rattle.std.specs.Prelude.{◌≡◌, ◌||◌, true, is_some, option_map, option_and_then};
ghost use Rattle.std.specs.List.{list_all, list_any};
ghost use Rattle.std.specs.Option.{option_map_or};
ghost use Rattle.toml.specs.Data.{as_integer, as_str, as_array, get_member, as_table};
ghost use Rattle.toml.specs.View.{view, table_view, array_view};
ghost use Rattle.election_tables.specs.Shape.{a_number, a_text, some_numbers, some_tables, tables_if_there, may_miss, has_type, data_of, tables_in, tables_at, is_key, keys_in, keeps, document_keeps};
ghost use Rattle.election_tables.specs.Rules.{first_broken, shape_rules};

use std::cmp::Ordering;
use toml::value::Array;
use toml::{Table, Value};

/// The places of the document whose keys are fixed: the document itself, and the tables of each array.
#[derive(Clone, Copy, Debug, PartialEq, Eq)]
pub(crate) enum Group {
    Document,
    Offices,
    Parties,
    Candidates,
    Sections,
    Federations,
}

/// The three rules on keys.
#[derive(Clone, Copy, Debug, PartialEq, Eq)]
pub(crate) enum ShapeRule {
    Keys,
    Types,
    NoOther,
}

/// The value at a key.
pub(crate) fn find<'a>(table: &'a Table, key: &str) -> Option<&'a Value>
    ensures { option_map (λ v. view v.now) result ≡ get_member key.now (table_view table.now) }
{
    table.get(key)
}

/// The array at a key, if one is there.
pub(crate) fn array_at<'a>(table: &'a Table, key: &str) -> Option<&'a Array>
    ensures { option_map (λ v. array_view v.now) result
        ≡ option_and_then as_array (get_member key.now (table_view table.now)) }
{
    match find(table, key) {
        Some(value) => value.as_array(),
        None => None,
    }
}

fn has_key(table: &Table, key: &str) -> bool
    ensures { result ≡ is_some (get_member key.now (table_view table.now)) }
{
    find(table, key).is_some()
}

fn has_number(table: &Table, key: &str) -> bool
    ensures { result ≡ has_type a_number (get_member key.now (table_view table.now)) }
{
    match find(table, key) {
        Some(value) => value.is_integer(),
        None => false,
    }
}

fn has_text(table: &Table, key: &str) -> bool
    ensures { result ≡ has_type a_text (get_member key.now (table_view table.now)) }
{
    match find(table, key) {
        Some(value) => value.is_str(),
        None => false,
    }
}

fn has_tables(table: &Table, key: &str) -> bool
    ensures { result ≡ has_type some_tables (get_member key.now (table_view table.now)) }
{
    match array_at(table, key) {
        Some(rows) => all_tables(rows),
        None => false,
    }
}

#[tactic(auto, using(crate::proofs::Walks::list_all_data_of, std::proofs::lemmas::Grind::common_steps))]
fn all_tables(rows: &Array) -> bool
    ensures { result ≡ list_all (λ d. is_some (as_table d)) (data_of (array_view rows.now)) }
{
    for row in rows {
        if !row.is_table() {
            return false;
        }
    }
    true
}

fn has_numbers(table: &Table, key: &str) -> bool
    ensures { result ≡ has_type some_numbers (get_member key.now (table_view table.now)) }
{
    match array_at(table, key) {
        Some(rows) => all_numbers(rows),
        None => false,
    }
}

#[tactic(auto, using(crate::proofs::Walks::list_all_data_of, std::proofs::lemmas::Grind::common_steps))]
fn all_numbers(rows: &Array) -> bool
    ensures { result ≡ list_all (λ d. is_some (as_integer d)) (data_of (array_view rows.now)) }
{
    for row in rows {
        if !row.is_integer() {
            return false;
        }
    }
    true
}

fn has_tables_if_there(table: &Table, key: &str) -> bool
    ensures { result ≡ has_type tables_if_there (get_member key.now (table_view table.now)) }
{
    !has_key(table, key) || has_tables(table, key)
}

/// Whether two keys have the same bytes.
#[tactic(auto, unfolding(crate::specs::Shape::is_key))]
pub(crate) fn is_same_key(a: &str, b: &str) -> bool
    ensures { result ≡ is_key a.now b.now }
{
    a.cmp(b) == Ordering::Equal
}

fn has_keys(group: Group, table: &Table) -> bool
    ensures { result ≡ list_all (λ k. may_miss k.1 || is_some (get_member k.0 (table_view table.now))) (keys_in group) }
{
    match group {
        Group::Document => {
            has_key(table, "processo")
                && has_key(table, "data")
                && has_key(table, "turno")
                && has_key(table, "cargo")
                && has_key(table, "partido")
                && has_key(table, "candidato")
                && has_key(table, "secao")
        }
        Group::Offices => has_key(table, "codigo")
            && has_key(table, "regra")
            && has_key(table, "cadeiras"),
        Group::Parties => has_key(table, "numero") && has_key(table, "nome"),
        Group::Candidates => {
            has_key(table, "cargo")
                && has_key(table, "numero")
                && has_key(table, "nascimento")
                && has_key(table, "nome")
        }
        Group::Sections => has_key(table, "zona")
            && has_key(table, "secao")
            && has_key(table, "eleitores"),
        Group::Federations => has_key(table, "nome") && has_key(table, "partidos"),
    }
}

fn has_types(group: Group, table: &Table) -> bool
    ensures { result ≡ list_all (λ k. has_type k.1 (get_member k.0 (table_view table.now))) (keys_in group) }
{
    match group {
        Group::Document => {
            has_number(table, "processo")
                && has_number(table, "data")
                && has_number(table, "turno")
                && has_tables(table, "cargo")
                && has_tables(table, "partido")
                && has_tables(table, "candidato")
                && has_tables(table, "secao")
                && has_tables_if_there(table, "federacao")
        }
        Group::Offices => has_number(table, "codigo")
            && has_text(table, "regra")
            && has_number(table, "cadeiras"),
        Group::Parties => has_number(table, "numero") && has_text(table, "nome"),
        Group::Candidates => {
            has_number(table, "cargo")
                && has_number(table, "numero")
                && has_number(table, "nascimento")
                && has_text(table, "nome")
        }
        Group::Sections => has_number(table, "zona")
            && has_number(table, "secao")
            && has_number(table, "eleitores"),
        Group::Federations => has_text(table, "nome") && has_numbers(table, "partidos"),
    }
}

/// Whether a key is one of the document's own.
fn is_document_key(key: &str) -> bool
    ensures { result ≡ list_any (λ k. is_key key.now k.0) (keys_in Group.Document) }
{
    is_same_key(key, "processo")
        || is_same_key(key, "data")
        || is_same_key(key, "turno")
        || is_same_key(key, "cargo")
        || is_same_key(key, "partido")
        || is_same_key(key, "candidato")
        || is_same_key(key, "secao")
        || is_same_key(key, "federacao")
}

fn is_known(group: Group, key: &str) -> bool
    ensures { result ≡ list_any (λ k. is_key key.now k.0) (keys_in group) }
{
    match group {
        Group::Document => is_document_key(key),
        Group::Offices => is_same_key(key, "codigo")
            || is_same_key(key, "regra")
            || is_same_key(key, "cadeiras"),
        Group::Parties => is_same_key(key, "numero") || is_same_key(key, "nome"),
        Group::Candidates => {
            is_same_key(key, "cargo")
                || is_same_key(key, "numero")
                || is_same_key(key, "nascimento")
                || is_same_key(key, "nome")
        }
        Group::Sections => is_same_key(key, "zona")
            || is_same_key(key, "secao")
            || is_same_key(key, "eleitores"),
        Group::Federations => is_same_key(key, "nome") || is_same_key(key, "partidos"),
    }
}

fn has_no_other(group: Group, table: &Table) -> bool
    ensures { result ≡ keeps ShapeRule.NoOther (keys_in group) (table_view table.now) }
{
    for key in table.keys() {
        if !is_known(group, key.as_str()) {
            return false;
        }
    }
    true
}

/// Whether a table of a group keeps a rule.
pub(crate) fn keeps(rule: ShapeRule, group: Group, table: &Table) -> bool
    ensures { result ≡ keeps rule (keys_in group) (table_view table.now) }
{
    match rule {
        ShapeRule::Keys => has_keys(group, table),
        ShapeRule::Types => has_types(group, table),
        ShapeRule::NoOther => has_no_other(group, table),
    }
}

fn row_keeps(rule: ShapeRule, group: Group, row: &Value) -> bool
    ensures { result ≡ option_map_or (keeps rule (keys_in group)) (as_table (view row.now)) true }
{
    match row.as_table() {
        Some(table) => keeps(rule, group, table),
        None => true,
    }
}

#[tactic(auto, using(crate::proofs::Walks::list_all_tables_in, std::proofs::lemmas::Grind::common_steps))]
fn all_keep(rule: ShapeRule, group: Group, rows: &Array) -> bool
    ensures { result ≡ list_all (keeps rule (keys_in group)) (tables_in (array_view rows.now)) }
{
    for row in rows {
        if !row_keeps(rule, group, row) {
            return false;
        }
    }
    true
}

fn rows_keep(rule: ShapeRule, group: Group, table: &Table, key: &str) -> bool
    ensures { result ≡ list_all (keeps rule (keys_in group)) (tables_at key.now (table_view table.now)) }
{
    match array_at(table, key) {
        Some(rows) => all_keep(rule, group, rows),
        None => true,
    }
}

/// Whether the document and each table of its arrays keep a rule.
pub(crate) fn document_keeps(rule: ShapeRule, table: &Table) -> bool
    ensures { result ≡ document_keeps rule (table_view table.now) }
{
    keeps(rule, Group::Document, table)
        && rows_keep(rule, Group::Offices, table, "cargo")
        && rows_keep(rule, Group::Parties, table, "partido")
        && rows_keep(rule, Group::Candidates, table, "candidato")
        && rows_keep(rule, Group::Sections, table, "secao")
        && rows_keep(rule, Group::Federations, table, "federacao")
}

/// The number of the first of rules 1 to 3 that doesn't hold.
#[tactic(auto, unfolding(crate::specs::Rules::shape_rules))]
pub(crate) fn broken_shape(table: &Table) -> Option<u8>
    ensures { result ≡ first_broken 1 (shape_rules (table_view table.now)) }
{
    if !document_keeps(ShapeRule::Keys, table) {
        return Some(1);
    }
    if !document_keeps(ShapeRule::Types, table) {
        return Some(2);
    }
    if !document_keeps(ShapeRule::NoOther, table) {
        return Some(3);
    }
    None
}
