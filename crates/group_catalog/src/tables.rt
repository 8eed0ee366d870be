//! How the tables of a definition stand to the backing tables, and to one another.

ghost use Rattle.std.specs.Prelude.{◌≡◌, ◌==◌, find, option_copied};
ghost use Rattle.std.specs.List.{list_any};
ghost use Rattle.table_defs.specs.Declarations.{Tells, key_names};
ghost use Rattle.cache_tier.specs.Definitions.{are_names_of, declared_key, differs_from_backing, has_column_name, has_foreign_parent, has_other_key, is_apart, is_grouped, is_key_of, is_name_among, is_root, is_same_foreign, is_table_named, own_key, same_bool, same_columns, tables_fault};
ghost use Rattle.cache_tier.specs.Groups.{definitions_of};
ghost use Rattle.group_catalog.specs.Catalogs.{groups_in};
ghost use Rattle.group_catalog.specs.Placed.{table_seen, tables_seen};

use crate::catalog::Catalog;
use crate::placing::PlacedTable;
use crate::refusing::lettered;
use row_types::{
    Column, ColumnDeclaration, ForeignKeyDeclaration, Letter, Refused, TableDeclaration,
};
use sql_subset::stmt::GroupTable;
use std::slice::from_ref;
use table_defs::{BackingSchema, ForeignKey, TableDef, find_table, has_one_key, has_type};
use tier_base::{Name, TableId};

/// What refuses the tables with 114: a, another primary key than the backing table's; b, a foreign key whose parent
/// isn't an earlier table of the group; c, a later table without a foreign key; d, a table that is in a group
/// already, or twice in this one; e, another column, type, foreign key or ON DELETE CASCADE. Each letter is asked of
/// all tables before the next one. (TimesTen SQL Reference, "CREATE CACHE GROUP"; the letters and their order are
/// this project's.)
#[tactic(auto, using(crate::proofs::ListLaws::any_map))]
pub(crate) fn judge_tables(
    schema: &BackingSchema,
    catalog: &Catalog,
    tables: &[PlacedTable<'_>],
) -> Result<(), Refused>
    ensures { Tells result (tables_fault schema.now (definitions_of (groups_in catalog.now)) (tables_seen tables.now)) }
{
    if any_other_key(tables) {
        return Err(lettered(Letter::A));
    }
    if any_foreign_parent(tables) {
        return Err(lettered(Letter::B));
    }
    if any_apart(tables) {
        return Err(lettered(Letter::C));
    }
    if any_grouped(catalog, tables) {
        return Err(lettered(Letter::D));
    }
    if any_different(schema, tables) {
        return Err(lettered(Letter::E));
    }
    Ok(())
}

fn any_other_key(tables: &[PlacedTable<'_>]) -> bool
    ensures { result ≡ list_any (λ t. has_other_key (table_seen t)) tables.now }
{
    tables.iter().any(|table| has_other_key(table))
}

fn any_foreign_parent(tables: &[PlacedTable<'_>]) -> bool
    ensures { result ≡ list_any (λ t. has_foreign_parent (table_seen t)) tables.now }
{
    tables.iter().any(|table| has_foreign_parent(table))
}

fn any_apart(tables: &[PlacedTable<'_>]) -> bool
    ensures { result ≡ list_any (λ t. is_apart (table_seen t)) tables.now }
{
    tables.iter().any(|table| is_apart(table))
}

fn any_grouped(catalog: &Catalog, tables: &[PlacedTable<'_>]) -> bool
    ensures { result ≡ list_any (λ t. is_grouped (definitions_of (groups_in catalog.now)) (table_seen t)) tables.now }
{
    tables.iter().any(|table| is_grouped(catalog, table))
}

fn any_different(schema: &BackingSchema, tables: &[PlacedTable<'_>]) -> bool
    ensures { result ≡ list_any (λ t. differs_from_backing schema.now (table_seen t)) tables.now }
{
    tables
        .iter()
        .any(|table| differs_from_backing(schema, table))
}

// a: there isn't one primary key with the names of the backing table's, in its order.
fn has_other_key(table: &PlacedTable<'_>) -> bool
    ensures { result ≡ has_other_key (table_seen table.now) }
{
    !(has_one_key(&table.it.table)
        && are_names_of(
            table.def.columns.as_slice(),
            table.def.primary_key.as_slice(),
            declared_key(&table.it.table),
        ))
}

fn declared_key(table: &TableDeclaration) -> &[Name]
    ensures { result.now ≡ declared_key table.now }
{
    let names = key_names(table);
    if names.is_empty() {
        own_key(own_key_column(table.columns.as_slice()))
    } else {
        names
    }
}

fn key_names(table: &TableDeclaration) -> &[Name]
    ensures { result.now ≡ key_names table.now }
{
    match &table.primary_key {
        None => &[],
        Some(names) => names.as_slice(),
    }
}

// The column with PRIMARY KEY behind it.
fn own_key_column(columns: &[ColumnDeclaration]) -> Option<&ColumnDeclaration>
    ensures { option_copied result ≡ find (λ c. c.primary_key) columns.now }
{
    columns.iter().find(|column| column.primary_key)
}

fn own_key(column: Option<&ColumnDeclaration>) -> &[Name]
    ensures { result.now ≡ own_key (option_copied column.entry) }
{
    match column {
        None => &[],
        Some(column) => from_ref(&column.name),
    }
}

// The names of the columns at these places, in this order.
fn are_names_of(columns: &[Column], places: &[usize], names: &[Name]) -> bool
    ensures { result ≡ are_names_of columns.now places.now names.now }
{
    match (places.split_first(), names.split_first()) {
        (None, None) => true,
        (Some((place, places)), Some((name, names))) => {
            has_column_name(name, columns.get(*place)) && are_names_of(columns, places, names)
        }
        _ => false,
    }
}

fn has_column_name(name: &Name, column: Option<&Column>) -> bool
    ensures { result ≡ has_column_name name.now (option_copied column.entry) }
{
    match column {
        None => false,
        Some(column) => column.name.as_bytes() == name.as_bytes(),
    }
}

fn is_name_among(tables: &[GroupTable], name: &Name) -> bool
    ensures { result ≡ is_name_among tables.now name.now }
{
    tables
        .iter()
        .any(|table| table.table.name.as_bytes() == name.as_bytes())
}

// b: the parent isn't an earlier table.
fn has_foreign_parent(table: &PlacedTable<'_>) -> bool
    ensures { result ≡ has_foreign_parent (table_seen table.now) }
{
    match &table.it.table.foreign_key {
        None => false,
        Some(foreign) => !is_name_among(table.before, &foreign.parent),
    }
}

pub(crate) fn is_root(table: &PlacedTable<'_>) -> bool
    ensures { result ≡ is_root (table_seen table.now) }
{
    table.before.is_empty()
}

// c: a later table without a foreign key.
fn is_apart(table: &PlacedTable<'_>) -> bool
    ensures { result ≡ is_apart (table_seen table.now) }
{
    !is_root(table) && table.it.table.foreign_key.is_none()
}

// d: a table of a group, or twice in this one.
fn is_grouped(catalog: &Catalog, table: &PlacedTable<'_>) -> bool
    ensures { result ≡ is_grouped (definitions_of (groups_in catalog.now)) (table_seen table.now) }
{
    catalog.has_table(table.id) || is_name_among(table.before, &table.def.name)
}

// e: other columns or types, or another foreign key; a root leaves its own out.
fn differs_from_backing(schema: &BackingSchema, table: &PlacedTable<'_>) -> bool
    ensures { result ≡ differs_from_backing schema.now (table_seen table.now) }
{
    let columns = table.def.columns.as_slice();
    !(same_columns(table.it.table.columns.as_slice(), columns)
        && (is_root(table)
            || is_same_foreign(
                schema,
                columns,
                &table.it.table.foreign_key,
                &table.def.foreign_key,
            )))
}

fn same_columns(declared: &[ColumnDeclaration], columns: &[Column]) -> bool
    ensures { result ≡ same_columns declared.now columns.now }
{
    match (declared.split_first(), columns.split_first()) {
        (None, None) => true,
        (Some((first, declared)), Some((second, columns))) => {
            first.name.as_bytes() == second.name.as_bytes()
                && has_type(Some(first), second.ty)
                && same_columns(declared, columns)
        }
        _ => false,
    }
}

fn is_same_foreign(
    schema: &BackingSchema,
    columns: &[Column],
    declared: &Option<ForeignKeyDeclaration>,
    foreign: &Option<ForeignKey>,
) -> bool
    ensures { result ≡ is_same_foreign schema.now columns.now declared.now foreign.now }
{
    match (declared, foreign) {
        (None, None) => true,
        (Some(declared), Some(foreign)) => {
            are_names_of(
                columns,
                foreign.columns.as_slice(),
                declared.columns.as_slice(),
            ) && is_table_named(schema, &declared.parent, foreign.parent)
                && is_key_of(
                    schema.get(foreign.parent.0 as usize),
                    declared.parent_columns.as_slice(),
                )
                && same_bool(declared.cascade, foreign.cascade)
        }
        _ => false,
    }
}

fn same_bool(a: bool, b: bool) -> bool
    ensures { result ≡ same_bool a b }
{
    if a { b } else { !b }
}

fn is_table_named(schema: &BackingSchema, name: &Name, table: TableId) -> bool
    ensures { result ≡ is_table_named schema.now name.now table }
{
    match find_table(schema, name) {
        None => false,
        Some(found) => found.0 == table.0,
    }
}

fn is_key_of(def: Option<&TableDef>, names: &[Name]) -> bool
    ensures { result ≡ is_key_of (option_copied def.entry) names.now }
{
    match def {
        None => false,
        Some(def) => are_names_of(def.columns.as_slice(), def.primary_key.as_slice(), names),
    }
}
