//! The rules that a declared table can break.

ghost use Rattle.std.specs.Prelude.{◌≡◌, ◌==◌, [], ◌&&◌, count_by, find, is_some, not, option_copied};
ghost use Rattle.table_defs.specs.Names.{is_listed, place_of_column, same_name};
ghost use Rattle.table_defs.specs.Declarations.{first_repeated, first_wrong, foreign_names, is_sound_reference, key_count, key_names, missing_parent, parent_of, refers_to, refers_to_key, taken_name, wrong_name};

use crate::definition::{BackingSchema, TableDef};
use crate::names::{find_table, is_listed, is_same_name, place_of_column};
use crate::types::has_type;
use row_types::tier_base::Name;
use row_types::{Column, ColumnDeclaration, ForeignKeyDeclaration, TableDeclaration};

/// The names of the PRIMARY KEY clause, none where there is no clause.
pub(crate) fn key_names(declaration: &TableDeclaration) -> &[Name]
    ensures { result.now ≡ key_names declaration.now }
{
    match &declaration.primary_key {
        None => &[],
        Some(names) => names.as_slice(),
    }
}

/// The names of the FOREIGN KEY clause, none where there is no clause.
pub(crate) fn foreign_names(declaration: &TableDeclaration) -> &[Name]
    ensures { result.now ≡ foreign_names declaration.now }
{
    match &declaration.foreign_key {
        None => &[],
        Some(foreign) => foreign.columns.as_slice(),
    }
}

/// The parent's name, where the parent isn't there.
pub(crate) fn missing_parent<'a>(
    schema: &BackingSchema,
    foreign_key: &'a Option<ForeignKeyDeclaration>,
) -> Option<&'a Name>
    ensures { option_copied result ≡ missing_parent schema.now foreign_key.now }
{
    match foreign_key {
        None => None,
        Some(foreign) => match find_table(schema, &foreign.parent) {
            Some(_) => None,
            None => Some(&foreign.parent),
        },
    }
}

/// The first name that is no column's where it has to be, or stands twice, in the order of the text.
pub fn wrong_name(declaration: &TableDeclaration) -> Option<&Name>
    ensures { option_copied result ≡ wrong_name declaration.now }
{
    let columns = declaration.columns.as_slice();
    match first_repeated(columns) {
        Some(name) => Some(name),
        None => match first_wrong(columns, key_names(declaration)) {
            Some(name) => Some(name),
            None => first_wrong(columns, foreign_names(declaration)),
        },
    }
}

fn first_repeated(columns: &[ColumnDeclaration]) -> Option<&Name>
    ensures { option_copied result ≡ first_repeated [] columns.now }
{
    for i in 0..columns.len() {
        let name = &columns[i].name;
        if place_of_column(&columns[..i], name).is_some() {
            return Some(name);
        }
    }
    None
}

fn first_wrong<'a>(columns: &[ColumnDeclaration], names: &'a [Name]) -> Option<&'a Name>
    ensures { option_copied result ≡ first_wrong columns.now [] names.now }
{
    for i in 0..names.len() {
        let name = &names[i];
        if !is_right(columns, &names[..i], name) {
            return Some(name);
        }
    }
    None
}

// A column's name that doesn't stand before.
fn is_right(columns: &[ColumnDeclaration], before: &[Name], name: &Name) -> bool
    ensures { result ≡ (is_some (place_of_column columns.now name.now) && not (is_listed before.now name.now)) }
{
    place_of_column(columns, name).is_some() && !is_listed(before, name)
}

/// The name, where a table of the schema has it.
pub(crate) fn taken_name<'a>(schema: &BackingSchema, name: &'a Name) -> Option<&'a Name>
    ensures { option_copied result ≡ taken_name schema.now name.now }
{
    match find_table(schema, name) {
        Some(_) => Some(name),
        None => None,
    }
}

/// Whether there is exactly one primary key.
pub fn has_one_key(declaration: &TableDeclaration) -> bool
    ensures { result ≡ (key_count declaration.now == 1) }
{
    let own = own_keys(declaration.columns.as_slice());
    if key_names(declaration).is_empty() {
        own == 1
    } else {
        own == 0
    }
}

// How many columns have PRIMARY KEY behind them.
fn own_keys(columns: &[ColumnDeclaration]) -> usize
    ensures { result ≡ count_by (λ c. c.primary_key) columns.now }
{
    columns.iter().filter(|column| column.primary_key).count()
}

/// Whether the foreign key, if there is one, is the parent's whole primary key in its order with the same types.
pub(crate) fn is_sound_reference(declaration: &TableDeclaration, schema: &BackingSchema) -> bool
    ensures { result ≡ is_sound_reference declaration.now schema.now declaration.now.foreign_key }
{
    match &declaration.foreign_key {
        None => true,
        Some(foreign) => match parent_of(schema, foreign) {
            None => false,
            Some(parent) => refers_to_key(
                declaration.columns.as_slice(),
                parent.columns.as_slice(),
                foreign.columns.as_slice(),
                foreign.parent_columns.as_slice(),
                parent.primary_key.as_slice(),
            ),
        },
    }
}

fn parent_of<'a>(schema: &'a BackingSchema, foreign: &ForeignKeyDeclaration) -> Option<&'a TableDef>
    ensures { option_copied result ≡ parent_of schema.now foreign.now }
{
    match find_table(schema, &foreign.parent) {
        None => None,
        Some(table) => schema.get(table.0 as usize),
    }
}

fn refers_to_key(
    columns: &[ColumnDeclaration],
    parent: &[Column],
    names: &[Name],
    others: &[Name],
    places: &[usize],
) -> bool
    ensures { result ≡ refers_to_key columns.now parent.now names.now others.now places.now }
{
    match (
        names.split_first(),
        others.split_first(),
        places.split_first(),
    ) {
        (None, None, None) => true,
        (Some((name, names)), Some((other, others)), Some((place, places))) => {
            refers_to(columns, name, other, parent.get(*place))
                && refers_to_key(columns, parent, names, others, places)
        }
        _ => false,
    }
}

fn refers_to(
    columns: &[ColumnDeclaration],
    name: &Name,
    other: &Name,
    column: Option<&Column>,
) -> bool
    ensures { result ≡ refers_to columns.now name.now other.now (option_copied column.entry) }
{
    match column {
        None => false,
        Some(column) => {
            is_same_name(&column.name, other) && has_type(column_named(columns, name), column.ty)
        }
    }
}

fn column_named<'a>(columns: &'a [ColumnDeclaration], name: &Name) -> Option<&'a ColumnDeclaration>
    ensures { option_copied result ≡ find (λ c. same_name c.name name.now) columns.now }
{
    columns
        .iter()
        .find(|column| is_same_name(&column.name, name))
}
