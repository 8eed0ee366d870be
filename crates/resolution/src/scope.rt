//! The columns that a statement sees, and their names.

ghost use Rattle.std.specs.Prelude.{◌≡◌, ◌++◌, ◌∷◌, IfOk, OnOk, count_by, option_copied, position};
ghost use Rattle.evaluator.specs.table_defs.specs.Names.{same_name};
ghost use Rattle.resolution.specs.Results.{Gives};
ghost use Rattle.resolution.specs.Scopes.{columns_seen, families, fits, name_seen, place_in, placed_column, scope_of, shown, shown_column, table_named, tables_of};

use crate::refusing::about;
use evaluator::expressions::{Family, family_of_type};
use evaluator::row_types::{Column, Refused};
use evaluator::table_defs::{BackingSchema, TableDef, find_table};
use evaluator::tier_base::{Code, Name, Seq, TableId};
use sql_query::FromTable;
use std::alloc::{AllocError, Global};

/// A column that a statement sees.
#[derive(Clone, Copy)]
pub struct Seen<'a> {
    /// What stands before the dot where its name has one: the table's name or its alias.
    pub table: &'a Name,
    /// The column.
    pub column: &'a Column,
}

/// The tables in FROM, in their order.
///
/// The refusal is 102 of the first table that there isn't; or memory was wanting.
pub(crate) fn tables_of(
    alloc: Global,
    schema: &BackingSchema,
    tables: &[FromTable],
) -> Result<Seq<TableId>, Refused>
    ensures { Gives (λ ids. ids) (tables_of schema.now tables.now) result }
{
    let mut ids = Vec::with_capacity(alloc, tables.len())?;
    for from in tables {
        match find_table(schema, &from.table) {
            None => return Err(about(alloc, Code::UnknownTable, &from.table)),
            Some(id) => ids.push(id).map_err(AllocError::from)?,
        }
    }
    Ok(Seq::from_vec(ids))
}

/// The place of the only column that the name fits. None where it fits none, or two.
pub(crate) fn place_in(scope: &[Seen<'_>], name: &Name) -> Option<usize>
    ensures { result ≡ place_in (shown scope.now) name.now }
{
    if count_fitting(scope, name) == 1 {
        first_fitting(scope, name)
    } else {
        None
    }
}

fn count_fitting(scope: &[Seen<'_>], name: &Name) -> usize
    ensures { result ≡ count_by (λ seen. fits name.now (shown_column seen)) scope.now }
{
    scope.iter().filter(|seen| fits(seen, name)).count()
}

fn first_fitting(scope: &[Seen<'_>], name: &Name) -> Option<usize>
    ensures { result ≡ position (λ seen. fits name.now (shown_column seen)) scope.now }
{
    scope.iter().position(|seen| fits(seen, name))
}

/// The place of the column of this name.
///
/// The refusal is 103 where the name fits no column, or two; or memory was wanting.
pub(crate) fn placed_column(
    alloc: Global,
    scope: &[Seen<'_>],
    name: &Name,
) -> Result<usize, Refused>
    ensures { Gives (λ place. place) (placed_column (shown scope.now) name.now) result }
{
    match place_in(scope, name) {
        None => Err(about(alloc, Code::UnknownColumn, name)),
        Some(place) => Ok(place),
    }
}

fn fits(seen: &Seen<'_>, name: &Name) -> bool
    ensures { result ≡ fits name.now (shown_column seen.now) }
{
    let name = name.as_bytes();
    let column = seen.column.name.as_bytes();
    name == column || is_joined(name, seen.table.as_bytes(), column)
}

// Whether the name is that of the table, a dot and that of the column.
#[tactic(auto, using(crate::proofs::JoinLaws::joined_behind, crate::proofs::JoinLaws::not_joined))]
fn is_joined(name: &[u8], table: &[u8], column: &[u8]) -> bool
    ensures { result ≡ same_name name.now (table.now ++ 46 ∷ column.now) }
{
    match name.strip_prefix(table) {
        None => false,
        Some(behind) => match behind.split_first() {
            None => false,
            Some((first, behind)) => *first == b'.' && behind == column,
        },
    }
}

/// The columns of the tables in FROM, side by side. Nothing of a definition is copied.
///
/// The error is want of memory.
pub(crate) fn scope_of<'a>(
    alloc: Global,
    schema: &'a BackingSchema,
    tables: &'a [FromTable],
) -> Result<Vec<Seen<'a>>, AllocError>
    ensures { IfOk result (λ scope. shown scope.items ≡ scope_of schema.now tables.now) }
{
    let mut scope = Vec::new(alloc);
    for from in tables {
        if let Some(def) = table_named(schema, &from.table) {
            add_columns(&mut scope, name_seen(from), def.columns.as_slice())?;
        }
    }
    Ok(scope)
}

fn table_named<'a>(schema: &'a BackingSchema, name: &Name) -> Option<&'a TableDef>
    ensures { option_copied result ≡ table_named schema.now name.now }
{
    match find_table(schema, name) {
        None => None,
        Some(table) => schema.get(table.0 as usize),
    }
}

fn name_seen(from: &FromTable) -> &Name
    ensures { result.now ≡ name_seen from.now }
{
    match &from.alias {
        None => &from.table,
        Some(alias) => alias,
    }
}

/// The columns of one table.
///
/// The error is want of memory.
pub(crate) fn columns_seen<'a>(
    alloc: Global,
    table: &'a Name,
    columns: &'a [Column],
) -> Result<Vec<Seen<'a>>, AllocError>
    ensures { IfOk result (λ scope. shown scope.items ≡ columns_seen table.now columns.now) }
{
    let mut scope = Vec::new(alloc);
    add_columns(&mut scope, table, columns)?;
    Ok(scope)
}

fn add_columns<'a>(
    scope: &mut Vec<Seen<'a>>,
    table: &'a Name,
    columns: &'a [Column],
) -> Result<(), AllocError>
    ensures { OnOk result (shown scope.new.items ≡ shown scope.old.items ++ columns_seen table.now columns.now) }
{
    for column in columns {
        scope.push(Seen { table, column })?;
    }
    Ok(())
}

/// The families of the columns.
pub(crate) fn families(alloc: Global, scope: &[Seen<'_>]) -> Result<Vec<Family>, AllocError>
    ensures { IfOk result (λ found. found.items ≡ families (shown scope.now)) }
{
    let mut found = Vec::with_capacity(alloc, scope.len())?;
    for seen in scope {
        found.push(family_of_type(seen.column.ty))?;
    }
    Ok(found)
}
