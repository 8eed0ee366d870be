//! Rows of a table that are kept.

ghost use Rattle.std.specs.Prelude.{◌≡◌, ◌&&◌, IfOk, OnOk, option_copied, slice_get, unwrap_or};
ghost use Rattle.std.specs.FinMap as map;
ghost use Rattle.table_state.specs.table_defs.specs.Declarations.{foreign_places};
ghost use Rattle.instances.specs.Collecting.{added};
ghost use Rattle.instances.specs.Views.{child_rows, kept_at, only, refers_to_one, root_rows, rows_where, selects};

use crate::tree::{Child, Root};
use expressions::row_types::{Key, Row, Truth};
use expressions::{Cond, truth_on};
use std::alloc::{AllocError, Global};
use table_state::indexed_rows::{Rows, key_at};
use table_state::table_defs::{ForeignKey, TableDef};
use table_state::{Scan, Tables};

/// The rows of the root table that its WHERE selects.
pub(crate) fn root_rows(alloc: Global, tables: &Tables, root: &Root) -> Result<Rows, AllocError>
    ensures { IfOk result (λ rows. rows ≡ root_rows tables.now root.now) }
{
    let none = Rows::new(alloc);
    let rows = or_none(tables.table(root.table), &none);
    selected_rows(alloc, rows, &root.filter)
}

/// The root row of a key, where the root's WHERE selects it.
pub(crate) fn root_row(
    alloc: Global,
    tables: &Tables,
    root: &Root,
    key: &Key,
) -> Result<Rows, AllocError>
    ensures { IfOk result (λ rows. rows ≡ only key.now (root_rows tables.now root.now)) }
{
    match selected_row(tables, root, key) {
        None => Ok(Rows::new(alloc)),
        Some(row) => one_row(alloc, key, row),
    }
}

/// The rows of a child table that its WHERE selects and that refer to one of those kept at the parent's place.
pub(crate) fn child_rows(
    alloc: Global,
    tables: &Tables,
    kept: &[Rows],
    child: &Child,
) -> Result<Rows, AllocError>
    ensures { IfOk result (λ rows. rows ≡ child_rows tables.now (kept_at kept.now child.now.parent) child.now) }
{
    let none = Rows::new(alloc);
    let parents = kept_at(kept, child.parent, &none);
    let rows = or_none(tables.table(child.table), &none);
    let def = tables.schema().get(child.table.0 as usize);
    referring_rows(alloc, rows, &child.filter, parents, def)
}

/// The rows at a place, or else those of `none`.
pub(crate) fn kept_at<'a>(kept: &'a [Rows], place: usize, none: &'a Rows) -> &'a Rows
    ensures { result.now ≡ unwrap_or (slice_get kept.now place) none.now }
{
    match kept.get(place) {
        None => none,
        Some(rows) => rows,
    }
}

/// The rows, or else those of `none`.
pub(crate) fn or_none<'a>(rows: Option<&'a Rows>, none: &'a Rows) -> &'a Rows
    ensures { result.now ≡ unwrap_or (option_copied rows.entry) none.now }
{
    match rows {
        None => none,
        Some(rows) => rows,
    }
}

fn selected_rows(alloc: Global, rows: &Rows, filter: &Option<Cond>) -> Result<Rows, AllocError>
    ensures { IfOk result (λ out. out ≡ rows_where (selects filter.now) rows.now) }
{
    let mut out = Rows::new(alloc);
    for place in 0..rows.len() {
        let entry = rows.entry_at(place);
        if selects(filter, &entry.1) {
            add_copy(alloc, &mut out, &entry.0, &entry.1)?;
        }
    }
    Ok(out)
}

fn referring_rows(
    alloc: Global,
    rows: &Rows,
    filter: &Option<Cond>,
    parents: &Rows,
    def: Option<&TableDef>,
) -> Result<Rows, AllocError>
    ensures { IfOk result (λ out. out ≡ rows_where (λ row. selects filter.now row
        && refers_to_one parents.now (option_copied def.entry) row) rows.now) }
{
    let mut out = Rows::new(alloc);
    for place in 0..rows.len() {
        let entry = rows.entry_at(place);
        if is_kept(alloc, filter, parents, def, &entry.1)? {
            add_copy(alloc, &mut out, &entry.0, &entry.1)?;
        }
    }
    Ok(out)
}

fn is_kept(
    alloc: Global,
    filter: &Option<Cond>,
    parents: &Rows,
    def: Option<&TableDef>,
    row: &Row,
) -> Result<bool, AllocError>
    ensures { IfOk result (λ kept. kept ≡ (selects filter.now row.now
        && refers_to_one parents.now (option_copied def.entry) row.now)) }
{
    if selects(filter, row) {
        refers_to_one(alloc, parents, def, row)
    } else {
        Ok(false)
    }
}

fn refers_to_one(
    alloc: Global,
    parents: &Rows,
    def: Option<&TableDef>,
    row: &Row,
) -> Result<bool, AllocError>
    ensures { IfOk result (λ refers. refers ≡ refers_to_one parents.now (option_copied def.entry) row.now) }
{
    match def {
        None => Ok(false),
        Some(def) => {
            let key = key_at(alloc, foreign_places(&def.foreign_key), row)?;
            Ok(parents.contains_key(&key))
        }
    }
}

/// The columns of the foreign key, none where there is no foreign key.
pub fn foreign_places(foreign_key: &Option<ForeignKey>) -> &[usize]
    ensures { result.now ≡ foreign_places foreign_key.now }
{
    match foreign_key {
        None => &[],
        Some(foreign) => foreign.columns.as_slice(),
    }
}

// The root row of a key, where the root's WHERE selects it.
fn selected_row<'a>(tables: &'a Tables, root: &Root, key: &Key) -> Option<&'a Row>
    ensures { option_copied result ≡ map.get (root_rows tables.now root.now) key.now }
{
    match tables.find(root.table, key) {
        None => None,
        Some(row) => {
            if selects(&root.filter, row) {
                Some(row)
            } else {
                None
            }
        }
    }
}

/// Whether the WHERE selects the row; one that is 120 on it doesn't, and where there is none each row is selected.
pub fn selects(filter: &Option<Cond>, row: &Row) -> bool
    ensures { result ≡ selects filter.now row.now }
{
    match filter {
        None => true,
        Some(cond) => match truth_on(cond, row) {
            Some(Truth::True) => true,
            _ => false,
        },
    }
}

fn one_row(alloc: Global, key: &Key, row: &Row) -> Result<Rows, AllocError>
    ensures { IfOk result (λ rows. rows ≡ added map.empty key.now row.now) }
{
    let mut out = Rows::new(alloc);
    add_copy(alloc, &mut out, key, row)?;
    Ok(out)
}

/// Puts a copy of a row in where its key has none.
pub(crate) fn add_copy(
    alloc: Global,
    out: &mut Rows,
    key: &Key,
    row: &Row,
) -> Result<(), AllocError>
    ensures { OnOk result (out.new ≡ added out.old key.now row.now) }
{
    let key = key.copied(alloc)?;
    let row = row.copied(alloc)?;
    out.insert(key, row)?;
    Ok(())
}
