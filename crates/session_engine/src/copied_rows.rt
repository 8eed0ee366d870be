//! Whether the rows that the backing database gave are such as their tables say.

ghost use Rattle.std.specs.Prelude.{◌≡◌, ◌<◌, IsTrue, Some, slice_get};
ghost use Rattle.std.specs.FinMap as map;
ghost use Rattle.indexed_rows.specs.Rows.{Table, key_of};
ghost use Rattle.table_defs.specs.declared.definition.TableDef.{TableDef as Def};
ghost use Rattle.table_state.specs.Keyed.{HasFit, IsKeyed, IsUnderKeys};
ghost use Rattle.table_state.specs.Tables.{fits_columns};
ghost use Rattle.session_engine.specs.Copying.{StandsAt};

use indexed_rows::Rows;
use row_types::{Column, Row, Value, fits};
use std::alloc::Global;
use table_defs::TableDef;
use table_state::{Tables, key_of_row};
use tier_base::TableId;

/// Whether the rows of each table stand under their primary keys and fit its columns. It is false, too, where memory
/// was wanting for a key.
pub(crate) fn are_keyed(alloc: Global, tables: &Tables) -> bool
    ensures { IsTrue result → IsKeyed tables.now }
{
    for place in 0..tables.schema().len() {
        if !is_keyed(alloc, tables, place) {
            return false;
        }
    }
    true
}

// The same of the table at a place.
fn is_keyed(alloc: Global, tables: &Tables, place: usize) -> bool
    ensures { IsTrue result → (def : Def) (table : Table) → slice_get tables.now.schema place ≡ Some def
        → slice_get tables.now.tables place ≡ Some table
        → IsUnderKeys def.primary_key table × HasFit def.columns table }
{
    if place >= 4_294_967_296 {
        return false;
    }
    match (
        tables.schema().get(place),
        tables.table(TableId(place as u32)),
    ) {
        (Some(def), Some(rows)) => are_under_keys(alloc, def, rows),
        _ => true,
    }
}

// The same of the rows of a table.
fn are_under_keys(alloc: Global, def: &TableDef, rows: &Rows) -> bool
    ensures { IsTrue result → IsUnderKeys def.now.primary_key rows.now × HasFit def.now.columns rows.now }
{
    for at in 0..rows.len() {
        if !stands_at(alloc, def, rows, at) {
            return false;
        }
    }
    true
}

// The same of the row at a place in key order.
fn stands_at(alloc: Global, def: &TableDef, rows: &Rows, at: usize) -> bool
    requires { at < map.len rows.now }
    ensures { IsTrue result → StandsAt def.now rows.now at }
{
    let row = rows.row_at(at);
    fit(def.columns.as_slice(), row.values()) && has_place(alloc, def, rows, row, at)
}

// Whether the key of a row is the one at this place.
fn has_place(alloc: Global, def: &TableDef, rows: &Rows, row: &Row, at: usize) -> bool
    ensures { IsTrue result → slice_get (map.keys rows.now) at ≡ Some (key_of def.now.primary_key row.now) }
{
    match key_of_row(alloc, def, row) {
        Err(_) => false,
        Ok(key) => match rows.position(&key) {
            None => false,
            Some(place) => place == at,
        },
    }
}

// Whether there are as many values as columns, and each column takes its value.
fn fit(columns: &[Column], values: &[Value]) -> bool
    ensures { result ≡ fits_columns columns.now values.now }
{
    match (columns.split_first(), values.split_first()) {
        (Some((column, columns)), Some((value, values))) => match fits(value, column) {
            Err(_) => false,
            Ok(()) => fit(columns, values),
        },
        (None, None) => true,
        _ => false,
    }
}
