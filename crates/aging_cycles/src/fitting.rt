//! Whether rows fit their tables.

ghost use Rattle.std.specs.Prelude.{◌≡◌, IsTrue, Some, slice_get};
ghost use Rattle.table_defs.specs.declared.definition.TableDef.{TableDef as Def};
ghost use Rattle.table_state.specs.Keyed.{HasFit};
ghost use Rattle.table_state.specs.Tables.{fits_columns};
ghost use Rattle.instances.specs.Trees.{table_of};
ghost use Rattle.tier_base.specs.declared.number.TableId.{TableId as OneTable};
ghost use Rattle.aging_cycles.specs.Fitting.{AreFit, AreListedFit, DoFit};

use indexed_rows::Rows;
use instances::Tree;
use row_types::{Column, Row, Value, fits};
use table_defs::BackingSchema;
use tier_base::Seq;

/// Whether the rows of these tables of a tree fit the columns of their definitions. It takes no memory.
pub fn are_fit(schema: &BackingSchema, tree: &Tree, tables: &[Rows]) -> bool
    ensures { IsTrue result → AreFit schema.now tree.now tables.now }
{
    for place in 0..tables.len() {
        if !is_fit_at(schema, tree, place, &tables[place]) {
            return false;
        }
    }
    true
}

/// Whether these rows, table by table of a tree, fit the columns of their tables' definitions. It takes no memory.
pub fn are_listed_fit(schema: &BackingSchema, tree: &Tree, lists: &[Seq<Row>]) -> bool
    ensures { IsTrue result → AreListedFit schema.now tree.now lists.now }
{
    for place in 0..lists.len() {
        if !is_list_fit_at(schema, tree, place, lists[place].as_slice()) {
            return false;
        }
    }
    true
}

// Whether the rows fit the columns of the table at a place of a tree.
fn is_fit_at(schema: &BackingSchema, tree: &Tree, place: usize, rows: &Rows) -> bool
    ensures { IsTrue result → (t : OneTable) (def : Def) → table_of tree.now place ≡ Some t
        → slice_get schema.now t.0 ≡ Some def → HasFit def.columns rows.now }
{
    match tree.table_of(place) {
        None => false,
        Some(table) => match schema.get(table.0 as usize) {
            None => false,
            Some(def) => have_fit(rows, def.columns.as_slice()),
        },
    }
}

// Whether these rows fit the columns of the table at a place of a tree.
fn is_list_fit_at(schema: &BackingSchema, tree: &Tree, place: usize, rows: &[Row]) -> bool
    ensures { IsTrue result → (t : OneTable) (def : Def) → table_of tree.now place ≡ Some t
        → slice_get schema.now t.0 ≡ Some def → DoFit def.columns rows.now }
{
    match tree.table_of(place) {
        None => false,
        Some(table) => match schema.get(table.0 as usize) {
            None => false,
            Some(def) => do_fit(rows, def.columns.as_slice()),
        },
    }
}

// Whether these rows fit these columns.
fn do_fit(rows: &[Row], columns: &[Column]) -> bool
    ensures { IsTrue result → DoFit columns.now rows.now }
{
    for row in rows {
        if !fit(columns, row.values()) {
            return false;
        }
    }
    true
}

// Whether the rows fit these columns.
fn have_fit(rows: &Rows, columns: &[Column]) -> bool
    ensures { IsTrue result → HasFit columns.now rows.now }
{
    for place in 0..rows.len() {
        if !fit(columns, rows.row_at(place).values()) {
            return false;
        }
    }
    true
}

// Whether there are as many values as columns, and each column takes its value.
fn fit(columns: &[Column], values: &[Value]) -> bool
    ensures { result ≡ fits_columns columns.now values.now }
{
    match (columns.split_first(), values.split_first()) {
        (Some((column, columns)), Some((value, values))) => match fits(value, column) {
            Err(_) => false,
            Ok(()) => fit(columns, values),
        },
        (None, None) => true,
        _ => false,
    }
}
