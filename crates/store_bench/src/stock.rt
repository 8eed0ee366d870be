//! The table that lies under a session's own rows, and a store of its rows.

ghost use Rattle.std.specs.Prelude.{◌≡◌, IfOk};
ghost use Rattle.table_state.specs.Tables.{fits_columns};
ghost use Rattle.store_bench.specs.Measured.{HoldsTable, IsPlain};

use crate::error::BenchError;
use crate::rows::row_of;
use crate::watch::mixed;
use group_store::Store;
use row_types::{Column, Row, Ty, Value, fits};
use std::alloc::{AllocError, Global};
use table_defs::TableDef;
use tier_base::{Name, Seq, TableId};

/// The table.
pub const TABLE: TableId = TableId(0);

/// The definition of a table of three whole numbers, the first of them its key. Its names have no bytes, since nothing
/// asks for them.
pub fn table_of_numbers(alloc: Global) -> Result<TableDef, AllocError>
    ensures { IfOk result IsPlain }
{
    let columns = [number(alloc), number(alloc), number(alloc)];
    Ok(TableDef {
        name: Name::hidden(alloc),
        columns: Seq::from_vec(Vec::from_array(alloc, columns)?),
        primary_key: Seq::from_vec(Vec::from_array(alloc, [0])?),
        foreign_key: None,
    })
}

fn number(alloc: Global) -> Column {
    Column {
        name: Name::hidden(alloc),
        ty: Ty::TtBigint,
        not_null: true,
    }
}

/// A store of so many rows of the table.
pub fn stocked(alloc: Global, columns: &[Column], rows: usize) -> Result<Store, BenchError>
    ensures { IfOk result (HoldsTable columns.now) }
{
    let mut store = empty_store(alloc, columns)?;
    for place in 0..rows {
        let id = mixed(place, rows);
        let row = row_of(alloc, id, id)?;
        put_fitting(alloc, columns, &mut store, row)?;
    }
    Ok(store)
}

// A store without rows. The columns are those that its rows are to fit.
fn empty_store(alloc: Global, columns: &[Column]) -> Result<Store, AllocError>
    ensures { IfOk result (HoldsTable columns.now) }
{
    let _ = columns.len();
    let key = Seq::from_vec(Vec::from_array(alloc, [0])?);
    let none = Seq::new(alloc);
    let store = Store::new(alloc, TABLE, key, none)?;
    Ok(store)
}

// Puts in a row, which has to fit the columns.
fn put_fitting(
    alloc: Global,
    columns: &[Column],
    store: &mut Store,
    row: Row,
) -> Result<(), BenchError>
    requires { HoldsTable columns.now store.old }
    ensures { HoldsTable columns.now store.new }
{
    if !fits_columns(columns, row.values()) {
        return Err(BenchError::Refused);
    }
    store.reserve(alloc, 1)?;
    store.put(0, row);
    Ok(())
}

fn fits_columns(columns: &[Column], values: &[Value]) -> bool
    ensures { result ≡ fits_columns columns.now values.now }
{
    match (columns.split_first(), values.split_first()) {
        (None, None) => true,
        (Some((column, columns)), Some((value, values))) => {
            fits(value, column).is_ok() && fits_columns(columns, values)
        }
        _ => false,
    }
}
