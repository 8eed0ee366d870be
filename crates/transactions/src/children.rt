//! Rows that refer to another.

ghost use Rattle.std.specs.Prelude.{◌≡◌, ◌+◌, ◌<◌, IfOk, Some, drop, length, slice_get};
ghost use Rattle.std.specs.Option.{option_or};
ghost use Rattle.evaluator.specs.table_state.specs.Independence.{IsWhole, refers_to};
ghost use Rattle.evaluator.specs.table_state.specs.Refusals.{child_of, first_child};
ghost use Rattle.evaluator.specs.table_state.specs.Tables.{table_at};
ghost use Rattle.evaluator.specs.table_state.specs.Keyed.{IsKeyed};

use evaluator::row_types::{Detail, Key};
use evaluator::table_defs::{ForeignKey, TableDef};
use evaluator::table_state::{Scan, key_of_row};
use evaluator::tier_base::TableId;
use std::alloc::{AllocError, Global};

/// The table and the least key of the first row that refers to the row of this table and key, in the order of the
/// tables' definition. It fails for want of memory alone, as it does behind 2^32 tables.
pub(crate) fn first_child<S: Scan>(
    alloc: Global,
    scan: &S,
    table: TableId,
    key: &Key,
) -> Result<Option<Detail>, AllocError>
    requires whole { IsWhole (S.state scan.now) }
    requires keyed { IsKeyed (S.state scan.now) }
    ensures { IfOk result (λ child. child ≡ first_child table key.now (S.state scan.now).schema
        (S.state scan.now).tables) }
{
    for place in 0..scan.schema().len() {
        match child_at(alloc, scan, table, key, place)? {
            None => {}
            Some(child) => return Ok(Some(child)),
        }
    }
    Ok(None)
}

// The child in the table at a place.
fn child_at<S: Scan>(
    alloc: Global,
    scan: &S,
    table: TableId,
    key: &Key,
    place: usize,
) -> Result<Option<Detail>, AllocError>
    requires whole { IsWhole (S.state scan.now) }
    requires keyed { IsKeyed (S.state scan.now) }
    requires within { place < length (S.state scan.now).schema }
    ensures { IfOk result (λ child. first_child table key.now (drop place (S.state scan.now).schema)
        (drop place (S.state scan.now).tables)
        ≡ option_or child (first_child table key.now (drop (place + 1) (S.state scan.now).schema)
        (drop (place + 1) (S.state scan.now).tables))) }
{
    if place >= 4_294_967_296 {
        return Err(AllocError);
    }
    match scan.schema().get(place) {
        None => Err(AllocError),
        Some(def) => child_of(alloc, scan, table, key, TableId(place as u32), def),
    }
}

// The child in a table.
fn child_of<S: Scan>(
    alloc: Global,
    scan: &S,
    table: TableId,
    key: &Key,
    child: TableId,
    def: &TableDef,
) -> Result<Option<Detail>, AllocError>
    requires keyed { IsKeyed (S.state scan.now) }
    requires defined { slice_get (S.state scan.now).schema child.0 ≡ Some def.now }
    ensures { IfOk result (λ found. found ≡ child_of table key.now def.now (table_at (S.state scan.now) child)) }
{
    if !refers(table, &def.foreign_key) {
        return Ok(None);
    }
    match scan.child(child, key, 0) {
        None => Ok(None),
        Some(place) => match scan.row(child, place) {
            None => Err(AllocError),
            Some(row) => {
                let key = key_of_row(alloc, def, row)?;
                let name = def.name.copied(alloc)?;
                Ok(Some(Detail::Row(name, key)))
            }
        },
    }
}

fn refers(table: TableId, foreign_key: &Option<ForeignKey>) -> bool
    ensures { result ≡ refers_to table foreign_key.now }
{
    match foreign_key {
        None => false,
        Some(foreign) => table == foreign.parent,
    }
}
