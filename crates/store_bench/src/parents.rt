//! The child rows of a parent: by today's index, and by another order of rows in slots.

ghost use Rattle.std.specs.Prelude.{IfOk};
ghost use Rattle.store_bench.specs.Measured.{HasParentOrder};

use crate::error::BenchError;
use crate::rows::{key_of, row_of};
use crate::watch::{mixed, tell_calls};
use indexed_rows::IndexedRows;
use slot_rows::SlotRows;
use std::alloc::{AllocError, Global};
use std::time::Instant;
use tier_base::Seq;

/// Rows of ten to a parent by today's index, and the first row of each parent. How many were found.
pub fn measure_indexed(rt: &HostRuntime, rows: usize) -> Result<usize, BenchError> {
    let columns = Vec::from_array(rt.alloc(), [1])?;
    let mut indexed = IndexedRows::by_parent(rt.alloc(), Seq::from_vec(columns));
    let start = Instant::now(rt)?;
    for place in 0..rows {
        let id = mixed(place, rows);
        indexed.insert(rt.alloc(), &key_of(id), row_of(rt.alloc(), id, id / 10)?)?;
    }
    tell_calls(rt, "children by index, insert", rows, start)?;
    let parents = rows / 10;
    let start = Instant::now(rt)?;
    let found = (0..parents)
        .filter(|place| indexed
            .child(&[1], &key_of(mixed(*place, parents)), 0)
            .is_some())
        .count();
    tell_calls(rt, "children by index, child", parents, start)?;
    Ok(found)
}

/// The same with rows in slots and another order of them, by parent.
pub fn measure_ordered(rt: &HostRuntime, rows: usize) -> Result<usize, BenchError> {
    let mut slots = ordered_rows(rt.alloc())?;
    let start = Instant::now(rt)?;
    for place in 0..rows {
        let id = mixed(place, rows);
        slots.insert(rt.alloc(), row_of(rt.alloc(), id, id / 10)?)?;
    }
    tell_calls(rt, "children by order, insert", rows, start)?;
    let parents = rows / 10;
    let start = Instant::now(rt)?;
    let found = (0..parents)
        .filter(|place| has_child(&slots, mixed(*place, parents)))
        .count();
    tell_calls(rt, "children by order, child", parents, start)?;
    Ok(found)
}

// No rows, with an order by parent beside that by key.
fn ordered_rows(alloc: Global) -> Result<SlotRows, AllocError>
    ensures { IfOk result HasParentOrder }
{
    let key = Seq::from_vec(Vec::from_array(alloc, [0])?);
    let by_parent = Seq::from_vec(Vec::from_array(alloc, [1, 0])?);
    let mut slots = SlotRows::new(alloc, key);
    slots.add_order(alloc, by_parent)?;
    Ok(slots)
}

fn has_child(slots: &SlotRows, parent: usize) -> bool
    requires { HasParentOrder slots.now }
{
    slots.next_with(0, key_of(parent).values(), 0).is_some()
}
