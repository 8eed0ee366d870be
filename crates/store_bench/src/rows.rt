//! Rows by key: today's lists of keys and rows, and rows in slots.

ghost use Rattle.std.specs.Prelude.{◌≡◌, length};

use crate::error::BenchError;
use crate::watch::{mixed, tell_calls};
use indexed_rows::Rows;
use row_types::{Key, Row, Value};
use slot_rows::SlotRows;
use std::alloc::{AllocError, Global};
use std::time::Instant;
use tier_base::Seq;

/// A row of three numbers, the first of them its key.
pub fn row_of(alloc: Global, id: usize, parent: usize) -> Result<Row, AllocError> {
    let values = [number(id), number(parent), number(id)];
    Ok(Row::from_vec(Vec::from_array(alloc, values)?))
}

/// The key of one number.
pub fn key_of(id: usize) -> Key
    ensures { length result ≡ 1 }
{
    Key::one(number(id))
}

fn number(id: usize) -> Value {
    Value::integer(i64::try_from(id).unwrap_or(i64::MAX))
}

/// Puts rows in by key, looks each up and takes each tenth out. How many were found.
pub fn measure_keyed(rt: &HostRuntime, rows: usize) -> Result<usize, BenchError> {
    let mut keyed = Rows::new(rt.alloc());
    let start = Instant::now(rt)?;
    for place in 0..rows {
        let id = mixed(place, rows);
        let _ = keyed.insert(key_of(id), row_of(rt.alloc(), id, id)?)?;
    }
    tell_calls(rt, "rows by key, insert", rows, start)?;
    let start = Instant::now(rt)?;
    let found = (0..rows)
        .filter(|place| keyed.get(&key_of(mixed(*place, rows))).is_some())
        .count();
    tell_calls(rt, "rows by key, get", rows, start)?;
    let start = Instant::now(rt)?;
    for place in 0..rows / 10 {
        let _ = keyed.remove(&key_of(mixed(place, rows)));
    }
    tell_calls(rt, "rows by key, remove", rows / 10, start)?;
    Ok(found)
}

/// The same with rows in slots.
pub fn measure_slots(rt: &HostRuntime, rows: usize) -> Result<usize, BenchError> {
    let columns = Vec::from_array(rt.alloc(), [0])?;
    let mut slots = SlotRows::new(rt.alloc(), Seq::from_vec(columns));
    let start = Instant::now(rt)?;
    for place in 0..rows {
        let id = mixed(place, rows);
        slots.insert(rt.alloc(), row_of(rt.alloc(), id, id)?)?;
    }
    tell_calls(rt, "rows in slots, insert", rows, start)?;
    let start = Instant::now(rt)?;
    let found = (0..rows)
        .filter(|place| slots.get(key_of(mixed(*place, rows)).values()).is_some())
        .count();
    tell_calls(rt, "rows in slots, get", rows, start)?;
    let start = Instant::now(rt)?;
    for place in 0..rows / 10 {
        let _ = slots.remove(key_of(mixed(place, rows)).values());
    }
    tell_calls(rt, "rows in slots, remove", rows / 10, start)?;
    Ok(found)
}
