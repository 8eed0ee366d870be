//! Look-ups by key through a session's own writes, beside those in the rows alone.

ghost use Rattle.store_bench.specs.Measured.{IsReadable, IsStocked};

use crate::error::BenchError;
use crate::rows::key_of;
use crate::stock::{TABLE, stocked, table_of_numbers};
use crate::watch::{mixed, tell, tell_calls};
use crate::writing::{WRITES, session_over, written};
use group_store::{Directory, Shown, Store};
use std::slice::from_ref;
use std::time::Instant;
use table_defs::BackingSchema;
use table_state::Scan;
use tier_base::Seq;

/// Puts rows into a group's store, lets a session write over what is shown of them, and looks keys up without and with
/// the session's writes.
pub fn measure_overlay(rt: &HostRuntime, rows: usize) -> Result<(), BenchError> {
    let def = table_of_numbers(rt.alloc())?;
    let store = stocked(rt.alloc(), def.columns.as_slice(), rows)?;
    let schema = Seq::from_vec(Vec::from_array(rt.alloc(), [def])?);
    measure_store(rt, &schema, &store, rows)
}

// What is shown of one store.
fn measure_store(
    rt: &HostRuntime,
    schema: &BackingSchema,
    store: &Store,
    rows: usize,
) -> Result<(), BenchError>
    requires { IsStocked schema.now store.now }
{
    let _rows = store.len(0);
    let stores = from_ref(store);
    let directory = Directory::of(rt.alloc(), stores, 1)?;
    let shown = Shown::new(schema, stores, &directory);
    measure_scan(rt, &shown, rows)
}

// The rows of a scan, without and with the session's writes over them.
fn measure_scan<S: Scan>(rt: &HostRuntime, scan: &S, rows: usize) -> Result<(), BenchError>
    requires { IsReadable (S.state scan.now) }
{
    let start = Instant::now(rt)?;
    let session = session_over(rt.alloc(), scan, rows)?;
    tell_calls(rt, "own operations, write", WRITES, start)?;
    let seen = session.overlay(scan);
    let found = time_written(rt, scan, "written keys in the rows, find", rows)?;
    tell(rt, "written keys found in the rows", found)?;
    let found = time_written(rt, &seen, "written keys by overlay, find", rows)?;
    tell(rt, "written keys found by overlay", found)?;
    let found = time_others(rt, scan, "other keys in the rows, find", rows)?;
    tell(rt, "other keys found in the rows", found)?;
    let found = time_others(rt, &seen, "other keys by overlay, find", rows)?;
    tell(rt, "other keys found by overlay", found)
}

// Looks the keys that the session writes up, again and again, about as often as there are rows. How many were found.
fn time_written<S: Scan>(
    rt: &HostRuntime,
    scan: &S,
    what: &str,
    rows: usize,
) -> Result<usize, BenchError> {
    let calls = rows / WRITES * WRITES;
    let start = Instant::now(rt)?;
    let found = (0..calls)
        .filter(|call| scan
            .find(TABLE, &key_of(written(*call % WRITES, rows)))
            .is_some())
        .count();
    tell_calls(rt, what, calls, start)?;
    Ok(found)
}

// Looks each third key up, which the session doesn't write. How many were found.
fn time_others<S: Scan>(
    rt: &HostRuntime,
    scan: &S,
    what: &str,
    rows: usize,
) -> Result<usize, BenchError> {
    let calls = rows / 3;
    let start = Instant::now(rt)?;
    let found = (0..calls)
        .filter(|call| scan
            .find(TABLE, &key_of(mixed(call.wrapping_mul(3), rows)))
            .is_some())
        .count();
    tell_calls(rt, what, calls, start)?;
    Ok(found)
}
