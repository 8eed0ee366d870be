//! Instances of ten rows in a group's store.

ghost use Rattle.std.specs.Prelude.{◌≡◌, [], ◌∷◌, IfOk};

use crate::error::BenchError;
use crate::rows::{key_of, row_of};
use crate::watch::{mixed, tell_calls};
use group_store::Store;
use row_types::Row;
use std::alloc::{AllocError, Global};
use std::time::Instant;
use tier_base::{Seq, TableId};

/// The root table.
const ROOT: TableId = TableId(0);

/// The child table.
const CHILD: TableId = TableId(1);

/// The child rows of an instance.
const CHILDREN: usize = 9;

/// Puts instances of ten rows in, looks the first child of each up, touches each and drops each second one. How many
/// are left.
pub fn measure_instances(rt: &HostRuntime, rows: usize) -> Result<usize, BenchError> {
    let instances = rows / (CHILDREN + 1);
    let mut store = new_store(rt.alloc())?;
    let start = Instant::now(rt)?;
    for place in 0..instances {
        put_instance(rt.alloc(), &mut store, mixed(place, instances))?;
    }
    tell_calls(rt, "instances of ten rows, put", instances, start)?;
    let start = Instant::now(rt)?;
    let found = find_children(&store, instances);
    tell_calls(rt, "instances of ten rows, child", instances, start)?;
    let start = Instant::now(rt)?;
    for place in 0..instances {
        store.touch(&key_of(mixed(place, instances)));
    }
    tell_calls(rt, "instances of ten rows, touch", instances, start)?;
    let start = Instant::now(rt)?;
    for place in 0..instances / 2 {
        store.drop_instance(&key_of(mixed(place, instances)));
    }
    tell_calls(rt, "instances of ten rows, drop", instances / 2, start)?;
    println!(rt; "parents with a child: {found}")?;
    Ok(store.len(0))
}

// A store of a root table and a child table, without rows.
fn new_store(alloc: Global) -> Result<Store, AllocError> {
    let none = Seq::from_vec(Vec::new(alloc));
    let mut store = Store::new(alloc, ROOT, column(alloc, 0)?, none)?;
    store.add_child(alloc, CHILD, column(alloc, 0)?, column(alloc, 1)?, 0)?;
    Ok(store)
}

fn column(alloc: Global, place: usize) -> Result<Seq<usize>, AllocError>
    ensures { IfOk result (λ columns. columns ≡ place ∷ []) }
{
    let columns = Vec::from_array(alloc, [place])?;
    Ok(Seq::from_vec(columns))
}

fn put_instance(alloc: Global, store: &mut Store, id: usize) -> Result<(), AllocError> {
    store.reserve(alloc, CHILDREN + 1)?;
    put(alloc, store, ROOT, row_of(alloc, id, id)?)?;
    for child in 0..CHILDREN {
        let row = row_of(alloc, id.wrapping_mul(CHILDREN).wrapping_add(child), id)?;
        put(alloc, store, CHILD, row)?;
    }
    Ok(())
}

fn put(alloc: Global, store: &mut Store, table: TableId, row: Row) -> Result<(), AllocError> {
    store.reserve(alloc, 1)?;
    if let Some(place) = store.place_of(table) {
        store.put(place, row);
    }
    Ok(())
}

// How many parents have a child.
fn find_children(store: &Store, instances: usize) -> usize {
    match store.place_of(CHILD) {
        None => 0,
        Some(child) => (0..instances)
            .filter(|place| {
                store
                    .child(child, &key_of(mixed(*place, instances)), 0)
                    .is_some()
            })
            .count(),
    }
}
