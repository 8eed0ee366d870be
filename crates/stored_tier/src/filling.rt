//! Stores that are made anew from a snapshot of the backing tables.

ghost use Rattle.std.specs.Prelude.{◌≡◌, ◌≤◌, ◌<◌, ◌+◌, IfOk, OnOk, length, map, slice_get, take};
ghost use Rattle.std.specs.FinMap.{values};
ghost use Rattle.std.specs.Option.{option_copied, option_map};
ghost use Rattle.indexed_rows.specs.Rows.{key_of, value_at};
ghost use Rattle.cache_tier.specs.Shown.{exceeds, is_past};
ghost use Rattle.instances.specs.Trees.{table_of};
ghost use Rattle.group_catalog.specs.Kept.{group_seen};
ghost use Rattle.group_store.specs.Keeping.{primary_of};
ghost use Rattle.group_store.specs.Shown.{foreign_key_of};
ghost use Rattle.group_store.specs.Stores.{HasRootKeys, SameButSpare, put_rows, put_tables};
ghost use Rattle.stored_tier.specs.Choosing.{chosen};
ghost use Rattle.stored_tier.specs.Filling.{HidesNone, bare_front, bare_store, comes_anew, is_held, ordered, parent_key, roots_anew, store_anew, touched_all};
ghost use Rattle.stored_tier.specs.Lists.{hides_keys, is_by_time, is_by_use};

use crate::gathering::{add_copy, instances_below, selects};
use cache_tier::group::AgingRule;
use group_catalog::KeptGroup;
use group_store::Store;
use indexed_rows::{Rows, key_at};
use instances::Tree;
use row_types::{Key, Row, Value};
use slot_rows::SlotRows;
use sql_subset::stmt::GroupKind;
use std::alloc::{AllocError, Global};
use table_defs::{BackingSchema, copied_places};
use table_state::Tables;
use tier_base::TableId;

// A group's store made anew over this schema, with the instances of these tables that it shows: of a dynamic group
// those whose keys its old store has, or that are hidden; and they are past its horizon. Where instances leave by last
// use, they come in the order of the old store.
//
// It fails for want of memory, and for a tree that isn't sound over the schema, which no group has.
pub(crate) fn store_anew(
    alloc: Global,
    schema: &BackingSchema,
    group: &KeptGroup,
    old: &Store,
    hidden: &SlotRows,
    tables: &Tables,
) -> Result<Store, AllocError>
    ensures { IfOk result (SameButSpare (store_anew schema.now tables.now (group_seen group.now) old.now
        hidden.now.table)) }
{
    let mut store = bare_store(alloc, schema, &group.def.tree)?;
    let roots = roots_anew(alloc, group, old, hidden, tables)?;
    let rows = instances_below(alloc, tables, &group.def.tree, roots)?;
    fill(alloc, &mut store, rows.as_slice())?;
    keep_order(alloc, group, old, &mut store)?;
    Ok(store)
}

// The root rows that come into it.
fn roots_anew(
    alloc: Global,
    group: &KeptGroup,
    old: &Store,
    hidden: &SlotRows,
    tables: &Tables,
) -> Result<Rows, AllocError>
    ensures { IfOk result (λ rows. rows ≡ roots_anew tables.now (group_seen group.now) old.now hidden.now.table) }
{
    match tables.table(group.def.tree.root.table) {
        None => Ok(Rows::new(alloc)),
        Some(rows) => coming_anew(alloc, rows, group, old, hidden),
    }
}

fn coming_anew(
    alloc: Global,
    rows: &Rows,
    group: &KeptGroup,
    old: &Store,
    hidden: &SlotRows,
) -> Result<Rows, AllocError>
    ensures { IfOk result (λ out. out ≡ chosen (comes_anew (group_seen group.now) old.now hidden.now.table) rows.now) }
{
    let mut out = Rows::new(alloc);
    for place in 0..rows.len() {
        let entry = rows.entry_at(place);
        if comes_anew(group, old, hidden, &entry.0, &entry.1) {
            add_copy(alloc, &mut out, &entry.0, &entry.1)?;
        }
    }
    Ok(out)
}

// Whether a root row comes into it.
fn comes_anew(group: &KeptGroup, old: &Store, hidden: &SlotRows, key: &Key, row: &Row) -> bool
    ensures { result ≡ comes_anew (group_seen group.now) old.now hidden.now.table key.now row.now }
{
    (!group.def.dynamic || is_held(old, hidden, key))
        && selects(&group.def.tree.root.filter, row)
        && exceeds(group, row)
}

// Whether a group has a key: a root row of its store, or a hidden one.
pub(crate) fn is_held(store: &Store, hidden: &SlotRows, key: &Key) -> bool
    ensures { result ≡ is_held store.now hidden.now.table key.now }
{
    store.get(0, key).is_some() || hidden.get(key.values()).is_some()
}

/// Whether a root row is past the horizon of its group, where instances leave by time.
pub fn exceeds(group: &KeptGroup, row: &Row) -> bool
    ensures { result ≡ exceeds (group_seen group.now) row.now }
{
    match &group.def.aging {
        None => true,
        Some(AgingRule::LastUse) => true,
        Some(AgingRule::ByTime(rule)) => is_past(group.horizon, row, rule.column),
    }
}

// Whether the time in a column exceeds the horizon; where there is none, each row does.
fn is_past(horizon: Option<i128>, row: &Row, column: usize) -> bool
    ensures { result ≡ is_past horizon (value_at row.now column) }
{
    match horizon {
        None => true,
        Some(horizon) => match row.values().get(column) {
            Some(Value::Time(time)) => horizon < i128::from(time.seconds()),
            _ => false,
        },
    }
}

// Where instances leave by last use, those of the old store are used in its order.
fn keep_order(
    alloc: Global,
    group: &KeptGroup,
    old: &Store,
    store: &mut Store,
) -> Result<(), AllocError>
    ensures { OnOk result (SameButSpare (ordered (group_seen group.now) old.now store.old) store.new) }
{
    if !is_by_use(&group.def.aging) {
        return Ok(());
    }
    let keys = keys_in_order(alloc, old)?;
    touch_all(store, keys.as_slice());
    Ok(())
}

// The root keys of a store in the order of last use.
fn keys_in_order(alloc: Global, store: &Store) -> Result<Vec<Key>, AllocError>
    ensures { IfOk result (λ keys. keys.items ≡ store.now.keys) }
{
    store.keys_law();
    let mut keys = Vec::new(alloc);
    let mut next = key_of(alloc, store, store.oldest())?;
    for _ in 0..store.len(0) {
        match next {
            None => return Ok(keys),
            Some(key) => {
                next = key_of(alloc, store, store.newer(&key))?;
                keys.push(key)?;
            }
        }
    }
    match next {
        None => Ok(keys),
        Some(_) => Err(AllocError),
    }
}

// The key of a root row, where there is one.
fn key_of(alloc: Global, store: &Store, row: Option<&Row>) -> Result<Option<Key>, AllocError>
    ensures { IfOk result (λ key. key ≡ option_map (key_of store.now.key) (option_copied row.entry)) }
{
    match row {
        None => Ok(None),
        Some(row) => {
            let key = key_at(alloc, store.key(), row)?;
            Ok(Some(key))
        }
    }
}

// These root keys become the newest, one after another. It takes no memory.
fn touch_all(store: &mut Store, keys: &[Key])
    ensures { SameButSpare (touched_all keys.now store.old) store.new }
{
    for key in keys {
        store.touch(key);
    }
}

/// No hidden root rows of a group, with room for so many, where it hides some.
///
/// It fails for want of memory alone.
pub fn none_hidden(
    alloc: Global,
    schema: &BackingSchema,
    group: &KeptGroup,
    roots: usize,
) -> Result<SlotRows, AllocError>
    ensures { IfOk result (HidesNone schema.now (group_seen group.now) roots) }
{
    let key = copied_places(alloc, primary_places(schema, group.def.tree.root.table))?;
    let mut hidden = SlotRows::new(alloc, key);
    if hides_keys(group) {
        hidden.reserve(alloc, roots)?;
    }
    Ok(hidden)
}

/// Whether the group keeps keys in its list of instances that it doesn't show: it is READONLY and DYNAMIC, and its
/// instances leave by time.
pub fn hides_keys(group: &KeptGroup) -> bool
    ensures { result ≡ hides_keys (group_seen group.now) }
{
    match group.def.kind {
        GroupKind::ReadOnly => group.def.dynamic && is_by_time(&group.def.aging),
        _ => false,
    }
}

/// Whether instances leave by last use.
pub fn is_by_use(aging: &Option<AgingRule>) -> bool
    ensures { result ≡ is_by_use aging.now }
{
    match aging {
        Some(AgingRule::LastUse) => true,
        _ => false,
    }
}

/// Whether instances leave by time.
pub fn is_by_time(aging: &Option<AgingRule>) -> bool
    ensures { result ≡ is_by_time aging.now }
{
    match aging {
        Some(AgingRule::ByTime(_)) => true,
        _ => false,
    }
}

// A store for a tree over this schema, without rows. It fails as `viewed_store` does.
fn bare_store(alloc: Global, schema: &BackingSchema, tree: &Tree) -> Result<Store, AllocError>
    ensures { IfOk result (SameButSpare (bare_store schema.now tree.now)) }
{
    let root = tree.root.table;
    let key = copied_places(alloc, primary_places(schema, root))?;
    let foreign = copied_places(alloc, foreign_places(schema, root))?;
    let mut store = Store::new(alloc, root, key, foreign)?;
    for place in 0..tree.children.len() {
        add_child(alloc, schema, tree, place, &mut store)?;
    }
    Ok(store)
}

// Gives the store the next child table of the tree.
fn add_child(
    alloc: Global,
    schema: &BackingSchema,
    tree: &Tree,
    place: usize,
    store: &mut Store,
) -> Result<(), AllocError>
    requires within { place < length tree.now.children }
    requires front { SameButSpare (bare_front schema.now tree.now (take place tree.now.children)) store.old }
    ensures { OnOk result (SameButSpare (bare_front schema.now tree.now (take (place + 1) tree.now.children))
        store.new) }
{
    let Some(child) = tree.children.get(place) else {
        return Err(AllocError);
    };
    let key = copied_places(alloc, primary_places(schema, child.table))?;
    let foreign = copied_places(alloc, foreign_places(schema, child.table))?;
    let long = parent_key_len(schema, tree, child.parent);
    if child.parent > place || foreign.len() == 0 || foreign.len() != long {
        return Err(AllocError);
    }
    store.add_child(alloc, child.table, key, foreign, child.parent)
}

// How many columns the primary key of the table at a place of the tree has.
fn parent_key_len(schema: &BackingSchema, tree: &Tree, place: usize) -> usize
    ensures { result ≡ length (parent_key schema.now (table_of tree.now place)) }
{
    match tree.table_of(place) {
        None => 0,
        Some(table) => primary_places(schema, table).len(),
    }
}

// The columns of a table's primary key.
fn primary_places(schema: &BackingSchema, table: TableId) -> &[usize]
    ensures { result.now ≡ primary_of schema.now table }
{
    match schema.get(table.0 as usize) {
        None => &[],
        Some(def) => def.primary_key.as_slice(),
    }
}

// The columns of a table's foreign key; none where it has none.
fn foreign_places(schema: &BackingSchema, table: TableId) -> &[usize]
    ensures { result.now ≡ foreign_key_of schema.now table }
{
    match schema.get(table.0 as usize) {
        None => &[],
        Some(def) => match &def.foreign_key {
            None => &[],
            Some(foreign) => foreign.columns.as_slice(),
        },
    }
}

// Puts rows into the tables of a store, by place of its tree.
fn fill(alloc: Global, store: &mut Store, tables: &[Rows]) -> Result<(), AllocError>
    requires { length tables.now ≤ length store.old.layers + 1 }
    ensures { OnOk result (SameButSpare (put_tables 0 (map values tables.now) store.old) store.new) }
{
    for place in 0..tables.len() {
        fill_table(alloc, store, place, &tables[place])?;
    }
    Ok(())
}

// Puts rows into the table of a store at a place of its tree.
fn fill_table(alloc: Global, store: &mut Store, place: usize, rows: &Rows) -> Result<(), AllocError>
    requires { place ≤ length store.old.layers }
    ensures { OnOk result (SameButSpare (put_rows place (values rows.now) store.old) store.new) }
{
    store.reserve(alloc, rows.len())?;
    for at in 0..rows.len() {
        let row = rows.row_at(at).copied(alloc)?;
        store.put(place, row);
    }
    Ok(())
}
