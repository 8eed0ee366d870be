//! Groups that come with their stores.

ghost use Rattle.std.specs.Prelude.{◌≡◌, ◌+◌, ◌<◌, ◌++◌, ◌∷◌, [], IfOk, OnErr, OnOk, length};
ghost use Rattle.group_catalog.specs.Kept.{group_seen};
ghost use Rattle.group_store.specs.Keeping.{primary_of};
ghost use Rattle.group_store.specs.Shown.{foreign_key_of};
ghost use Rattle.stored_tier.specs.Grouping.{IsBareStore, IsPartFor, HasGroups, KeepsGroups};
ghost use Rattle.group_catalog.specs.Catalogs.{groups_in};

use group_catalog::KeptGroup;
use group_store::Store;
use instances::Tree;
use slot_rows::SlotRows;
use std::alloc::{AllocError, Global};
use stored_tier::tier::Tier;
use table_defs::{TableDef, copied_places};
use tier_base::{Seq, TableId};

// A group comes behind the others, with its store and its hidden rows. It fails for want of memory alone; all then
// stays.
pub(crate) fn keep_group(
    tier: &mut Tier,
    alloc: Global,
    group: KeptGroup,
    store: Store,
    hidden: SlotRows,
) -> Result<(), AllocError>
    ensures ok { OnOk result (HasGroups tier.old tier.new
        (groups_in tier.old.catalog ++ group_seen group ∷ []) (tier.old.stores.items ++ store ∷ [])
        (tier.old.hidden.items ++ hidden ∷ [])) }
    ensures err { OnErr result (KeepsGroups tier.old tier.new) }
{
    let place = tier.catalog.len();
    tier.catalog.add(group)?;
    match keep_rows(tier, alloc, store, hidden) {
        Ok(()) => Ok(()),
        Err(e) => {
            tier.catalog.drop_group(place);
            Err(e)
        }
    }
}

// A store comes behind the others, with hidden rows; tables are named and found anew.
fn keep_rows(
    tier: &mut Tier,
    alloc: Global,
    store: Store,
    hidden: SlotRows,
) -> Result<(), AllocError>
    ensures ok { OnOk result (HasGroups tier.old tier.new (groups_in tier.old.catalog)
        (tier.old.stores.items ++ store ∷ []) (tier.old.hidden.items ++ hidden ∷ [])) }
    ensures err { OnErr result (KeepsGroups tier.old tier.new) }
{
    tier.hidden.push(hidden)?;
    match keep_store(tier, alloc, store) {
        Ok(()) => Ok(()),
        Err(e) => {
            tier.hidden.pop();
            Err(e)
        }
    }
}

// A store comes behind the others, and tables are named and found anew.
fn keep_store(tier: &mut Tier, alloc: Global, store: Store) -> Result<(), AllocError>
    ensures ok { OnOk result (HasGroups tier.old tier.new (groups_in tier.old.catalog)
        (tier.old.stores.items ++ store ∷ []) tier.old.hidden.items) }
    ensures err { OnErr result (KeepsGroups tier.old tier.new) }
{
    tier.stores.push(store)?;
    match tier.show_names(alloc) {
        Ok(()) => Ok(()),
        Err(e) => {
            tier.stores.pop();
            Err(e)
        }
    }
}

/// A store of a tree, without rows.
///
/// It fails for want of memory. Where a child's foreign key hadn't as many columns as its parent's key, as no schema
/// has it, memory would be told wanting.
pub fn bare_store(alloc: Global, schema: &[TableDef], tree: &Tree) -> Result<Store, AllocError>
    ensures { IfOk result (IsBareStore schema.now tree.now) }
{
    let root = tree.root.table;
    let key = primary_key(alloc, schema, root)?;
    let foreign = foreign_key(alloc, schema, root)?;
    let mut store = Store::new(alloc, root, key, foreign)?;
    for number in 0..tree.children.len() {
        add_table(alloc, schema, tree, number, &mut store)?;
    }
    Ok(store)
}

// The store gets the child table of this number.
fn add_table(
    alloc: Global,
    schema: &[TableDef],
    tree: &Tree,
    number: usize,
    store: &mut Store,
) -> Result<(), AllocError>
    requires within { number < length tree.now.children }
    requires part { IsPartFor schema.now tree.now number store.old }
    ensures { OnOk result (IsPartFor schema.now tree.now (number + 1) store.new) }
{
    let child = &tree.children.as_slice()[number];
    let parent = child.parent;
    let key = primary_key(alloc, schema, child.table)?;
    let foreign = foreign_key(alloc, schema, child.table)?;
    match tree.table_of(parent) {
        Some(above)
            if parent <= number && !foreign.is_empty() && foreign.len() == key_len(schema, above) =>
            { store.add_child(alloc, child.table, key, foreign, parent) }
        _ => Err(AllocError),
    }
}

// The columns of a table's primary key.
fn primary_key(alloc: Global, schema: &[TableDef], table: TableId) -> Result<Seq<usize>, AllocError>
    ensures { IfOk result (λ columns. columns ≡ primary_of schema.now table) }
{
    match schema.get(table.0 as usize) {
        None => Ok(Seq::new(alloc)),
        Some(def) => copied_places(alloc, def.primary_key.as_slice()),
    }
}

// How many these are.
fn key_len(schema: &[TableDef], table: TableId) -> usize
    ensures { result ≡ length (primary_of schema.now table) }
{
    match schema.get(table.0 as usize) {
        None => 0,
        Some(def) => def.primary_key.len(),
    }
}

// The columns of a table's foreign key, where it has one.
fn foreign_key(alloc: Global, schema: &[TableDef], table: TableId) -> Result<Seq<usize>, AllocError>
    ensures { IfOk result (λ columns. columns ≡ foreign_key_of schema.now table) }
{
    match schema.get(table.0 as usize) {
        None => Ok(Seq::new(alloc)),
        Some(def) => match &def.foreign_key {
            None => Ok(Seq::new(alloc)),
            Some(foreign) => copied_places(alloc, foreign.columns.as_slice()),
        },
    }
}
