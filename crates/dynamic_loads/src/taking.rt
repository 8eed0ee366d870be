//! An instance that the bank told, in the store of a writethrough group.

ghost use Rattle.std.specs.Prelude.{◌≡◌, ◌≤◌, ◌+◌, IfOk, IsTrue, length, map};
ghost use Rattle.std.specs.FinMap as finite;
ghost use Rattle.group_catalog.specs.Kept.{group_seen};
ghost use Rattle.stored_tier.specs.Stored.{IsSound, IsVerified};
ghost use Rattle.group_engine.specs.OfAgingCycles.Fitting.{AreFit};
ghost use Rattle.dynamic_loads.specs.Taking.{FillsAt, HasPlaceFor, MayPut, PutsRows, TakesReached, TakesWhere, is_viewed};

use group_catalog::KeptGroup;
use group_engine::{are_fit, confirm, kept_rows_law};
use group_store::Store;
use indexed_rows::Rows;
use instances::Tree;
use outside::{Instance, Reached};
use row_types::Row;
use std::alloc::{AllocError, Global};
use stored_tier::filling::exceeds;
use stored_tier::gathering::fill;
use stored_tier::refreshing::is_read_only;
use stored_tier::tier::Tier;
use tier_base::Seq;

/// The instance that was reached comes to the writethrough group at a place, where its root row is there and past the
/// group's horizon. It is the newest where the group doesn't have it.
///
/// It fails for want of memory, and where the place has no such group or the bank told more tables than it has.
pub(crate) fn take_reached(
    tier: &mut Tier,
    alloc: Global,
    place: usize,
    reached: &Reached,
) -> Result<(), AllocError>
    requires { IsSound tier.old }
    ensures { TakesReached tier.old tier.new place reached.now.instance result }
{
    match &reached.instance {
        None => Ok(()),
        Some(instance) => take_instance(tier, alloc, place, instance),
    }
}

// The instance comes to the writethrough group at a place, where it is in its view.
fn take_instance(
    tier: &mut Tier,
    alloc: Global,
    place: usize,
    instance: &Instance,
) -> Result<(), AllocError>
    requires { IsSound tier.old }
    ensures { TakesWhere tier.old tier.new place instance.now result }
{
    match tier.catalog.get(place) {
        None => Err(AllocError),
        Some(group) => {
            if is_read_only(group) {
                return Err(AllocError);
            }
            if !is_viewed(group, instance) {
                return Ok(());
            }
            if !fits(&group.def.tree, instance.rows.as_slice()) {
                return Err(AllocError);
            }
            let tables = instance.rows.as_slice();
            let known = is_known(tier, &group.def.tree, tables);
            match listed(alloc, tables) {
                Err(error) => Err(error),
                Ok(rows) => put_rows(tier, alloc, place, rows, known),
            }
        }
    }
}

// Whether sessions may read over the stored rows, and these fit the tables of a tree.
fn is_known(tier: &Tier, tree: &Tree, tables: &[Rows]) -> bool
    requires { IsSound tier.now }
    ensures verified { IsTrue result → IsVerified tier.now }
    ensures fit { IsTrue result → AreFit tier.now.schema tree.now tables.now }
{
    tier.verified && are_fit(&tier.schema, tree, tables)
}

// These rows come to the writethrough group at a place. Where it is known that they fit, and sessions might read
// before, it is found out whether they still may.
fn put_rows(
    tier: &mut Tier,
    alloc: Global,
    place: usize,
    rows: Seq<Seq<Row>>,
    known: bool,
) -> Result<(), AllocError>
    requires sound { IsSound tier.old }
    requires may { MayPut tier.old place rows known }
    ensures { PutsRows tier.old tier.new place rows result }
{
    kept_rows_law();
    tier.verified = false;
    match fill_at(alloc, &mut tier.stores, place, rows) {
        Err(error) => Err(error),
        Ok(()) => {
            if known {
                confirm(tier, alloc);
            }
            Ok(())
        }
    }
}

// Whether the instance has its root row, which is past the group's horizon.
fn is_viewed(group: &KeptGroup, instance: &Instance) -> bool
    ensures { result ≡ is_viewed (group_seen group.now) instance.now }
{
    match instance.rows.get(0) {
        None => false,
        Some(rows) => match rows.get(&instance.root) {
            None => false,
            Some(row) => exceeds(group, row),
        },
    }
}

// Whether there are no more tables than the tree has.
fn fits(tree: &Tree, tables: &[Rows]) -> bool
    ensures { IsTrue result → length tables.now ≤ length tree.now.children + 1 }
{
    match tables.split_first() {
        None => true,
        Some((_, others)) => others.len() <= tree.children.len(),
    }
}

// The rows of each of these tables, in key order.
fn listed(alloc: Global, tables: &[Rows]) -> Result<Seq<Seq<Row>>, AllocError>
    ensures { IfOk result (λ lists. lists ≡ map finite.values tables.now) }
{
    let mut lists = Vec::new(alloc);
    for rows in tables {
        let list = listed_rows(alloc, rows)?;
        lists.push(list)?;
    }
    Ok(Seq::from_vec(lists))
}

fn listed_rows(alloc: Global, rows: &Rows) -> Result<Seq<Row>, AllocError>
    ensures { IfOk result (λ list. list ≡ finite.values rows.now) }
{
    let mut list = Vec::with_capacity(alloc, rows.len())?;
    for place in 0..rows.len() {
        let row = rows.row_at(place).copied(alloc)?;
        list.push(row)?;
    }
    Ok(Seq::from_vec(list))
}

// Puts these rows into the store at a place, all memory first.
fn fill_at(
    alloc: Global,
    stores: &mut Vec<Store>,
    place: usize,
    rows: Seq<Seq<Row>>,
) -> Result<(), AllocError>
    requires { HasPlaceFor place rows stores.old.items }
    ensures { FillsAt place rows stores.old.items stores.new.items result }
{
    if place < stores.len() {
        stores[place].keys_law();
        match fill(alloc, &mut stores[place], rows) {
            Err(_) => Err(AllocError),
            Ok(()) => Ok(()),
        }
    } else {
        Err(AllocError)
    }
}
