//! LOAD and REFRESH of a writethrough group, behind the rules that refuse them and the round that comes first.

ghost use Rattle.std.specs.Prelude.{◌≡◌, ◌<◌, ◌∷◌, IfOk, Some, false, length, map, option_copied, slice_get, true};
ghost use Rattle.instances.specs.declared.tree.Child.{Child as OneChild};
ghost use Rattle.cache_tier.specs.Groups.{is_writethrough};
ghost use Rattle.cache_tier.specs.Targets.{Target};
ghost use Rattle.group_engine.specs.Putting.{FillsAt, HasPlaceFor, GathersAt};
ghost use Rattle.stored_tier.specs.Performing.{IsCalm, IsCausedOver, reply_of};
ghost use Rattle.stored_tier.specs.Stored.{IsSound};
ghost use Rattle.group_catalog.specs.Catalogs.{groups_in};
ghost use Rattle.group_engine.specs.Loaded.{IsReadyToLoad};
ghost use Rattle.group_engine.specs.Ready.{IsPlacedReady};
ghost use Rattle.group_engine.specs.Touching.{IsTouchedAt};
ghost use Rattle.group_engine.specs.Taking.{AsksTree, IsOfTarget, IsSettledAt, MayTake, JudgesFull, PerformsWhere, ReadsMatching, TakesMatching};

use crate::loading_whole::ready_to_load;
use crate::ready::{Ready, answer_behind, slot_is_full};
use crate::touching::refresh_held;
use cache_tier::reply::Reply;
use group_catalog::ResolvedWhich;
use group_store::Store;
use instances::Tree;
use outside::Site;
use row_types::{Refused, Row};
use std::alloc::{AllocError, Global};
use stored_tier::gathering::{Gathered, fill, gather};
use stored_tier::refreshing::is_read_only;
use stored_tier::tier::Tier;
use table_state::Tables;
use tier_base::{Seq, TableId};
use tier_journal::TierJournal;
use tier_statements::{bank_fault, done};

/// The writethrough group at a place gains the instances that match, of one snapshot; its flag is set, which is flushed
/// where it is new. Nothing is unsettled. The reply tells how many came, or for a refresh how many match.
///
/// It is 120 where the condition is so on some backing root, then 119 where the journal has no room, 201 where the
/// bank's call failed, and 202 where one of the journal's disk did; or memory was wanting.
pub(crate) fn load_written<P: Site>(
    tier: &mut Tier,
    alloc: Global,
    site: &mut P,
    journal: &mut Option<TierJournal>,
    place: usize,
    which: &ResolvedWhich,
    refreshes: bool,
) -> Result<Reply, Refused>
    requires sound { IsSound tier.old }
    ensures reads { (x : Target) → IsOfTarget x place which.now → is_writethrough x.group ≡ true
        → PerformsWhere (IsSettledAt place x.group) P.Disk.state P.Disk.possible tier.old tier.new
        journal.old journal.new site.old site.new (Some (reply_of result))
        (λ w w'. ReadsMatching refreshes x w w' (reply_of result)) }
    ensures sound { IsSound tier.new }
    ensures cause { IsCausedOver journal.old (P.Disk.state site.old) (P.Disk.state site.new) (reply_of result) }
{
    match ready_to_load(&tier.catalog, alloc, journal, place) {
        Err(refused) => Err(refused),
        Ok(ready) => {
            if is_touched(tier, place, refreshes) {
                return refresh_held(tier, alloc, site, journal, place, which, &ready);
            }
            load_matching(tier, alloc, site, journal, place, which, refreshes, &ready)
        }
    }
}

// The same where the record of the flag was made ready.
fn load_matching<P: Site>(
    tier: &mut Tier,
    alloc: Global,
    site: &mut P,
    journal: &mut Option<TierJournal>,
    place: usize,
    which: &ResolvedWhich,
    refreshes: bool,
    ready: &Ready,
) -> Result<Reply, Refused>
    requires sound { IsSound tier.old }
    requires may { MayTake tier.old place refreshes }
    requires ready { IsReadyToLoad (groups_in tier.old.catalog) journal.old place ready.now }
    requires placed { IsPlacedReady journal.old ready.now }
    ensures reads { (x : Target) → IsOfTarget x place which.now → is_writethrough x.group ≡ true
        → PerformsWhere (IsSettledAt place x.group) P.Disk.state P.Disk.possible tier.old tier.new
        journal.old journal.new site.old site.new (Some (reply_of result))
        (λ w w'. ReadsMatching refreshes x w w' (reply_of result)) }
    ensures sound { IsSound tier.new }
    ensures cause { IsCausedOver journal.old (P.Disk.state site.old) (P.Disk.state site.new) (reply_of result) }
{
    match tables_of_tree(tier, alloc, place) {
        Err(_) => Err(Refused::Memory),
        Ok(asked) => match site.snapshot(asked.as_slice()) {
            Err(error) => Ok(bank_fault(alloc, error)),
            Ok(snapshot) => {
                if ready.is_full() {
                    return judge_full(tier, alloc, place, which, refreshes, &snapshot.tables);
                }
                match take_matching(tier, alloc, place, which, refreshes, &snapshot.tables) {
                    Err(refused) => Err(refused),
                    Ok(reply) => Ok(answer_behind(alloc, site, journal, ready, reply)),
                }
            }
        },
    }
}

// 120 of the condition, and then 119 of the journal.
fn judge_full(
    tier: &Tier,
    alloc: Global,
    place: usize,
    which: &ResolvedWhich,
    refreshes: bool,
    tables: &Tables,
) -> Result<Reply, Refused>
    ensures judges { JudgesFull tier.now place which.now tables.now result }
    ensures calm { IsCalm (reply_of result) }
{
    match gather_at(tier, alloc, place, which, refreshes, tables) {
        Err(refused) => Err(refused),
        Ok(gathered) => {
            let _ = gathered;
            Ok(slot_is_full(alloc))
        }
    }
}

// Whether it is REFRESH of a group that is dynamic.
fn is_touched(tier: &Tier, place: usize, refreshes: bool) -> bool
    ensures touched { result ≡ true → IsTouchedAt tier.now place × (refreshes ≡ true)
        × (place < length (groups_in tier.now.catalog)) }
    ensures taken { result ≡ false → MayTake tier.now place refreshes }
{
    match tier.catalog.get(place) {
        None => false,
        Some(group) => refreshes && group.def.dynamic,
    }
}

/// The tables of the group at a place. It fails for want of memory alone.
pub fn tables_of_tree(tier: &Tier, alloc: Global, place: usize) -> Result<Vec<TableId>, Refused>
    ensures { IfOk result (λ asked. AsksTree tier.now place asked.items) }
{
    match tier.catalog.get(place) {
        None => Err(Refused::Memory),
        Some(group) => Ok(tree_tables(alloc, &group.def.tree)?),
    }
}

/// The writethrough group at a place takes in what matches of these tables, and is loaded; all memory comes first. The
/// reply tells how many came, or for a refresh how many match.
///
/// It is 120 where the condition is so on some root row of the tables; or memory was wanting.
pub fn take_matching(
    tier: &mut Tier,
    alloc: Global,
    place: usize,
    which: &ResolvedWhich,
    refreshes: bool,
    tables: &Tables,
) -> Result<Reply, Refused>
    requires { IsSound tier.old }
    ensures { TakesMatching tier.old tier.new place which.now refreshes tables.now result }
{
    match gather_at(tier, alloc, place, which, refreshes, tables) {
        Err(refused) => Err(refused),
        Ok(gathered) => {
            let count = gathered.count;
            match fill_at(alloc, &mut tier.stores, place, gathered.into_rows()) {
                Err(_) => Err(Refused::Memory),
                Ok(()) => {
                    tier.catalog.with_loaded(place, true);
                    tier.verified = false;
                    Ok(done(alloc, count))
                }
            }
        }
    }
}

// What the group at a place takes from these tables.
fn gather_at(
    tier: &Tier,
    alloc: Global,
    place: usize,
    which: &ResolvedWhich,
    refreshes: bool,
    tables: &Tables,
) -> Result<Gathered, Refused>
    ensures { GathersAt tier.now place which.now refreshes tables.now result }
{
    match tier.catalog.get(place) {
        None => Err(Refused::Memory),
        Some(group) => {
            if is_read_only(group) {
                return Err(Refused::Memory);
            }
            match store_at(tier.stores.as_slice(), place) {
                None => Err(Refused::Memory),
                Some(store) => {
                    store.keys_law();
                    gather(alloc, tables, &group.def.tree, store, which, refreshes)
                }
            }
        }
    }
}

// The tables of a tree, the root's first.
fn tree_tables(alloc: Global, tree: &Tree) -> Result<Vec<TableId>, AllocError>
    ensures { IfOk result (λ tables. tables.items
        ≡ tree.now.root.table ∷ map (λ (c : OneChild). c.table) tree.now.children) }
{
    let mut tables = Vec::new(alloc);
    tables.push(tree.root.table)?;
    for child in tree.children.as_slice() {
        tables.push(child.table)?;
    }
    Ok(tables)
}

fn store_at(stores: &[Store], place: usize) -> Option<&Store>
    ensures { option_copied result ≡ slice_get stores.now place }
{
    stores.get(place)
}

// Puts these rows into the store at a place, all memory first.
fn fill_at(
    alloc: Global,
    stores: &mut Vec<Store>,
    place: usize,
    rows: Seq<Seq<Row>>,
) -> Result<(), Refused>
    requires { HasPlaceFor place rows stores.old.items }
    ensures { FillsAt place rows stores.old.items stores.new.items result }
{
    if place < stores.len() {
        fill(alloc, &mut stores[place], rows)
    } else {
        Err(Refused::Memory)
    }
}
