//! REFRESH of a dynamic writethrough group.

ghost use Rattle.std.specs.Prelude.{◌≡◌, ◌<◌, Some, length, true};
ghost use Rattle.std.specs.FinMap.{len};
ghost use Rattle.cache_tier.specs.Groups.{is_writethrough};
ghost use Rattle.cache_tier.specs.Targets.{Target};
ghost use Rattle.group_catalog.specs.Catalogs.{groups_in};
ghost use Rattle.table_state.specs.Tables.{table_at};
ghost use Rattle.stored_tier.specs.Choosing.{chosen};
ghost use Rattle.stored_tier.specs.Performing.{IsCausedOver, reply_of};
ghost use Rattle.stored_tier.specs.Stored.{IsSound};
ghost use Rattle.group_engine.specs.Gaining.{any_bad};
ghost use Rattle.group_engine.specs.Loaded.{IsReadyToLoad};
ghost use Rattle.group_engine.specs.Ready.{IsPlacedReady};
ghost use Rattle.group_engine.specs.Taking.{IsOfTarget, IsSettledAt, PerformsWhere, ReadsMatching};
ghost use Rattle.group_engine.specs.Touching.{CountsHeld, IsTouchedAt, TellsHeldOverflow, is_held_bad, is_held_match};

use crate::gaining::{hidden_at, is_held, store_at};
use crate::loading_dynamic::overflow;
use crate::loading_written::tables_of_tree;
use crate::ready::{Ready, answer_behind, slot_is_full};
use cache_tier::reply::Reply;
use group_catalog::ResolvedWhich;
use group_store::Store;
use indexed_rows::Rows;
use outside::Site;
use row_types::{Key, Refused, Row};
use slot_rows::SlotRows;
use std::alloc::Global;
use stored_tier::tier::Tier;
use table_state::Tables;
use tier_base::TableId;
use tier_journal::TierJournal;
use tier_statements::{bank_fault, done};

/// REFRESH of the dynamic writethrough group at a place, where nothing is unsettled: it keeps its instances, and its
/// flag is set, which is flushed where it is new. The reply tells how many of its instances match in one snapshot.
///
/// It is 120 where the condition is so on the root row of an instance that it has, then 119 where the journal has no
/// room, 201 where the bank's call failed, and 202 where one of the journal's disk did; or memory was wanting.
pub(crate) fn refresh_held<P: Site>(
    tier: &mut Tier,
    alloc: Global,
    site: &mut P,
    journal: &mut Option<TierJournal>,
    place: usize,
    which: &ResolvedWhich,
    ready: &Ready,
) -> Result<Reply, Refused>
    requires sound { IsSound tier.old }
    requires dynamic { IsTouchedAt tier.old place }
    requires within { place < length (groups_in tier.old.catalog) }
    requires ready { IsReadyToLoad (groups_in tier.old.catalog) journal.old place ready.now }
    requires placed { IsPlacedReady journal.old ready.now }
    ensures reads { (x : Target) → IsOfTarget x place which.now → is_writethrough x.group ≡ true
        → PerformsWhere (IsSettledAt place x.group) P.Disk.state P.Disk.possible tier.old tier.new
        journal.old journal.new site.old site.new (Some (reply_of result))
        (λ w w'. ReadsMatching true x w w' (reply_of result)) }
    ensures sound { IsSound tier.new }
    ensures cause { IsCausedOver journal.old (P.Disk.state site.old) (P.Disk.state site.new) (reply_of result) }
{
    match tables_of_tree(tier, alloc, place) {
        Err(_) => Err(Refused::Memory),
        Ok(asked) => match site.snapshot(asked.as_slice()) {
            Err(error) => Ok(bank_fault(alloc, error)),
            Ok(snapshot) => {
                if held_overflows_at(tier, place, which, &snapshot.tables) {
                    return Err(Refused::Rule(overflow()));
                }
                if ready.is_full() {
                    return Ok(slot_is_full(alloc));
                }
                let reply = done(alloc, count_held_at(tier, place, which, &snapshot.tables));
                tier.catalog.with_loaded(place, true);
                Ok(answer_behind(alloc, site, journal, ready, reply))
            }
        },
    }
}

// Whether the condition is 120 on a root row of these tables whose instance the group at a place has.
fn held_overflows_at(tier: &Tier, place: usize, which: &ResolvedWhich, tables: &Tables) -> bool
    ensures { TellsHeldOverflow tier.now place which.now tables.now result }
{
    match tier.catalog.get(place) {
        None => false,
        Some(group) => match store_at(tier, place) {
            None => false,
            Some(store) => match hidden_at(tier, place) {
                None => false,
                Some(hidden) => {
                    store.keys_law();
                    any_held_bad(group.def.tree.root.table, store, hidden, which, tables)
                }
            },
        },
    }
}

fn any_held_bad(
    table: TableId,
    store: &Store,
    hidden: &SlotRows,
    which: &ResolvedWhich,
    tables: &Tables,
) -> bool
    ensures { result
        ≡ any_bad (is_held_bad which.now store.now hidden.now.table) (table_at tables.now table) }
{
    match tables.table(table) {
        None => false,
        Some(rows) => any_bad_in(rows, store, hidden, which),
    }
}

fn any_bad_in(rows: &Rows, store: &Store, hidden: &SlotRows, which: &ResolvedWhich) -> bool
    ensures { result ≡ any_bad (is_held_bad which.now store.now hidden.now.table) rows.now }
{
    for place in 0..rows.len() {
        let entry = rows.entry_at(place);
        if is_held_bad(store, hidden, which, &entry.0, &entry.1) {
            return true;
        }
    }
    false
}

fn is_held_bad(
    store: &Store,
    hidden: &SlotRows,
    which: &ResolvedWhich,
    key: &Key,
    row: &Row,
) -> bool
    ensures { result ≡ is_held_bad which.now store.now hidden.now.table key.now row.now }
{
    is_held(store, hidden, key) && which.selects(row).is_none()
}

// How many root rows of these tables match whose instances the group at a place has.
fn count_held_at(tier: &Tier, place: usize, which: &ResolvedWhich, tables: &Tables) -> u64
    ensures { CountsHeld tier.now place which.now tables.now result }
{
    match tier.catalog.get(place) {
        None => 0,
        Some(group) => match store_at(tier, place) {
            None => 0,
            Some(store) => match hidden_at(tier, place) {
                None => 0,
                Some(hidden) => {
                    count_held(group.def.tree.root.table, store, hidden, which, tables) as u64
                }
            },
        },
    }
}

fn count_held(
    table: TableId,
    store: &Store,
    hidden: &SlotRows,
    which: &ResolvedWhich,
    tables: &Tables,
) -> usize
    ensures { result
        ≡ len (chosen (is_held_match which.now store.now hidden.now.table) (table_at tables.now table)) }
{
    match tables.table(table) {
        None => 0,
        Some(rows) => count_held_in(rows, store, hidden, which),
    }
}

fn count_held_in(rows: &Rows, store: &Store, hidden: &SlotRows, which: &ResolvedWhich) -> usize
    ensures { result ≡ len (chosen (is_held_match which.now store.now hidden.now.table) rows.now) }
{
    let mut count = 0;
    for place in 0..rows.len() {
        let entry = rows.entry_at(place);
        if is_held_match(store, hidden, which, &entry.0, &entry.1) {
            count += 1;
        }
    }
    count
}

fn is_held_match(
    store: &Store,
    hidden: &SlotRows,
    which: &ResolvedWhich,
    key: &Key,
    row: &Row,
) -> bool
    ensures { result ≡ is_held_match which.now store.now hidden.now.table key.now row.now }
{
    which.matches(row, key) && is_held(store, hidden, key)
}
