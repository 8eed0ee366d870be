//! UNLOAD of a READONLY group that hides instances: it is dynamic, and they leave by time.

ghost use Rattle.std.specs.Prelude.{◌≡◌, ◌<◌, Bool, IfOk, OnErr, length, slice_get, true};
ghost use Rattle.tier_base.specs.declared.number.SessionId.{SessionId as OneId};
ghost use Rattle.group_catalog.specs.Catalogs.{groups_in};
ghost use Rattle.stored_tier.specs.Grouping.{KeepsGroups};
ghost use Rattle.stored_tier.specs.Performing.{IsCausedOver, reply_of};
ghost use Rattle.stored_tier.specs.Stored.{IsSound};
ghost use Rattle.group_engine.specs.Ready.{IsPlacedReady};
ghost use Rattle.group_engine.specs.Unloading.{UnloadsReady, leaving};
ghost use Rattle.group_engine.specs.UnloadHidden.{AreCutAt, AreCutBy, AreOut, IsCutHiding, hides_some};
ghost use Rattle.group_engine.specs.UnloadNamed.{FitsUnder};

use crate::aiming::Aim;
use crate::ready::{Ready, answer_behind, slot_is_full};
use crate::unload_kept::hide_kept;
use crate::unload_named::{is_match, leaving, named_key, only_if};
use crate::unloading::{cut_all, judge_roots};
use cache_tier::reply::Reply;
use group_catalog::ResolvedWhich;
use group_store::Store;
use group_store::laws::drop_instance_law;
use indexed_rows::key_at;
use outside::Site;
use row_types::{Key, Refused};
use slot_rows::SlotRows;
use std::alloc::{AllocError, Global};
use stored_tier::filling::hides_keys;
use stored_tier::tier::Tier;
use table_defs::TableDef;
use tier_journal::TierJournal;
use tier_statements::done;

/// The instances that match leave of the READONLY group at a place, where it hides some, and those of them that it
/// hides; or 120 of the condition on a root row that is shown, then 119. The reply tells how many were shown. Else, and
/// where memory was wanting, want of memory is told, and all stays. No session writes in it, and it has no flag.
pub(crate) fn unload_hidden<P: Site>(
    tier: &mut Tier,
    alloc: Global,
    site: &mut P,
    journal: &mut Option<TierJournal>,
    aim: &Aim,
    ready: &Ready,
) -> Result<Reply, Refused>
    requires sound { IsSound tier.old }
    requires kind { aim.now.read_only ≡ true }
    requires placed { IsPlacedReady journal.old ready.now }
    ensures performs { (id : OneId) (all : Bool) → UnloadsReady P.Disk.state P.Disk.possible tier.old tier.new
        journal.old journal.new site.old site.new ready.now id aim.now all (reply_of result) }
    ensures sound { IsSound tier.new }
    ensures cause { IsCausedOver journal.old (P.Disk.state site.old) (P.Disk.state site.new) (reply_of result) }
{
    if !hides_some(tier, aim.place) {
        return Err(Refused::Memory);
    }
    match judge_roots(tier, aim) {
        Err(refused) => Err(refused),
        Ok(()) => {
            if ready.is_full() {
                return Ok(slot_is_full(alloc));
            }
            drop_instance_law();
            match hide_kept(tier, alloc, aim) {
                Err(AllocError) => Err(Refused::Memory),
                Ok(count) => {
                    Ok(answer_behind(alloc, site, journal, ready, done(alloc, count as u64)))
                }
            }
        }
    }
}

// Whether the group at a place hides instances.
fn hides_some(tier: &Tier, place: usize) -> bool
    ensures { result ≡ hides_some (slice_get (groups_in tier.now.catalog) place) }
{
    match tier.catalog.get(place) {
        None => false,
        Some(group) => hides_keys(group),
    }
}

/// The instances that match leave the store of the group, and the hidden root rows that do; how many were shown. It
/// fails for want of memory alone, and all then stays.
pub(crate) fn cut_hiding(tier: &mut Tier, alloc: Global, aim: &Aim) -> Result<usize, AllocError>
    ensures ok { IfOk result (IsCutHiding tier.old tier.new aim.now) }
    ensures err { OnErr result (KeepsGroups tier.old tier.new) }
{
    let place = aim.place;
    match tier.catalog.get(place) {
        None => Err(AllocError),
        Some(group) => match tier.schema.get(group.def.tree.root.table.0 as usize) {
            None => Err(AllocError),
            Some(def) => {
                if place >= tier.stores.len() || place >= tier.hidden.len() {
                    return Err(AllocError);
                }
                match cut_at(
                    alloc,
                    &mut tier.stores,
                    &mut tier.hidden,
                    place,
                    def,
                    &aim.which,
                ) {
                    Err(AllocError) => Err(AllocError),
                    Ok(count) => {
                        tier.verified = false;
                        Ok(count)
                    }
                }
            }
        },
    }
}

// The same of the store and the hidden rows at a place.
fn cut_at(
    alloc: Global,
    stores: &mut Vec<Store>,
    hidden: &mut Vec<SlotRows>,
    place: usize,
    def: &TableDef,
    which: &ResolvedWhich,
) -> Result<usize, AllocError>
    requires stores { place < length stores.old.items }
    requires hidden { place < length hidden.old.items }
    ensures ok { IfOk result (AreCutAt (FitsUnder def.now) place def.now.primary_key which.now
        stores.old.items hidden.old.items stores.new.items hidden.new.items) }
    ensures err { OnErr result
        ((stores.new.items ≡ stores.old.items) × (hidden.new.items ≡ hidden.old.items)) }
{
    cut_both(alloc, &mut stores[place], &mut hidden[place], def, which)
}

fn cut_both(
    alloc: Global,
    store: &mut Store,
    hidden: &mut SlotRows,
    def: &TableDef,
    which: &ResolvedWhich,
) -> Result<usize, AllocError>
    ensures ok { IfOk result (AreCutBy (FitsUnder def.now) which.now def.now.primary_key
        store.old store.new hidden.old hidden.new) }
    ensures err { OnErr result ((store.new ≡ store.old) × (hidden.new ≡ hidden.old)) }
{
    let keys = leaving(alloc, store, def, which)?;
    let others = leaving_hidden(alloc, hidden, def, which)?;
    store.keys_law();
    let _ = hidden.len();
    cut_all(store, keys.as_slice());
    take_out(hidden, others.as_slice());
    Ok(keys.len())
}

// The keys of the hidden root rows that match. Where WITH ID tells the only one that may, it is looked up.
fn leaving_hidden(
    alloc: Global,
    hidden: &SlotRows,
    def: &TableDef,
    which: &ResolvedWhich,
) -> Result<Vec<Key>, AllocError>
    ensures { IfOk result (λ keys. FitsUnder def.now hidden.now.table
        → keys.items ≡ leaving which.now def.now.primary_key hidden.now.table) }
{
    match named_key(alloc, def, which)? {
        None => all_hidden(alloc, hidden, def.primary_key.as_slice(), which),
        Some(key) => {
            let matches = is_match(which, hidden.get(key.values()), &key);
            only_if(alloc, matches, key)
        }
    }
}

// The same by a look at each hidden root row.
fn all_hidden(
    alloc: Global,
    hidden: &SlotRows,
    columns: &[usize],
    which: &ResolvedWhich,
) -> Result<Vec<Key>, AllocError>
    ensures { IfOk result (λ keys. keys.items ≡ leaving which.now columns.now hidden.now.table) }
{
    let mut keys = Vec::new(alloc);
    for place in 0..hidden.len() {
        match hidden.row_at(place) {
            None => {}
            Some(row) => {
                let key = key_at(alloc, columns, row)?;
                if which.matches(row, &key) {
                    keys.push(key)?;
                }
            }
        }
    }
    Ok(keys)
}

// The hidden root rows of these keys are taken out. It takes no memory.
fn take_out(hidden: &mut SlotRows, keys: &[Key])
    ensures { AreOut keys.now hidden.old hidden.new }
{
    for key in keys {
        let _ = hidden.remove(key.values());
    }
}
