//! UNLOAD of cache groups.

ghost use Rattle.std.specs.Prelude.{◌≡◌, ◌==◌, ◌<◌, Bool, IfOk, OnErr, false, length, true};
ghost use Rattle.std.specs.List.{list_all};
ghost use Rattle.std.specs.Option.{option_copied, option_map};
ghost use Rattle.instances.specs.Views.{kept_at};
ghost use Rattle.group_catalog.specs.Kept.{group_seen};
ghost use Rattle.group_store.specs.Stores.{SameButSpare};
ghost use Rattle.sql_subset.specs.declared.stmt.Stmt.TheVariants as statement;
ghost use Rattle.tier_base.specs.declared.number.SessionId.{SessionId as OneId};
ghost use Rattle.table_defs.specs.Declarations.{Tells};
ghost use Rattle.session_state.specs.Kept.{seen_of};
ghost use Rattle.tier_statements.specs.Seen.{session_seen};
ghost use Rattle.cache_tier.specs.Locks.{locked_by};
ghost use Rattle.cache_tier.specs.Conditions.{overflows};
ghost use Rattle.stored_tier.specs.Grouping.{KeepsGroups};
ghost use Rattle.changed_sets.specs.OfAgingCycles.Running.{cut_all};
ghost use Rattle.group_engine.specs.Unloading.{IsClearedAt, IsClearedBy, IsClearedGroup, IsCutAt, IsCutBy, IsCutGroup, IsReadyToLeave, IsWholeAt, UnloadsHere, UnloadsReady, flagged, unload_state, AimsUnloadIn};
ghost use Rattle.group_engine.specs.UnloadLocks.{LocksTold, RootsTold, UnloadTold};
ghost use Rattle.group_engine.specs.UnloadNamed.{FitsUnder};
ghost use Rattle.group_catalog.specs.Catalogs.{groups_in};
ghost use Rattle.tier_journal.specs.Drafts.{StaysKept};
ghost use Rattle.stored_tier.specs.Performing.{Executes, IsCausedOver, PerformsInOver, reply_of};
ghost use Rattle.group_engine.specs.Ready.{IsMemoryOf, IsPlacedReady};
ghost use Rattle.stored_tier.specs.Stored.{IsSound};

use crate::aiming::{Aim, about, aim_by, asks_all, is_read_only, is_whole_only, judge_writes};
use crate::dropping::refuse_locked;
use crate::ready::{Ready, answer_behind, slot_is_full};
use crate::readying::ready_unload;
use crate::unload_kept::{clear_kept, cut_kept};
use crate::unload_listed::unload_listed;
use crate::unload_locks::writer_within;
use crate::unload_named::leaving;
use cache_tier::laws::tier_law;
use cache_tier::reply::Reply;
use cache_tier::unload_statement_law;
use group_catalog::{Catalog, KeptGroup, ResolvedWhich};
use group_store::laws::drop_instance_law;
use group_store::{Shown, Store};
use open_sessions::laws::label_law;
use outside::Site;
use row_types::{Detail, Key, Refused, Rule};
use session_state::Session;
use sql_subset::stmt::{OfGroup, Which};
use std::alloc::{AllocError, Global};
use stored_tier::filling::hides_keys;
use stored_tier::tier::Tier;
use table_defs::TableDef;
use table_state::Op;
use table_state::scan_laws::keyed_law;
use tier_base::{Code, SessionId};
use tier_journal::TierJournal;
use tier_statements::done;

/// UNLOAD CACHE GROUP: the instances that match leave the cache alone. The reply tells how many left.
///
/// The refusal is 112, 103, 115, 122, 104 and 105 in the order of refusals, then 120 of the condition on a shown root,
/// then 111 of an instance in which another session has uncommitted writes, then 119 where the journal has no room; 202
/// where a call of its disk failed, and the run is to end then; or memory was wanting. Where a journal is kept and the
/// flag changes, its record is flushed. (TimesTen SQL Reference, "UNLOAD CACHE GROUP".)
pub fn unload_group<P: Site>(
    tier: &mut Tier,
    alloc: Global,
    site: &mut P,
    journal: &mut Option<TierJournal>,
    id: SessionId,
    unload: &OfGroup,
) -> Result<Reply, Refused>
    requires { IsSound tier.old }
    ensures performs { PerformsInOver P.Disk.state P.Disk.possible tier.old tier.new journal.old journal.new
        site.old site.new id (Executes (statement.Unload unload.now)) result }
    ensures sound { IsSound tier.new }
    ensures cause { IsCausedOver journal.old (P.Disk.state site.old) (P.Disk.state site.new) (reply_of result) }
{
    match aim_unload(tier, alloc, id, unload) {
        Err(refused) => Err(refused),
        Ok(aim) => unload_aimed(
            tier,
            alloc,
            site,
            journal,
            id,
            &aim,
            asks_all(&unload.which),
        ),
    }
}

// The instances that match leave; or 120, then 111, then 119. The record of the flag is made ready first.
fn unload_aimed<P: Site>(
    tier: &mut Tier,
    alloc: Global,
    site: &mut P,
    journal: &mut Option<TierJournal>,
    id: SessionId,
    aim: &Aim,
    all: bool,
) -> Result<Reply, Refused>
    requires { IsSound tier.old }
    ensures performs { UnloadsHere P.Disk.state P.Disk.possible tier.old tier.new journal.old journal.new
        site.old site.new id aim.now all (reply_of result) }
    ensures sound { IsSound tier.new }
    ensures cause { IsCausedOver journal.old (P.Disk.state site.old) (P.Disk.state site.new) (reply_of result) }
{
    match ready_to_leave(&tier.catalog, alloc, journal, aim.place, all) {
        Err(refused) => Err(refused),
        Ok(ready) => {
            if aim.read_only {
                unload_whole(tier, alloc, site, journal, aim, &ready)
            } else {
                unload_matching(tier, alloc, site, journal, id, aim, all, &ready)
            }
        }
    }
}

// What is made ready for the group at a place, whose instances leave. It fails for want of memory alone.
fn ready_to_leave(
    catalog: &Catalog,
    alloc: Global,
    journal: &mut Option<TierJournal>,
    place: usize,
    all: bool,
) -> Result<Ready, Refused>
    ensures ready { IfOk result (λ ready. IsReadyToLeave (groups_in catalog.now) journal.new place all ready) }
    ensures placed { IfOk result (λ ready. IsPlacedReady journal.new ready) }
    ensures kept { StaysKept journal.old journal.new }
    ensures memory { IsMemoryOf result }
{
    match catalog.get(place) {
        None => Err(Refused::Memory),
        Some(group) => match ready_unload(alloc, journal, group, all) {
            Err(AllocError) => Err(Refused::Memory),
            Ok(ready) => Ok(ready),
        },
    }
}

// The instances of a writethrough group that match leave; or 120, then 111, then 119.
fn unload_matching<P: Site>(
    tier: &mut Tier,
    alloc: Global,
    site: &mut P,
    journal: &mut Option<TierJournal>,
    id: SessionId,
    aim: &Aim,
    all: bool,
    ready: &Ready,
) -> Result<Reply, Refused>
    requires sound { IsSound tier.old }
    requires kind { aim.now.read_only ≡ false }
    requires placed { IsPlacedReady journal.old ready.now }
    ensures performs { UnloadsReady P.Disk.state P.Disk.possible tier.old tier.new journal.old journal.new
        site.old site.new ready.now id aim.now all (reply_of result) }
    ensures sound { IsSound tier.new }
    ensures cause { IsCausedOver journal.old (P.Disk.state site.old) (P.Disk.state site.new) (reply_of result) }
{
    drop_instance_law();
    unload_statement_law();
    match judge_instances(tier, alloc, id, aim) {
        Err(refused) => Err(refused),
        Ok(()) => {
            if ready.is_full() {
                return Ok(slot_is_full(alloc));
            }
            match cut_kept(tier, alloc, aim, all) {
                Err(AllocError) => Err(Refused::Memory),
                Ok(count) => {
                    Ok(answer_behind(alloc, site, journal, ready, done(alloc, count as u64)))
                }
            }
        }
    }
}

// Instances of a READONLY group leave, or 119: all of an explicit one, of a dynamic one those that match.
fn unload_whole<P: Site>(
    tier: &mut Tier,
    alloc: Global,
    site: &mut P,
    journal: &mut Option<TierJournal>,
    aim: &Aim,
    ready: &Ready,
) -> Result<Reply, Refused>
    requires sound { IsSound tier.old }
    requires kind { aim.now.read_only ≡ true }
    requires placed { IsPlacedReady journal.old ready.now }
    ensures performs { (id : OneId) (all : Bool) → UnloadsReady P.Disk.state P.Disk.possible tier.old tier.new
        journal.old journal.new site.old site.new ready.now id aim.now all (reply_of result) }
    ensures sound { IsSound tier.new }
    ensures cause { IsCausedOver journal.old (P.Disk.state site.old) (P.Disk.state site.new) (reply_of result) }
{
    if is_listed_at(tier, aim.place) {
        return unload_listed(tier, alloc, site, journal, aim, ready);
    }
    if ready.is_full() {
        return Ok(slot_is_full(alloc));
    }
    match clear_kept(tier, alloc, aim.place) {
        Err(AllocError) => Err(Refused::Memory),
        Ok(count) => Ok(answer_behind(alloc, site, journal, ready, done(alloc, count as u64))),
    }
}

// Whether the group at a place is dynamic.
fn is_listed_at(tier: &Tier, place: usize) -> bool
    ensures { result ≡ false → IsWholeAt tier.now place }
{
    match tier.catalog.get(place) {
        None => true,
        Some(group) => group.def.dynamic,
    }
}

// 120 of the condition on a root row; then 111 of another session's uncommitted writes in an instance that matches.
fn judge_instances(tier: &mut Tier, alloc: Global, id: SessionId, aim: &Aim) -> Result<(), Refused>
    requires { IsSound tier.old }
    ensures told { UnloadTold tier.old id aim.now result }
    ensures same { tier.new ≡ record tier.old { verified = tier.new.verified } }
    ensures sound { IsSound tier.new }
{
    tier_law();
    keyed_law();
    label_law();
    match judge_roots(tier, aim) {
        Err(refused) => Err(refused),
        Ok(()) => {
            if have_rested(tier.sessions.as_slice()) {
                return Ok(());
            }
            match tier.verify(alloc) {
                Err(AllocError) => Err(Refused::Memory),
                Ok(()) => judge_locks(tier, alloc, id, aim),
            }
        }
    }
}

/// 120 of the condition on a root row.
pub(crate) fn judge_roots(tier: &Tier, aim: &Aim) -> Result<(), Refused>
    requires { IsSound tier.now }
    ensures { RootsTold tier.now aim.now result }
{
    match tier.stores.get(aim.place) {
        None => Err(Refused::Memory),
        Some(store) => {
            if overflows(store, &aim.which) {
                return Err(Refused::Rule(Rule {
                    code: Code::Overflow,
                    detail: Detail::Nothing,
                }));
            }
            Ok(())
        }
    }
}

// 111: another session has uncommitted writes in an instance that matches.
fn judge_locks(tier: &Tier, alloc: Global, id: SessionId, aim: &Aim) -> Result<(), Refused>
    requires sound { IsSound tier.now }
    requires verified { tier.now.verified ≡ true }
    ensures { LocksTold tier.now id aim.now result }
{
    match tier.catalog.get(aim.place) {
        None => Err(Refused::Memory),
        Some(group) => match tier.stores.get(aim.place) {
            None => Err(Refused::Memory),
            Some(store) => {
                let shown = Shown::new(&tier.schema, tier.stores.as_slice(), &tier.directory);
                let sessions = tier.sessions.as_slice();
                match writer_within(
                    alloc,
                    &shown,
                    &group.def.tree,
                    store,
                    &aim.which,
                    sessions,
                    id,
                ) {
                    Err(AllocError) => Err(Refused::Memory),
                    Ok(found) => refuse_writer(alloc, found),
                }
            }
        },
    }
}

/// The instances of the group that match leave its store; how many. Where all of it is asked for, its flag is cleared.
pub(crate) fn cut_group(
    tier: &mut Tier,
    alloc: Global,
    aim: &Aim,
    all: bool,
) -> Result<usize, AllocError>
    ensures ok { IfOk result (IsCutGroup tier.old tier.new aim.now all) }
    ensures err { OnErr result (KeepsGroups tier.old tier.new) }
{
    let place = aim.place;
    match tier.catalog.get(place) {
        None => Err(AllocError),
        Some(group) => match tier.schema.get(group.def.tree.root.table.0 as usize) {
            None => Err(AllocError),
            Some(def) => {
                if place >= tier.stores.len() || place >= tier.catalog.len() {
                    return Err(AllocError);
                }
                if hides_keys(group) {
                    return Err(AllocError);
                }
                match cut_at(alloc, &mut tier.stores, place, def, &aim.which) {
                    Err(AllocError) => Err(AllocError),
                    Ok(count) => {
                        clear_flag(tier, place, all);
                        Ok(count)
                    }
                }
            }
        },
    }
}

/// All instances of the group at a place leave its store; how many. Its flag is cleared.
pub(crate) fn clear_group(tier: &mut Tier, alloc: Global, place: usize) -> Result<usize, AllocError>
    ensures ok { IfOk result (IsClearedGroup tier.old tier.new place) }
    ensures err { OnErr result (KeepsGroups tier.old tier.new) }
{
    if is_listed_at(tier, place) {
        return Err(AllocError);
    }
    match tier.catalog.get(place) {
        None => Err(AllocError),
        Some(group) => {
            let _ = group;
            if place >= tier.stores.len() || place >= tier.catalog.len() {
                return Err(AllocError);
            }
            let count = clear_at(alloc, &mut tier.stores, place);
            clear_flag(tier, place, true);
            Ok(count)
        }
    }
}

// The flag of the group at a place is cleared, where all of it left; whether writes apply is to be seen.
fn clear_flag(tier: &mut Tier, place: usize, all: bool)
    requires { place < length (groups_in tier.old.catalog) }
    ensures groups { groups_in tier.new.catalog ≡ flagged all place (groups_in tier.old.catalog) }
    ensures same { tier.new ≡ record tier.old { catalog = tier.new.catalog; verified = false } }
{
    if all {
        tier.catalog.with_loaded(place, false);
    }
    tier.verified = false;
}

// What UNLOAD names, where nothing refuses it: 112; 103; 115; 122; 104; 105. Or memory was wanting.
fn aim_unload(tier: &Tier, alloc: Global, id: SessionId, unload: &OfGroup) -> Result<Aim, Refused>
    requires { IsSound tier.now }
    ensures { AimsUnloadIn tier.now id unload.now result }
{
    label_law();
    match tier.catalog.find(&unload.group) {
        None => Err(about(alloc, Code::UnknownGroup, &unload.group)),
        Some(place) => match tier.catalog.get(place) {
            None => Err(Refused::Memory),
            Some(group) => match tier.schema.get(group.def.tree.root.table.0 as usize) {
                None => Err(Refused::Memory),
                Some(def) => {
                    let own = tier.sessions.ops(id);
                    let state = judge_unload(alloc, group, &unload.which, own);
                    aim_by(alloc, def, &unload.which, state, place, is_read_only(group))
                }
            },
        },
    }
}

// 115 of a condition on an explicit READONLY group, then 122.
fn judge_unload(alloc: Global, group: &KeptGroup, which: &Which, own: &[Op]) -> Result<(), Refused>
    ensures { Tells result (unload_state which.now own.now (group_seen group.now)) }
{
    if is_whole_only(group, which) {
        return Err(about(alloc, Code::WrongState, &group.def.name));
    }
    judge_writes(own)
}

// 111 of a session that has written, where there is one.
fn refuse_writer(alloc: Global, found: Option<&Session>) -> Result<(), Refused>
    ensures { Tells result
        (option_map locked_by (option_map session_seen (option_map seen_of (option_copied found.entry)))) }
{
    match found {
        None => Ok(()),
        Some(session) => Err(refuse_locked(alloc, session)),
    }
}

// Whether no session has written.
fn have_rested(sessions: &[Session]) -> bool
    ensures { result ≡ list_all (λ s. length s.ops.items == 0) sessions.now }
{
    sessions.iter().all(|session| session.ops.is_empty())
}

// The same of the store at a place.
fn cut_at(
    alloc: Global,
    stores: &mut Vec<Store>,
    place: usize,
    def: &TableDef,
    which: &ResolvedWhich,
) -> Result<usize, AllocError>
    requires { place < length stores.old.items }
    ensures ok { IfOk result (IsCutAt (FitsUnder def.now) place def.now.primary_key which.now
        stores.old.items stores.new.items) }
    ensures err { OnErr result (stores.new.items ≡ stores.old.items) }
{
    cut_matching(alloc, &mut stores[place], def, which)
}

// The instances leave whose root rows match; how many. It fails for want of memory alone, and all then stays.
fn cut_matching(
    alloc: Global,
    store: &mut Store,
    def: &TableDef,
    which: &ResolvedWhich,
) -> Result<usize, AllocError>
    ensures ok { IfOk result (IsCutBy (FitsUnder def.now) which.now def.now.primary_key store.old store.new) }
    ensures err { OnErr result (store.new ≡ store.old) }
{
    let keys = leaving(alloc, store, def, which)?;
    cut_all(store, keys.as_slice());
    Ok(keys.len())
}

// All instances of the store at a place leave; how many.
fn clear_at(alloc: Global, stores: &mut Vec<Store>, place: usize) -> usize
    requires { place < length stores.old.items }
    ensures { IsClearedAt place stores.old.items stores.new.items result }
{
    clear_store(alloc, &mut stores[place])
}

fn clear_store(alloc: Global, store: &mut Store) -> usize
    ensures { IsClearedBy store.old store.new result }
{
    let count = store.len(0);
    store.clear(alloc);
    count
}

// Whether the condition is 120 on some root row.
fn overflows(store: &Store, which: &ResolvedWhich) -> bool
    ensures { result ≡ overflows which.now.filter (kept_at store.now.tables 0) }
{
    if which.filter.is_none() {
        return false;
    }
    for place in 0..store.len(0) {
        match store.row(0, place) {
            None => {}
            Some(row) => {
                if which.selects(row).is_none() {
                    return true;
                }
            }
        }
    }
    false
}

/// The instances of these root keys leave. It takes no memory.
pub(crate) fn cut_all(store: &mut Store, keys: &[Key])
    ensures { SameButSpare (cut_all keys.now store.old) store.new }
{
    for key in keys {
        store.drop_instance(key);
    }
}
