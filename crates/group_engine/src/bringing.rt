//! The instance that a statement wants of a READONLY group.

ghost use Rattle.std.specs.Prelude.{◌≡◌, ◌<◌, ◌&&◌, IfOk, None, Some, false, length};
ghost use Rattle.std.specs.FinMap.{empty, get};
ghost use Rattle.indexed_rows.specs.Rows.{put_in};
ghost use Rattle.table_state.specs.Tables.{table_at};
ghost use Rattle.cache_tier.specs.Groups.{is_read_only};
ghost use Rattle.cache_tier.specs.Sets.{of_set};
ghost use Rattle.changed_sets.specs.Since.{asked_since};
ghost use Rattle.group_catalog.specs.Catalogs.{groups_in};
ghost use Rattle.group_catalog.specs.Kept.{group_seen};
ghost use Rattle.tier_journal.specs.KeptOver.{DiskIsCaused};
ghost use Rattle.statement_uses.specs.Wanting.{want_seen};
ghost use Rattle.stored_tier.specs.Performing.{IsStopCausedOver, PerformsOver, stop_of};
ghost use Rattle.stored_tier.specs.Refreshing.{IsStateAt, choice_of, is_filled};
ghost use Rattle.stored_tier.specs.Stored.{IsSound};
ghost use Rattle.group_engine.specs.Bringing.{BringsJoined, BringsWhole, FindsRoot, IsBrought, TriesFirst, found_in, found_row};
ghost use Rattle.group_engine.specs.Gaining.{IsSameTier};
ghost use Rattle.group_engine.specs.Loaded.{IsDynamicAt, IsReadyToLoad};
ghost use Rattle.group_engine.specs.Ready.{IsPlacedReady, WritesReady, is_full_ready};

use crate::fresh::{Fresh, show_fresh};
use crate::gaining::{add_copy, hidden_at, is_held, is_past_row, make_gaining, store_at};
use crate::loading_whole::ready_to_load;
use crate::ready::{Ready, flush_ready, slot_is_full};
use cache_tier::reply::Reply;
use changed_sets::reading::read_changed;
use changed_sets::showing::show_changed;
use changed_sets::since::told_since;
use group_catalog::KeptGroup;
use group_store::Store;
use indexed_rows::Rows;
use outside::{Disk, Site};
use row_types::{Key, Row};
use slot_rows::SlotRows;
use sql_subset::stmt::RefreshState;
use statement_uses::{Want, root_of};
use std::alloc::{AllocError, Global};
use stored_tier::refreshing::{
    Chosen, Made, is_off, is_read_only, make_moment, note_moment, tables_read,
};
use stored_tier::tier::Tier;
use table_state::Tables;
use tier_base::{Code, Position};
use tier_journal::TierJournal;
use tier_statements::{bank_fault, faulty};

/// The instance that a statement wants of the dynamic READONLY group at a place is brought in with its whole set, which
/// is refreshed: by what changed since its position, where it has one since which the bank tells that, and else from
/// one snapshot. PAUSED becomes ON, which is flushed. Where the root that the wanted row is reached from isn't there,
/// isn't in the view, or isn't past the horizon, it does all but gain an instance.
///
/// The line ends early with 201 where the bank's call failed; with 119 where the journal has no room; with 202 where a
/// call of its disk failed, after which the run is to end; or memory was wanting, which is also said where the place
/// has no dynamic READONLY group. (TimesTen Cache User's Guide, "Dynamically loading a cache instance"; the set is this
/// project's rule.)
pub fn bring_whole<P: Site>(
    tier: &mut Tier,
    alloc: Global,
    site: &mut P,
    journal: &mut Option<TierJournal>,
    place: usize,
    want: &Want,
) -> Result<(), Reply>
    requires { IsSound tier.old }
    ensures brings { PerformsOver P.Disk.state P.Disk.possible tier.old tier.new journal.old journal.new
        site.old site.new (stop_of result)
        (λ w w'. TriesFirst (BringsWhole place (want_seen want.now)) w w' (stop_of result)) }
    ensures none { journal.old ≡ None → journal.new ≡ None }
    ensures sessions { tier.new.sessions ≡ tier.old.sessions }
    ensures sound { IsSound tier.new }
    ensures cause { IsStopCausedOver journal.old
        (P.Disk.state site.old)
        (P.Disk.state site.new)
        (stop_of result) }
{
    match ready_to_load(&tier.catalog, alloc, journal, place) {
        Err(_) => Err(faulty(alloc, Code::Memory)),
        Ok(ready) => bring_ready(tier, alloc, site, journal, place, want, &ready),
    }
}

// The same where the record of the STATE was made ready.
fn bring_ready<P: Site>(
    tier: &mut Tier,
    alloc: Global,
    site: &mut P,
    journal: &mut Option<TierJournal>,
    place: usize,
    want: &Want,
    ready: &Ready,
) -> Result<(), Reply>
    requires sound { IsSound tier.old }
    requires ready { IsReadyToLoad (groups_in tier.old.catalog) journal.old place ready.now }
    requires placed { IsPlacedReady journal.old ready.now }
    ensures brings { PerformsOver P.Disk.state P.Disk.possible tier.old tier.new journal.old journal.new
        site.old site.new (stop_of result)
        (λ w w'. TriesFirst (BringsWhole place (want_seen want.now)) w w' (stop_of result)) }
    ensures none { journal.old ≡ None → journal.new ≡ None }
    ensures sessions { tier.new.sessions ≡ tier.old.sessions }
    ensures sound { IsSound tier.new }
    ensures cause { IsStopCausedOver journal.old
        (P.Disk.state site.old)
        (P.Disk.state site.new)
        (stop_of result) }
{
    let (state, interval) = match tier.catalog.get(place) {
        None => return Err(faulty(alloc, Code::Memory)),
        Some(group) => {
            if !gains_with_set(group) {
                return Err(faulty(alloc, Code::Memory));
            }
            (group.state, group.def.interval)
        }
    };
    if is_off(state) {
        return bring_joined(
            tier, alloc, site, journal, place, want, interval, ready, state,
        );
    }
    match make_moment(&mut tier.clock.sets, interval) {
        Err(_) => Err(faulty(alloc, Code::Memory)),
        Ok(()) => {
            note_moment(&mut tier.clock.sets, interval, tier.clock.now);
            let state = RefreshState::On;
            bring_joined(
                tier, alloc, site, journal, place, want, interval, ready, state,
            )
        }
    }
}

// Whether a group is READONLY and dynamic.
fn gains_with_set(group: &KeptGroup) -> bool
    ensures { result ≡ (is_read_only (group_seen group.now) && group.now.def.dynamic) }
{
    is_read_only(group) && group.def.dynamic
}

// The same where it is noted that a refresh of the set of this interval is tried; the group's STATE becomes this one.
// The set is refreshed by what changed since its position, where it has one since which the bank tells that; else from
// one snapshot.
fn bring_joined<P: Site>(
    tier: &mut Tier,
    alloc: Global,
    site: &mut P,
    journal: &mut Option<TierJournal>,
    place: usize,
    want: &Want,
    interval: u64,
    ready: &Ready,
    state: RefreshState,
) -> Result<(), Reply>
    requires sound { IsSound tier.old }
    requires within { place < length (groups_in tier.old.catalog) }
    requires state { IsStateAt (groups_in tier.old.catalog) place state }
    requires dynamic { IsDynamicAt (groups_in tier.old.catalog) place }
    requires ready { IsReadyToLoad (groups_in tier.old.catalog) journal.old place ready.now }
    requires placed { IsPlacedReady journal.old ready.now }
    ensures brings { BringsJoined P.Disk.state P.Disk.possible tier.old tier.new journal.old journal.new
        site.old site.new place interval (want_seen want.now) (stop_of result) }
    ensures none { journal.old ≡ None → journal.new ≡ None }
    ensures sessions { tier.new.sessions ≡ tier.old.sessions }
    ensures sound { IsSound tier.new }
    ensures cause { IsStopCausedOver journal.old
        (P.Disk.state site.old)
        (P.Disk.state site.new)
        (stop_of result) }
{
    match told_since(&tier.catalog, site, Chosen::Joined(interval, Some(place))) {
        None => bring_snapshot(
            tier, alloc, site, journal, place, want, interval, ready, state,
        ),
        Some(since) => bring_changed(
            tier, alloc, site, journal, place, want, interval, ready, state, since,
        ),
    }
}

// The same from one snapshot.
fn bring_snapshot<P: Site>(
    tier: &mut Tier,
    alloc: Global,
    site: &mut P,
    journal: &mut Option<TierJournal>,
    place: usize,
    want: &Want,
    interval: u64,
    ready: &Ready,
    state: RefreshState,
) -> Result<(), Reply>
    requires sound { IsSound tier.old }
    requires within { place < length (groups_in tier.old.catalog) }
    requires state { IsStateAt (groups_in tier.old.catalog) place state }
    requires dynamic { IsDynamicAt (groups_in tier.old.catalog) place }
    requires ready { IsReadyToLoad (groups_in tier.old.catalog) journal.old place ready.now }
    requires placed { IsPlacedReady journal.old ready.now }
    ensures brings { BringsJoined P.Disk.state P.Disk.possible tier.old tier.new journal.old journal.new
        site.old site.new place interval (want_seen want.now) (stop_of result) }
    ensures none { journal.old ≡ None → journal.new ≡ None }
    ensures sessions { tier.new.sessions ≡ tier.old.sessions }
    ensures sound { IsSound tier.new }
    ensures cause { IsStopCausedOver journal.old
        (P.Disk.state site.old)
        (P.Disk.state site.new)
        (stop_of result) }
{
    let chosen = Chosen::Joined(interval, Some(place));
    match tables_read(alloc, &tier.catalog, chosen) {
        Err(_) => Err(faulty(alloc, Code::Memory)),
        Ok(asked) => match site.snapshot(asked.as_slice()) {
            Err(error) => Err(bank_fault(alloc, error)),
            Ok(snapshot) => {
                if ready.is_full() {
                    return Err(slot_is_full(alloc));
                }
                match bring_at(tier, alloc, place, want, chosen, &snapshot.tables) {
                    Err(_) => Err(faulty(alloc, Code::Memory)),
                    Ok(made) => {
                        let position = snapshot.position;
                        show_fresh(tier, chosen, Fresh { position, made });
                        tier.catalog.with_state(place, state);
                        flush_kept(alloc, site, journal, ready)
                    }
                }
            }
        },
    }
}

// The same by what changed since the position of the set.
fn bring_changed<P: Site>(
    tier: &mut Tier,
    alloc: Global,
    site: &mut P,
    journal: &mut Option<TierJournal>,
    place: usize,
    want: &Want,
    interval: u64,
    ready: &Ready,
    state: RefreshState,
    since: Position,
) -> Result<(), Reply>
    requires sound { IsSound tier.old }
    requires since { asked_since (of_set interval (Some place)) (groups_in tier.old.catalog) ≡ Some since.0 }
    requires within { place < length (groups_in tier.old.catalog) }
    requires state { IsStateAt (groups_in tier.old.catalog) place state }
    requires dynamic { IsDynamicAt (groups_in tier.old.catalog) place }
    requires ready { IsReadyToLoad (groups_in tier.old.catalog) journal.old place ready.now }
    requires placed { IsPlacedReady journal.old ready.now }
    ensures brings { BringsJoined P.Disk.state P.Disk.possible tier.old tier.new journal.old journal.new
        site.old site.new place interval (want_seen want.now) (stop_of result) }
    ensures none { journal.old ≡ None → journal.new ≡ None }
    ensures sessions { tier.new.sessions ≡ tier.old.sessions }
    ensures sound { IsSound tier.new }
    ensures cause { IsStopCausedOver journal.old
        (P.Disk.state site.old)
        (P.Disk.state site.new)
        (stop_of result) }
{
    let chosen = Chosen::Joined(interval, Some(place));
    match read_changed(tier, alloc, site, chosen, since, place, Some(want)) {
        Err(error) => Err(bank_fault(alloc, error)),
        Ok(changed) => {
            if ready.is_full() {
                return Err(slot_is_full(alloc));
            }
            show_changed(tier, alloc, chosen, changed);
            tier.catalog.with_state(place, state);
            flush_kept(alloc, site, journal, ready)
        }
    }
}

// What was made ready is flushed with the tail before it, where the tier keeps a journal.
fn flush_kept<D: Disk>(
    alloc: Global,
    disk: &mut D,
    journal: &mut Option<TierJournal>,
    ready: &Ready,
) -> Result<(), Reply>
    requires placed { IsPlacedReady journal.old ready.now }
    requires fits { is_full_ready ready.now ≡ false }
    ensures flushes { WritesReady D.state D.possible journal.old journal.new disk.old disk.new ready.now
        (stop_of result) }
    ensures none { journal.old ≡ None → journal.new ≡ None }
    ensures cause { DiskIsCaused journal.old (D.state disk.old) (D.state disk.new) (stop_of result) }
{
    if journal.is_none() {
        return Ok(());
    }
    flush_ready(alloc, disk, journal, ready)
}

// What is made of the chosen groups over these tables, where the group at a place gains the instance that is wanted. It
// fails for want of memory alone.
fn bring_at(
    tier: &mut Tier,
    alloc: Global,
    place: usize,
    want: &Want,
    chosen: Chosen,
    tables: &Tables,
) -> Result<Vec<Option<Made>>, AllocError>
    ensures same { IsSameTier tier.old tier.new }
    ensures brought { IfOk result (λ made. IsBrought tier.old place (want_seen want.now)
        (is_filled (choice_of chosen) (Some place)) tables.now made.items) }
{
    let found = found_at(tier, alloc, place, want, tables)?;
    make_gaining(tier, alloc, chosen, place, &found, tables)
}

// The root row that the group at a place gains.
fn found_at(
    tier: &Tier,
    alloc: Global,
    place: usize,
    want: &Want,
    tables: &Tables,
) -> Result<Rows, AllocError>
    ensures { IfOk result (FindsRoot tier.now place (want_seen want.now) tables.now) }
{
    match tier.catalog.get(place) {
        None => Err(AllocError),
        Some(group) => match store_at(tier, place) {
            None => Err(AllocError),
            Some(store) => match hidden_at(tier, place) {
                None => Err(AllocError),
                Some(hidden) => {
                    store.keys_law();
                    found_in(alloc, group, store, hidden, want, tables)
                }
            },
        },
    }
}

fn found_in(
    alloc: Global,
    group: &KeptGroup,
    store: &Store,
    hidden: &SlotRows,
    want: &Want,
    tables: &Tables,
) -> Result<Rows, AllocError>
    ensures { IfOk result (λ rows. rows
        ≡ found_in (group_seen group.now) store.now hidden.now.table (want_seen want.now) tables.now) }
{
    match root_of(alloc, tables, &group.def.tree, want.table, &want.key)? {
        None => Ok(Rows::new(alloc)),
        Some(key) => found_row(alloc, group, store, hidden, &key, tables),
    }
}

fn found_row(
    alloc: Global,
    group: &KeptGroup,
    store: &Store,
    hidden: &SlotRows,
    key: &Key,
    tables: &Tables,
) -> Result<Rows, AllocError>
    ensures { IfOk result (λ rows. rows
        ≡ found_row (group_seen group.now) store.now hidden.now.table key.now
        (get (table_at tables.now group.now.def.tree.root.table) key.now)) }
{
    match tables.table(group.def.tree.root.table) {
        None => Ok(Rows::new(alloc)),
        Some(rows) => found_among(alloc, rows, group, store, hidden, key),
    }
}

fn found_among(
    alloc: Global,
    rows: &Rows,
    group: &KeptGroup,
    store: &Store,
    hidden: &SlotRows,
    key: &Key,
) -> Result<Rows, AllocError>
    ensures { IfOk result (λ out. out
        ≡ found_row (group_seen group.now) store.now hidden.now.table key.now (get rows.now key.now)) }
{
    match rows.get(key) {
        None => Ok(Rows::new(alloc)),
        Some(row) => {
            if is_past_row(group, row) && !is_held(store, hidden, key) {
                one_row(alloc, key, row)
            } else {
                Ok(Rows::new(alloc))
            }
        }
    }
}

// A copy of one row.
fn one_row(alloc: Global, key: &Key, row: &Row) -> Result<Rows, AllocError>
    ensures { IfOk result (λ rows. rows ≡ put_in empty key.now row.now) }
{
    let mut out = Rows::new(alloc);
    add_copy(alloc, &mut out, key, row)?;
    Ok(out)
}
