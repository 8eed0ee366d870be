//! LOAD and REFRESH of a READONLY group, behind the rules that refuse them.

ghost use Rattle.std.specs.Prelude.{◌≡◌, ◌<◌, IfOk, Some, false, length, slice_get, true};
ghost use Rattle.cache_tier.specs.Groups.{is_read_only};
ghost use Rattle.cache_tier.specs.Sets.{loaded_state};
ghost use Rattle.cache_tier.specs.Targets.{Target};
ghost use Rattle.cache_tier.specs.Worlds.{Tries};
ghost use Rattle.group_catalog.specs.Catalogs.{groups_in};
ghost use Rattle.stored_tier.specs.Refreshing.{IsStateAt, choice_of, roots_kept};
ghost use Rattle.group_engine.specs.Loaded.{IsDynamicAt, IsExplicitAt, IsReadyToLoad, LoadsWhole};
ghost use Rattle.group_engine.specs.Ready.{IsMemoryOf, IsPlacedReady};
ghost use Rattle.tier_journal.specs.Drafts.{StaysKept};
ghost use Rattle.group_engine.specs.Taking.{IsGroupAt, IsOfTarget, LoadsNoted, PerformsWhere, ReadsTried};
ghost use Rattle.stored_tier.specs.Performing.{IsCausedOver, reply_of};
ghost use Rattle.stored_tier.specs.Stored.{IsSound};

use crate::aiming::Aim;
use crate::fresh::{read_fresh, show_fresh};
use crate::loading_dynamic::load_dynamic;
use crate::ready::{Ready, answer_behind, slot_is_full};
use crate::readying::ready_load;
use cache_tier::reply::Reply;
use group_catalog::Catalog;
use outside::Site;
use row_types::Refused;
use sql_subset::stmt::RefreshState;
use std::alloc::{AllocError, Global};
use stored_tier::refreshing::{Chosen, is_off, is_read_only, make_moment, note_moment};
use stored_tier::tier::Tier;
use tier_journal::TierJournal;
use tier_statements::{bank_fault, done};

/// LOAD of the READONLY group that is aimed at, or REFRESH, at one position with its set; PAUSED becomes ON. An
/// explicit one shows its view whole, and the reply tells how many instances it shows; `load_dynamic` says what a
/// dynamic one does. What changes of STATE and flag is flushed.
///
/// It is 120 of a dynamic group's condition; 201 where the bank's call failed, 119 where the journal has no room, 202
/// where a call of its disk failed; or memory was wanting.
pub(crate) fn load_whole<P: Site>(
    tier: &mut Tier,
    alloc: Global,
    site: &mut P,
    journal: &mut Option<TierJournal>,
    aim: &Aim,
    refreshes: bool,
) -> Result<Reply, Refused>
    requires sound { IsSound tier.old }
    ensures reads { (x : Target) → IsOfTarget x aim.now.place aim.now.which → is_read_only x.group ≡ true
        → PerformsWhere (IsGroupAt aim.now.place x.group) P.Disk.state P.Disk.possible tier.old tier.new
        journal.old journal.new site.old site.new (Some (reply_of result))
        (λ w w'. Tries (ReadsTried refreshes x) w w' (reply_of result)) }
    ensures sound { IsSound tier.new }
    ensures cause { IsCausedOver journal.old (P.Disk.state site.old) (P.Disk.state site.new) (reply_of result) }
{
    match ready_to_load(&tier.catalog, alloc, journal, aim.place) {
        Err(refused) => Err(refused),
        Ok(ready) => load_ready(tier, alloc, site, journal, aim, refreshes, &ready),
    }
}

/// What is made ready for the group at a place, which is loaded. It fails for want of memory alone.
pub(crate) fn ready_to_load(
    catalog: &Catalog,
    alloc: Global,
    journal: &mut Option<TierJournal>,
    place: usize,
) -> Result<Ready, Refused>
    ensures ready { IfOk result (λ ready. IsReadyToLoad (groups_in catalog.now) journal.new place ready) }
    ensures placed { IfOk result (λ ready. IsPlacedReady journal.new ready) }
    ensures kept { StaysKept journal.old journal.new }
    ensures memory { IsMemoryOf result }
{
    match catalog.get(place) {
        None => Err(Refused::Memory),
        Some(group) => match ready_load(alloc, journal, group) {
            Err(AllocError) => Err(Refused::Memory),
            Ok(ready) => Ok(ready),
        },
    }
}

// The same where the records were made ready.
fn load_ready<P: Site>(
    tier: &mut Tier,
    alloc: Global,
    site: &mut P,
    journal: &mut Option<TierJournal>,
    aim: &Aim,
    refreshes: bool,
    ready: &Ready,
) -> Result<Reply, Refused>
    requires sound { IsSound tier.old }
    requires ready { IsReadyToLoad (groups_in tier.old.catalog) journal.old aim.now.place ready.now }
    requires placed { IsPlacedReady journal.old ready.now }
    ensures reads { (x : Target) → IsOfTarget x aim.now.place aim.now.which → is_read_only x.group ≡ true
        → PerformsWhere (IsGroupAt aim.now.place x.group) P.Disk.state P.Disk.possible tier.old tier.new
        journal.old journal.new site.old site.new (Some (reply_of result))
        (λ w w'. Tries (ReadsTried refreshes x) w w' (reply_of result)) }
    ensures sound { IsSound tier.new }
    ensures cause { IsCausedOver journal.old (P.Disk.state site.old) (P.Disk.state site.new) (reply_of result) }
{
    let (state, interval) = match tier.catalog.get(aim.place) {
        None => return Err(Refused::Memory),
        Some(group) => {
            if !is_read_only(group) {
                return Err(Refused::Memory);
            }
            (group.state, group.def.interval)
        }
    };
    if is_off(state) {
        let chosen = Chosen::OneAlone(aim.place);
        return load_noted(
            tier, alloc, site, journal, aim, refreshes, chosen, ready, state,
        );
    }
    make_moment(&mut tier.clock.sets, interval)?;
    note_moment(&mut tier.clock.sets, interval, tier.clock.now);
    let chosen = Chosen::Joined(interval, Some(aim.place));
    load_noted(
        tier,
        alloc,
        site,
        journal,
        aim,
        refreshes,
        chosen,
        ready,
        RefreshState::On,
    )
}

// The same where it is noted that a refresh of these groups is tried; the group's STATE becomes this one.
fn load_noted<P: Site>(
    tier: &mut Tier,
    alloc: Global,
    site: &mut P,
    journal: &mut Option<TierJournal>,
    aim: &Aim,
    refreshes: bool,
    chosen: Chosen,
    ready: &Ready,
    state: RefreshState,
) -> Result<Reply, Refused>
    requires sound { IsSound tier.old }
    requires within { aim.now.place < length (groups_in tier.old.catalog) }
    requires state { IsStateAt (groups_in tier.old.catalog) aim.now.place state }
    requires ready { IsReadyToLoad (groups_in tier.old.catalog) journal.old aim.now.place ready.now }
    requires placed { IsPlacedReady journal.old ready.now }
    ensures loads { LoadsNoted P.Disk.state P.Disk.possible tier.old tier.new journal.old journal.new
        site.old site.new aim.now.place aim.now.which refreshes (choice_of chosen) (reply_of result) }
    ensures sound { IsSound tier.new }
    ensures cause { IsCausedOver journal.old (P.Disk.state site.old) (P.Disk.state site.new) (reply_of result) }
{
    if is_dynamic_at(tier, aim.place) {
        return load_dynamic(
            tier, alloc, site, journal, aim, refreshes, chosen, ready, state,
        );
    }
    Ok(load_with(tier, alloc, site, journal, aim.place, chosen, ready, state))
}

// Whether the group at a place is dynamic.
fn is_dynamic_at(tier: &Tier, place: usize) -> bool
    ensures dynamic { result ≡ true → IsDynamicAt (groups_in tier.now.catalog) place }
    ensures explicit { result ≡ false → IsExplicitAt (groups_in tier.now.catalog) place }
{
    match tier.catalog.get(place) {
        None => false,
        Some(group) => group.def.dynamic,
    }
}

// The group at a place shows its view, refreshed with these groups; its STATE becomes this one. Then the records are
// flushed.
fn load_with<P: Site>(
    tier: &mut Tier,
    alloc: Global,
    site: &mut P,
    journal: &mut Option<TierJournal>,
    place: usize,
    chosen: Chosen,
    ready: &Ready,
    state: RefreshState,
) -> Reply
    requires sound { IsSound tier.old }
    requires within { place < length (groups_in tier.old.catalog) }
    requires state { IsStateAt (groups_in tier.old.catalog) place state }
    requires explicit { IsExplicitAt (groups_in tier.old.catalog) place }
    requires ready { IsReadyToLoad (groups_in tier.old.catalog) journal.old place ready.now }
    requires placed { IsPlacedReady journal.old ready.now }
    ensures loads { LoadsWhole P.Disk.state P.Disk.possible tier.old tier.new journal.old journal.new
        site.old site.new place (choice_of chosen) result }
    ensures sound { IsSound tier.new }
    ensures cause { IsCausedOver journal.old (P.Disk.state site.old) (P.Disk.state site.new) result }
{
    match read_fresh(tier, alloc, site, chosen, Some(place)) {
        Err(error) => bank_fault(alloc, error),
        Ok(fresh) => {
            if ready.is_full() {
                return slot_is_full(alloc);
            }
            show_fresh(tier, chosen, fresh);
            tier.catalog.with_loaded(place, true);
            tier.catalog.with_state(place, state);
            let reply = done(alloc, roots_shown(tier, place));
            answer_behind(alloc, site, journal, ready, reply)
        }
    }
}

// How many root rows the store at a place has.
fn roots_shown(tier: &Tier, place: usize) -> u64
    ensures { result ≡ roots_kept (slice_get tier.now.stores.items place) }
{
    match tier.stores.get(place) {
        None => 0,
        Some(store) => store.len(0) as u64,
    }
}
