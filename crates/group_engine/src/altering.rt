//! ALTER CACHE GROUP .. SET AUTOREFRESH STATE.

ghost use Rattle.std.specs.Prelude.{◌≡◌, ◌<◌, IfOk, length};
ghost use Rattle.sql_subset.specs.declared.stmt.Stmt.TheVariants as statement;
ghost use Rattle.sql_subset.specs.declared.stmt.RefreshState.TheVariants.{On, Paused};
ghost use Rattle.table_defs.specs.Declarations.{Tells};
ghost use Rattle.group_catalog.specs.Catalogs.{groups_in};
ghost use Rattle.group_catalog.specs.Kept.{group_seen};
ghost use Rattle.group_engine.specs.Altering.{alter_state, AimsAlterIn, AltersAlone, AltersHere, AltersReady, AltersWith, IsReadyAt, TellsJoining, TellsLeaving};
ghost use Rattle.group_engine.specs.Ready.{IsMemoryOf, IsPlacedReady};
ghost use Rattle.tier_journal.specs.Drafts.{StaysKept};
ghost use Rattle.stored_tier.specs.Refreshing.{choice_of};
ghost use Rattle.stored_tier.specs.Performing.{Executes, IsCausedOver, PerformsInOver, reply_of};
ghost use Rattle.stored_tier.specs.Stored.{IsSound};

use crate::aiming::{about, is_read_only, judge_writes};
use crate::fresh::{read_fresh, show_fresh};
use crate::ready::{Ready, answer_behind, slot_is_full};
use crate::readying::ready_state;
use cache_tier::reply::Reply;
use group_catalog::{Catalog, KeptGroup};
use open_sessions::laws::label_law;
use outside::Site;
use row_types::Refused;
use sql_subset::stmt::{Alter, RefreshState};
use std::alloc::{AllocError, Global};
use stored_tier::refreshing::{
    Chosen, has_something, is_off, make_moment, note_moment, shows_something,
};
use stored_tier::tier::Tier;
use table_state::Op;
use tier_base::{Code, SessionId};
use tier_journal::TierJournal;
use tier_statements::{bank_fault, done};

/// ALTER CACHE GROUP: the STATE of a READONLY group changes. To ON, its set is refreshed with it where something is
/// shown; from OFF to PAUSED it alone is. Where a journal is kept and the STATE is another, its record is flushed.
///
/// The refusal is 112, 115 of a writethrough group, 122; a failed call of the bank is 201; 119 where the journal has no
/// room; 202 where a call of its disk failed, and the run is to end then; or memory was wanting. (TimesTen SQL
/// Reference, "ALTER CACHE GROUP".)
pub fn alter_group<P: Site>(
    tier: &mut Tier,
    alloc: Global,
    site: &mut P,
    journal: &mut Option<TierJournal>,
    id: SessionId,
    alter: &Alter,
) -> Result<Reply, Refused>
    requires { IsSound tier.old }
    ensures performs { PerformsInOver P.Disk.state P.Disk.possible tier.old tier.new journal.old journal.new
        site.old site.new id (Executes (statement.Alter alter.now)) result }
    ensures sound { IsSound tier.new }
    ensures cause { IsCausedOver journal.old (P.Disk.state site.old) (P.Disk.state site.new) (reply_of result) }
{
    match aim_alter(tier, alloc, id, alter) {
        Err(refused) => Err(refused),
        Ok(place) => alter_at(tier, alloc, site, journal, place, alter.state),
    }
}

// The place of the group that ALTER names, where nothing refuses it: 112; 115; 122. Or memory was wanting.
fn aim_alter(tier: &Tier, alloc: Global, id: SessionId, alter: &Alter) -> Result<usize, Refused>
    requires { IsSound tier.now }
    ensures aims { AimsAlterIn tier.now id alter.now result }
    ensures within { IfOk result (λ place. place < length (groups_in tier.now.catalog)) }
{
    label_law();
    match tier.catalog.find(&alter.group) {
        None => Err(about(alloc, Code::UnknownGroup, &alter.group)),
        Some(place) => match tier.catalog.get(place) {
            None => Err(Refused::Memory),
            Some(group) => match judge_alter(alloc, group, tier.sessions.ops(id)) {
                Err(refused) => Err(refused),
                Ok(()) => Ok(place),
            },
        },
    }
}

// The READONLY group at a place gets a STATE, whose record is made ready first.
fn alter_at<P: Site>(
    tier: &mut Tier,
    alloc: Global,
    site: &mut P,
    journal: &mut Option<TierJournal>,
    place: usize,
    state: RefreshState,
) -> Result<Reply, Refused>
    requires sound { IsSound tier.old }
    requires within { place < length (groups_in tier.old.catalog) }
    ensures alters { AltersHere P.Disk.state P.Disk.possible tier.old tier.new journal.old journal.new
        site.old site.new state place (reply_of result) }
    ensures sound { IsSound tier.new }
    ensures cause { IsCausedOver journal.old (P.Disk.state site.old) (P.Disk.state site.new) (reply_of result) }
{
    match ready_at(&tier.catalog, alloc, journal, place, state) {
        Err(refused) => Err(refused),
        Ok(ready) => match state {
            RefreshState::On => alter_to_on(tier, alloc, site, journal, place, &ready),
            RefreshState::Off => {
                Ok(give_state(tier, alloc, site, journal, place, &ready, RefreshState::Off))
            }
            RefreshState::Paused => alter_to_paused(tier, alloc, site, journal, place, &ready),
        },
    }
}

// The record of the STATE that the group at a place gets, where it is another. It fails for want of memory alone.
fn ready_at(
    catalog: &Catalog,
    alloc: Global,
    journal: &mut Option<TierJournal>,
    place: usize,
    state: RefreshState,
) -> Result<Ready, Refused>
    ensures ready { IfOk result (λ ready. IsReadyAt (groups_in catalog.now) journal.new place state ready) }
    ensures placed { IfOk result (λ ready. IsPlacedReady journal.new ready) }
    ensures kept { StaysKept journal.old journal.new }
    ensures memory { IsMemoryOf result }
{
    match catalog.get(place) {
        None => Err(Refused::Memory),
        Some(group) => match ready_state(alloc, journal, group, state) {
            Err(AllocError) => Err(Refused::Memory),
            Ok(ready) => Ok(ready),
        },
    }
}

// It joins its set, which is refreshed with it, where there is something to show.
fn alter_to_on<P: Site>(
    tier: &mut Tier,
    alloc: Global,
    site: &mut P,
    journal: &mut Option<TierJournal>,
    place: usize,
    ready: &Ready,
) -> Result<Reply, Refused>
    requires sound { IsSound tier.old }
    requires within { place < length (groups_in tier.old.catalog) }
    requires placed { IsPlacedReady journal.old ready.now }
    ensures alters { AltersReady P.Disk.state P.Disk.possible tier.old tier.new journal.old journal.new
        site.old site.new ready.now On place (reply_of result) }
    ensures sound { IsSound tier.new }
    ensures cause { IsCausedOver journal.old (P.Disk.state site.old) (P.Disk.state site.new) (reply_of result) }
{
    let interval = match tier.catalog.get(place) {
        None => return Err(Refused::Memory),
        Some(group) => group.def.interval,
    };
    if !joins_something(tier, place) {
        return Ok(give_state(tier, alloc, site, journal, place, ready, RefreshState::On));
    }
    make_moment(&mut tier.clock.sets, interval)?;
    note_moment(&mut tier.clock.sets, interval, tier.clock.now);
    let chosen = Chosen::Joined(interval, Some(place));
    Ok(alter_with(
        tier,
        alloc,
        site,
        journal,
        place,
        chosen,
        ready,
        RefreshState::On,
    ))
}

// Where it was OFF and has something to show, it alone is refreshed.
fn alter_to_paused<P: Site>(
    tier: &mut Tier,
    alloc: Global,
    site: &mut P,
    journal: &mut Option<TierJournal>,
    place: usize,
    ready: &Ready,
) -> Result<Reply, Refused>
    requires sound { IsSound tier.old }
    requires within { place < length (groups_in tier.old.catalog) }
    requires placed { IsPlacedReady journal.old ready.now }
    ensures alters { AltersReady P.Disk.state P.Disk.possible tier.old tier.new journal.old journal.new
        site.old site.new ready.now Paused place (reply_of result) }
    ensures sound { IsSound tier.new }
    ensures cause { IsCausedOver journal.old (P.Disk.state site.old) (P.Disk.state site.new) (reply_of result) }
{
    if !leaves_off(tier, place) {
        return Ok(give_state(
            tier,
            alloc,
            site,
            journal,
            place,
            ready,
            RefreshState::Paused,
        ));
    }
    let chosen = Chosen::OneAlone(place);
    Ok(alter_with(
        tier,
        alloc,
        site,
        journal,
        place,
        chosen,
        ready,
        RefreshState::Paused,
    ))
}

// These groups are refreshed from one snapshot, and the group at the place gets a STATE; then the record is flushed.
fn alter_with<P: Site>(
    tier: &mut Tier,
    alloc: Global,
    site: &mut P,
    journal: &mut Option<TierJournal>,
    place: usize,
    chosen: Chosen,
    ready: &Ready,
    state: RefreshState,
) -> Reply
    requires sound { IsSound tier.old }
    requires within { place < length (groups_in tier.old.catalog) }
    requires placed { IsPlacedReady journal.old ready.now }
    ensures alters { AltersWith P.Disk.state P.Disk.possible tier.old tier.new journal.old journal.new
        site.old site.new ready.now state place (choice_of chosen) result }
    ensures sound { IsSound tier.new }
    ensures cause { IsCausedOver journal.old (P.Disk.state site.old) (P.Disk.state site.new) result }
{
    match read_fresh(tier, alloc, site, chosen, None) {
        Err(error) => bank_fault(alloc, error),
        Ok(fresh) => {
            if ready.is_full() {
                return slot_is_full(alloc);
            }
            show_fresh(tier, chosen, fresh);
            tier.catalog.with_state(place, state);
            answer_behind(alloc, site, journal, ready, done(alloc, 0))
        }
    }
}

// The STATE of the group at a place changes, and nothing else; then the record is flushed.
fn give_state<P: Site>(
    tier: &mut Tier,
    alloc: Global,
    site: &mut P,
    journal: &mut Option<TierJournal>,
    place: usize,
    ready: &Ready,
    state: RefreshState,
) -> Reply
    requires sound { IsSound tier.old }
    requires within { place < length (groups_in tier.old.catalog) }
    requires placed { IsPlacedReady journal.old ready.now }
    ensures alters { AltersAlone P.Disk.state P.Disk.possible tier.old tier.new journal.old journal.new
        site.old site.new ready.now state place result }
    ensures sound { IsSound tier.new }
    ensures cause { IsCausedOver journal.old (P.Disk.state site.old) (P.Disk.state site.new) result }
{
    if ready.is_full() {
        return slot_is_full(alloc);
    }
    tier.catalog.with_state(place, state);
    answer_behind(alloc, site, journal, ready, done(alloc, 0))
}

// 115 of a writethrough group, then 122.
fn judge_alter(alloc: Global, group: &KeptGroup, own: &[Op]) -> Result<(), Refused>
    ensures { Tells result (alter_state own.now (group_seen group.now)) }
{
    if !is_read_only(group) {
        return Err(about(alloc, Code::WrongState, &group.def.name));
    }
    judge_writes(own)
}

// Whether there is something to show in the set of the group at a place, with the group in it.
fn joins_something(tier: &Tier, place: usize) -> bool
    requires { IsSound tier.now }
    ensures { TellsJoining tier.now place result }
{
    match tier.catalog.get(place) {
        None => false,
        Some(group) => {
            if has_something(tier, place) {
                return true;
            }
            shows_something(tier, group.def.interval)
        }
    }
}

// Whether the group at a place is refreshed where it becomes PAUSED: it is OFF, and has something to show.
fn leaves_off(tier: &Tier, place: usize) -> bool
    requires { IsSound tier.now }
    ensures { TellsLeaving tier.now place result }
{
    match tier.catalog.get(place) {
        None => false,
        Some(group) => {
            if !is_off(group.state) {
                return false;
            }
            has_something(tier, place)
        }
    }
}
