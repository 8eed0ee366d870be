//! Making entries ready. Each call fails for want of memory alone; the journal keeps what it kept.

ghost use Rattle.std.specs.Prelude.{◌≡◌, ◌∷◌, [], IfOk, List, false, true};
ghost use Rattle.table_defs.specs.declared.definition.TableDef.{TableDef as OneTable};
ghost use Rattle.sql_subset.specs.declared.stmt.CreateGroup.{CreateGroup};
ghost use Rattle.sql_subset.specs.declared.stmt.RefreshState.TheVariants.{On};
ghost use Rattle.cache_tier.specs.AlterSteps.{altered_entries, same_state};
ghost use Rattle.cache_tier.specs.Journals.{Defines, Drops, SetsLoaded, SetsState};
ghost use Rattle.cache_tier.specs.Targets.{has_flag, load_entries};
ghost use Rattle.cache_tier.specs.UnloadSteps.{unload_entries};
ghost use Rattle.group_catalog.specs.Kept.{group_seen};
ghost use Rattle.tier_journal.specs.Drafts.{StaysKept};
ghost use Rattle.group_engine.specs.Ready.{IsReadyFor};
ghost use Rattle.group_engine.specs.Readying.{differ, is_flagged, is_turned};

use crate::aiming::{is_paused, is_read_only};
use crate::ready::{Ready, room_made};
use group_catalog::KeptGroup;
use sql_subset::stmt::RefreshState;
use std::alloc::{AllocError, Global};
use tier_base::Name;
use tier_journal::{Batch, Draft, TierJournal};

/// The STATE that a group gets, where it is another.
pub(crate) fn ready_state(
    alloc: Global,
    journal: &mut Option<TierJournal>,
    group: &KeptGroup,
    state: RefreshState,
) -> Result<Ready, AllocError>
    ensures ready { IfOk result (λ ready. (schema : List OneTable)
        → IsReadyFor schema journal.new ready (altered_entries (group_seen group.now) state)) }
    ensures kept { StaysKept journal.old journal.new }
{
    if is_same(group.state, state) {
        return Ok(Ready::Nothing);
    }
    one_state(alloc, journal, &group.def.name, state)
}

/// What LOAD and REFRESH write of a group: that its STATE becomes ON, and that it is loaded, where these are new.
pub(crate) fn ready_load(
    alloc: Global,
    journal: &mut Option<TierJournal>,
    group: &KeptGroup,
) -> Result<Ready, AllocError>
    ensures ready { IfOk result (λ ready. (schema : List OneTable)
        → IsReadyFor schema journal.new ready (load_entries (group_seen group.now))) }
    ensures kept { StaysKept journal.old journal.new }
{
    let turned = is_turned(group);
    let flagged = is_flagged(group, true);
    if !turned && !flagged {
        return Ok(Ready::Nothing);
    }
    if !turned {
        return one_flag(alloc, journal, &group.def.name, true);
    }
    if !flagged {
        return one_state(alloc, journal, &group.def.name, RefreshState::On);
    }
    both(alloc, journal, &group.def.name)
}

/// What UNLOAD writes of a group: that it isn't loaded any more, where all of it leaves and that is new.
pub(crate) fn ready_unload(
    alloc: Global,
    journal: &mut Option<TierJournal>,
    group: &KeptGroup,
    all: bool,
) -> Result<Ready, AllocError>
    ensures ready { IfOk result (λ ready. (schema : List OneTable)
        → IsReadyFor schema journal.new ready (unload_entries all (group_seen group.now))) }
    ensures kept { StaysKept journal.old journal.new }
{
    if !all || !is_flagged(group, false) {
        return Ok(Ready::Nothing);
    }
    one_flag(alloc, journal, &group.def.name, false)
}

/// The definition of a group, by its text.
pub(crate) fn ready_definition(
    alloc: Global,
    journal: &mut Option<TierJournal>,
    text: &[u8],
) -> Result<Ready, AllocError>
    ensures ready { IfOk result (λ ready. (schema : List OneTable) (d : CreateGroup)
        → IsReadyFor schema journal.new ready (Defines d text.now ∷ [])) }
    ensures kept { StaysKept journal.old journal.new }
{
    match Draft::of_definition(alloc, journal, text) {
        Err(AllocError) => Err(AllocError),
        Ok(draft) => Ok(Ready::One(draft)),
    }
}

/// The drop of a group.
pub(crate) fn ready_drop(
    alloc: Global,
    journal: &mut Option<TierJournal>,
    name: &Name,
) -> Result<Ready, AllocError>
    ensures ready { IfOk result (λ ready. (schema : List OneTable)
        → IsReadyFor schema journal.new ready (Drops name.now ∷ [])) }
    ensures kept { StaysKept journal.old journal.new }
{
    match Draft::of_drop(alloc, journal, name.as_bytes()) {
        Err(AllocError) => Err(AllocError),
        Ok(draft) => Ok(Ready::One(draft)),
    }
}

// A group's STATE.
fn one_state(
    alloc: Global,
    journal: &mut Option<TierJournal>,
    name: &Name,
    state: RefreshState,
) -> Result<Ready, AllocError>
    ensures ready { IfOk result (λ ready. (schema : List OneTable)
        → IsReadyFor schema journal.new ready (SetsState name.now state ∷ [])) }
    ensures kept { StaysKept journal.old journal.new }
{
    match Draft::of_state(alloc, journal, name.as_bytes(), state) {
        Err(AllocError) => Err(AllocError),
        Ok(draft) => Ok(Ready::One(draft)),
    }
}

// Whether a group is loaded.
fn one_flag(
    alloc: Global,
    journal: &mut Option<TierJournal>,
    name: &Name,
    flag: bool,
) -> Result<Ready, AllocError>
    ensures ready { IfOk result (λ ready. (schema : List OneTable)
        → IsReadyFor schema journal.new ready (SetsLoaded name.now flag ∷ [])) }
    ensures kept { StaysKept journal.old journal.new }
{
    match Draft::of_loaded(alloc, journal, name.as_bytes(), flag) {
        Err(AllocError) => Err(AllocError),
        Ok(draft) => Ok(Ready::One(draft)),
    }
}

// That a group's STATE is ON, and that it is loaded. A name of 256 bytes and more is taken for want of memory.
fn both(alloc: Global, journal: &mut Option<TierJournal>, name: &Name) -> Result<Ready, AllocError>
    ensures ready { IfOk result (λ ready. (schema : List OneTable)
        → IsReadyFor schema journal.new ready (SetsState name.now On ∷ SetsLoaded name.now true ∷ [])) }
    ensures kept { StaysKept journal.old journal.new }
{
    match journal {
        None => Ok(Ready::Nothing),
        Some(journal) => {
            let bytes = name.as_bytes();
            if bytes.len() >= 256 {
                return Err(AllocError);
            }
            let empty = Batch::behind(alloc, journal);
            let first = empty.with_state(alloc, bytes, RefreshState::On)?;
            let batch = first.with_loaded(alloc, bytes, true)?;
            room_made(journal, batch)
        }
    }
}

// Whether a READONLY group is PAUSED, which LOAD turns ON.
fn is_turned(group: &KeptGroup) -> bool
    ensures { result ≡ is_turned (group_seen group.now) }
{
    is_read_only(group) && is_paused(group.state)
}

// Whether the flag of a group is kept, and becomes this one only now.
fn is_flagged(group: &KeptGroup, flag: bool) -> bool
    ensures { result ≡ is_flagged flag (group_seen group.now) }
{
    has_flag(group) && differ(flag, group.loaded)
}

fn has_flag(group: &KeptGroup) -> bool
    ensures { result ≡ has_flag (group_seen group.now) }
{
    !is_read_only(group) || !group.def.dynamic
}

fn differ(flag: bool, was: bool) -> bool
    ensures { result ≡ differ flag was }
{
    if flag { !was } else { was }
}

fn is_same(one: RefreshState, other: RefreshState) -> bool
    ensures { result ≡ same_state one other }
{
    match one {
        RefreshState::On => match other {
            RefreshState::On => true,
            _ => false,
        },
        RefreshState::Off => match other {
            RefreshState::Off => true,
            _ => false,
        },
        RefreshState::Paused => match other {
            RefreshState::Paused => true,
            _ => false,
        },
    }
}
