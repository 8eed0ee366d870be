//! What LOAD and REFRESH name, and what refuses them before any call of the outside.

ghost use Rattle.std.specs.Prelude.{◌≡◌, Option, Some};
ghost use Rattle.row_types.specs.declared.rule.Rule.{Rule as OneRule};
ghost use Rattle.table_defs.specs.Declarations.{Tells};
ghost use Rattle.resolution.specs.Results.{IsRefusal};
ghost use Rattle.cache_tier.specs.Conditions.{asks_all};
ghost use Rattle.cache_tier.specs.Groups.{is_paused, is_read_only};
ghost use Rattle.cache_tier.specs.Order.{is_past, is_past_range, is_whole_only};
ghost use Rattle.cache_tier.specs.Rules.{named, open_writes};
ghost use Rattle.group_engine.specs.Aiming.{AimsBy, aim_state, load_state, refresh_state, AimsIn};
ghost use Rattle.group_catalog.specs.Kept.{group_seen};
ghost use Rattle.stored_tier.specs.Stored.{IsSound};

use group_catalog::{KeptGroup, ResolvedWhich, resolve_which};
use open_sessions::laws::label_law;
use row_types::{Detail, Refused, Rule};
use sql_subset::stmt::{GroupKind, Load, RefreshState, Which};
use std::alloc::Global;
use stored_tier::tier::Tier;
use table_defs::TableDef;
use table_state::Op;
use tier_base::{Code, Name, SessionId};

/// The group at a place, with the conditions that are given.
pub(crate) struct Aim {
    pub(crate) place: usize,
    pub(crate) read_only: bool,
    pub(crate) which: ResolvedWhich,
}

impl Drop for Aim {
    fn drop(self) {
        let Self {
            place: _,
            read_only: _,
            which: _,
        } = self;
    }
}

/// What LOAD names, or REFRESH, where nothing refuses it.
///
/// The refusal is the first broken rule: 112; 103; of LOAD 115 and 116, of REFRESH 115; 122; 104; 105. Or memory
/// was wanting, as it is said to be where the schema doesn't have the group's root table.
pub(crate) fn find_aim(
    tier: &Tier,
    alloc: Global,
    id: SessionId,
    load: &Load,
    refreshes: bool,
) -> Result<Aim, Refused>
    requires { IsSound tier.now }
    ensures { AimsIn tier.now id refreshes load.now result }
{
    label_law();
    match tier.catalog.find(&load.group) {
        None => Err(about(alloc, Code::UnknownGroup, &load.group)),
        Some(place) => match tier.catalog.get(place) {
            None => Err(Refused::Memory),
            Some(group) => match tier.schema.get(group.def.tree.root.table.0 as usize) {
                None => Err(Refused::Memory),
                Some(def) => {
                    let own = tier.sessions.ops(id);
                    let state = judge_state(alloc, group, load, own, refreshes);
                    aim_by(alloc, def, &load.which, state, place, is_read_only(group))
                }
            },
        },
    }
}

// The names, then the state, then the types.
pub(crate) fn aim_by(
    alloc: Global,
    def: &TableDef,
    which: &Which,
    state: Result<(), Refused>,
    place: usize,
    read_only: bool,
) -> Result<Aim, Refused>
    ensures { (fault : Option OneRule) → Tells state fault
        → AimsBy (Some def.now) which.now fault place read_only result }
{
    let judged = resolve_which(alloc, def, which)?;
    state?;
    match judged {
        Err(rule) => Err(Refused::Rule(rule)),
        Ok(which) => Ok(Aim {
            place,
            read_only,
            which,
        }),
    }
}

// What a statement refuses by the group's kind and state: LOAD, or REFRESH.
fn judge_state(
    alloc: Global,
    group: &KeptGroup,
    load: &Load,
    own: &[Op],
    refreshes: bool,
) -> Result<(), Refused>
    ensures { Tells result (aim_state refreshes load.now own.now (group_seen group.now)) }
{
    if refreshes {
        judge_refresh(alloc, group, load, own)
    } else {
        judge_load(alloc, group, load, own)
    }
}

fn judge_load(alloc: Global, group: &KeptGroup, load: &Load, own: &[Op]) -> Result<(), Refused>
    ensures { Tells result (load_state load.now own.now (group_seen group.now)) }
{
    let name = &group.def.name;
    if is_past_range(load) {
        return Err(about(alloc, Code::WrongState, name));
    }
    if is_whole_only(group, &load.which) {
        return Err(about(alloc, Code::WrongState, name));
    }
    if is_read_only(group) && !group.def.dynamic && group.loaded {
        return Err(about(alloc, Code::NotEmpty, name));
    }
    judge_writes(own)
}

fn judge_refresh(alloc: Global, group: &KeptGroup, load: &Load, own: &[Op]) -> Result<(), Refused>
    ensures { Tells result (refresh_state load.now own.now (group_seen group.now)) }
{
    let name = &group.def.name;
    if is_past_range(load) {
        return Err(about(alloc, Code::WrongState, name));
    }
    if is_read_only(group) && !is_paused(group.state) {
        return Err(about(alloc, Code::WrongState, name));
    }
    if is_whole_only(group, &load.which) {
        return Err(about(alloc, Code::WrongState, name));
    }
    judge_writes(own)
}

// 122 of a session's writes.
pub(crate) fn judge_writes(own: &[Op]) -> Result<(), Refused>
    ensures { Tells result (open_writes own.now) }
{
    match own.split_first() {
        None => Ok(()),
        Some(_) => Err(Refused::Rule(Rule {
            code: Code::TransactionOpen,
            detail: Detail::Nothing,
        })),
    }
}

// COMMIT EVERY is past its range, or PARALLEL past its own.
fn is_past_range(load: &Load) -> bool
    ensures { result ≡ is_past_range load.now }
{
    is_past(0, 1_000_000, load.commit_every) || is_past(1, 128, load.parallel)
}

fn is_past(low: u64, high: u64, n: Option<u64>) -> bool
    ensures { result ≡ is_past low high n }
{
    match n {
        None => false,
        Some(n) => n < low || high < n,
    }
}

// An explicit READONLY group, of which something is asked.
pub(crate) fn is_whole_only(group: &KeptGroup, which: &Which) -> bool
    ensures { result ≡ is_whole_only (group_seen group.now) which.now }
{
    is_read_only(group) && !group.def.dynamic && !asks_all(which)
}

pub(crate) fn asks_all(which: &Which) -> bool
    ensures { result ≡ asks_all which.now }
{
    which.filter.is_none() && which.id.is_none()
}

pub(crate) fn is_read_only(group: &KeptGroup) -> bool
    ensures { result ≡ is_read_only (group_seen group.now) }
{
    match group.def.kind {
        GroupKind::ReadOnly => true,
        _ => false,
    }
}

pub(crate) fn is_paused(state: RefreshState) -> bool
    ensures { result ≡ is_paused state }
{
    match state {
        RefreshState::On => false,
        RefreshState::Off => false,
        RefreshState::Paused => true,
    }
}

// A rule about a name, or want of memory for the name.
pub(crate) fn about(alloc: Global, code: Code, name: &Name) -> Refused
    ensures { IsRefusal (named code name.now) result }
{
    match name.copied(alloc) {
        Err(_) => Refused::Memory,
        Ok(name) => Refused::Rule(Rule {
            code,
            detail: Detail::Name(name),
        }),
    }
}
