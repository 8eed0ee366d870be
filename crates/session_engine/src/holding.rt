//! Operations that a session holds until its transaction ends.

ghost use Rattle.std.specs.Prelude.{◌≡◌, ◌≤◌, IsTrue, None, OnErr, OnOk, Some, length, option_copied, true};
ghost use Rattle.session_state.specs.Kept.{are_defined, has_both};
ghost use Rattle.session_state.specs.Locks.{holder_of};
ghost use Rattle.open_sessions.specs.Lookups.{room_of};
ghost use Rattle.open_sessions.specs.Opening.{seen_all};
ghost use Rattle.group_catalog.specs.Catalogs.{groups_in};
ghost use Rattle.cache_tier.specs.StandingBetween.{are_written_through};
ghost use Rattle.session_engine.specs.Changing.{Holds, HoldsNothing, HoldsUsed, IsUnbroken};
ghost use Rattle.stored_tier.specs.Stored.{IsSound};

use crate::using::{touch, write_uses};
use group_catalog::Catalog;
use std::alloc::{AllocError, Global};
use stored_tier::tier::Tier;
use table_defs::{BackingSchema, TableDef};
use table_state::{Op, Ops};
use tier_base::SessionId;

/// Operations that can be applied over what a session sees go behind its own.
///
/// It fails for want of memory, and where they meet another session's lock, aren't on tables of writethrough groups, or
/// are too many; the sessions then are as they were.
fn hold(tier: &mut Tier, alloc: Global, id: SessionId, ops: Ops) -> Result<(), AllocError>
    requires sound { IsSound tier.old }
    requires unbroken { IsUnbroken tier.old id ops }
    ensures ok { OnOk result (Holds tier.old tier.new id ops) }
    ensures err { OnErr result (HoldsNothing tier.old tier.new) }
    ensures sound { IsSound tier.new }
{
    if !may_hold(tier, id, ops.as_slice()) {
        return Err(AllocError);
    }
    tier.sessions.write(alloc, &tier.schema, id, ops)?;
    Ok(())
}

/// The same, and the instances that they change are used. It fails, too, where memory is wanting to tell which they
/// are.
pub(crate) fn hold_used(
    tier: &mut Tier,
    alloc: Global,
    id: SessionId,
    ops: Ops,
) -> Result<(), AllocError>
    requires sound { IsSound tier.old }
    requires verified { tier.old.verified ≡ true }
    requires unbroken { IsUnbroken tier.old id ops }
    ensures ok { OnOk result (HoldsUsed tier.old tier.new id ops) }
    ensures err { OnErr result (HoldsNothing tier.old tier.new) }
    ensures sound { IsSound tier.new }
{
    match write_uses(tier, alloc, id, ops.as_slice()) {
        Err(error) => Err(error),
        Ok(uses) => match hold(tier, alloc, id, ops) {
            Err(error) => Err(error),
            Ok(()) => {
                touch(tier, uses.as_slice());
                Ok(())
            }
        },
    }
}

// Whether operations may go behind those of a session.
fn may_hold(tier: &Tier, id: SessionId, ops: &[Op]) -> bool
    requires { IsSound tier.now }
    ensures free { IsTrue result → holder_of (Some id) tier.now.schema (seen_all tier.now.sessions) ops.now ≡ None }
    ensures defined { IsTrue result → are_defined tier.now.schema ops.now ≡ true }
    ensures few { IsTrue result → length ops.now ≤ room_of id (seen_all tier.now.sessions) }
    ensures through { IsTrue result → are_written_through (groups_in tier.now.catalog) ops.now ≡ true }
{
    if tier.sessions.holder(Some(id), &tier.schema, ops).is_some() {
        return false;
    }
    if ops.len() > tier.sessions.room(id) {
        return false;
    }
    if !are_defined(&tier.schema, ops) {
        return false;
    }
    are_written_through(&tier.catalog, ops)
}

// Whether the table of each operation is there, and that of its parent.
fn are_defined(schema: &BackingSchema, ops: &[Op]) -> bool
    ensures { result ≡ are_defined schema.now ops.now }
{
    ops.iter()
        .all(|op| has_both(schema, schema.get(op.table().0 as usize)))
}

fn has_both(schema: &BackingSchema, def: Option<&TableDef>) -> bool
    ensures { result ≡ has_both schema.now (option_copied def.entry) }
{
    match def {
        None => false,
        Some(def) => match &def.foreign_key {
            None => true,
            Some(foreign) => (foreign.parent.0 as usize) < schema.len(),
        },
    }
}

// Whether each operation is on a table of a writethrough group.
fn are_written_through(catalog: &Catalog, ops: &[Op]) -> bool
    ensures { result ≡ are_written_through (groups_in catalog.now) ops.now }
{
    ops.iter().all(|op| catalog.is_written_through(op.table()))
}
