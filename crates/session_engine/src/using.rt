//! Which instances a session's statements use.

ghost use Rattle.std.specs.Prelude.{◌≡◌, IfOk, true};
ghost use Rattle.session_engine.specs.Changing.{IsUnbroken};
ghost use Rattle.session_engine.specs.Using.{AreQueryUses, AreWriteUses, Touches};
ghost use Rattle.stored_tier.specs.Stored.{IsSound};

use evaluator::Plan;
use group_store::Shown;
use row_types::Key;
use statement_uses::{touch_stores, used_by_ops, used_by_query};
use std::alloc::{AllocError, Global};
use stored_tier::tier::Tier;
use table_state::Op;
use table_state::scan_laws::keyed_law;
use tier_base::{Seq, SessionId};

/// For each group in which the order of last use counts, the root keys of the instances that a query uses over what a
/// session sees. It fails as `used_by_query`, which leaves no more of the plan than that.
pub(crate) fn query_uses(
    tier: &Tier,
    alloc: Global,
    id: SessionId,
    plan: &mut Plan,
) -> Result<Seq<Seq<Key>>, AllocError>
    requires sound { IsSound tier.now }
    requires verified { tier.now.verified ≡ true }
    ensures { IfOk result (AreQueryUses tier.now id plan.old) }
{
    keyed_law();
    let shown = Shown::new(&tier.schema, tier.stores.as_slice(), &tier.directory);
    let seen = tier.sessions.overlay(id, &shown);
    used_by_query(alloc, &tier.catalog, &seen, plan)
}

/// The same of operations that apply over what the session sees. It fails for want of memory alone.
pub(crate) fn write_uses(
    tier: &Tier,
    alloc: Global,
    id: SessionId,
    ops: &[Op],
) -> Result<Seq<Seq<Key>>, AllocError>
    requires sound { IsSound tier.now }
    requires verified { tier.now.verified ≡ true }
    requires unbroken { IsUnbroken tier.now id ops.now }
    ensures { IfOk result (AreWriteUses tier.now id ops.now) }
{
    keyed_law();
    let shown = Shown::new(&tier.schema, tier.stores.as_slice(), &tier.directory);
    let seen = tier.sessions.overlay(id, &shown);
    used_by_ops(alloc, &tier.catalog, &seen, ops)
}

/// Root keys become the newest of their stores. It takes no memory.
pub(crate) fn touch(tier: &mut Tier, uses: &[Seq<Key>])
    requires { IsSound tier.old }
    ensures touched { Touches tier.old tier.new uses.now }
    ensures sound { IsSound tier.new }
{
    touch_stores(&mut tier.stores, uses);
}
