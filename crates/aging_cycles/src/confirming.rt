//! Whether each session's operations apply on the stored rows, where these fit their tables.

ghost use Rattle.std.specs.Prelude.{◌≡◌, IsTrue, All, is_some, map, true};
ghost use Rattle.table_state.specs.Independence.{IsWhole};
ghost use Rattle.table_state.specs.Keyed.{IsKeyed};
ghost use Rattle.table_state.specs.Operations.{applied_all};
ghost use Rattle.session_state.specs.Kept.{seen_of};
ghost use Rattle.tier_statements.specs.Judging.{AreSmall};
ghost use Rattle.stored_tier.specs.Stored.{IsSound, IsVerified, rows_of};

use group_store::Shown;
use session_state::Session;
use std::alloc::Global;
use stored_tier::tier::Tier;
use table_state::Scan;
use tier_statements::{are_small, judge_ops};

/// It is noted that sessions may read and write over the stored rows, which fit their tables and stand under their
/// keys, where there are not too many of them and each session's operations apply on them. No row is looked at but
/// those that the operations name.
///
/// Where it isn't so, or memory was wanting, nothing changes.
pub fn confirm(tier: &mut Tier, alloc: Global)
    requires sound { IsSound tier.old }
    requires keyed { IsKeyed (rows_of tier.old) }
    ensures same { tier.new ≡ record tier.old { verified = tier.new.verified } }
    ensures sound { IsSound tier.new }
{
    if do_read(tier, alloc) {
        tier.verified = true;
    }
}

// Whether sessions may read over the stored rows.
fn do_read(tier: &Tier, alloc: Global) -> bool
    requires sound { IsSound tier.now }
    requires keyed { IsKeyed (rows_of tier.now) }
    ensures { IsTrue result → IsVerified tier.now }
{
    let shown = Shown::new(&tier.schema, tier.stores.as_slice(), &tier.directory);
    do_apply(alloc, &shown, tier.sessions.as_slice())
}

// Whether the tables of a scan are small, and each session's operations apply over them.
fn do_apply<S: Scan>(alloc: Global, scan: &S, sessions: &[Session]) -> bool
    requires whole { IsWhole (S.state scan.now) }
    requires keyed { IsKeyed (S.state scan.now) }
    ensures small { IsTrue result → AreSmall (S.state scan.now) }
    ensures apply { IsTrue result
        → All (λ s. is_some (applied_all s.ops (S.state scan.now)) ≡ true) (map seen_of sessions.now) }
{
    if !are_small(scan) {
        return false;
    }
    for session in sessions {
        match judge_ops(alloc, scan, session.ops.as_slice()) {
            Err(_) => return false,
            Ok(()) => {}
        }
    }
    true
}
