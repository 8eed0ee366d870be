//! Which instance a session's statement wants, and which group loads it.

ghost use Rattle.std.specs.Prelude.{◌≡◌, IfOk};
ghost use Rattle.std.specs.Option.{option_map};
ghost use Rattle.resolution.specs.Queries.{query_seen};
ghost use Rattle.resolution.specs.Writes.{change_seen};
ghost use Rattle.cache_tier.specs.TierStates.{Tier as AbstractTier};
ghost use Rattle.cache_tier.specs.Wants.{wanted_by_query, wanted_by_write};
ghost use Rattle.cache_tier.specs.Worlds.{World};
ghost use Rattle.statement_uses.specs.Wanting.{want_seen};
ghost use Rattle.session_engine.specs.Loading.{IsLoadedAt};
ghost use Rattle.stored_tier.specs.Performing.{StandsFor};
ghost use Rattle.stored_tier.specs.Stored.{IsSound, IsStoredAs};

use evaluator::Change;
use group_store::Shown;
use resolution::ResolvedQuery;
use statement_uses::{Want, loading_place};
use std::alloc::{AllocError, Global};
use stored_tier::tier::Tier;

/// The instance that a query wants, its names found. It fails for want of memory alone. (TimesTen Cache User's Guide,
/// "Dynamically loading a cache instance".)
pub fn wanted_by_query(
    tier: &Tier,
    alloc: Global,
    query: &ResolvedQuery,
) -> Result<Option<Want>, AllocError>
    ensures { IfOk result (λ want. (a : AbstractTier) → IsStoredAs tier.now a
        → option_map want_seen want ≡ wanted_by_query a (query_seen query.now)) }
{
    statement_uses::wanted_by_query(alloc, &tier.schema, &tier.catalog, query)
}

/// The same of a write.
pub fn wanted_by_write(
    tier: &Tier,
    alloc: Global,
    change: &Change,
) -> Result<Option<Want>, AllocError>
    ensures { IfOk result (λ want. (a : AbstractTier) → IsStoredAs tier.now a
        → option_map want_seen want ≡ wanted_by_write a (change_seen change.now)) }
{
    statement_uses::wanted_by_write(alloc, &tier.schema, &tier.catalog, change)
}

/// The place of the group that loads what a statement wants: it has the table and loads on demand, and the row isn't
/// shown. None where nothing is loaded for it. It takes no memory.
pub fn is_wanted(tier: &Tier, want: &Want) -> Option<usize>
    requires { IsSound tier.now }
    ensures { (w : World) → StandsFor tier.now w → IsLoadedAt w want.now result }
{
    let shown = Shown::new(&tier.schema, tier.stores.as_slice(), &tier.directory);
    loading_place(&tier.catalog, &shown, want)
}
