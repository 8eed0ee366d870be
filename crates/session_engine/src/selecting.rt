//! SELECT in the cache.

ghost use Rattle.std.specs.Prelude.{◌≡◌, IfOk, true};
ghost use Rattle.outside.specs.Sites.{SiteState};
ghost use Rattle.cache_tier.specs.SelectSteps.{plan_of};
ghost use Rattle.session_engine.specs.Selecting.{SelectsOver, SelectsUnwritten};
ghost use Rattle.session_engine.specs.Using.{AreQueryUses};
ghost use Rattle.stored_tier.specs.Performing.{IsCalm, PerformsIn, reply_of};
ghost use Rattle.stored_tier.specs.Stored.{IsSound};

use crate::query::answer;
use crate::using::{query_uses, touch};
use cache_tier::laws::tier_law;
use cache_tier::reply::Reply;
use cache_tier::use_shown_law;
use open_sessions::laws::label_law;
use resolution::ResolvedQuery;
use row_types::{Key, Refused};
use std::alloc::{AllocError, Global};
use stored_tier::tier::Tier;
use tier_base::{Seq, SessionId};

/// SELECT of an open session that is answered in the cache, its names found: over what the session sees. In each group
/// in which the order of last use counts, the instances of the selected rows are used. Nothing is loaded for it.
///
/// The refusal is the first broken rule, as the evaluator tells it, and all then stays; or memory was wanting.
/// (TimesTen SQL Reference, "SELECT"; TimesTen Cache User's Guide, "LRU aging".)
pub fn select_cached(
    tier: &mut Tier,
    alloc: Global,
    id: SessionId,
    query: ResolvedQuery,
) -> Result<Reply, Refused>
    requires { IsSound tier.old }
    ensures performs { (site : SiteState) → PerformsIn tier.old tier.new site site id
        (SelectsUnwritten query) result }
    ensures sound { IsSound tier.new }
    ensures calm { IsCalm (reply_of result) }
{
    tier_law();
    label_law();
    use_shown_law();
    match tier.verify(alloc) {
        Err(_) => Err(Refused::Memory),
        Ok(()) => select_verified(tier, alloc, id, query),
    }
}

// The same where the tier's rows were looked at.
fn select_verified(
    tier: &mut Tier,
    alloc: Global,
    id: SessionId,
    query: ResolvedQuery,
) -> Result<Reply, Refused>
    requires sound { IsSound tier.old }
    requires verified { tier.old.verified ≡ true }
    ensures selects { SelectsOver tier.old tier.new id query result }
    ensures sound { IsSound tier.new }
    ensures calm { IsCalm (reply_of result) }
{
    let mut query = query;
    match answer(tier, alloc, id, &query) {
        Err(refused) => Err(refused),
        Ok(reply) => match uses_of(tier, alloc, id, &mut query) {
            Err(_) => Err(Refused::Memory),
            Ok(uses) => {
                touch(tier, uses.as_slice());
                Ok(reply)
            }
        },
    }
}

// What a query uses. No more of it is left than that.
fn uses_of(
    tier: &Tier,
    alloc: Global,
    id: SessionId,
    query: &mut ResolvedQuery,
) -> Result<Seq<Seq<Key>>, AllocError>
    requires sound { IsSound tier.now }
    requires verified { tier.now.verified ≡ true }
    ensures { IfOk result (AreQueryUses tier.now id (plan_of query.old)) }
{
    match query {
        ResolvedQuery::Rows(plan) => query_uses(tier, alloc, id, plan),
        ResolvedQuery::Totals(_, plan) => query_uses(tier, alloc, id, plan),
    }
}
