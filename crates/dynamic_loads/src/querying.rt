//! SELECT, with what it wants loaded before.

ghost use Rattle.std.specs.Prelude.{◌≡◌, []};
ghost use Rattle.sql_subset.specs.declared.stmt.Stmt.TheVariants as statement;
ghost use Rattle.stored_tier.specs.Performing.{Executes, IsCausedOver, PerformsInOver, reply_of};
ghost use Rattle.stored_tier.specs.Stored.{IsSound};
ghost use Rattle.dynamic_loads.specs.Running.{SelectsLoaded};

use crate::loading::load_wanted;
use cache_tier::reply::Reply;
use outside::Site;
use resolution::ResolvedQuery;
use row_types::Refused;
use session_engine::passed_query::select_passed;
use session_engine::query::{Routed, route_query};
use session_engine::selecting::select_cached;
use session_engine::wanting::wanted_by_query;
use sql_query::Query;
use std::alloc::Global;
use stored_tier::tier::Tier;
use tier_base::SessionId;
use tier_journal::TierJournal;

/// SELECT of an open session, without GROUP BY. In the cache the instance that it wants is loaded first, where its
/// group loads on demand and it isn't shown; then it is answered over what the session sees, and the instances that it
/// selects are used. At level 3, and where a table isn't cached, it is answered at the backing database.
///
/// The refusal is the first broken rule of its names, then as the evaluator tells it. The line ends early with the
/// reply of a load that did; it is 201 where the bank's call failed; or memory was wanting. (TimesTen SQL Reference,
/// "SELECT"; TimesTen Cache User's Guide, "Dynamically loading a cache instance", "Setting a passthrough level".)
pub fn run_query<P: Site>(
    tier: &mut Tier,
    alloc: Global,
    site: &mut P,
    journal: &mut Option<TierJournal>,
    id: SessionId,
    query: &Query,
) -> Result<Reply, Refused>
    requires sound { IsSound tier.old }
    requires simple { query.now.groups ≡ [] }
    ensures performs { PerformsInOver P.Disk.state P.Disk.possible tier.old tier.new journal.old journal.new
        site.old site.new id (Executes (statement.Select query.now)) result }
    ensures sound { IsSound tier.new }
    ensures cause { IsCausedOver journal.old
        (P.Disk.state site.old)
        (P.Disk.state site.new)
        (reply_of result) }
{
    match route_query(tier, alloc, id, query) {
        Err(refused) => Err(refused),
        Ok(Routed::Cached(resolved)) => select_loaded(tier, alloc, site, journal, id, resolved),
        Ok(Routed::PassedOn(resolved)) => select_passed(alloc, site, &resolved),
    }
}

// The same in the cache, its names found.
fn select_loaded<P: Site>(
    tier: &mut Tier,
    alloc: Global,
    site: &mut P,
    journal: &mut Option<TierJournal>,
    id: SessionId,
    query: ResolvedQuery,
) -> Result<Reply, Refused>
    requires { IsSound tier.old }
    ensures performs { PerformsInOver P.Disk.state P.Disk.possible tier.old tier.new journal.old journal.new
        site.old site.new id (SelectsLoaded query) result }
    ensures sound { IsSound tier.new }
    ensures cause { IsCausedOver journal.old
        (P.Disk.state site.old)
        (P.Disk.state site.new)
        (reply_of result) }
{
    match wanted_by_query(tier, alloc, &query) {
        Err(_) => Err(Refused::Memory),
        Ok(want) => match load_wanted(tier, alloc, site, journal, &want) {
            Err(reply) => Ok(reply),
            Ok(()) => select_cached(tier, alloc, id, query),
        },
    }
}
