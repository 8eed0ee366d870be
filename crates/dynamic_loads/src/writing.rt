//! INSERT, UPDATE and DELETE, with what they want loaded before.

ghost use Rattle.std.specs.Prelude.{◌≡◌, None};
ghost use Rattle.sql_subset.specs.declared.stmt.Stmt.TheVariants as statement;
ghost use Rattle.session_engine.specs.Doubting.{EndsInOver, IsReady};
ghost use Rattle.stored_tier.specs.Performing.{Executes, IsCausedOver, PerformsInOver, reply_of};
ghost use Rattle.stored_tier.specs.Stored.{IsSound};
ghost use Rattle.dynamic_loads.specs.Running.{WritesLoaded};

use crate::loading::load_wanted;
use cache_tier::reply::Reply;
use evaluator::Change;
use outside::Site;
use row_types::Refused;
use session_engine::doubt::Doubt;
use session_engine::passed_write::pass_write;
use session_engine::preparing::route_write;
use session_engine::wanting::wanted_by_write;
use session_engine::writing::write_cached;
use sql_query::Write;
use std::alloc::Global;
use stored_tier::tier::Tier;
use tier_base::SessionId;
use tier_journal::TierJournal;
use tier_statements::Route;

/// INSERT, UPDATE and DELETE of an open session. In the cache the instance that the write wants is loaded first, where
/// its group loads on demand and it isn't shown; then its operations stand behind the session's own. A write on a table
/// of no writethrough group is passed on, and commits by itself at the backing database.
///
/// The refusal is the first broken rule: 102, 103; 118, 104, 105; 121, 110, 117; then as `write_cached` and
/// `pass_write` tell. The line ends early with the reply of a load that did; a passed-on write whose call failed leaves
/// its ticket in doubt; or memory was wanting. (TimesTen SQL Reference, "INSERT", "UPDATE", "DELETE"; TimesTen Cache
/// User's Guide, "Dynamically loading a cache instance", "Setting a passthrough level"; the codes and their order are
/// this project's rule.)
pub fn run_write<P: Site>(
    tier: &mut Tier,
    alloc: Global,
    site: &mut P,
    journal: &mut Option<TierJournal>,
    id: SessionId,
    write: &Write,
    doubt: &mut Option<Doubt>,
) -> Result<Reply, Refused>
    requires sound { IsSound tier.old }
    requires free { doubt.old ≡ None }
    ensures performs { EndsInOver P.Disk.state P.Disk.possible tier.old tier.new doubt.new journal.old journal.new
        site.old site.new id (Executes (statement.Write write.now)) result }
    ensures sound { IsSound tier.new }
    ensures ready { IsReady tier.new doubt.new }
    ensures cause { IsCausedOver journal.old
        (P.Disk.state site.old)
        (P.Disk.state site.new)
        (reply_of result) }
{
    match route_write(tier, alloc, id, write) {
        Err(refused) => Err(refused),
        Ok(routed) => match routed.route {
            Route::Cached => write_loaded(tier, alloc, site, journal, id, &routed.change),
            Route::PassedOn => pass_write(tier, alloc, site, journal, id, &routed.change, doubt),
        },
    }
}

// The same in the cache, its names found.
fn write_loaded<P: Site>(
    tier: &mut Tier,
    alloc: Global,
    site: &mut P,
    journal: &mut Option<TierJournal>,
    id: SessionId,
    change: &Change,
) -> Result<Reply, Refused>
    requires { IsSound tier.old }
    ensures performs { PerformsInOver P.Disk.state P.Disk.possible tier.old tier.new journal.old journal.new
        site.old site.new id (WritesLoaded change.now) result }
    ensures sound { IsSound tier.new }
    ensures cause { IsCausedOver journal.old
        (P.Disk.state site.old)
        (P.Disk.state site.new)
        (reply_of result) }
{
    match wanted_by_write(tier, alloc, change) {
        Err(_) => Err(Refused::Memory),
        Ok(want) => match load_wanted(tier, alloc, site, journal, &want) {
            Err(reply) => Ok(reply),
            Ok(()) => write_cached(tier, alloc, site, id, change),
        },
    }
}
