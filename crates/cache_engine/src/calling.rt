//! CALL of a procedure.

ghost use Rattle.sql_subset.specs.declared.stmt.Stmt.TheVariants as statement;
ghost use Rattle.cache_tier.specs.SessionSteps.{flag_answer};
ghost use Rattle.cache_tier.specs.Steps.{RefreshesCalled};
ghost use Rattle.cache_tier.specs.TierStates.{Session};
ghost use Rattle.cache_tier.specs.Worlds.{Quiet, Tries};
ghost use Rattle.stored_tier.specs.Performing.{Executes, IsCalm, IsCaused, IsCausedOver, Performs, PerformsInOver, reply_of};
ghost use Rattle.outside.specs.Sites.{SiteState};
ghost use Rattle.propagators.specs.Certainty.{KeepsCertain};
ghost use Rattle.std.specs.Prelude.{◌≡◌};
ghost use Rattle.stored_tier.specs.Stored.{HasSession, IsSound};

use crate::due_work::refresh_set;
use cache_tier::called::Called;
use cache_tier::reply::Reply;
use cache_tier::session_law;
use group_catalog::resolve_call;
use outside::Site;
use row_types::Refused;
use sql_subset::stmt::Call;
use std::alloc::Global;
use stored_tier::refreshing::{make_moment, set_size};
use stored_tier::tier::Tier;
use tier_base::{Code, SessionId};
use tier_journal::TierJournal;
use tier_statements::{done, faulty};

/// CALL: ttDrain applies what is unsettled at the bank, and tells how many transactions that were; ttCacheAutorefresh
/// refreshes the set of a READONLY group, where it shows something, and tells how many groups it has; ttOptSetFlag
/// gives the transaction a level of passthrough.
///
/// The refusal is the first rule that the procedure and its arguments break, as `resolve_call` tells it; a failed call
/// of the bank is 201, of the journal's disk 202, after which the run is to end, a row that isn't as a transaction says
/// 210; or memory was wanting. (TimesTen Cache User's Guide, "ttCacheAutorefresh"; TimesTen built-in procedures,
/// "ttOptSetFlag"; ttDrain is this project's.)
pub fn call_procedure<P: Site>(
    tier: &mut Tier,
    alloc: Global,
    site: &mut P,
    journal: &mut Option<TierJournal>,
    id: SessionId,
    call: &Call,
) -> Result<Reply, Refused>
    requires { IsSound tier.old }
    ensures performs { PerformsInOver P.Disk.state P.Disk.possible tier.old tier.new journal.old journal.new
        site.old site.new id (Executes (statement.Call call.now)) result }
    ensures sound { IsSound tier.new }
    ensures cause { IsCausedOver journal.old
        (P.Disk.state site.old)
        (P.Disk.state site.new)
        (reply_of result) }
{
    match resolve_call(alloc, &tier.catalog, call) {
        Err(refused) => Err(refused),
        Ok(called) => match called {
            Called::Drain => Ok(tier.drain(alloc, site, journal)),
            Called::RefreshSet(interval) => Ok(refresh_called(tier, alloc, site, interval)),
            Called::SetLevel(level) => Ok(give_level(tier, alloc, id, level)),
        },
    }
}

// ttCacheAutorefresh of the set of an interval. The reply tells how many groups it has; 201 where the bank's call
// failed; or memory was wanting.
fn refresh_called<P: Site>(tier: &mut Tier, alloc: Global, site: &mut P, interval: u64) -> Reply
    requires { IsSound tier.old }
    ensures performs { Performs tier.old tier.new
        (P.Disk.state site.old)
        (P.Disk.state site.new)
        (λ w w'. Tries (RefreshesCalled interval) w w' result) }
    ensures sound { IsSound tier.new }
    ensures certain { KeepsCertain P.Disk.state P.Disk.possible site.old site.new }
    ensures cause { IsCaused
        (P.Disk.state site.old)
        (P.Disk.state site.new)
        result }
    ensures disk { (P.Disk.state site.new).disk_faults ≡ (P.Disk.state site.old).disk_faults }
{
    if make_moment(&mut tier.clock.sets, interval).is_err() {
        return faulty(alloc, Code::Memory);
    }
    match refresh_set(tier, alloc, site, interval) {
        Err(reply) => reply,
        Ok(()) => done(alloc, set_size(&tier.catalog, interval)),
    }
}

// ttOptSetFlag, as `set_level`.
fn give_level(tier: &mut Tier, alloc: Global, id: SessionId, level: u8) -> Reply
    requires { IsSound tier.old }
    ensures performs { (site : SiteState) (s : Session) → HasSession tier.old id s
        → Performs tier.old tier.new site site
        (λ w w'. Tries (Quiet (flag_answer w.tier s.label level)) w w' result) }
    ensures sound { IsSound tier.new }
    ensures calm { IsCalm result }
{
    session_law();
    tier.set_level(alloc, id, level)
}
