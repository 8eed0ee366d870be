//! LOAD and REFRESH of cache groups.

ghost use Rattle.std.specs.Prelude.{◌≡◌, Some, true};
ghost use Rattle.sql_subset.specs.declared.stmt.Stmt.TheVariants as statement;
ghost use Rattle.cache_tier.specs.Groups.{is_read_only, is_writethrough};
ghost use Rattle.cache_tier.specs.Rounds.{RoundIfUnsettled};
ghost use Rattle.cache_tier.specs.Targets.{Target};
ghost use Rattle.cache_tier.specs.Worlds.{Then, Tries};
ghost use Rattle.stored_tier.specs.Performing.{Executes, IsCausedOver, PerformsInOver, reply_of};
ghost use Rattle.stored_tier.specs.Stored.{IsSound};
ghost use Rattle.group_engine.specs.Taking.{IsGroupAt, IsOfTarget, LoadsTarget, PerformsWhere, ReadsMatching};

use crate::aiming::{Aim, find_aim};
use crate::loading_whole::load_whole;
use crate::loading_written::load_written;
use cache_tier::reply::Reply;
use group_catalog::ResolvedWhich;
use outside::Site;
use row_types::Refused;
use sql_subset::stmt::Load;
use std::alloc::Global;
use stored_tier::tier::Tier;
use tier_base::SessionId;
use tier_journal::TierJournal;

/// LOAD CACHE GROUP. A READONLY group shows its view, and its set is refreshed with it; PAUSED becomes ON. A
/// writethrough group gains the instances that match; what is unsettled is applied at the bank first. The reply tells
/// how many instances came.
///
/// The refusal is 112, 103, 115, 116, 122, 104 and 105 in the order of refusals, then 120 of the condition, then 119
/// where the journal has no room; a failed call of the bank is 201, one of the journal's disk 202, after which the run
/// is to end; a row that isn't as a transaction says is 210; or memory was wanting. What changes of STATE and flag is
/// flushed. (TimesTen SQL Reference, "LOAD CACHE GROUP"; what it does to flags and key lists is this project's rule.)
pub fn load_group<P: Site>(
    tier: &mut Tier,
    alloc: Global,
    site: &mut P,
    journal: &mut Option<TierJournal>,
    id: SessionId,
    load: &Load,
) -> Result<Reply, Refused>
    requires { IsSound tier.old }
    ensures performs { PerformsInOver P.Disk.state P.Disk.possible tier.old tier.new journal.old journal.new
        site.old site.new id (Executes (statement.Load load.now)) result }
    ensures sound { IsSound tier.new }
    ensures cause { IsCausedOver journal.old (P.Disk.state site.old) (P.Disk.state site.new) (reply_of result) }
{
    match find_aim(tier, alloc, id, load, false) {
        Err(refused) => Err(refused),
        Ok(aim) => load_aimed(tier, alloc, site, journal, &aim, false),
    }
}

/// REFRESH CACHE GROUP. A READONLY group that is PAUSED is loaded anew and becomes ON. A writethrough group gains the
/// instances that match; what is unsettled is applied at the bank first. The reply tells how many instances of the
/// group match.
///
/// The refusals are those of LOAD but for 116, and 115 of a READONLY group that isn't PAUSED. (TimesTen SQL Reference,
/// "REFRESH CACHE GROUP".)
pub fn refresh_group<P: Site>(
    tier: &mut Tier,
    alloc: Global,
    site: &mut P,
    journal: &mut Option<TierJournal>,
    id: SessionId,
    load: &Load,
) -> Result<Reply, Refused>
    requires { IsSound tier.old }
    ensures performs { PerformsInOver P.Disk.state P.Disk.possible tier.old tier.new journal.old journal.new
        site.old site.new id (Executes (statement.Refresh load.now)) result }
    ensures sound { IsSound tier.new }
    ensures cause { IsCausedOver journal.old (P.Disk.state site.old) (P.Disk.state site.new) (reply_of result) }
{
    match find_aim(tier, alloc, id, load, true) {
        Err(refused) => Err(refused),
        Ok(aim) => load_aimed(tier, alloc, site, journal, &aim, true),
    }
}

// What LOAD does, or REFRESH, once its group is found and nothing refuses it.
fn load_aimed<P: Site>(
    tier: &mut Tier,
    alloc: Global,
    site: &mut P,
    journal: &mut Option<TierJournal>,
    aim: &Aim,
    refreshes: bool,
) -> Result<Reply, Refused>
    requires sound { IsSound tier.old }
    ensures loads { (x : Target) → IsOfTarget x aim.now.place aim.now.which
        → is_read_only x.group ≡ aim.now.read_only
        → PerformsWhere (IsGroupAt aim.now.place x.group) P.Disk.state P.Disk.possible tier.old tier.new
        journal.old journal.new site.old site.new (Some (reply_of result))
        (λ w w'. Tries (LoadsTarget refreshes x) w w' (reply_of result)) }
    ensures sound { IsSound tier.new }
    ensures cause { IsCausedOver journal.old (P.Disk.state site.old) (P.Disk.state site.new) (reply_of result) }
{
    if aim.read_only {
        load_whole(tier, alloc, site, journal, aim, refreshes)
    } else {
        load_behind(tier, alloc, site, journal, aim.place, &aim.which, refreshes)
    }
}

// The same of a writethrough group: what is unsettled is applied first.
fn load_behind<P: Site>(
    tier: &mut Tier,
    alloc: Global,
    site: &mut P,
    journal: &mut Option<TierJournal>,
    place: usize,
    which: &ResolvedWhich,
    refreshes: bool,
) -> Result<Reply, Refused>
    requires sound { IsSound tier.old }
    ensures reads { (x : Target) → IsOfTarget x place which.now → is_writethrough x.group ≡ true
        → PerformsWhere (IsGroupAt place x.group) P.Disk.state P.Disk.possible tier.old tier.new
        journal.old journal.new site.old site.new (Some (reply_of result))
        (λ w w'. Then RoundIfUnsettled (ReadsMatching refreshes x) w w' (reply_of result)) }
    ensures sound { IsSound tier.new }
    ensures cause { IsCausedOver journal.old (P.Disk.state site.old) (P.Disk.state site.new) (reply_of result) }
{
    match tier.settle_pending(alloc, site, journal) {
        Err(reply) => Ok(reply),
        Ok(()) => load_written(tier, alloc, site, journal, place, which, refreshes),
    }
}
