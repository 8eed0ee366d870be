//! LOAD and REFRESH of a dynamic READONLY group, behind the rules that refuse them.

ghost use Rattle.std.specs.Prelude.{◌≡◌, ◌<◌, Some, length, slice_get, true};
ghost use Rattle.cache_tier.specs.Groups.{is_read_only};
ghost use Rattle.cache_tier.specs.Rules.{plain};
ghost use Rattle.cache_tier.specs.Sets.{loaded_with};
ghost use Rattle.cache_tier.specs.Targets.{Target};
ghost use Rattle.tier_base.specs.declared.code.Code.TheVariants as code;
ghost use Rattle.group_catalog.specs.Catalogs.{groups_in};
ghost use Rattle.stored_tier.specs.Refreshing.{IsStateAt, choice_of};
ghost use Rattle.group_engine.specs.Loaded.{IsDynamicAt, IsReadyToLoad};
ghost use Rattle.group_engine.specs.Ready.{IsPlacedReady};
ghost use Rattle.group_engine.specs.Taking.{IsGroupAt, IsOfTarget, PerformsWhere, ReadsDynamic};
ghost use Rattle.stored_tier.specs.Performing.{IsCausedOver, reply_of};
ghost use Rattle.stored_tier.specs.Stored.{IsSound};

use crate::aiming::Aim;
use crate::fresh::{Fresh, show_fresh};
use crate::gaining::{gain_at, overflows_at};
use crate::ready::{Ready, answer_behind, slot_is_full};
use cache_tier::reply::Reply;
use outside::Site;
use row_types::{Detail, Refused, Rule};
use sql_subset::stmt::RefreshState;
use std::alloc::Global;
use stored_tier::refreshing::{Chosen, tables_read};
use stored_tier::tier::Tier;
use tier_base::Code;
use tier_journal::TierJournal;
use tier_statements::{bank_fault, done};

/// The dynamic group at a place is refreshed with these groups from one snapshot, and its STATE becomes this one. LOAD
/// brings the instances of its view past the horizon that match; the reply tells how many came, or for REFRESH how many
/// of those that it has match. Then the records are flushed.
///
/// It is 120 where the condition is so on a root row of the view past the horizon, for REFRESH on one of an instance
/// that it has; 201 where the bank's call failed, 119 where the journal has no room, 202 where a call of its disk
/// failed; or memory was wanting.
pub(crate) fn load_dynamic<P: Site>(
    tier: &mut Tier,
    alloc: Global,
    site: &mut P,
    journal: &mut Option<TierJournal>,
    aim: &Aim,
    refreshes: bool,
    chosen: Chosen,
    ready: &Ready,
    state: RefreshState,
) -> Result<Reply, Refused>
    requires sound { IsSound tier.old }
    requires within { aim.now.place < length (groups_in tier.old.catalog) }
    requires state { IsStateAt (groups_in tier.old.catalog) aim.now.place state }
    requires dynamic { IsDynamicAt (groups_in tier.old.catalog) aim.now.place }
    requires ready { IsReadyToLoad (groups_in tier.old.catalog) journal.old aim.now.place ready.now }
    requires placed { IsPlacedReady journal.old ready.now }
    ensures reads { (x : Target) → IsOfTarget x aim.now.place aim.now.which → is_read_only x.group ≡ true
        → choice_of chosen ≡ loaded_with x.group aim.now.place
        → PerformsWhere (IsGroupAt aim.now.place x.group) P.Disk.state P.Disk.possible tier.old tier.new
        journal.old journal.new site.old site.new (Some (reply_of result))
        (λ w w'. ReadsDynamic refreshes x w w' (reply_of result)) }
    ensures sound { IsSound tier.new }
    ensures cause { IsCausedOver journal.old (P.Disk.state site.old) (P.Disk.state site.new) (reply_of result) }
{
    match tables_read(alloc, &tier.catalog, chosen) {
        Err(_) => Err(Refused::Memory),
        Ok(asked) => match site.snapshot(asked.as_slice()) {
            Err(error) => Ok(bank_fault(alloc, error)),
            Ok(snapshot) => {
                if overflows_at(tier, aim.place, &aim.which, refreshes, &snapshot.tables) {
                    return Err(Refused::Rule(overflow()));
                }
                if ready.is_full() {
                    return Ok(slot_is_full(alloc));
                }
                match gain_at(tier, alloc, aim, refreshes, chosen, &snapshot.tables) {
                    Err(_) => Err(Refused::Memory),
                    Ok(gained) => {
                        let reply = done(alloc, gained.count);
                        let fresh = Fresh {
                            position: snapshot.position,
                            made: gained.into_made(),
                        };
                        show_fresh(tier, chosen, fresh);
                        tier.catalog.with_state(aim.place, state);
                        Ok(answer_behind(alloc, site, journal, ready, reply))
                    }
                }
            }
        },
    }
}

/// 120.
pub(crate) fn overflow() -> Rule
    ensures { result ≡ plain code.Overflow }
{
    Rule {
        code: Code::Overflow,
        detail: Detail::Nothing,
    }
}
