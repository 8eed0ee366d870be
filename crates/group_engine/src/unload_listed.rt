//! UNLOAD of a dynamic READONLY group.

ghost use Rattle.std.specs.Prelude.{◌≡◌, Bool, slice_get, true};
ghost use Rattle.tier_base.specs.declared.number.SessionId.{SessionId as OneId};
ghost use Rattle.group_catalog.specs.Catalogs.{groups_in};
ghost use Rattle.stored_tier.specs.Performing.{IsCausedOver, reply_of};
ghost use Rattle.stored_tier.specs.Stored.{IsSound};
ghost use Rattle.group_engine.specs.Ready.{IsPlacedReady};
ghost use Rattle.group_engine.specs.Unloading.{UnloadsReady, lists_shown};

use crate::aiming::Aim;
use crate::ready::{Ready, answer_behind, slot_is_full};
use crate::unload_hidden::unload_hidden;
use crate::unload_kept::cut_kept;
use crate::unloading::judge_roots;
use cache_tier::reply::Reply;
use group_store::laws::drop_instance_law;
use outside::Site;
use row_types::Refused;
use std::alloc::{AllocError, Global};
use stored_tier::filling::hides_keys;
use stored_tier::tier::Tier;
use tier_journal::TierJournal;
use tier_statements::done;

/// The instances that match leave of the READONLY group at a place, where it is dynamic; or 120 of the condition on a
/// root row, then 119. Else, and where memory was wanting, want of memory is told, and all stays. No session writes in
/// it, and it has no flag.
pub(crate) fn unload_listed<P: Site>(
    tier: &mut Tier,
    alloc: Global,
    site: &mut P,
    journal: &mut Option<TierJournal>,
    aim: &Aim,
    ready: &Ready,
) -> Result<Reply, Refused>
    requires sound { IsSound tier.old }
    requires kind { aim.now.read_only ≡ true }
    requires placed { IsPlacedReady journal.old ready.now }
    ensures performs { (id : OneId) (all : Bool) → UnloadsReady P.Disk.state P.Disk.possible tier.old tier.new
        journal.old journal.new site.old site.new ready.now id aim.now all (reply_of result) }
    ensures sound { IsSound tier.new }
    ensures cause { IsCausedOver journal.old (P.Disk.state site.old) (P.Disk.state site.new) (reply_of result) }
{
    if !lists_shown(tier, aim.place) {
        return unload_hidden(tier, alloc, site, journal, aim, ready);
    }
    match judge_roots(tier, aim) {
        Err(refused) => Err(refused),
        Ok(()) => {
            if ready.is_full() {
                return Ok(slot_is_full(alloc));
            }
            drop_instance_law();
            match cut_kept(tier, alloc, aim, false) {
                Err(AllocError) => Err(Refused::Memory),
                Ok(count) => {
                    Ok(answer_behind(alloc, site, journal, ready, done(alloc, count as u64)))
                }
            }
        }
    }
}

// Whether the list of the group at a place is that of what it shows: it is dynamic, and hides none.
fn lists_shown(tier: &Tier, place: usize) -> bool
    ensures { result ≡ lists_shown (slice_get (groups_in tier.now.catalog) place) }
{
    match tier.catalog.get(place) {
        None => false,
        Some(group) => group.def.dynamic && !hides_keys(group),
    }
}
