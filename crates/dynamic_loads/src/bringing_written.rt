//! The instance that a statement wants of a writethrough group.

ghost use Rattle.std.specs.Prelude.{◌≡◌, [], None};
ghost use Rattle.cache_tier.specs.DynamicLoads.{BringsWritethrough};
ghost use Rattle.propagators.specs.Certainty.{KeepsCertain};
ghost use Rattle.statement_uses.specs.Wanting.{want_seen};
ghost use Rattle.stored_tier.specs.Performing.{IsStopCaused, IsStopCausedOver, Performs, PerformsOver, StaysWritten, stop_of};
ghost use Rattle.stored_tier.specs.Stored.{IsSound};
ghost use Rattle.dynamic_loads.specs.Bringing.{ReachesInto};

use crate::taking::take_reached;
use cache_tier::reply::Reply;
use outside::Site;
use statement_uses::Want;
use std::alloc::Global;
use stored_tier::tier::Tier;
use tier_base::Code;
use tier_journal::TierJournal;
use tier_statements::{bank_fault, faulty};

/// The instance that a statement wants of the writethrough group at a place is brought in: what is unsettled is applied
/// at the bank first. Then the bank is asked for the instance that the wanted row is in, and it comes to the group
/// where its root row is there and past the group's horizon, as the newest. It does all but find a root where there is
/// none.
///
/// The line ends early with the reply of a round that did; with 201 where the bank's call failed; with 202 where a call
/// of the journal's disk did, after which the run is to end; or memory was wanting, which is also said where the place
/// has no writethrough group, and where the bank told more tables than the group has. (TimesTen Cache User's Guide,
/// "Dynamically loading a cache instance"; that the round comes first is this project's rule.)
pub fn bring_written<P: Site>(
    tier: &mut Tier,
    alloc: Global,
    site: &mut P,
    journal: &mut Option<TierJournal>,
    place: usize,
    want: &Want,
) -> Result<(), Reply>
    requires { IsSound tier.old }
    ensures brings { PerformsOver P.Disk.state P.Disk.possible tier.old tier.new journal.old journal.new
        site.old site.new (stop_of result)
        (λ w w'. BringsWritethrough place (want_seen want.now) w w' (stop_of result)) }
    ensures none { journal.old ≡ None → journal.new ≡ None }
    ensures sessions { tier.new.sessions ≡ tier.old.sessions }
    ensures sound { IsSound tier.new }
    ensures cause { IsStopCausedOver journal.old
        (P.Disk.state site.old)
        (P.Disk.state site.new)
        (stop_of result) }
{
    match tier.settle_pending(alloc, site, journal) {
        Err(reply) => Err(reply),
        Ok(()) => reach_written(tier, alloc, site, place, want),
    }
}

// The same where nothing is unsettled.
fn reach_written<P: Site>(
    tier: &mut Tier,
    alloc: Global,
    site: &mut P,
    place: usize,
    want: &Want,
) -> Result<(), Reply>
    requires sound { IsSound tier.old }
    requires settled { tier.old.unsettled.items ≡ [] }
    ensures reaches { Performs tier.old tier.new
        (P.Disk.state site.old)
        (P.Disk.state site.new)
        (λ w w'. ReachesInto place (want_seen want.now) w w' (stop_of result) × StaysWritten w w') }
    ensures certain { KeepsCertain P.Disk.state P.Disk.possible site.old site.new }
    ensures sessions { tier.new.sessions ≡ tier.old.sessions }
    ensures sound { IsSound tier.new }
    ensures cause { IsStopCaused
        (P.Disk.state site.old)
        (P.Disk.state site.new)
        (stop_of result) }
    ensures disk { (P.Disk.state site.new).disk_faults ≡ (P.Disk.state site.old).disk_faults }
{
    match tier.catalog.get(place) {
        None => Err(faulty(alloc, Code::Memory)),
        Some(group) => match site.reach(&group.def.tree, want.table, &want.key) {
            Err(error) => Err(bank_fault(alloc, error)),
            Ok(reached) => match take_reached(tier, alloc, place, &reached) {
                Err(_) => Err(faulty(alloc, Code::Memory)),
                Ok(()) => Ok(()),
            },
        },
    }
}
