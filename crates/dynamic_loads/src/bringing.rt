//! The instance that a statement wants, of a group of either kind.

ghost use Rattle.std.specs.Prelude.{◌≡◌, None};
ghost use Rattle.statement_uses.specs.Wanting.{want_seen};
ghost use Rattle.stored_tier.specs.Performing.{IsStopCausedOver, PerformsOver, stop_of};
ghost use Rattle.stored_tier.specs.Stored.{IsSound};
ghost use Rattle.dynamic_loads.specs.Bringing.{BringsAtPlace, TriesFirst};

use crate::bringing_whole::bring_whole;
use crate::bringing_written::bring_written;
use cache_tier::reply::Reply;
use outside::Site;
use statement_uses::Want;
use std::alloc::Global;
use stored_tier::refreshing::is_read_only;
use stored_tier::tier::Tier;
use tier_base::Code;
use tier_journal::TierJournal;
use tier_statements::faulty;

/// The instance that a statement wants is brought into the group at a place: into a writethrough group behind the round
/// that settles all, into a READONLY one with its whole set, at one position.
///
/// The line ends early with the reply of a round that did; with 201 where the bank's call failed; with 202 where a call
/// of the journal's disk did, after which the run is to end; or memory was wanting, which is also said where the place
/// has no group. (TimesTen Cache User's Guide, "Dynamically loading a cache instance"; the round and the set are this
/// project's rule.)
pub fn bring<P: Site>(
    tier: &mut Tier,
    alloc: Global,
    site: &mut P,
    journal: &mut Option<TierJournal>,
    place: usize,
    want: &Want,
) -> Result<(), Reply>
    requires { IsSound tier.old }
    ensures brings { PerformsOver P.Disk.state P.Disk.possible tier.old tier.new journal.old journal.new
        site.old site.new (stop_of result)
        (λ w w'. TriesFirst (BringsAtPlace place (want_seen want.now)) w w' (stop_of result)) }
    ensures none { journal.old ≡ None → journal.new ≡ None }
    ensures sessions { tier.new.sessions ≡ tier.old.sessions }
    ensures sound { IsSound tier.new }
    ensures cause { IsStopCausedOver journal.old
        (P.Disk.state site.old)
        (P.Disk.state site.new)
        (stop_of result) }
{
    match tier.catalog.get(place) {
        None => Err(faulty(alloc, Code::Memory)),
        Some(group) => {
            if is_read_only(group) {
                bring_whole(tier, alloc, site, journal, place, want)
            } else {
                bring_written(tier, alloc, site, journal, place, want)
            }
        }
    }
}
