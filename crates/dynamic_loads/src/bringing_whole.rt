//! The instance that a statement wants of a READONLY group.

ghost use Rattle.std.specs.Prelude.{◌≡◌, None};
ghost use Rattle.statement_uses.specs.Wanting.{want_seen};
ghost use Rattle.stored_tier.specs.Performing.{IsStopCausedOver, PerformsOver, stop_of};
ghost use Rattle.stored_tier.specs.Stored.{IsSound};
ghost use Rattle.dynamic_loads.specs.Bringing.{BringsWhole, TriesFirst};

use cache_tier::reply::Reply;
use outside::Site;
use statement_uses::Want;
use std::alloc::Global;
use stored_tier::tier::Tier;
use tier_journal::TierJournal;

/// The instance that a statement wants of the READONLY group at a place is brought in with its whole set, which is
/// refreshed at one position; PAUSED becomes ON. Where the place has no dynamic READONLY group, memory is said to be
/// wanting.
pub(crate) fn bring_whole<P: Site>(
    tier: &mut Tier,
    alloc: Global,
    site: &mut P,
    journal: &mut Option<TierJournal>,
    place: usize,
    want: &Want,
) -> Result<(), Reply>
    requires { IsSound tier.old }
    ensures brings { PerformsOver P.Disk.state P.Disk.possible tier.old tier.new journal.old journal.new
        site.old site.new (stop_of result)
        (λ w w'. TriesFirst (BringsWhole place (want_seen want.now)) w w' (stop_of result)) }
    ensures none { journal.old ≡ None → journal.new ≡ None }
    ensures sessions { tier.new.sessions ≡ tier.old.sessions }
    ensures sound { IsSound tier.new }
    ensures cause { IsStopCausedOver journal.old
        (P.Disk.state site.old)
        (P.Disk.state site.new)
        (stop_of result) }
{
    group_engine::bringing::bring_whole(tier, alloc, site, journal, place, want)
}
