//! What a statement wants is loaded before it runs in the cache.

ghost use Rattle.std.specs.Prelude.{◌≡◌, None};
ghost use Rattle.std.specs.Option.{option_map};
ghost use Rattle.cache_tier.specs.DynamicLoads.{LoadsWanted};
ghost use Rattle.statement_uses.specs.Wanting.{want_seen};
ghost use Rattle.stored_tier.specs.Performing.{IsStopCausedOver, PerformsOver, stop_of};
ghost use Rattle.stored_tier.specs.Stored.{IsSound};
ghost use Rattle.dynamic_loads.specs.Bringing.{TriesFirst};

use crate::bringing::bring;
use cache_tier::reply::Reply;
use outside::Site;
use session_engine::wanting::is_wanted;
use statement_uses::Want;
use std::alloc::Global;
use stored_tier::tier::Tier;
use tier_journal::TierJournal;

/// What a statement wants is brought in by the group that has its table, where that loads on demand and the wanted row
/// isn't shown; else nothing is done.
///
/// The line ends early as `bring` says. (TimesTen Cache User's Guide, "Dynamically loading a cache instance".)
pub fn load_wanted<P: Site>(
    tier: &mut Tier,
    alloc: Global,
    site: &mut P,
    journal: &mut Option<TierJournal>,
    want: &Option<Want>,
) -> Result<(), Reply>
    requires { IsSound tier.old }
    ensures loads { PerformsOver P.Disk.state P.Disk.possible tier.old tier.new journal.old journal.new
        site.old site.new (stop_of result)
        (λ w w'. TriesFirst (LoadsWanted (option_map want_seen want.now)) w w' (stop_of result)) }
    ensures none { journal.old ≡ None → journal.new ≡ None }
    ensures sessions { tier.new.sessions ≡ tier.old.sessions }
    ensures sound { IsSound tier.new }
    ensures cause { IsStopCausedOver journal.old
        (P.Disk.state site.old)
        (P.Disk.state site.new)
        (stop_of result) }
{
    match want {
        None => Ok(()),
        Some(want) => match is_wanted(tier, want) {
            None => Ok(()),
            Some(place) => bring(tier, alloc, site, journal, place, want),
        },
    }
}
