//! How an engine is opened with its journal.

ghost use Rattle.std.specs.Prelude.{◌≡◌, IfErr, IfOk, None, true};
ghost use Rattle.cache_engine.specs.Engines.{IsInOrder};
ghost use Rattle.cache_engine.specs.Opening.{OpensOver, has_journal};
ghost use Rattle.tier_opening.specs.Leaving.{FailsLeaving};
ghost use Rattle.tier_opening.specs.Telling.{OpenIsCaused};

use crate::engine::Engine;
use outside::Site;
use std::alloc::Global;
use stored_tier::clock::Pace;
use tier_base::Moment;
pub use tier_opening::OpenError;
use tier_opening::open_tier;

/// An engine over what the site holds, with its journal: a new one where no slot is live. Nothing is in doubt.
/// `start` is its first moment, and `pace` says when work is done.
///
/// It fails as `open_tier` does, and there is no engine then. (TimesTen Cache User's Guide, "Recovery"; the journal
/// is this project's.)
pub fn open<P: Site>(
    alloc: Global,
    site: &mut P,
    start: Moment,
    pace: Pace,
) -> Result<Engine, OpenError>
    ensures opens { IfOk result (OpensOver P.Disk.state P.Disk.possible start.0 pace site.old site.new) }
    ensures doubt { IfOk result (λ engine. engine.doubt ≡ None) }
    ensures order { IfOk result IsInOrder }
    ensures journal { IfOk result (λ engine. has_journal engine.journal ≡ true) }
    ensures fails { IfErr result (λ error. FailsLeaving P.Disk.state P.Disk.possible start.0 pace site.old site.new) }
    ensures cause { OpenIsCaused start.0 pace (P.Disk.state site.old) (P.Disk.state site.new) result }
{
    match open_tier(alloc, site, start, pace) {
        Err(error) => Err(error),
        Ok(opened) => {
            let (tier, journal) = opened.into_parts();
            Ok(Engine {
                tier,
                doubt: None,
                journal: Some(journal),
            })
        }
    }
}
