//! What a commit makes of what is shown. This project's rule, over the asynchronous writethrough cache groups of the
//! TimesTen Cache User's Guide.

ghost use Rattle.std.specs.Prelude.{◌≡◌, ◌+◌, ◌≤◌, ◌^◌, Some};
ghost use Rattle.cache_tier.specs.CommitSteps.{committed_unsettled, sealed_own};
ghost use Rattle.cache_tier.specs.TierStates.{Session, session_of};
ghost use Rattle.cache_tier.specs.Worlds.{World};
ghost use Rattle.cache_tier.specs.StandingBetween.{Stands};
ghost use Rattle.cache_tier.specs.Events.{TakesOwn, with_tier};

/// A session's transaction commits, and is unsettled then: what is shown takes the session's writes, which apply over
/// it.
pub fn commit_shown_law()
    ensures { (w : World) (s : Session) → Stands w → session_of w.tier s.label ≡ Some s → w.tier.next + 1 ≤ 2 ^ 63
        → TakesOwn s.own w (with_tier (committed_unsettled (sealed_own w.tier s) s.label w.tier) w) }
{}
