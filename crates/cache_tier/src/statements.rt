//! Statements that change which instances a writethrough group has: a law for each. TimesTen SQL Reference, "LOAD CACHE
//! GROUP", "REFRESH CACHE GROUP", "UNLOAD CACHE GROUP" and "DROP CACHE GROUP"; key lists are this project's rule.

ghost use Rattle.std.specs.Prelude.{◌&&◌, ◌||◌, not, ℕ, List, Bool};
ghost use Rattle.std.specs.FinMap.{contains_key};
ghost use Rattle.cache_tier.specs.DropSteps.{drop_answer};
ghost use Rattle.cache_tier.specs.Groups.{Group, is_explicit, is_key};
ghost use Rattle.cache_tier.specs.LoadSteps.{added_answer};
ghost use Rattle.cache_tier.specs.Reading.{backing_at};
ghost use Rattle.cache_tier.specs.RefreshSteps.{refreshed_answer};
ghost use Rattle.cache_tier.specs.Targets.{Target, matching};
ghost use Rattle.cache_tier.specs.TierStates.{Session};
ghost use Rattle.cache_tier.specs.UnloadSteps.{matching_shown, unload_answer};
ghost use Rattle.cache_tier.specs.Worlds.{World};
ghost use Rattle.cache_tier.specs.Dropping.{ShowsWithout};
ghost use Rattle.cache_tier.specs.Events.{with_tier};
ghost use Rattle.cache_tier.specs.Loading.{ShowsKeys};
ghost use Rattle.cache_tier.specs.StandingBetween.{Stands};
ghost use Rattle.cache_tier.specs.Statements.{IsDroppable, IsLoadable, IsUnloadable};

/// Instances are read and loaded, behind a round that left nothing unsettled: those that match, by LOAD (`loaded`) and
/// by REFRESH of a group that isn't dynamic (`refreshed`). The group shows these and those that it had.
pub fn load_statement_law()
    ensures loaded { (w : World) (x : Target) (n : ℕ) → Stands w → IsLoadable w x.place x.group n
        → ShowsKeys x.group (λ key. is_key x.group.keys key || contains_key (matching (backing_at w n) x) key) w
        (with_tier (added_answer x n w).0 w) }
    ensures refreshed { (w : World) (x : Target) (n : ℕ) → Stands w → IsLoadable w x.place x.group n
        → ShowsKeys x.group (λ key. is_key x.group.keys key
        || (is_explicit x.group && contains_key (matching (backing_at w n) x) key)) w
        (with_tier (refreshed_answer x n w).0 w) }
{}

/// Instances leave by UNLOAD, where no other session has uncommitted writes in one. The group shows those of its
/// list that didn't match.
pub fn unload_statement_law()
    ensures { (w : World) (s : Session) (x : Target) (all : Bool) → Stands w → IsUnloadable w s x
        → ShowsKeys x.group (λ key. is_key x.group.keys key && not (contains_key (matching_shown w x) key)) w
        (with_tier (unload_answer x all w).0 w) }
{}

/// A group goes by DROP, where no other session has uncommitted writes on its tables. They show nothing then.
pub fn drop_statement_law()
    ensures { (w : World) (s : Session) (name : List ℕ) (place : ℕ) (g : Group) → Stands w
        → IsDroppable w s name place g → ShowsWithout g w (with_tier (drop_answer name w).0 w) }
{}
