//! What a refresh makes of what is shown. This project's rule, over the read-only cache groups of the TimesTen Cache
//! User's Guide.

ghost use Rattle.std.specs.Prelude.{ℕ};
ghost use Rattle.table_state.specs.Tables.{TableState};
ghost use Rattle.cache_tier.specs.Sets.{Choice, refreshed};
ghost use Rattle.cache_tier.specs.Worlds.{World};
ghost use Rattle.cache_tier.specs.StandingBetween.{Stands};
ghost use Rattle.cache_tier.specs.Events.{with_tier};
ghost use Rattle.cache_tier.specs.Refreshing.{MayRefresh, ShowsRefreshed};

/// READONLY groups are refreshed at one position of the history: they show of the state there what is theirs, and all
/// other tables are shown as they were.
pub fn refresh_shown_law()
    ensures { (w : World) (choice : Choice) (n : ℕ) (s : TableState) → Stands w → MayRefresh w choice n s
        → ShowsRefreshed choice s w (with_tier (refreshed choice n s w.tier) w) }
{}
