//! What a dynamic load makes of what is shown. This project's rules, over the TimesTen Cache User's Guide, "Dynamically
//! loading a cache instance".

ghost use Rattle.std.specs.Prelude.{ℕ, Some, ◌||◌};
ghost use Rattle.table_state.specs.Tables.{TableState};
ghost use Rattle.cache_tier.specs.Bringing.{MayBring, MayJoin};
ghost use Rattle.cache_tier.specs.DynamicLoads.{found_root, state_loaded, with_found_at};
ghost use Rattle.cache_tier.specs.Groups.{Group, is_key};
ghost use Rattle.cache_tier.specs.Loading.{ShowsKeys};
ghost use Rattle.cache_tier.specs.Sets.{alone, changed, of_set, refreshed};
ghost use Rattle.cache_tier.specs.Wants.{Want};
ghost use Rattle.cache_tier.specs.Worlds.{World};
ghost use Rattle.cache_tier.specs.StandingBetween.{Stands};
ghost use Rattle.cache_tier.specs.Events.{with_tier};

/// The instance that is wanted comes to a writethrough group, where nothing is unsettled: its tables are shown with the
/// instances of the keys that it had and of the root that is found (`written`). A READONLY group has its whole set
/// refreshed with it, and is ON then: the tier stands (`read_only`).
pub fn bring_shown_law()
    ensures written { (w : World) (place : ℕ) (g : Group) (want : Want) (s : TableState) → Stands w
        → MayBring w place g s
        → ShowsKeys g (λ key. is_key g.keys key || is_key (found_root s g want) key) w
        (with_tier (with_found_at place s want w.tier) w) }
    ensures read_only { (w : World) (place : ℕ) (g : Group) (want : Want) (n : ℕ) (s : TableState) → Stands w
        → MayJoin w place g n s
        → Stands (with_tier (with_found_at place s want (changed (alone place) state_loaded
        (refreshed (of_set g.def.interval (Some place)) n s w.tier))) w) }
{}
