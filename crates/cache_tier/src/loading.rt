//! What keys that come to a writethrough group, or leave it, make of what is shown. This project's rules, over the SQL
//! Reference's LOAD and UNLOAD.

ghost use Rattle.std.specs.Prelude.{◌≡◌, ℕ, List, Bool, Some, ◌&&◌, ◌||◌, not, true, false, slice_get};
ghost use Rattle.std.specs.FinMap.{contains_key, keys};
ghost use Rattle.row_types.specs.declared.value.Value.{Value};
ghost use Rattle.indexed_rows.specs.Rows.{Table};
ghost use Rattle.cache_tier.specs.Groups.{Group, is_key, is_writethrough, with_keys};
ghost use Rattle.cache_tier.specs.Locks.{has_writes_in};
ghost use Rattle.cache_tier.specs.Sets.{alone, changed};
ghost use Rattle.cache_tier.specs.Targets.{with_flag};
ghost use Rattle.cache_tier.specs.TierStates.{Session};
ghost use Rattle.cache_tier.specs.UnloadSteps.{unloaded};
ghost use Rattle.cache_tier.specs.Worlds.{World};
ghost use Rattle.cache_tier.specs.StandingBetween.{Stands};
ghost use Rattle.cache_tier.specs.Events.{with_tier};
ghost use Rattle.cache_tier.specs.Loading.{IsUntouchedBy, MayLoad, MayUnload, ShowsKeys};

/// LOAD of a writethrough group, where nothing is unsettled: its tables are shown with the instances of the keys that
/// it had and of those that come.
pub fn load_shown_law()
    ensures { (w : World) (place : ℕ) (g : Group) (rows : Table) → Stands w → MayLoad w place g rows
        → ShowsKeys g (λ key. is_key g.keys key || contains_key rows key) w
        (with_tier (changed (alone place) (λ h. with_flag true (record h { keys = with_keys (keys rows) h.keys }))
        w.tier) w) }
{}

/// UNLOAD of a writethrough group, where no session holds the key of a row that leaves: its tables are shown with the
/// instances of the keys that stay.
pub fn unload_shown_law()
    ensures { (w : World) (place : ℕ) (g : Group) (gone : List (List Value)) (all : Bool) → Stands w
        → MayUnload w place g (with_tier (changed (alone place) (unloaded gone all) w.tier) w)
        → ShowsKeys g (λ key. is_key g.keys key && not (is_key gone key)) w
        (with_tier (changed (alone place) (unloaded gone all) w.tier) w) }
{}

/// Where a session has no writes in instances of a group, as the test of UNLOAD has it, none of the keys that it holds
/// has a row that leaves with them.
pub fn unheld_law()
    ensures { (w : World) (place : ℕ) (g : Group) (gone : List (List Value)) (all : Bool) (test : List Value → Bool)
        (s : Session) → Stands w → slice_get w.tier.groups place ≡ Some g → is_writethrough g ≡ true
        → ((key : List Value) → is_key gone key ≡ test key) → has_writes_in w.history w.tier g test s ≡ false
        → IsUntouchedBy w (with_tier (changed (alone place) (unloaded gone all) w.tier) w) s }
{}
