//! What a cycle of aging makes of what is shown. This project's rule, over the TimesTen Cache User's Guide,
//! "Implementing aging on a cache group".

ghost use Rattle.std.specs.Prelude.{◌≡◌, ℕ, Some, if◌then◌else◌};
ghost use Rattle.tier_base.specs.declared.number.TableId.{TableId};
ghost use Rattle.table_state.specs.Tables.{table_at};
ghost use Rattle.instances.specs.Trees.{place_of};
ghost use Rattle.instances.specs.Views.{kept_at};
ghost use Rattle.cache_tier.specs.Aging.{after_aging, aged, is_aging_due};
ghost use Rattle.cache_tier.specs.Groups.{Group, group_over};
ghost use Rattle.cache_tier.specs.Shown.{shown, shown_state};
ghost use Rattle.cache_tier.specs.Worlds.{World};
ghost use Rattle.cache_tier.specs.StandingBetween.{Stands};
ghost use Rattle.cache_tier.specs.Events.{with_tier};

/// The groups that are due have their cycle, and the tier stands (`stands`): no instance of a writethrough group leaves
/// in which a session has uncommitted writes. Of the tables of each group is shown what it shows behind its cycle
/// (`shows`).
pub fn aging_shown_law()
    ensures stands { (w : World) → Stands w → Stands (with_tier (after_aging w.history w.tier) w) }
    ensures shows { (w : World) (g : Group) (u : TableId) (p : ℕ) → Stands w → group_over w.tier.groups u ≡ Some g
        → place_of g.def.tree u ≡ Some p → table_at (shown_state w.history (after_aging w.history w.tier)) u
        ≡ kept_at (shown w.history w.tier.log (if is_aging_due w.tier g then aged w.history w.tier g else g)) p }
{}
