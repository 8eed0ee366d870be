//! A law of the stored tier between two lines, on the contract of a function that does nothing. It is this project's
//! rule.

ghost use Rattle.std.specs.Prelude.{◌≡◌, Option, true};
ghost use Rattle.cache_tier.specs.Worlds.{IsUnshared, World};
ghost use Rattle.run_laws.specs.Lines.{MayGoOn, are_later};
ghost use Rattle.session_engine.specs.Doubting.{IsLeft};
ghost use Rattle.session_engine.specs.declared.doubt.Doubt.{Doubt};
ghost use Rattle.stored_tier.specs.declared.tier.Tier.{Tier as Stored};
ghost use Rattle.stored_tier.specs.Stored.{IsSound};

/// Where the stored tier is left so in a world, with a commit in doubt, or a write that was passed on, or nothing, a
/// line may come there (`goes_on`), and what is unsettled is on tables of asynchronous groups (`later`).
pub fn left_law()
    ensures goes_on { (t : Stored) (doubt : Option Doubt) (w : World) → IsSound t → IsLeft t doubt w → IsUnshared w
        → MayGoOn w }
    ensures later { (t : Stored) (doubt : Option Doubt) (w : World) → IsSound t → IsLeft t doubt w
        → are_later w.tier.groups w.tier.unsettled ≡ true }
{}
