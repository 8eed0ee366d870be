//! A law of runs, on the contract of a function that does nothing.

ghost use Rattle.std.specs.Prelude.{List, Option};
ghost use Rattle.cache_tier.specs.declared.reply.Reply.{Reply as TierReply};
ghost use Rattle.cache_tier.specs.MoreFacts.{FaultsAreCaused};
ghost use Rattle.cache_tier.specs.Worlds.{World};
ghost use Rattle.cache_engine.specs.Requests.{Given, LineRun};

use cache_tier::laws::tier_law;

/// In a run each fault that is told has a failed call of its own.
pub fn caused_law()
    ensures { (w w' : World) (lines : List Given) (replies : List (Option TierReply)) → LineRun w lines replies w'
        → FaultsAreCaused w w' replies }
{
    tier_law();
}
