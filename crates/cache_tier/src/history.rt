//! What comes to the backing history: a law for each event. All are this project's rules.

ghost use Rattle.std.specs.Prelude.{◌++◌, ℕ, List, []};
ghost use Rattle.table_state.specs.declared.history.Entry.{Entry};
ghost use Rattle.table_state.specs.declared.history.Sealed.{Sealed};
ghost use Rattle.order_laws.specs.Standing.{live_tables};
ghost use Rattle.order_laws.specs.Events.{Event, Follows};
ghost use Rattle.outside.specs.Bank.{Grows};
ghost use Rattle.outside.specs.Others.{AreOthers, Around};
ghost use Rattle.cache_tier.specs.Worlds.{IsUnshared, World};
ghost use Rattle.cache_tier.specs.StandingBetween.{Stands, live_groups_of};
ghost use Rattle.cache_tier.specs.Events.{StaysShown, at_history, settled_to};

/// A round, also one that ends early: pending transactions come, others come between them, and those that stand in the
/// history leave the unsettled ones. What is shown stays.
pub fn round_shown_law()
    ensures { (w : World) (x : Stands w) (events : List Event) (later : List Entry) (left : List Sealed) (moment : ℕ)
        → Follows x.flow.stand.over.backing.schema (live_tables (live_groups_of w.tier.groups)) events w.history
        w.tier.unsettled later left
        → StaysShown w (settled_to left moment (at_history later w)) }
{}

/// Transactions of others, that change no table of a live writethrough group (`entries`), and a call of the bank that
/// reads, with others before and behind it (`around`). What is shown stays.
pub fn others_shown_law()
    ensures entries { (w : World) (entries : List Entry) → Stands w → IsUnshared w
        → AreOthers w.shared w.history entries → StaysShown w (at_history (w.history ++ entries) w) }
    ensures around { (w : World) (later : List Entry) → Stands w → IsUnshared w
        → Around w.shared (Grows []) w.history later → StaysShown w (at_history later w) }
{}
