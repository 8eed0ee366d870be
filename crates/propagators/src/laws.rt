//! What a round leaves of a pipeline.

ghost use Rattle.std.specs.Prelude.{◌≡◌, ◌++◌, ℕ, List, Some};
ghost use Rattle.order_laws.specs.Events.{Event, Follows};
ghost use Rattle.table_defs.specs.declared.definition.TableDef.{TableDef};
ghost use Rattle.table_state.specs.declared.history.Entry.{Entry};
ghost use Rattle.table_state.specs.declared.history.Sealed.{Sealed};
ghost use Rattle.tier_base.specs.declared.number.TableId.{TableId};
ghost use Rattle.propagators.specs.Rounds.{AreUnshared, Leads, Round, left_in};
ghost use Rattle.table_state.specs.Histories.{state_of};
ghost use Rattle.table_state.specs.Tables.{TableState};

/// What left in a round and what is left are what there was, in its order.
pub fn left_law()
    ensures { (shared : List TableId) (few : ℕ) (old new : List Sealed) (history later : List Entry)
        (round : Round shared few old history new later) → old ≡ left_in round.events ++ new }
{}

/// The events of a round are events of a pipeline, where others change no table of a live writethrough group, and the
/// history leaves a state. So what stood before the round stands behind it (`order_laws`, `flow_round_law`).
pub fn follow_law()
    ensures { (shared live : List TableId) (schema : List TableDef) (events : List Event) (history later : List Entry)
        (old new : List Sealed) (s : TableState) → AreUnshared live shared → state_of history ≡ Some s
        → Leads shared events history old later new → Follows schema live events history old later new }
{}
