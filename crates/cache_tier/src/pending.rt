//! The virtual state at a key, as pending transactions and the backing database tell it. This project's rule.

ghost use Rattle.std.specs.Prelude.{◌≡◌, ◌++◌, List, Some};
ghost use Rattle.row_types.specs.declared.value.Value.{Value};
ghost use Rattle.tier_base.specs.declared.number.TableId.{TableId};
ghost use Rattle.table_state.specs.Histories.{state_of};
ghost use Rattle.table_state.specs.Tables.{TableState};
ghost use Rattle.order_laws.specs.Commits.{virtual_state};
ghost use Rattle.order_laws.specs.Effects.{row_at};
ghost use Rattle.cache_tier.specs.Shown.{written_on};
ghost use Rattle.cache_tier.specs.TierStates.{Session, session_of};
ghost use Rattle.cache_tier.specs.Worlds.{World};
ghost use Rattle.cache_tier.specs.Pending.{last_written, pending_ops};
ghost use Rattle.cache_tier.specs.StandingBetween.{Stands};

/// The row of the virtual state at a key is what the last pending operation there leaves, or, where there is none, the
/// bank's row (`row`); with a session's own writes over it, these come last (`own`).
pub fn pending_row_law()
    ensures row { (w : World) (backing v : TableState) (t : TableId) (key : List Value) → Stands w
        → state_of w.history ≡ Some backing → virtual_state w.history w.tier.log ≡ Some v
        → row_at v t key ≡ last_written w.tier.schema t key (pending_ops w) (row_at backing t key) }
    ensures own { (w : World) (s : Session) (backing : TableState) (t : TableId) (key : List Value) → Stands w
        → session_of w.tier s.label ≡ Some s → state_of w.history ≡ Some backing
        → row_at (written_on s w.history w.tier) t key
        ≡ last_written w.tier.schema t key (pending_ops w ++ s.own) (row_at backing t key) }
{}
