//! What keys that are used leave of what is shown. This project's rule.

ghost use Rattle.std.specs.Prelude.{List};
ghost use Rattle.table_state.specs.declared.footprint.RowKey.{RowKey};
ghost use Rattle.table_state.specs.declared.operation.Op.{Op};
ghost use Rattle.table_state.specs.Tables.{TableState};
ghost use Rattle.tier_base.specs.declared.number.TableId.{TableId};
ghost use Rattle.cache_tier.specs.OwnWrites.{written};
ghost use Rattle.cache_tier.specs.Recency.{after_use, after_writes};
ghost use Rattle.cache_tier.specs.TierStates.{Session};
ghost use Rattle.cache_tier.specs.Worlds.{World};
ghost use Rattle.cache_tier.specs.StandingBetween.{Stands};
ghost use Rattle.cache_tier.specs.Events.{MayWriteMore, StaysShown, with_tier};

/// The instances of rows are used, as by a query (`rows`), or those that writes change (`writes`), over any state; and
/// both parts of a session's write, which the tests of a write let through (`written`). What is shown stays.
pub fn use_shown_law()
    ensures rows { (w : World) (s : TableState) (rows : List RowKey) → Stands w
        → StaysShown w (with_tier (after_use s rows w.tier) w) }
    ensures writes { (w : World) (step : Op → TableState → TableState) (ops : List Op) (s : TableState) → Stands w
        → StaysShown w (with_tier (after_writes step ops s w.tier) w) }
    ensures written { (w : World) (s : Session) (table : TableId) (ops : List Op) → Stands w → MayWriteMore w s ops
        → StaysShown w (with_tier (written s table ops w).0 w) }
{}
