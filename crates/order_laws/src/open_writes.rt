//! What open sessions have written: a law for each event. All are this project's rules.

ghost use Rattle.std.specs.Prelude.{◌≡◌, ◌++◌, List, [], ◌∷◌, Some, true};
ghost use Rattle.table_state.specs.declared.operation.Op.{Op};
ghost use Rattle.table_state.specs.Operations.{applied_all};
ghost use Rattle.table_state.specs.Tables.{TableState};
ghost use Rattle.order_laws.specs.OpenWrites.{OpenWrites, WritesMore, meet_none};

/// The virtual state takes operations that conflict with no session's writes: those of others, or of a passed-on write.
pub fn open_past_law()
    ensures { (s n : TableState) (owns : List (List Op)) (ops : List Op) → OpenWrites s owns
        → meet_none s.schema ops owns ≡ true → applied_all ops s ≡ Some n → OpenWrites n owns }
{}

/// A session writes more.
pub fn open_write_law()
    ensures { (s : TableState) (before : List (List Op)) (own more : List Op) (behind : List (List Op))
        → OpenWrites s (before ++ own ∷ behind) → WritesMore s before own more behind
        → OpenWrites s (before ++ (own ++ more) ∷ behind) }
{}

/// A session commits: the virtual state takes its writes, and it has none (`commit`). It takes its writes back
/// (`rollback`).
pub fn open_end_law()
    ensures commit { (s n : TableState) (before : List (List Op)) (own : List Op) (behind : List (List Op))
        → OpenWrites s (before ++ own ∷ behind) → applied_all own s ≡ Some n → OpenWrites n (before ++ [] ∷ behind) }
    ensures rollback { (s : TableState) (before : List (List Op)) (own : List Op) (behind : List (List Op))
        → OpenWrites s (before ++ own ∷ behind) → OpenWrites s (before ++ [] ∷ behind) }
{}

/// A session opens, the last of them (`opens`). It closes, with what it had written (`closes`).
pub fn open_session_law()
    ensures opens { (s : TableState) (owns : List (List Op)) → OpenWrites s owns → OpenWrites s (owns ++ [] ∷ []) }
    ensures closes { (s : TableState) (before : List (List Op)) (own : List Op) (behind : List (List Op))
        → OpenWrites s (before ++ own ∷ behind) → OpenWrites s (before ++ behind) }
{}
