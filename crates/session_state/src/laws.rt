//! Laws of the definitions, each on the contract of a function that does nothing.

ghost use Rattle.std.specs.Prelude.{◌≡◌, ◌++◌, List, Option, Some, filter, true};
ghost use Rattle.std.specs.Option.{option_map};
ghost use Rattle.own_rows.specs.tier_base.specs.declared.number.SessionId.{SessionId};
ghost use Rattle.own_rows.specs.table_defs.specs.declared.definition.TableDef.{TableDef};
ghost use Rattle.own_rows.specs.table_state.specs.declared.operation.Op.{Op};
ghost use Rattle.own_rows.specs.table_state.specs.Footprints.{footprint_of};
ghost use Rattle.own_rows.specs.table_state.specs.Operations.{applied_all};
ghost use Rattle.own_rows.specs.table_state.specs.Sound.{IsTableState};
ghost use Rattle.own_rows.specs.table_state.specs.Tables.{TableState};
ghost use Rattle.own_rows.specs.Knowing.{Knows};
ghost use Rattle.session_state.specs.declared.session.Session.{Session};
ghost use Rattle.session_state.specs.Kept.{IsKept, are_defined};
ghost use Rattle.session_state.specs.Locks.{holder_of, is_other};
ghost use Rattle.session_state.specs.Meeting.{blocker_of};
ghost use Rattle.session_state.specs.Sessions.{OpenSession};

/// What is kept under a schema is kept under each that knows it, and the operations hold the same keys there. A schema
/// with definitions behind the others knows it. (This project's rule: a definition never leaves.)
pub fn grown_law()
    ensures kept { (schema more : List TableDef) (s : Session) → Knows schema more → IsKept schema s → IsKept more s }
    ensures footprint { (schema more : List TableDef) (ops : List Op) → Knows schema more
        → are_defined schema ops ≡ true → footprint_of more ops ≡ footprint_of schema ops }
    ensures knows { (schema more : List TableDef) → Knows schema (schema ++ more) }
{}

/// Operations that apply to a table state are defined there: each one's table is one of the schema's, and so is that of
/// its parent.
pub fn defined_law()
    ensures { (ops : List Op) (s n : TableState) → IsTableState s → applied_all ops s ≡ Some n
        → are_defined s.schema ops ≡ true }
{}

/// The number that `holder` gives is that of the session whose lock the operations meet among the others, in the order
/// of opening. (This project's rule.)
pub fn meeting_law()
    ensures { (but : Option SessionId) (schema : List TableDef) (sessions : List OpenSession) (ops : List Op)
        → holder_of but schema sessions ops
        ≡ option_map (λ s. s.id) (blocker_of schema (filter (is_other but) sessions) ops) }
{}
