//! Laws of the definitions, each on the contract of a function that does nothing.

ghost use Rattle.std.specs.Prelude.{◌≡◌, ℕ, List, Some, filter, if◌then◌else◌, map, not};
ghost use Rattle.std.specs.Option.{option_and_then};
ghost use Rattle.session_state.specs.table_defs.specs.declared.definition.TableDef.{TableDef};
ghost use Rattle.session_state.specs.table_state.specs.declared.operation.Op.{Op};
ghost use Rattle.session_state.specs.own_rows.specs.Knowing.{Knows};
ghost use Rattle.session_state.specs.Locks.{holder_of};
ghost use Rattle.session_state.specs.Meeting.{blocker_of};
ghost use Rattle.session_state.specs.Sessions.{OpenSession};
ghost use Rattle.open_sessions.specs.declared.sessions.Sessions.{Sessions};
ghost use Rattle.open_sessions.specs.Lookups.{has_label, of_label, of_number};
ghost use Rattle.open_sessions.specs.Opening.{AreSessions, closed, on_session, seen_all};

/// What holds of the sessions under a schema holds under each that knows it. So where a table is defined while sessions
/// are open, no call is needed. (This project's rule: a definition never leaves.)
pub fn grown_law()
    ensures { (schema more : List TableDef) (s : Sessions) → Knows schema more → AreSessions schema s
        → AreSessions more s }
{}

/// Number and label tell the same session: what is done to the session of a number is done to that of its label
/// (`change`), and the others by number are the others by label (`closed`).
pub fn label_law()
    ensures number { (schema : List TableDef) (s : Sessions) (label : List ℕ) (x : OpenSession) → AreSessions schema s
        → of_label label (seen_all s) ≡ Some x → of_number x.id (seen_all s) ≡ Some x }
    ensures change { (schema : List TableDef) (s : Sessions) (label : List ℕ) (x : OpenSession) → AreSessions schema s
        → of_label label (seen_all s) ≡ Some x → (f : OpenSession → OpenSession)
        → on_session x.id f (seen_all s) ≡ map (λ y. if has_label label y then f y else y) (seen_all s) }
    ensures closed { (schema : List TableDef) (s : Sessions) (label : List ℕ) (x : OpenSession) → AreSessions schema s
        → of_label label (seen_all s) ≡ Some x
        → closed x.id (seen_all s) ≡ filter (λ y. not (has_label label y)) (seen_all s) }
{}

/// The session of the number that `holder` gives is the one at whose row lock the operations stop, of those with other
/// labels, in the order of opening. (This project's rule: a lock is never waited for.)
pub fn meeting_law()
    ensures { (schema : List TableDef) (s : Sessions) (label : List ℕ) (x : OpenSession) (ops : List Op)
        → AreSessions schema s → of_label label (seen_all s) ≡ Some x
        → option_and_then (λ id. of_number id (seen_all s)) (holder_of (Some x.id) schema (seen_all s) ops)
        ≡ blocker_of schema (filter (λ y. not (has_label label y)) (seen_all s)) ops }
{}
