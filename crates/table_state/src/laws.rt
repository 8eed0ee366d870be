//! Laws of the definitions, each on the contract of a function that does nothing.

ghost use Rattle.std.specs.Prelude.{◌≡◌, ◌+◌, ◌++◌, ◌≤◌, ◌||◌, ℕ, List, None, Some, is_some, length, slice_get, true};
ghost use Rattle.std.specs.Option.{option_and_then, option_map, option_or};
ghost use Rattle.table_defs.specs.declared.definition.TableDef.{TableDef};
ghost use Rattle.table_state.specs.declared.history.Entry.{Entry};
ghost use Rattle.table_state.specs.declared.operation.Op.{Op};
ghost use Rattle.table_state.specs.declared.refusal.ApplyError.{ApplyError};
ghost use Rattle.table_state.specs.Histories.{has_ticket, is_of, no_tables, position_of, state_from, state_of};
ghost use Rattle.table_state.specs.Independence.{IsWhole, with_new};
ghost use Rattle.table_state.specs.Operations.{applied, applied_all};
ghost use Rattle.table_state.specs.Refusals.{broken_by, broken_by_all};
ghost use Rattle.table_state.specs.Sound.{IsTableState, RefersBack};
ghost use Rattle.table_state.specs.Tables.{TableState};

/// An operation, and a list of them, applies exactly where it breaks no rule.
pub fn refusal_law()
    ensures applies { (op : Op) (s : TableState) → broken_by op s ≡ None → is_some (applied op s) ≡ true }
    ensures refuses { (op : Op) (s : TableState) (e : ApplyError) → broken_by op s ≡ Some e → applied op s ≡ None }
    ensures all_refuse { (ops : List Op) (s : TableState) (e : ApplyError) → broken_by_all ops s ≡ Some e
        → applied_all ops s ≡ None }
{}

/// What comes of a list with another behind it.
pub fn append_law()
    ensures operations { (xs ys : List Op) (s : TableState)
        → applied_all (xs ++ ys) s ≡ option_and_then (applied_all ys) (applied_all xs s) }
    ensures entries { (xs ys : List Entry) (s : TableState)
        → state_from (xs ++ ys) s ≡ option_and_then (state_from ys) (state_from xs s) }
    ensures history { (xs ys : List Entry) → state_of (xs ++ ys) ≡ option_and_then (state_from ys) (state_of xs) }
    ensures tickets { (ticket : ℕ) (xs ys : List Entry)
        → has_ticket ticket (xs ++ ys) ≡ (has_ticket ticket xs || has_ticket ticket ys) }
{}

/// A ticket has a position where it stands. The entry before the position has it, and the position stays when entries
/// come behind.
pub fn position_law()
    ensures stands { (ticket : ℕ) (h : List Entry) → has_ticket ticket h ≡ is_some (position_of ticket h) }
    ensures within { (ticket : ℕ) (h : List Entry) (n : ℕ) → position_of ticket h ≡ Some n → n ≤ length h }
    ensures entry { (ticket : ℕ) (h : List Entry) (n : ℕ) → position_of ticket h ≡ Some n
        → (k : ℕ) × (entry : Entry) × (n ≡ k + 1) × (slice_get h k ≡ Some entry) × (is_of ticket entry ≡ true) }
    ensures append { (ticket : ℕ) (xs ys : List Entry)
        → position_of ticket (xs ++ ys) ≡ option_or (position_of ticket xs)
        (option_map (λ n. length xs + n) (position_of ticket ys)) }
{}

/// What applies to a state does so with a table without rows behind the others, and gives the same with that table. A
/// history leaves a table for each definition, and operations keep that.
pub fn later_table_law()
    ensures one { (op : Op) (def : TableDef) (s n : TableState) → IsWhole s → applied op s ≡ Some n
        → applied op (with_new def s) ≡ Some (with_new def n) }
    ensures all { (ops : List Op) (def : TableDef) (s n : TableState) → IsWhole s → applied_all ops s ≡ Some n
        → applied_all ops (with_new def s) ≡ Some (with_new def n) }
    ensures whole { (entries : List Entry) (s n : TableState) → state_from entries s ≡ Some n → IsWhole s → IsWhole n }
{}

/// No tables are a table state, and operations and definitions leave one: rows stand under their primary keys and fit
/// their columns, and each foreign key names a row of an earlier table. A definition refers to an earlier table, as
/// `TableDef::check` finds.
pub fn table_state_law()
    ensures none { IsTableState no_tables }
    ensures one { (op : Op) (s n : TableState) → applied op s ≡ Some n → IsTableState s → IsTableState n }
    ensures all { (ops : List Op) (s n : TableState) → applied_all ops s ≡ Some n → IsTableState s → IsTableState n }
    ensures define { (def : TableDef) (s : TableState) → RefersBack (length s.schema) def → IsTableState s
        → IsTableState (with_new def s) }
{}
