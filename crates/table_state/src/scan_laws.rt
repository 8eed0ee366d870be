//! Laws of the definitions, each on the contract of a function that does nothing.

ghost use Rattle.std.specs.Prelude.{◌≡◌, List, Some};
ghost use Rattle.table_state.specs.declared.history.Entry.{Entry};
ghost use Rattle.table_state.specs.declared.operation.Op.{Op};
ghost use Rattle.table_state.specs.Histories.{state_of};
ghost use Rattle.table_state.specs.Operations.{applied, applied_all};
ghost use Rattle.table_state.specs.Tables.{TableState};
ghost use Rattle.table_state.specs.Keyed.{IsKeyed};

/// Rows stand under their keys and fit the columns in each state that a history leaves, and operations keep
/// that.
pub fn keyed_law()
    ensures one { (op : Op) (s n : TableState) → applied op s ≡ Some n → IsKeyed s → IsKeyed n }
    ensures all { (ops : List Op) (s n : TableState) → applied_all ops s ≡ Some n → IsKeyed s → IsKeyed n }
    ensures history { (entries : List Entry) (s : TableState) → state_of entries ≡ Some s → IsKeyed s }
{}
