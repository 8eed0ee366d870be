//! Laws of what writes do, each on the contract of a function that does nothing.

ghost use Rattle.std.specs.Prelude.{◌≡◌, ◌<◌, ℕ, ◌∷◌, ◌++◌, [], Err, List, None, Ok, Some, false, length};
ghost use Rattle.evaluator.specs.row_types.specs.declared.declaration.TableDeclaration.{TableDeclaration};
ghost use Rattle.evaluator.specs.table_defs.specs.declared.definition.ForeignKey.{ForeignKey};
ghost use Rattle.evaluator.specs.table_defs.specs.declared.definition.TableDef.{TableDef};
ghost use Rattle.evaluator.specs.table_state.specs.declared.operation.Op.{Op};
ghost use Rattle.evaluator.specs.table_state.specs.declared.refusal.ApplyError.{ApplyError};
ghost use Rattle.evaluator.specs.table_defs.specs.Declarations.{fault_of, resolved};
ghost use Rattle.evaluator.specs.table_state.specs.Operations.{applied_all};
ghost use Rattle.evaluator.specs.table_state.specs.Refusals.{broken_by_all};
ghost use Rattle.evaluator.specs.table_state.specs.Tables.{TableState};
ghost use Rattle.evaluator.specs.table_state.specs.Keyed.{IsKeyed};
ghost use Rattle.evaluator.specs.declared.change.Change.{Change};
ghost use Rattle.evaluator.specs.Writes.{effects_of};
ghost use Rattle.transactions.specs.Differing.{RefersBack, is_difference};
ghost use Rattle.transactions.specs.Touching.{Touches};
ghost use Rattle.transactions.specs.Transactions.{Done, written_by_all};

/// Each operation of a write is on the write's table, or on a table with a foreign key, whose rows leave with others by
/// ON DELETE CASCADE. So it is of several writes. They leave the definitions as they are.
pub fn touch_law()
    ensures one { (room : ℕ) (change : Change) (s : TableState) (ops : List Op) → effects_of room change s ≡ Ok ops
        → Touches (change ∷ []) s ops }
    ensures all { (changes : List Change) (s : TableState) (done : Done) → written_by_all changes s ≡ Ok done
        → Touches changes s done.written.ops }
    ensures schema { (changes : List Change) (s : TableState) (done : Done) → written_by_all changes s ≡ Ok done
        → done.state.schema ≡ s.schema }
    ensures applies { (changes : List Change) (s : TableState) (done : Done) → written_by_all changes s ≡ Ok done
        → applied_all done.written.ops s ≡ Some done.state }
{}

/// No operation of a write finds another row at its key than the one that it names, where rows stand under their keys
/// and each foreign key refers to a table before its own. So it is of several writes.
pub fn difference_law()
    ensures one { (room : ℕ) (change : Change) (s : TableState) (ops : List Op) → IsKeyed s → RefersBack s.schema
        → effects_of room change s ≡ Ok ops → is_difference (broken_by_all ops s) ≡ false }
    ensures all { (changes : List Change) (s : TableState) (e : ApplyError) → IsKeyed s → RefersBack s.schema
        → written_by_all changes s ≡ Err e → is_difference (Some e) ≡ false }
{}

/// A table that a declaration makes refers back, as does any whose foreign key refers to a table that is there.
pub fn reference_law()
    ensures defined { (schema : List TableDef) (def : TableDef) → RefersBack schema
        → ((foreign : ForeignKey) → def.foreign_key ≡ Some foreign → foreign.parent.0 < length schema)
        → RefersBack (schema ++ def ∷ []) }
    ensures declared { (d : TableDeclaration) (schema : List TableDef) → fault_of d schema ≡ None → RefersBack schema
        → RefersBack (schema ++ resolved d schema ∷ []) }
{}
