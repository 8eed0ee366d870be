//! Laws of operations, of transactions and of their order.

ghost use Rattle.std.specs.Prelude.{◌≡◌, List, [], ◌∷◌, Some, is_some, true, false};
ghost use Rattle.table_state.specs.tier_base.specs.declared.number.TableId.{TableId};
ghost use Rattle.table_state.specs.table_defs.specs.declared.definition.TableDef.{TableDef};
ghost use Rattle.table_state.specs.declared.history.Entry.{Entry};
ghost use Rattle.table_state.specs.declared.history.Sealed.{Sealed};
ghost use Rattle.table_state.specs.declared.operation.Op.{Op};
ghost use Rattle.table_state.specs.Independence.{AreApart};
ghost use Rattle.table_state.specs.Operations.{applied, applied_all, table_of};
ghost use Rattle.table_state.specs.Tables.{TableState};
ghost use Rattle.order_laws.specs.Commits.{LiveGroup, NoneConflicts, applied_sealed, ops_conflict, ops_on};
ghost use Rattle.order_laws.specs.Effects.{AgreeFor, HasWritten, LeaveAlone};
ghost use Rattle.order_laws.specs.Laws.{GoesFirst, HasBoth, LegalStays, VirtualStays};
ghost use Rattle.order_laws.specs.Sides.{AgreeOn, IsClosed, LeadsAlike, LeadsBeside, SidesApart, are_on};

/// Whether an operation applies depends only on the rows at the keys of its footprint, and on whether some row names a
/// key that it writes as its parent's (`applies`). It leaves its row at the keys that it writes and keeps all other
/// rows; a key that none of its rows names as a parent's has a child exactly where it had one (`effect`). This
/// project's rule over the SQL Reference's INSERT, UPDATE and DELETE.
pub fn effect_law()
    ensures applies { (op : Op) (s n : TableState) → AgreeFor op s n → is_some (applied op n) ≡ is_some (applied op s) }
    ensures effect { (op : Op) (s n : TableState) → applied op s ≡ Some n → HasWritten op s n }
{}

/// Operations without conflict leave one another alone at every state: they commute, defined or not, and whether one
/// applies is the same behind the other (`one`, `all`). Operations on two tables of which none refers to the other
/// have no conflict (`tables`). This project's rule.
pub fn apart_law()
    ensures one { (a b : Op) (s : TableState) → ops_conflict s.schema (a ∷ []) (b ∷ []) ≡ false
        → LeaveAlone (applied a) (applied b) s }
    ensures all { (xs ys : List Op) (s : TableState) → ops_conflict s.schema xs ys ≡ false
        → LeaveAlone (applied_all xs) (applied_all ys) s }
    ensures tables { (schema : List TableDef) (a b : Op) → AreApart schema (table_of a) (table_of b)
        → ops_conflict schema (a ∷ []) (b ∷ []) ≡ false }
{}

/// A transaction goes past a list of others with which it has no conflict (`past`), also where more follow (`first`).
/// This project's rule.
pub fn past_law()
    ensures past { (xs : List Sealed) (j : Sealed) (s : TableState) → NoneConflicts s.schema xs j
        → LeaveAlone (applied_sealed xs) (applied_all j.ops) s }
    ensures first { GoesFirst }
{}

/// Where no foreign key joins these tables with others, operations on these have no conflict with operations on others
/// (`apart`). What applies does so by its operations on these tables alone, over each state that has the same rows
/// there, and leaves the same there (`alone`); so do operations on these tables only (`over`). TimesTen Cache User's
/// Guide: a cache group has all tables that its foreign keys join; the rest is this project's rule.
pub fn sides_law()
    ensures apart { (on : List TableId) (schema : List TableDef) → IsClosed on schema → SidesApart on schema }
    ensures alone { (on : List TableId) (ops : List Op) (s t n : TableState) → LeadsBeside on ops s t n
        → LeadsAlike on (ops_on on ops) n t }
    ensures over { (on : List TableId) (ops : List Op) (s t n : TableState) → LeadsBeside on ops s t n
        → are_on on ops ≡ true → LeadsAlike on ops n t }
{}

/// Any legal order ends as commit order does. In a writethrough group's tables the virtual state is what the others'
/// entries leave with all of the group's transactions in ticket order behind (`order`). Where a pending transaction
/// comes that no lower pending one conflicts with, the virtual state stays (`virtual_stays`), and the history stays
/// legal (`legal_stays`). This project's rule.
pub fn order_law()
    ensures order { (g : LiveGroup) (h : List Entry) (log : List Sealed) (v o : TableState) → HasBoth g h log v o
        → AgreeOn g.tables v o }
    ensures virtual_stays { VirtualStays }
    ensures legal_stays { LegalStays }
{}
