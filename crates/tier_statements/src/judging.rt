//! Whether a session's operations can be applied over what it sees.

ghost use Rattle.std.specs.Prelude.{◌≡◌, ◌+◌, ◌++◌, ◌<◌, ℕ, List, [], ◌∷◌, IsTrue, None, OnOk, length};
ghost use Rattle.table_defs.specs.Declarations.{Tells};
ghost use Rattle.table_state.specs.Independence.{IsWhole};
ghost use Rattle.table_state.specs.Refusals.{Judges, broken_by_all};
ghost use Rattle.table_state.specs.Operations.{table_of};
ghost use Rattle.table_state.specs.declared.operation.Op.{Op as OneOp};
ghost use Rattle.table_state.specs.Keyed.{IsKeyed};
ghost use Rattle.own_rows.specs.Laying.{HaveRoom};
ghost use Rattle.own_rows.specs.OwnTables.{AreRowsOf};
ghost use Rattle.own_rows.specs.Overlays.{FitsOn, overlaid};
ghost use Rattle.cache_tier.specs.Rules.{rule_of_apply};
ghost use Rattle.tier_statements.specs.Judging.{AreSmall};

use own_rows::{OwnTables, steps_of};
use row_types::Refused;
use std::alloc::{AllocError, Global};
use std::slice::from_ref;
use table_defs::BackingSchema;
use table_state::{ApplyError, Op, Scan};
use tier_base::TableId;
use transactions::{judge_delete, judge_insert, judge_update};

/// Whether operations can be applied one after the other over the tables of a scan, without changing them: each is
/// judged with those before it laid over the scan. No table is copied.
///
/// `ApplyError::Rule` tells the first rule that one of them breaks behind those before it, as `Tables::apply_all` does:
/// 107 of a key that has a row, 108 without the parent, 109 of a row with a child. `ApplyError::Differs` tells that the
/// row of an update or a deletion isn't there. `ApplyError::Memory` may come at any time, and comes where a table has
/// 2^62 rows.
pub fn judge_ops<S: Scan>(alloc: Global, scan: &S, ops: &[Op]) -> Result<(), ApplyError>
    requires whole { IsWhole (S.state scan.now) }
    requires keyed { IsKeyed (S.state scan.now) }
    ensures { Judges result (broken_by_all ops.now (S.state scan.now)) }
{
    match ops.split_first() {
        None => Ok(()),
        Some((op, others)) => {
            if others.is_empty() {
                judge_op(alloc, scan, op)
            } else {
                judge_several(alloc, scan, ops)
            }
        }
    }
}

// Whether an operation can be applied.
fn judge_op<S: Scan>(alloc: Global, scan: &S, op: &Op) -> Result<(), ApplyError>
    requires whole { IsWhole (S.state scan.now) }
    requires keyed { IsKeyed (S.state scan.now) }
    ensures { Judges result (broken_by_all (op.now ∷ []) (S.state scan.now)) }
{
    match op {
        Op::Insert(table, row) => judge_insert(alloc, *table, row, scan),
        Op::Update(table, old, new) => judge_update(alloc, *table, old, new, scan),
        Op::Delete(table, old) => judge_delete(alloc, *table, old, scan),
    }
}

// The same of several. Each is laid over the scan behind those before it.
fn judge_several<S: Scan>(alloc: Global, scan: &S, ops: &[Op]) -> Result<(), ApplyError>
    requires whole { IsWhole (S.state scan.now) }
    requires keyed { IsKeyed (S.state scan.now) }
    ensures { Judges result (broken_by_all ops.now (S.state scan.now)) }
{
    if ops.len() >= MOST || !are_small(scan) {
        return Err(ApplyError::Memory);
    }
    let mut own = OwnTables::new(alloc);
    own.widen(alloc, scan.schema())?;
    for op in ops {
        match judge_over(alloc, scan, &own, op) {
            Ok(()) => {}
            Err(error) => return Err(error),
        }
        lay_op(alloc, scan.schema(), &mut own, op)?;
    }
    Ok(())
}

// Whether an operation can be applied over a scan with own rows over it.
fn judge_over<S: Scan>(alloc: Global, scan: &S, own: &OwnTables, op: &Op) -> Result<(), ApplyError>
    requires fits { FitsOn own.now (S.state scan.now) }
    requires whole { IsWhole (overlaid own.now (S.state scan.now)) }
    requires keyed { IsKeyed (overlaid own.now (S.state scan.now)) }
    ensures { Judges result (broken_by_all (op.now ∷ []) (overlaid own.now (S.state scan.now))) }
{
    let over = own.over(scan);
    judge_op(alloc, &over, op)
}

// Lays one operation more. It fails for want of memory alone.
fn lay_op(
    alloc: Global,
    schema: &BackingSchema,
    own: &mut OwnTables,
    op: &Op,
) -> Result<(), AllocError>
    requires within { (table_of op.now).0 < length schema.now }
    requires wide { length own.old ≡ length schema.now }
    requires room { HaveRoom 1 own.old }
    ensures rows { OnOk result ((ops : List OneOp) → AreRowsOf schema.now ops own.old
        → AreRowsOf schema.now (ops ++ op.now ∷ []) own.new) }
    ensures room { OnOk result ((n : ℕ) → HaveRoom (1 + n) own.old → HaveRoom n own.new) }
    ensures long { OnOk result (length own.new ≡ length own.old) }
{
    let steps = steps_of(alloc, schema, from_ref(op))?;
    own.lay(alloc, steps);
    Ok(())
}

// More operations and more rows of a table than memory can hold.
const MOST: usize = 0x4000_0000_0000_0000;

/// Whether each table has fewer rows than memory can hold.
pub fn are_small<S: Scan>(scan: &S) -> bool
    requires { IsWhole (S.state scan.now) }
    ensures { IsTrue result → AreSmall (S.state scan.now) }
{
    for place in 0..scan.schema().len() {
        if place >= 4_294_967_296 || scan.len(TableId(place as u32)) >= MOST {
            return false;
        }
    }
    true
}

/// The rule that keeps a session's operations from being applied over what it sees: 107, 108 or 109 of the first one
/// that breaks one behind those before it; or memory was wanting. That a row isn't the one that an operation names is
/// no rule of a statement, and is answered as want of memory: where each foreign key refers to an earlier table no
/// operation of a write finds such a row, says `transactions::laws::difference_law`.
pub fn apply_fault<S: Scan>(alloc: Global, scan: &S, ops: &[Op]) -> Result<(), Refused>
    requires whole { IsWhole (S.state scan.now) }
    requires keyed { IsKeyed (S.state scan.now) }
    ensures told { Tells result (rule_of_apply (broken_by_all ops.now (S.state scan.now))) }
    ensures applies { OnOk result (broken_by_all ops.now (S.state scan.now) ≡ None) }
{
    match judge_ops(alloc, scan, ops) {
        Ok(()) => Ok(()),
        Err(ApplyError::Rule(rule)) => Err(Refused::Rule(rule)),
        Err(ApplyError::Differs(_, _, _)) => Err(Refused::Memory),
        Err(ApplyError::Memory) => Err(Refused::Memory),
    }
}
