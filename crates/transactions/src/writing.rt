//! The writes of one transaction.

ghost use Rattle.std.specs.Prelude.{◌≡◌, ◌≤◌, IfErr, IfOk, OnErr, OnOk, Some, length};
ghost use Rattle.evaluator.specs.tier_base.specs.Limits.{greatest};
ghost use Rattle.evaluator.specs.tier_base.specs.declared.limit.Limit.TheVariants.{Operations};
ghost use Rattle.evaluator.specs.table_state.specs.Keyed.{IsKeyed};
ghost use Rattle.evaluator.specs.table_state.specs.Changes.{LeadsBack};
ghost use Rattle.evaluator.specs.table_state.specs.Operations.{applied_all};
ghost use Rattle.evaluator.specs.table_state.specs.Refusals.{IsFault, broken_by_all};
ghost use Rattle.evaluator.specs.table_state.specs.Tables.{TableState};
ghost use Rattle.transactions.specs.Transactions.{Leaves, Tells, written_by, written_by_all};

use crate::written::{Written, rows_in};
use evaluator::row_types::Refused;
use evaluator::table_state::{ApplyError, Op, Tables, UndoLog};
use evaluator::tier_base::{Limit, Seq};
use evaluator::{Change, effects};
use std::alloc::Global;

/// Does the writes of a transaction, one after the other, each on the tables as those before it leave them: all of
/// them, or none. It answers the operations that it did, and how many rows it wrote.
///
/// `ApplyError::Rule` tells the first broken rule of the first write that breaks one: what `effects` refuses, where the
/// limit of operations is that of the whole transaction; then what `Tables::apply_all` refuses of its operations: 107
/// of an insert whose key has a row, 108 without the parent, 109 of a delete whose row has a child; 104 and 118 of a
/// write with another number of expressions than columns, or that changes a primary key. `ApplyError::Differs` is told
/// as `apply_all` tells it. `ApplyError::Memory` may come at any time. After an error the tables are as they were.
///
/// It costs what its own rows cost: what was done is taken back where a later write is refused.
pub fn write_all(
    alloc: Global,
    tables: &mut Tables,
    writes: &[Change],
) -> Result<Written, ApplyError>
    requires { IsKeyed tables.old }
    ensures written { IfOk result (Leaves (written_by_all writes.now tables.old) tables.new) }
    ensures refused { IfErr result (Tells (written_by_all writes.now tables.old)) }
    ensures unchanged { OnErr result (tables.new ≡ tables.old) }
    ensures applies { IfOk result (λ written. applied_all written.ops tables.old ≡ Some tables.new) }
    ensures limited { IfOk result (λ written. length written.ops ≤ greatest Operations) }
{
    let mut log = UndoLog::new(alloc);
    match write_each(alloc, tables, writes, &mut log) {
        Ok(written) => Ok(written),
        Err(error) => {
            tables.take_all_back(alloc, log);
            Err(error)
        }
    }
}

// The limit of a transaction's operations.
fn most_operations() -> usize
    ensures { result ≡ greatest Operations }
{
    Limit::Operations.number() as usize
}

/// Does the writes as `write_all` does, and notes how what is done is taken back, behind what is noted.
///
/// The errors are those of `write_all`. After an error those before it stay done, and that is noted, too: so
/// `Tables::take_all_back` leaves the tables as they were, and takes no memory.
pub fn write_each(
    alloc: Global,
    tables: &mut Tables,
    writes: &[Change],
    log: &mut UndoLog,
) -> Result<Written, ApplyError>
    requires { IsKeyed tables.old }
    ensures written { IfOk result (Leaves (written_by_all writes.now tables.old) tables.new) }
    ensures refused { IfErr result (Tells (written_by_all writes.now tables.old)) }
    ensures applies { IfOk result (λ written. applied_all written.ops tables.old ≡ Some tables.new) }
    ensures limited { IfOk result (λ written. length written.ops ≤ greatest Operations) }
    ensures back { (s : TableState) → LeadsBack log.old tables.old s → LeadsBack log.new tables.new s }
{
    let mut ops: Vec<Op> = Vec::new(alloc);
    let mut rows: usize = 0;
    for write in writes {
        let room = most_operations() - ops.len();
        let more = write_one(alloc, tables, room, write, log)?;
        let mut behind = more.ops.into_vec();
        ops.append(&mut behind)?;
        rows += more.rows;
    }
    Ok(Written {
        ops: Seq::from_vec(ops),
        rows,
    })
}

// Does one write, of whose transaction so many operations may still come.
fn write_one(
    alloc: Global,
    tables: &mut Tables,
    room: usize,
    write: &Change,
    log: &mut UndoLog,
) -> Result<Written, ApplyError>
    requires { IsKeyed tables.old }
    ensures written { IfOk result (Leaves (written_by room write.now tables.old) tables.new) }
    ensures refused { IfErr result (Tells (written_by room write.now tables.old)) }
    ensures applies { IfOk result (λ written. applied_all written.ops tables.old ≡ Some tables.new) }
    ensures limited { IfOk result (λ written. length written.ops ≤ room) }
    ensures counted { IfOk result (λ written. written.rows ≤ length written.ops) }
    ensures back { (s : TableState) → LeadsBack log.old tables.old s → LeadsBack log.new tables.new s }
{
    match effects(alloc, write, room, &*tables) {
        Err(Refused::Rule(rule)) => Err(ApplyError::Rule(rule)),
        Err(Refused::Memory) => Err(ApplyError::Memory),
        Ok(ops) => {
            apply_noted(alloc, tables, ops.as_slice(), log)?;
            let rows = rows_in(write.table, ops.as_slice());
            Ok(Written { ops, rows })
        }
    }
}

// Applies operations, all or none, and puts how they are taken back behind what is noted.
fn apply_noted(
    alloc: Global,
    tables: &mut Tables,
    ops: &[Op],
    log: &mut UndoLog,
) -> Result<(), ApplyError>
    ensures ok { OnOk result (applied_all ops.now tables.old ≡ Some tables.new) }
    ensures refused { IfErr result (IsFault (broken_by_all ops.now tables.old)) }
    ensures back { (s : TableState) → LeadsBack log.old tables.old s → LeadsBack log.new tables.new s }
{
    let mut more = tables.apply_noted(alloc, ops)?;
    match log.append(&mut more) {
        Ok(()) => Ok(()),
        Err(_) => {
            tables.take_all_back(alloc, more);
            Err(ApplyError::Memory)
        }
    }
}
