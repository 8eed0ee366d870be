//! Steps by which operations change own rows: all memory is taken when they are prepared, and none when they are made.

ghost use Rattle.std.specs.Prelude.{◌≡◌, ◌<◌, ◌+◌, ◌^◌, [], All, IfOk, Some, length, slice_get, slice_set};
ghost use Rattle.std.specs.FinMap as map;
ghost use Rattle.table_state.specs.indexed_rows.specs.Rows.{key_of, put_in};
ghost use Rattle.own_rows.specs.declared.own.OwnRows.{OwnRows as Own};
ghost use Rattle.own_rows.specs.Laying.{AreReady, AreStepsOf, HasRoom, HaveRoom, IsReady, IsStepIn, IsStepOf, stepped, stepped_all};
ghost use Rattle.table_state.specs.Operations.{table_of};

use crate::own::OwnRows;
use std::alloc::{AllocError, Global};
use table_state::indexed_rows::Spare;
use table_state::row_types::Row;
use table_state::table_defs::{BackingSchema, TableDef};
use table_state::tier_base::{Seq, TableId};
use table_state::{Op, key_of_row};

/// How one operation changes the own rows of its table.
pub enum Step {
    /// A row goes in; the mark is for its key among the fresh ones.
    New(Spare, Spare),
    /// A row gets other values.
    Changed(Spare),
    /// The row of the mark's key leaves.
    Out(Spare),
}

impl Step {
    // Makes the step. It doesn't fail.
    fn make(self, alloc: Global, rows: &mut OwnRows)
        requires room { HasRoom rows.old }
        requires ready { IsReady self }
        ensures { rows.new ≡ stepped self rows.old }
    {
        match self {
            Step::New(row, mark) => rows.put_new(alloc, row, mark),
            Step::Changed(row) => rows.put_changed(alloc, row),
            Step::Out(mark) => rows.take_out(alloc, mark),
        }
    }
}

impl Drop for Step {
    fn drop(self) {
        match self {
            Self::New(_, _) => {}
            Self::Changed(_) => {}
            Self::Out(_) => {}
        }
    }
}

/// Steps on tables, in the order in which they are to be made.
pub type Steps = Seq<(TableId, Step)>;

// A key without values, with room for it.
fn mark(alloc: Global, def: &TableDef, row: &Row) -> Result<Spare, AllocError>
    ensures { IfOk result (λ spare. spare ≡ (key_of def.now.primary_key row.now, [])) }
{
    let key = key_of_row(alloc, def, row)?;
    Spare::new(alloc, key, Row::from_vec(Vec::new(alloc)))
}

// A second copy of a row under its key, with room for it.
fn kept(alloc: Global, def: &TableDef, row: &Row) -> Result<Spare, AllocError>
    ensures { IfOk result (λ spare. spare ≡ (key_of def.now.primary_key row.now, row.now)) }
{
    let key = key_of_row(alloc, def, row)?;
    let row = row.copied(alloc)?;
    Spare::new(alloc, key, row)
}

/// Takes all memory for the step of an operation.
fn prepared(alloc: Global, def: &TableDef, op: &Op) -> Result<Step, AllocError>
    ensures { IfOk result (IsStepOf def.now op.now) }
{
    match op {
        Op::Insert(_, row) => {
            let live = kept(alloc, def, row)?;
            let fresh = mark(alloc, def, row)?;
            Ok(Step::New(live, fresh))
        }
        Op::Update(_, _, new) => {
            let live = kept(alloc, def, new)?;
            Ok(Step::Changed(live))
        }
        Op::Delete(_, old) => {
            let gone = mark(alloc, def, old)?;
            Ok(Step::Out(gone))
        }
    }
}

// Makes a step on one of the tables. It doesn't fail.
fn lay(own: &mut [OwnRows], alloc: Global, table: TableId, step: Step)
    requires within { table.0 < length own.old }
    requires room { (rows : Own) → slice_get own.old table.0 ≡ Some rows → HasRoom rows }
    requires ready { IsReady step }
    ensures { (rows : Own) → slice_get own.old table.0 ≡ Some rows
        → own.new ≡ slice_set own.old table.0 (stepped step rows) }
{
    step.make(alloc, &mut own[table.0 as usize]);
}

/// Makes steps, one after another. It doesn't fail.
pub(crate) fn lay_all(own: &mut [OwnRows], alloc: Global, steps: Steps)
    requires ready { AreReady (length own.old) steps }
    requires room { HaveRoom (length steps) own.old }
    ensures { own.new ≡ stepped_all steps own.old }
{
    for one in steps.into_vec() {
        let (table, step) = one;
        lay(own, alloc, table, step);
    }
}

fn step_of(alloc: Global, schema: &BackingSchema, op: &Op) -> Result<(TableId, Step), AllocError>
    requires { (table_of op.now).0 < length schema.now }
    ensures table { IfOk result (λ one. one.0 ≡ table_of op.now) }
    ensures step { IfOk result (λ one. IsStepIn (slice_get schema.now (table_of op.now).0) op.now one.1) }
{
    let table = op.table();
    let def = &schema.as_slice()[table.0 as usize];
    let step = prepared(alloc, def, op)?;
    Ok((table, step))
}

/// Takes all memory for the steps of operations, whose tables are in the schema.
pub fn steps_of(alloc: Global, schema: &BackingSchema, ops: &[Op]) -> Result<Steps, AllocError>
    requires { All (λ op. (table_of op).0 < length schema.now) ops.now }
    ensures { IfOk result (AreStepsOf schema.now ops.now) }
{
    let mut steps = Vec::with_capacity(alloc, ops.len())?;
    for op in ops {
        steps.push(step_of(alloc, schema, op)?)?;
    }
    Ok(Seq::from_vec(steps))
}
