//! Operations by the numbers of their tables, from those by names.

ghost use Rattle.std.specs.Prelude.{◌≡◌, ◌↔◌, ◌<◌, ◌^◌, None, IfOk, IfSome, IsTrue, length};
ghost use Rattle.tier_base.specs.declared.number.TableId.{TableId as OneTable};
ghost use Rattle.tier_journal.specs.Reading.{IsReadOp, IsReadOps, name_in_op, on_table};
ghost use Rattle.tier_journal.specs.Writing.{name_in};

use journal_entries::Op as NamedOp;
use std::alloc::{AllocError, Global};
use table_defs::TableDef;
use table_state::{Op, Ops};
use tier_base::{Seq, TableId};

fn is_same(a: &[u8], b: &[u8]) -> bool
    ensures { IsTrue result ↔ (a.now ≡ b.now) }
{
    a == b
}

/// The table of this name.
fn table_named(schema: &[TableDef], name: &[u8]) -> Option<TableId>
    requires { length schema.now < 2 ^ 32 }
    ensures found { IfSome result (λ t. (t.0 < length schema.now) × (name_in schema.now t ≡ name.now)) }
    ensures none { result ≡ None → (t : OneTable) → t.0 < length schema.now → name_in schema.now t ≡ name.now → ⊥ }
{
    for place in 0..schema.len() {
        if is_same(schema[place].name.as_bytes(), name) {
            return Some(TableId(place as u32));
        }
    }
    None
}

fn name_in_op(op: &NamedOp) -> &[u8]
    ensures { result.now ≡ name_in_op op.now }
{
    match op {
        NamedOp::Insert(name, _) => name.as_slice(),
        NamedOp::Update(name, _, _) => name.as_slice(),
        NamedOp::Delete(name, _) => name.as_slice(),
    }
}

/// The operation with its table's number; none where the schema has no table of that name.
fn read_op(alloc: Global, schema: &[TableDef], op: &NamedOp) -> Result<Option<Op>, AllocError>
    requires { length schema.now < 2 ^ 32 }
    ensures { IfOk result (λ r. IsReadOp schema.now op.now r) }
{
    match table_named(schema, name_in_op(op)) {
        None => Ok(None),
        Some(table) => {
            let op = of_table(alloc, table, op)?;
            Ok(Some(op))
        }
    }
}

/// A copy of the operation, on this table.
fn of_table(alloc: Global, table: TableId, op: &NamedOp) -> Result<Op, AllocError>
    ensures { IfOk result (λ r. r ≡ on_table table op.now) }
{
    match op {
        NamedOp::Insert(_, row) => {
            let row = row.copied(alloc)?;
            Ok(Op::Insert(table, row))
        }
        NamedOp::Update(_, old, new) => {
            let old = old.copied(alloc)?;
            let new = new.copied(alloc)?;
            Ok(Op::Update(table, old, new))
        }
        NamedOp::Delete(_, row) => {
            let row = row.copied(alloc)?;
            Ok(Op::Delete(table, row))
        }
    }
}

/// The operations with their tables' numbers; none where one is of no table of the schema.
pub(crate) fn read_ops(
    alloc: Global,
    schema: &[TableDef],
    ops: &[NamedOp],
) -> Result<Option<Ops>, AllocError>
    requires { length schema.now < 2 ^ 32 }
    ensures { IfOk result (λ r. IsReadOps schema.now ops.now r) }
{
    let mut read = Vec::new(alloc);
    for op in ops {
        match read_op(alloc, schema, op)? {
            None => return Ok(None),
            Some(op) => read.push(op)?,
        }
    }
    Ok(Some(Seq::from_vec(read)))
}
