//! Operations on rows.

ghost use Rattle.std.specs.Prelude.{◌≡◌, ◌↔◌, IfOk, IsTrue};
ghost use Rattle.table_state.specs.OpRows.{row_of};
ghost use Rattle.table_state.specs.Operations.{table_of};

use std::alloc::{AllocError, Global};
use table_defs::row_types::Row;
use table_defs::tier_base::{Seq, TableId};

/// What a transaction does, in the order in which its statements did it.
pub type Ops = Seq<Op>;

/// One change of one row.
pub enum Op {
    /// The row is new.
    Insert(TableId, Row),
    /// The first row becomes the second, which has the same primary key.
    Update(TableId, Row, Row),
    /// The row leaves.
    Delete(TableId, Row),
}

impl Drop for Op {
    fn drop(self) {
        match self {
            Self::Insert(_, _) => {}
            Self::Update(_, _, _) => {}
            Self::Delete(_, _) => {}
        }
    }
}

impl Op {
    /// The table of the row.
    pub fn table(&self) -> TableId
        ensures { result ≡ table_of self.now }
    {
        match self {
            Op::Insert(table, _) => *table,
            Op::Update(table, _, _) => *table,
            Op::Delete(table, _) => *table,
        }
    }

    /// The row that the operation leaves in the table or takes out of it: of an update the second.
    pub fn into_row(self) -> Row
        ensures { result ≡ row_of self }
    {
        match self {
            Op::Insert(_, row) => row,
            Op::Update(_, _, row) => row,
            Op::Delete(_, row) => row,
        }
    }

    /// Whether this is the same operation.
    pub fn same(&self, other: &Op) -> bool
        ensures { IsTrue result ↔ (self.now ≡ other.now) }
    {
        match (self, other) {
            (Op::Insert(a, row), Op::Insert(b, other)) => *a == *b && row.same(other),
            (Op::Update(a, old, new), Op::Update(b, other_old, other_new)) => {
                *a == *b && old.same(other_old) && new.same(other_new)
            }
            (Op::Delete(a, row), Op::Delete(b, other)) => *a == *b && row.same(other),
            _ => false,
        }
    }

    /// A second copy of the operation.
    pub fn copied(&self, alloc: Global) -> Result<Op, AllocError>
        ensures { IfOk result (λ op. op ≡ self.now) }
    {
        match self {
            Op::Insert(table, row) => {
                let row = row.copied(alloc)?;
                Ok(Op::Insert(*table, row))
            }
            Op::Update(table, old, new) => {
                let old = old.copied(alloc)?;
                let new = new.copied(alloc)?;
                Ok(Op::Update(*table, old, new))
            }
            Op::Delete(table, row) => {
                let row = row.copied(alloc)?;
                Ok(Op::Delete(*table, row))
            }
        }
    }
}

/// Whether both lists have the same operations.
pub fn same_ops(left: &[Op], right: &[Op]) -> bool
    ensures { IsTrue result ↔ (left.now ≡ right.now) }
{
    let mut these = left;
    let mut those = right;
    while let (Some((a, after_a)), Some((b, after_b))) = (
        these.split_first(),
        those.split_first(),
    ) {
        if !a.same(b) {
            return false;
        }
        these = after_a;
        those = after_b;
    }
    these.len() == those.len()
}

/// A second copy of the operations.
pub fn copied_ops(alloc: Global, ops: &[Op]) -> Result<Ops, AllocError>
    ensures { IfOk result (λ copies. copies ≡ ops.now) }
{
    let mut copies = Vec::with_capacity(alloc, ops.len())?;
    for op in ops {
        copies.push(op.copied(alloc)?)?;
    }
    Ok(Seq::from_vec(copies))
}
