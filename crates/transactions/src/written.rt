//! What writes did.

ghost use Rattle.std.specs.Prelude.{◌≡◌};
ghost use Rattle.transactions.specs.Transactions.{nothing, rows_in};

use evaluator::table_state::{Op, Ops};
use evaluator::tier_base::{Seq, TableId};
use std::alloc::Global;

/// What writes did.
#[derive(Drop)]
pub struct Written {
    /// The operations, one write's behind the other's.
    pub ops: Ops,
    /// How many rows of the named tables were written. Rows that left by ON DELETE CASCADE aren't counted.
    pub rows: usize,
}

impl Written {
    /// No writes. It takes no memory.
    pub fn nothing(alloc: Global) -> Written
        ensures { result ≡ nothing }
    {
        Written {
            ops: Seq::new(alloc),
            rows: 0,
        }
    }
}

/// How many of the operations are on rows of the table.
pub(crate) fn rows_in(table: TableId, ops: &[Op]) -> usize
    ensures { result ≡ rows_in table ops.now }
{
    ops.iter().filter(|op| op.table().0 == table.0).count()
}
