//! Marks: keys that are to be held, with the memory for it.

ghost use Rattle.std.specs.Prelude.{◌≡◌, IfOk, map};
ghost use Rattle.session_state.specs.Holding.{key_of_mark};

use own_rows::indexed_rows::Spare;
use own_rows::row_types::Row;
use own_rows::table_state::RowKey;
use own_rows::tier_base::{Seq, TableId};
use std::alloc::{AllocError, Global};

/// A key of a table, with room for it.
pub struct Mark {
    /// The table.
    pub table: TableId,
    /// The key. It has no values.
    pub key: Spare,
}

impl Mark {
    /// The key, with its room.
    pub(crate) fn into_key(self) -> Spare
        ensures { result ≡ self.key }
    {
        let Self { table: _, key } = self;
        key
    }
}

impl Drop for Mark {
    fn drop(self) {
        let Self { table: _, key: _ } = self;
    }
}

/// Makes room for keys.
pub(crate) fn marks(alloc: Global, keys: Seq<RowKey>) -> Result<Vec<Mark>, AllocError>
    ensures { IfOk result (λ marks. map key_of_mark marks.items ≡ keys) }
{
    let mut marks = Vec::with_capacity(alloc, keys.len())?;
    for one in keys.into_vec() {
        let table = one.table;
        let key = Spare::new(alloc, one.into_key(), Row::from_vec(Vec::new(alloc)))?;
        marks.push(Mark { table, key })?;
    }
    Ok(marks)
}
