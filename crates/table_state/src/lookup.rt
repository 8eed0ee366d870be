//! The key of a row of a table.

ghost use Rattle.std.specs.Prelude.{◌≡◌, IfOk};
ghost use Rattle.indexed_rows.specs.Rows.{key_of};

use indexed_rows::key_at;
use std::alloc::{AllocError, Global};
use table_defs::TableDef;
use table_defs::row_types::{Key, Row};

/// The key of a row of this table. A key of one integer takes no memory.
pub fn key_of_row(alloc: Global, def: &TableDef, row: &Row) -> Result<Key, AllocError>
    ensures { IfOk result (λ key. key ≡ key_of def.now.primary_key row.now) }
{
    key_at(alloc, def.primary_key.as_slice(), row)
}
