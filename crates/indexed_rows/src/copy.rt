//! A second copy of rows.

ghost use Rattle.std.specs.Prelude.{◌≡◌, IfOk};

use crate::Rows;
use std::alloc::{AllocError, Global};

/// A second copy of rows.
pub(crate) fn copied_rows(alloc: Global, rows: &Rows) -> Result<Rows, AllocError>
    ensures { IfOk result (λ copies. copies ≡ rows.now) }
{
    let mut copies = Rows::new(alloc);
    for place in 0..rows.len() {
        let (key, row) = rows.entry_at(place);
        let key = key.copied(alloc)?;
        let row = row.copied(alloc)?;
        let _ = copies.insert(key, row)?;
    }
    Ok(copies)
}
