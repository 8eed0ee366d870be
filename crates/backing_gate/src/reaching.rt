//! The instance that a row is in.

ghost use Rattle.std.specs.Prelude.{◌≡◌, IfOk};
ghost use Rattle.outside.specs.Reaching.{instance_with};

use instances::{Tree, instance, root_of};
use outside::Instance;
use row_types::Key;
use std::alloc::{AllocError, Global};
use table_state::Tables;
use tier_base::TableId;

/// The instance of the root key that the row of a key is reached from, where there is one. It fails for want of memory
/// alone.
pub(crate) fn instance_with(
    alloc: Global,
    tree: &Tree,
    tables: &Tables,
    table: TableId,
    key: &Key,
) -> Result<Option<Instance>, AllocError>
    ensures { IfOk result (λ found. found ≡ instance_with tables.now tree.now table key.now) }
{
    match root_of(alloc, tree, tables, table, key)? {
        None => Ok(None),
        Some(root) => {
            let rows = instance(alloc, tree, tables, &root)?;
            Ok(Some(Instance { root, rows }))
        }
    }
}
