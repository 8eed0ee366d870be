//! The root key that a row is reached from.

ghost use Rattle.std.specs.Prelude.{◌≡◌, Some, None, IfOk, if◌then◌else◌};
ghost use Rattle.std.specs.FinMap as map;
ghost use Rattle.table_state.specs.Tables.{table_at};
ghost use Rattle.instances.specs.Roots.{parent_key, root_of, root_within};

use crate::collecting::foreign_places;
use crate::tree::{Child, Root, Tree};
use expressions::row_types::Key;
use expressions::tier_base::TableId;
use std::alloc::{AllocError, Global};
use table_state::indexed_rows::key_at;
use table_state::{Scan, Tables};

/// The key of the root row that the row of a key in this table is reached from, whatever the WHERE conditions say; none
/// where the tree doesn't cover the table, and where the row or one that it refers to isn't there.
///
/// One row is looked up by key for each table on the way. It fails for want of memory alone.
///
/// (TimesTen Cache User's Guide, "Cache instances".)
pub fn root_of(
    alloc: Global,
    tree: &Tree,
    tables: &Tables,
    table: TableId,
    key: &Key,
) -> Result<Option<Key>, AllocError>
    ensures { IfOk result (λ root. root ≡ root_of tables.now tree.now table key.now) }
{
    match tree.place_of(table) {
        None => Ok(None),
        Some(place) => root_within(alloc, tree.children.len(), tree, tables, place, key),
    }
}

// The same from the table at a place, over at most n foreign keys.
fn root_within(
    alloc: Global,
    n: usize,
    tree: &Tree,
    tables: &Tables,
    place: usize,
    key: &Key,
) -> Result<Option<Key>, AllocError>
    ensures { IfOk result (λ root. root ≡ root_within n tables.now tree.now place key.now) }
{
    let mut at = place;
    let mut above = key.copied(alloc)?;
    let mut left = n;
    while at > 0 && left > 0 {
        match tree.children.get(at - 1) {
            None => return Ok(None),
            Some(child) => match parent_key(alloc, tables, child, &above)? {
                None => return Ok(None),
                Some(parent) => {
                    at = child.parent;
                    above = parent;
                }
            },
        }
        left -= 1;
    }
    if at == 0 {
        root_key(alloc, tables, &tree.root, &above)
    } else {
        Ok(None)
    }
}

// The key itself, where it has a root row.
fn root_key(
    alloc: Global,
    tables: &Tables,
    root: &Root,
    key: &Key,
) -> Result<Option<Key>, AllocError>
    ensures { IfOk result (λ found. found ≡ (if map.contains_key
        (table_at tables.now root.now.table) key.now then Some key.now else None)) }
{
    match tables.find(root.table, key) {
        None => Ok(None),
        Some(_) => {
            let key = key.copied(alloc)?;
            Ok(Some(key))
        }
    }
}

// The key that the foreign key of this key's row names.
fn parent_key(
    alloc: Global,
    tables: &Tables,
    child: &Child,
    key: &Key,
) -> Result<Option<Key>, AllocError>
    ensures { IfOk result (λ found. found ≡ parent_key tables.now child.now key.now) }
{
    match (
        tables.find(child.table, key),
        tables.schema().get(child.table.0 as usize),
    ) {
        (Some(row), Some(def)) => {
            let parent = key_at(alloc, foreign_places(&def.foreign_key), row)?;
            Ok(Some(parent))
        }
        _ => Ok(None),
    }
}
