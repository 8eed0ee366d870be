//! The root key that a row is reached from, over any tables that can be scanned.

ghost use Rattle.std.specs.Prelude.{◌≡◌, IfOk, None, Some, if◌then◌else◌};
ghost use Rattle.std.specs.FinMap as map;
ghost use Rattle.table_defs.specs.Declarations.{foreign_places};
ghost use Rattle.table_state.specs.Tables.{table_at};
ghost use Rattle.instances.specs.Roots.{parent_key, root_of, root_within};

use indexed_rows::key_at;
use instances::{Child, Root, Tree};
use row_types::Key;
use std::alloc::{AllocError, Global};
use table_defs::ForeignKey;
use table_state::Scan;
use tier_base::TableId;

/// The key of the root row that the row of a key in this table is reached from, whatever the WHERE conditions say; none
/// where the tree doesn't cover the table, and where the row or one that it refers to isn't there.
///
/// One row is looked up by key for each table on the way. It fails for want of memory alone. (TimesTen Cache User's
/// Guide, "Cache instances".)
pub fn root_of<S: Scan>(
    alloc: Global,
    scan: &S,
    tree: &Tree,
    table: TableId,
    key: &Key,
) -> Result<Option<Key>, AllocError>
    ensures { IfOk result (λ root. root ≡ root_of (S.state scan.now) tree.now table key.now) }
{
    match tree.place_of(table) {
        None => Ok(None),
        Some(place) => root_within(alloc, tree.children.len(), scan, tree, place, key),
    }
}

// The same from the table at a place, over at most n foreign keys.
fn root_within<S: Scan>(
    alloc: Global,
    n: usize,
    scan: &S,
    tree: &Tree,
    place: usize,
    key: &Key,
) -> Result<Option<Key>, AllocError>
    ensures { IfOk result (λ root. root ≡ root_within n (S.state scan.now) tree.now place key.now) }
{
    let mut at = place;
    let mut above = key.copied(alloc)?;
    let mut left = n;
    while at > 0 && left > 0 {
        match tree.children.get(at - 1) {
            None => return Ok(None),
            Some(child) => match parent_key(alloc, scan, child, &above)? {
                None => return Ok(None),
                Some(parent) => {
                    at = child.parent;
                    above = parent;
                }
            },
        }
        left -= 1;
    }
    if at == 0 {
        root_key(alloc, scan, &tree.root, &above)
    } else {
        Ok(None)
    }
}

// The key itself, where it has a root row.
fn root_key<S: Scan>(
    alloc: Global,
    scan: &S,
    root: &Root,
    key: &Key,
) -> Result<Option<Key>, AllocError>
    ensures { IfOk result (λ found. found
        ≡ (if map.contains_key (table_at (S.state scan.now) root.now.table) key.now then Some key.now else None)) }
{
    match scan.find(root.table, key) {
        None => Ok(None),
        Some(_) => {
            let key = key.copied(alloc)?;
            Ok(Some(key))
        }
    }
}

// The key that the foreign key of this key's row names.
fn parent_key<S: Scan>(
    alloc: Global,
    scan: &S,
    child: &Child,
    key: &Key,
) -> Result<Option<Key>, AllocError>
    ensures { IfOk result (λ found. found ≡ parent_key (S.state scan.now) child.now key.now) }
{
    match (
        scan.find(child.table, key),
        scan.schema().get(child.table.0 as usize),
    ) {
        (Some(row), Some(def)) => {
            let parent = key_at(alloc, foreign_places(&def.foreign_key), row)?;
            Ok(Some(parent))
        }
        _ => Ok(None),
    }
}

// The columns of a foreign key; none where there is none.
fn foreign_places(foreign_key: &Option<ForeignKey>) -> &[usize]
    ensures { result.now ≡ foreign_places foreign_key.now }
{
    match foreign_key {
        None => &[],
        Some(foreign) => foreign.columns.as_slice(),
    }
}
