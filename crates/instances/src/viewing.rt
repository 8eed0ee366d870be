//! The view of a group, and its instances.

ghost use Rattle.std.specs.Prelude.{◌≡◌, [], ◌∷◌, IfOk};
ghost use Rattle.instances.specs.Views.{instance_of, view_of, with_children};

use crate::collecting::{child_rows, root_row, root_rows};
use crate::following::followed_rows;
use crate::tree::{Child, Tree};
use expressions::row_types::Key;
use expressions::tier_base::Seq;
use std::alloc::{AllocError, Global};
use table_state::Tables;
use table_state::indexed_rows::Rows;

/// The view of a group in these tables: for each table of the tree, the root first, the rows that the group covers, by
/// primary key.
///
/// A root row is in it where the root's WHERE selects it, a child row where its own WHERE selects it and its parent row
/// is in it. A WHERE that is 120 on a row doesn't select it, and nothing is refused for it. Each row of the tables is
/// looked at once, and its parent is found by key. It fails for want of memory alone.
///
/// (TimesTen Cache User's Guide, "Cache groups"; what 120 does is this project's rule.)
pub fn view(alloc: Global, tree: &Tree, tables: &Tables) -> Result<Seq<Rows>, AllocError>
    ensures { IfOk result (λ rows. rows ≡ view_of tables.now tree.now) }
{
    let root = root_rows(alloc, tables, &tree.root)?;
    with_children(alloc, tables, tree.children.as_slice(), root)
}

/// The instance of a root key in these tables: for each table of the tree the rows of the view that are reached from
/// the root row of this key, by primary key. There are none where that row isn't in the view.
///
/// Rows are found by key and by the index by parent, so it costs what the instance has, whatever the tables have. It
/// fails for want of memory alone.
///
/// (TimesTen Cache User's Guide, "Cache instances".)
pub fn instance(
    alloc: Global,
    tree: &Tree,
    tables: &Tables,
    key: &Key,
) -> Result<Seq<Rows>, AllocError>
    ensures { IfOk result (λ rows. rows ≡ instance_of tables.now tree.now key.now) }
{
    let root = root_row(alloc, tables, &tree.root, key)?;
    with_followed(alloc, tables, tree.children.as_slice(), root)
}

// The rows of the root, and behind them what is kept of the children.
fn with_children(
    alloc: Global,
    tables: &Tables,
    children: &[Child],
    root: Rows,
) -> Result<Seq<Rows>, AllocError>
    ensures { IfOk result (λ kept. kept ≡ with_children tables.now children.now (root ∷ [])) }
{
    let mut kept = Vec::new(alloc);
    kept.push(root)?;
    for child in children {
        let rows = child_rows(alloc, tables, kept.as_slice(), child)?;
        kept.push(rows)?;
    }
    Ok(Seq::from_vec(kept))
}

// The same, where the rows are found from those of their parents.
fn with_followed(
    alloc: Global,
    tables: &Tables,
    children: &[Child],
    root: Rows,
) -> Result<Seq<Rows>, AllocError>
    ensures { IfOk result (λ kept. kept ≡ with_children tables.now children.now (root ∷ [])) }
{
    let mut kept = Vec::new(alloc);
    kept.push(root)?;
    for child in children {
        let rows = followed_rows(alloc, tables, kept.as_slice(), child)?;
        kept.push(rows)?;
    }
    Ok(Seq::from_vec(kept))
}
