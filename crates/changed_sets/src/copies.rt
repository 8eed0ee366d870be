//! Copies of trees.

ghost use Rattle.std.specs.Prelude.{◌≡◌, IfOk};
ghost use Rattle.instances.specs.Views.{selects};
ghost use Rattle.changed_sets.specs.Alike.{AreAlike, IsAlike};

use expressions::Cond;
use instances::{Child, Root, Tree};
use std::alloc::{AllocError, Global};
use tier_base::Seq;

/// A tree that is alike: the same tables, and conditions that select the same rows. It fails for want of memory alone.
pub(crate) fn copied_tree(alloc: Global, tree: &Tree) -> Result<Tree, AllocError>
    ensures { IfOk result (IsAlike tree.now) }
{
    let filter = copied_filter(alloc, &tree.root.filter)?;
    let children = copied_children(alloc, tree.children.as_slice())?;
    let table = tree.root.table;
    Ok(Tree {
        root: Root { table, filter },
        children,
    })
}

fn copied_children(alloc: Global, children: &[Child]) -> Result<Seq<Child>, AllocError>
    ensures { IfOk result (AreAlike children.now) }
{
    let mut copy = Vec::with_capacity(alloc, children.len())?;
    for child in children {
        let filter = copied_filter(alloc, &child.filter)?;
        let table = child.table;
        let parent = child.parent;
        copy.push(Child {
            table,
            filter,
            parent,
        })?;
    }
    Ok(Seq::from_vec(copy))
}

fn copied_filter(alloc: Global, filter: &Option<Cond>) -> Result<Option<Cond>, AllocError>
    ensures { IfOk result (λ copy. selects copy ≡ selects filter.now) }
{
    match filter {
        None => Ok(None),
        Some(cond) => {
            let cond = cond.copied(alloc)?;
            Ok(Some(cond))
        }
    }
}
