//! What a cache group covers of the backing tables.

ghost use Rattle.std.specs.Prelude.{◌≡◌, ◌+◌, [], None, position};
ghost use Rattle.instances.specs.Trees.{are_sound, is_parent, is_place, is_sound, is_sound_child, place_of, same_table, table_of};

use expressions::Cond;
use expressions::tier_base::{Seq, TableId};
use std::alloc::Global;
use table_state::table_defs::{BackingSchema, ForeignKey};

/// The root table of a group.
pub struct Root {
    /// The table.
    pub table: TableId,
    /// Its WHERE, where it has one.
    pub filter: Option<Cond>,
}

impl Drop for Root {
    fn drop(self) {
        let Self {
            table: _,
            filter: _,
        } = self;
    }
}

/// A child table of a group.
pub struct Child {
    /// The table.
    pub table: TableId,
    /// Its WHERE, where it has one.
    pub filter: Option<Cond>,
    /// The place of the table that its foreign key refers to: 0 for the root, 1 for the first child.
    pub parent: usize,
}

impl Drop for Child {
    fn drop(self) {
        let Self {
            table: _,
            filter: _,
            parent: _,
        } = self;
    }
}

/// What a group covers: a root table, and child tables, each behind the one that it refers to.
///
/// (TimesTen Cache User's Guide, "Cache groups".)
pub struct Tree {
    /// The root table, at place 0.
    pub root: Root,
    /// The child tables, from place 1 on.
    pub children: Seq<Child>,
}

impl Drop for Tree {
    fn drop(self) {
        let Self {
            root: _,
            children: _,
        } = self;
    }
}

impl Tree {
    /// One table without condition. It takes no memory.
    pub fn of_table(alloc: Global, table: TableId) -> Tree
        ensures { result ≡ record { root = record { table = table; filter = None }; children = [] } }
    {
        Tree {
            root: Root {
                table,
                filter: None,
            },
            children: Seq::new(alloc),
        }
    }

    /// The place of a table, 0 for the root; none where the tree doesn't cover the table.
    pub fn place_of(&self, table: TableId) -> Option<usize>
        ensures { result ≡ place_of self.now table }
    {
        if self.root.table.0 == table.0 {
            return Some(0);
        }
        match place_among(self.children.as_slice(), table) {
            None => None,
            Some(place) => Some(place + 1),
        }
    }

    /// The table at a place, none past the last.
    pub fn table_of(&self, place: usize) -> Option<TableId>
        ensures { result ≡ table_of self.now place }
    {
        if place == 0 {
            return Some(self.root.table);
        }
        match self.children.get(place - 1) {
            None => None,
            Some(child) => Some(child.table),
        }
    }

    /// Whether the tree has the form that a group needs over this schema: the root table is there, each table stands in
    /// it once, and each child's foreign key refers to the table at its parent's place, which stands before it.
    pub fn is_sound(&self, schema: &BackingSchema) -> bool
        ensures { result ≡ is_sound schema.now self.now }
    {
        if schema.get(self.root.table.0 as usize).is_none() {
            return false;
        }
        are_sound(schema, self, self.children.as_slice())
    }
}

fn are_sound(schema: &BackingSchema, tree: &Tree, children: &[Child]) -> bool
    ensures { result ≡ are_sound schema.now tree.now 0 children.now }
{
    for (place, child) in children.iter().enumerate() {
        if !is_sound_child(schema, tree, place, child) {
            return false;
        }
    }
    true
}

fn place_among(children: &[Child], table: TableId) -> Option<usize>
    ensures { result ≡ position (λ child. same_table child.table table) children.now }
{
    children
        .iter()
        .position(|child| same_table(child.table, table))
}

fn same_table(a: TableId, b: TableId) -> bool
    ensures { result ≡ same_table a b }
{
    a.0 == b.0
}

fn is_sound_child(schema: &BackingSchema, tree: &Tree, place: usize, child: &Child) -> bool
    ensures { result ≡ is_sound_child schema.now tree.now place child.now }
{
    if !is_behind(place, tree.place_of(child.table)) || child.parent > place {
        return false;
    }
    match schema.get(child.table.0 as usize) {
        None => is_parent(tree.table_of(child.parent), &None),
        Some(def) => is_parent(tree.table_of(child.parent), &def.foreign_key),
    }
}

// Whether the other place is the next one.
fn is_behind(place: usize, other: Option<usize>) -> bool
    ensures { result ≡ is_place (place + 1) other }
{
    match other {
        None => false,
        Some(other) => other > 0 && other - 1 == place,
    }
}

fn is_parent(table: Option<TableId>, foreign_key: &Option<ForeignKey>) -> bool
    ensures { result ≡ is_parent table foreign_key.now }
{
    match (table, foreign_key) {
        (Some(table), Some(foreign)) => same_table(foreign.parent, table),
        _ => false,
    }
}
