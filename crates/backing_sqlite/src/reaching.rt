//! The instance that a row is in.

use crate::fault::StoreFault;
use crate::reading::{entries, row_at};
use crate::shelf::Shelf;
use crate::store::{Base, Store, TakesRows, end_reading};
use crate::values::{lent_all, row_of};
use indexed_rows::{Rows, key_at};
use instances::{Child, Root, Tree, foreign_places, selects};
use outside::{Instance, Reached};
use row_types::{Key, Row};
use std::alloc::Global;
use table_defs::TableDef;
use table_state::key_of_row;
use tier_base::{Position, Seq, TableId};

/// The instance that the row of a key is in, with the number of entries, read in a transaction of its own.
pub(crate) fn reach(
    alloc: Global,
    base: &mut Base,
    shelf: &Shelf,
    tree: &Tree,
    table: TableId,
    key: &Key,
) -> Result<Reached, StoreFault> {
    match base.begin() {
        Ok(mut tx) => {
            let found = reach_in(alloc, &mut tx, shelf, tree, table, key);
            end_reading(tx);
            found
        }
        Err(fault) => Err(fault),
    }
}

fn reach_in<S: Store>(
    alloc: Global,
    tx: &mut S,
    shelf: &Shelf,
    tree: &Tree,
    table: TableId,
    key: &Key,
) -> Result<Reached, StoreFault> {
    match entries(tx) {
        Ok(count) => match instance_with(alloc, tx, shelf, tree, table, key) {
            Ok(instance) => Ok(Reached {
                position: Position(count),
                instance,
            }),
            Err(fault) => Err(fault),
        },
        Err(fault) => Err(fault),
    }
}

fn instance_with<S: Store>(
    alloc: Global,
    tx: &mut S,
    shelf: &Shelf,
    tree: &Tree,
    table: TableId,
    key: &Key,
) -> Result<Option<Instance>, StoreFault> {
    match root_of(alloc, tx, shelf, tree, table, key) {
        Ok(None) => Ok(None),
        Ok(Some(root)) => instance_at(alloc, tx, shelf, tree, root).map(Some),
        Err(fault) => Err(fault),
    }
}

fn instance_at<S: Store>(
    alloc: Global,
    tx: &mut S,
    shelf: &Shelf,
    tree: &Tree,
    root: Key,
) -> Result<Instance, StoreFault> {
    match rows_under(alloc, tx, shelf, tree, &root) {
        Ok(rows) => Ok(Instance { root, rows }),
        Err(fault) => Err(fault),
    }
}

/// The key of the root row that the row of a key is reached from, whatever the WHERE conditions say. It goes over at
/// most as many foreign keys as the tree has children.
pub(crate) fn root_of<S: Store>(
    alloc: Global,
    tx: &mut S,
    shelf: &Shelf,
    tree: &Tree,
    table: TableId,
    key: &Key,
) -> Result<Option<Key>, StoreFault> {
    let Some(start) = tree.place_of(table) else {
        return Ok(None);
    };
    let mut place = start;
    let mut key = key.copied(alloc)?;
    match climb(alloc, tx, shelf, tree, &mut place, &mut key) {
        Ok(()) => if_root(alloc, tx, shelf, tree, place, key),
        Err(fault) => Err(fault),
    }
}

// Goes from a place and a key of it over foreign keys, as far up as there are rows.
fn climb<S: Store>(
    alloc: Global,
    tx: &mut S,
    shelf: &Shelf,
    tree: &Tree,
    place: &mut usize,
    key: &mut Key,
) -> Result<(), StoreFault> {
    for _ in 0..tree.children.len() {
        match above(alloc, tx, shelf, tree, *place, key) {
            Ok(None) => return Ok(()),
            Ok(Some((parent, parent_key))) => {
                *place = parent;
                *key = parent_key;
            }
            Err(fault) => return Err(fault),
        }
    }
    Ok(())
}

// The place of the parent table, and the key that the foreign key of this place's key names; none at the root, and
// where there is none.
fn above<S: Store>(
    alloc: Global,
    tx: &mut S,
    shelf: &Shelf,
    tree: &Tree,
    place: usize,
    key: &Key,
) -> Result<Option<(usize, Key)>, StoreFault> {
    if place == 0 {
        return Ok(None);
    }
    let Some(child) = tree.children.get(place - 1) else {
        return Ok(None);
    };
    match parent_key(alloc, tx, shelf, child.table, key) {
        Ok(None) => Ok(None),
        Ok(Some(above)) => Ok(Some((child.parent, above))),
        Err(fault) => Err(fault),
    }
}

// The key, where it is one of the root table's and its row is there.
fn if_root<S: Store>(
    alloc: Global,
    tx: &mut S,
    shelf: &Shelf,
    tree: &Tree,
    place: usize,
    key: Key,
) -> Result<Option<Key>, StoreFault> {
    if place > 0 {
        return Ok(None);
    }
    match row_at(alloc, tx, shelf, tree.root.table, &key) {
        Ok(None) => Ok(None),
        Ok(Some(_)) => Ok(Some(key)),
        Err(fault) => Err(fault),
    }
}

// The key that the foreign key of this key's row names.
fn parent_key<S: Store>(
    alloc: Global,
    tx: &mut S,
    shelf: &Shelf,
    table: TableId,
    key: &Key,
) -> Result<Option<Key>, StoreFault> {
    let Some(def) = shelf.def(table) else {
        return Ok(None);
    };
    match row_at(alloc, tx, shelf, table, key) {
        Ok(None) => Ok(None),
        Ok(Some(row)) => match key_at(alloc, foreign_places(&def.foreign_key), &row) {
            Ok(parent) => Ok(Some(parent)),
            Err(_) => Err(StoreFault::Memory),
        },
        Err(fault) => Err(fault),
    }
}

/// For each table of the tree the rows of the view that are reached from the root row of this key.
pub(crate) fn rows_under<S: Store>(
    alloc: Global,
    tx: &mut S,
    shelf: &Shelf,
    tree: &Tree,
    root: &Key,
) -> Result<Seq<Rows>, StoreFault> {
    match root_rows(alloc, tx, shelf, &tree.root, root) {
        Ok(first) => rows_from(alloc, tx, shelf, tree, first),
        Err(fault) => Err(fault),
    }
}

fn rows_from<S: Store>(
    alloc: Global,
    tx: &mut S,
    shelf: &Shelf,
    tree: &Tree,
    first: Rows,
) -> Result<Seq<Rows>, StoreFault> {
    let mut kept = vec![in alloc; first]?;
    match add_tables(alloc, tx, shelf, tree, &mut kept) {
        Ok(()) => Ok(Seq::from_vec(kept)),
        Err(fault) => Err(fault),
    }
}

// Puts the rows of each child behind those kept.
fn add_tables<S: Store>(
    alloc: Global,
    tx: &mut S,
    shelf: &Shelf,
    tree: &Tree,
    kept: &mut Vec<Rows>,
) -> Result<(), StoreFault> {
    for child in tree.children.as_slice() {
        let rows = child_rows(alloc, tx, shelf, kept.as_slice(), child)?;
        kept.push(rows)?;
    }
    Ok(())
}

// The root row, where its WHERE selects it.
fn root_rows<S: Store>(
    alloc: Global,
    tx: &mut S,
    shelf: &Shelf,
    root: &Root,
    key: &Key,
) -> Result<Rows, StoreFault> {
    match row_at(alloc, tx, shelf, root.table, key) {
        Ok(None) => Ok(Rows::new(alloc)),
        Ok(Some(row)) => selected_root(alloc, root, key, row),
        Err(fault) => Err(fault),
    }
}

fn selected_root(alloc: Global, root: &Root, key: &Key, row: Row) -> Result<Rows, StoreFault> {
    if !selects(&root.filter, &row) {
        return Ok(Rows::new(alloc));
    }
    match key.copied(alloc) {
        Ok(key) => one_row(alloc, key, row),
        Err(_) => Err(StoreFault::Memory),
    }
}

fn one_row(alloc: Global, key: Key, row: Row) -> Result<Rows, StoreFault> {
    let mut rows = Rows::new(alloc);
    match put_row(&mut rows, key, row) {
        Ok(()) => Ok(rows),
        Err(fault) => Err(fault),
    }
}

/// Puts a row in at its key.
pub(crate) fn put_row(rows: &mut Rows, key: Key, row: Row) -> Result<(), StoreFault> {
    match rows.insert(key, row) {
        Ok(_) => Ok(()),
        Err(_) => Err(StoreFault::Memory),
    }
}

// The rows that refer to those kept at the parent's place, and that the child's WHERE selects.
fn child_rows<S: Store>(
    alloc: Global,
    tx: &mut S,
    shelf: &Shelf,
    kept: &[Rows],
    child: &Child,
) -> Result<Rows, StoreFault> {
    let (Some(parents), Some(def)) = (kept.get(child.parent), shelf.def(child.table)) else {
        return Ok(Rows::new(alloc));
    };
    let mut selected = Selected {
        alloc,
        def,
        child,
        rows: Rows::new(alloc),
    };
    match add_all(alloc, tx, shelf, parents, &mut selected) {
        Ok(()) => Ok(selected.into_rows()),
        Err(fault) => Err(fault),
    }
}

fn add_all<S: Store>(
    alloc: Global,
    tx: &mut S,
    shelf: &Shelf,
    parents: &Rows,
    selected: &mut Selected<'_>,
) -> Result<(), StoreFault> {
    for place in 0..parents.len() {
        let (parent, _) = parents.entry_at(place);
        add_children(alloc, tx, shelf, parent, selected)?;
    }
    Ok(())
}

fn add_children<S: Store>(
    alloc: Global,
    tx: &mut S,
    shelf: &Shelf,
    parent: &Key,
    selected: &mut Selected<'_>,
) -> Result<(), StoreFault> {
    match shelf.texts(selected.child.table) {
        Ok(texts) => match &texts.children {
            None => Ok(()),
            Some(text) => add_each(alloc, tx, text.as_str(), parent, selected),
        },
        Err(fault) => Err(fault),
    }
}

// The rows that the text gives of this parent.
fn add_each<S: Store>(
    alloc: Global,
    tx: &mut S,
    text: &str,
    parent: &Key,
    selected: &mut Selected<'_>,
) -> Result<(), StoreFault> {
    match lent_all(alloc, parent.values()) {
        Ok(values) => tx.each_row(text, values.as_slice(), selected),
        Err(fault) => Err(fault),
    }
}

// The rows of a child that its WHERE selects.
struct Selected<'a> {
    alloc: Global,
    def: &'a TableDef,
    child: &'a Child,
    rows: Rows,
}

impl Drop for Selected<'_> {
    fn drop(self) {
        let Self {
            alloc: _,
            def: _,
            child: _,
            rows: _,
        } = self;
    }
}

impl TakesRows for Selected<'_> {
    ghost keeps = { λ _. Unit {0} };

    // Takes in a row, where the WHERE selects it.
    fn take(&mut self, stored: &sqlite::Row) -> Result<(), StoreFault> {
        match row_of(self.alloc, self.def.columns.as_slice(), stored) {
            Ok(row) => self.put(row),
            Err(fault) => Err(fault),
        }
    }
}

impl Selected<'_> {
    fn put(&mut self, row: Row) -> Result<(), StoreFault> {
        if !selects(&self.child.filter, &row) {
            return Ok(());
        }
        match key_of_row(self.alloc, self.def, &row) {
            Ok(key) => put_row(&mut self.rows, key, row),
            Err(_) => Err(StoreFault::Memory),
        }
    }

    fn into_rows(self) -> Rows {
        let Self {
            alloc: _,
            def: _,
            child: _,
            rows,
        } = self;
        rows
    }
}
