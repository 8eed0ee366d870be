//! What changed since a position.

use crate::fault::StoreFault;
use crate::reaching::{put_row, root_of, rows_under};
use crate::reading::{entries, row_at};
use crate::shelf::Shelf;
use crate::store::{Base, Store, TakesRows, end_reading};
use crate::values::{key_of, row_behind};
use change_log::RowChange;
use indexed_rows::{Rows, is_same_row, key_at};
use instances::{Child, Tree, foreign_places};
use outside::{Changes, Instance, Touched};
use row_types::{Key, Row};
use sqlite::types::ValueRef;
use std::alloc::Global;
use table_defs::TableDef;
use table_state::RowKey;
use tier_base::{Position, Seq, TableId};

/// What changed since a position in the tables of the trees, and of each tree the instances that this touches, and
/// those that a want names, read in a transaction of its own. It fails where the logs don't go back so far.
pub(crate) fn changes(
    alloc: Global,
    base: &mut Base,
    shelf: &Shelf,
    since: Position,
    trees: &[Tree],
    wants: &[RowKey],
) -> Result<Changes, StoreFault> {
    match base.begin() {
        Ok(mut tx) => {
            let found = changes_in(alloc, &mut tx, shelf, since, trees, wants);
            end_reading(tx);
            found
        }
        Err(fault) => Err(fault),
    }
}

fn changes_in<S: Store>(
    alloc: Global,
    tx: &mut S,
    shelf: &Shelf,
    since: Position,
    trees: &[Tree],
    wants: &[RowKey],
) -> Result<Changes, StoreFault> {
    let count = entries(tx)?;
    if !shelf.tells_since(since.0, count) {
        return Err(StoreFault::Failed);
    }
    match log_since(alloc, tx, shelf, since, trees) {
        Ok(log) => changes_with(alloc, tx, shelf, Position(count), log, trees, wants),
        Err(fault) => Err(fault),
    }
}

// What is told at a position, with this log.
fn changes_with<S: Store>(
    alloc: Global,
    tx: &mut S,
    shelf: &Shelf,
    position: Position,
    log: Vec<RowChange>,
    trees: &[Tree],
    wants: &[RowKey],
) -> Result<Changes, StoreFault> {
    match touched_by(alloc, tx, shelf, trees, log.as_slice(), wants) {
        Ok(touched) => Ok(Changes {
            position,
            log: Seq::from_vec(log),
            touched: Seq::from_vec(touched),
        }),
        Err(fault) => Err(fault),
    }
}

// Of each tree the instances.
fn touched_by<S: Store>(
    alloc: Global,
    tx: &mut S,
    shelf: &Shelf,
    trees: &[Tree],
    log: &[RowChange],
    wants: &[RowKey],
) -> Result<Vec<Seq<Touched>>, StoreFault> {
    let mut touched = Vec::with_capacity(alloc, trees.len())?;
    for tree in trees {
        let one = touched_in(alloc, tx, shelf, tree, log, wants)?;
        touched.push(one)?;
    }
    Ok(touched)
}

// One entry for each key of the tables of the trees whose row differs.
fn log_since<S: Store>(
    alloc: Global,
    tx: &mut S,
    shelf: &Shelf,
    since: Position,
    trees: &[Tree],
) -> Result<Vec<RowChange>, StoreFault> {
    let mut log = Vec::new(alloc);
    for table in covered(alloc, trees)?.as_slice() {
        add_changes(alloc, tx, shelf, since, *table, &mut log)?;
    }
    Ok(log)
}

// The tables of the trees, each once.
fn covered(alloc: Global, trees: &[Tree]) -> Result<Vec<TableId>, StoreFault> {
    let mut tables = Vec::new(alloc);
    for tree in trees {
        add_once(&mut tables, tree.root.table)?;
        for child in tree.children.as_slice() {
            add_once(&mut tables, child.table)?;
        }
    }
    Ok(tables)
}

fn add_once(tables: &mut Vec<TableId>, table: TableId) -> Result<(), StoreFault> {
    if !tables.as_slice().contains(&table) {
        tables.push(table)?;
    }
    Ok(())
}

fn add_changes<S: Store>(
    alloc: Global,
    tx: &mut S,
    shelf: &Shelf,
    since: Position,
    table: TableId,
    log: &mut Vec<RowChange>,
) -> Result<(), StoreFault> {
    let Some(def) = shelf.def(table) else {
        return Ok(());
    };
    for (key, old) in first_rows(alloc, tx, shelf, since, table, def)? {
        match row_at(alloc, tx, shelf, table, &key) {
            Ok(new) => add_change(
                log,
                RowChange {
                    table,
                    key,
                    old,
                    new,
                },
            )?,
            Err(fault) => return Err(fault),
        }
    }
    Ok(())
}

// The change comes to the log, where the row differs.
fn add_change(log: &mut Vec<RowChange>, change: RowChange) -> Result<(), StoreFault> {
    if is_same_place(&change.old, &change.new) {
        return Ok(());
    }
    match log.push(change) {
        Ok(()) => Ok(()),
        Err(_) => Err(StoreFault::Memory),
    }
}

fn is_same_place(old: &Option<Row>, new: &Option<Row>) -> bool {
    match (old, new) {
        (None, None) => true,
        (Some(old), Some(new)) => is_same_row(old, new),
        _ => false,
    }
}

// The keys that the log has behind the position, each with the row before its first entry.
fn first_rows<S: Store>(
    alloc: Global,
    tx: &mut S,
    shelf: &Shelf,
    since: Position,
    table: TableId,
    def: &TableDef,
) -> Result<Vec<(Key, Option<Row>)>, StoreFault> {
    let mut first = FirstRows {
        alloc,
        def,
        seen: Rows::new(alloc),
        rows: Vec::new(alloc),
    };
    if let Ok(since) = i64::try_from(since.0) {
        let text = shelf.texts(table)?.logged.as_str();
        tx.each_row(text, &[ValueRef::Int(since)], &mut first)?;
    }
    Ok(first.into_rows())
}

// Keys with the row before the first entry of each, in the order of these entries. The keys are also kept as those of
// rows without values.
struct FirstRows<'a> {
    alloc: Global,
    def: &'a TableDef,
    seen: Rows,
    rows: Vec<(Key, Option<Row>)>,
}

impl Drop for FirstRows<'_> {
    fn drop(self) {
        let Self {
            alloc: _,
            def: _,
            seen: _,
            rows: _,
        } = self;
    }
}

impl TakesRows for FirstRows<'_> {
    ghost keeps = { λ _. Unit {0} };

    // Takes in an entry of the log.
    fn take(&mut self, stored: &sqlite::Row) -> Result<(), StoreFault> {
        match key_of(self.alloc, self.def, stored) {
            Ok(key) => self.add(key, stored),
            Err(fault) => Err(fault),
        }
    }
}

impl FirstRows<'_> {
    fn into_rows(self) -> Vec<(Key, Option<Row>)> {
        let Self {
            alloc: _,
            def: _,
            seen: _,
            rows,
        } = self;
        rows
    }

    // Takes in an entry of this key.
    fn add(&mut self, key: Key, stored: &sqlite::Row) -> Result<(), StoreFault> {
        match self.is_first(&key) {
            Ok(true) => self.put(key, stored),
            Ok(false) => Ok(()),
            Err(fault) => Err(fault),
        }
    }

    // Whether the key wasn't met before.
    fn is_first(&mut self, key: &Key) -> Result<bool, StoreFault> {
        let key = key.copied(self.alloc)?;
        match self.seen.insert(key, Row::from_vec(Vec::new(self.alloc))) {
            Ok(new) => Ok(new),
            Err(_) => Err(StoreFault::Memory),
        }
    }

    // Puts a key with the row of its first entry behind the others.
    fn put(&mut self, key: Key, stored: &sqlite::Row) -> Result<(), StoreFault> {
        match old_row(self.alloc, self.def, stored) {
            Ok(old) => put_first(&mut self.rows, key, old),
            Err(fault) => Err(fault),
        }
    }
}

fn put_first(
    rows: &mut Vec<(Key, Option<Row>)>,
    key: Key,
    old: Option<Row>,
) -> Result<(), StoreFault> {
    match rows.push((key, old)) {
        Ok(()) => Ok(()),
        Err(_) => Err(StoreFault::Memory),
    }
}

// The row before, where there was one.
fn old_row(alloc: Global, def: &TableDef, stored: &sqlite::Row) -> Result<Option<Row>, StoreFault> {
    let keys = def.primary_key.len();
    match stored.get_ref(keys)? {
        ValueRef::Int(0) => Ok(None),
        _ => row_behind(
            alloc,
            def.columns.as_slice(),
            stored,
            keys.saturating_add(1),
        )
        .map(Some),
    }
}

fn touched_in<S: Store>(
    alloc: Global,
    tx: &mut S,
    shelf: &Shelf,
    tree: &Tree,
    log: &[RowChange],
    wants: &[RowKey],
) -> Result<Seq<Touched>, StoreFault> {
    let wanted = wanted_roots(alloc, tx, shelf, tree, wants)?;
    let roots = touched_roots(alloc, tx, shelf, tree, log, wants)?;
    instances_at(alloc, tx, shelf, tree, &roots, &wanted)
}

// The instances of these roots.
fn instances_at<S: Store>(
    alloc: Global,
    tx: &mut S,
    shelf: &Shelf,
    tree: &Tree,
    roots: &Rows,
    wanted: &Rows,
) -> Result<Seq<Touched>, StoreFault> {
    let mut out = Vec::with_capacity(alloc, roots.len())?;
    for place in 0..roots.len() {
        let (root, _) = roots.entry_at(place);
        let instance = instance_at(alloc, tx, shelf, tree, root)?;
        let wanted = wanted.contains_key(root);
        out.push(Touched { instance, wanted })?;
    }
    Ok(Seq::from_vec(out))
}

fn instance_at<S: Store>(
    alloc: Global,
    tx: &mut S,
    shelf: &Shelf,
    tree: &Tree,
    root: &Key,
) -> Result<Instance, StoreFault> {
    match rows_under(alloc, tx, shelf, tree, root) {
        Ok(rows) => match root.copied(alloc) {
            Ok(root) => Ok(Instance { root, rows }),
            Err(_) => Err(StoreFault::Memory),
        },
        Err(fault) => Err(fault),
    }
}

// The root keys of the instances that a want names.
fn wanted_roots<S: Store>(
    alloc: Global,
    tx: &mut S,
    shelf: &Shelf,
    tree: &Tree,
    wants: &[RowKey],
) -> Result<Rows, StoreFault> {
    let mut roots = Rows::new(alloc);
    for want in wants {
        add_root(alloc, tx, shelf, tree, want.table, &want.key, &mut roots)?;
    }
    Ok(roots)
}

// These, and those of the instances that the changes touch.
fn touched_roots<S: Store>(
    alloc: Global,
    tx: &mut S,
    shelf: &Shelf,
    tree: &Tree,
    log: &[RowChange],
    wants: &[RowKey],
) -> Result<Rows, StoreFault> {
    let mut roots = wanted_roots(alloc, tx, shelf, tree, wants)?;
    for change in log {
        add_roots(alloc, tx, shelf, tree, change, &mut roots)?;
    }
    Ok(roots)
}

// The root keys that the row of a change was and is reached from come to these.
fn add_roots<S: Store>(
    alloc: Global,
    tx: &mut S,
    shelf: &Shelf,
    tree: &Tree,
    change: &RowChange,
    roots: &mut Rows,
) -> Result<(), StoreFault> {
    match put_root(alloc, old_root(alloc, tx, shelf, tree, change), roots) {
        Ok(()) => add_root(alloc, tx, shelf, tree, change.table, &change.key, roots),
        Err(fault) => Err(fault),
    }
}

// The root key that the row of a key is reached from comes to these.
fn add_root<S: Store>(
    alloc: Global,
    tx: &mut S,
    shelf: &Shelf,
    tree: &Tree,
    table: TableId,
    key: &Key,
    roots: &mut Rows,
) -> Result<(), StoreFault> {
    put_root(alloc, root_of(alloc, tx, shelf, tree, table, key), roots)
}

// The root key that the row of a change was reached from: a root row's own, and of a child row that had a parent row
// the one that this is reached from now.
fn old_root<S: Store>(
    alloc: Global,
    tx: &mut S,
    shelf: &Shelf,
    tree: &Tree,
    change: &RowChange,
) -> Result<Option<Key>, StoreFault> {
    let Some(place) = tree.place_of(change.table) else {
        return Ok(None);
    };
    if place == 0 {
        return match change.key.copied(alloc) {
            Ok(key) => Ok(Some(key)),
            Err(_) => Err(StoreFault::Memory),
        };
    }
    match (tree.children.get(place - 1), &change.old) {
        (Some(child), Some(row)) => root_above(alloc, tx, shelf, tree, child, row),
        _ => Ok(None),
    }
}

fn root_above<S: Store>(
    alloc: Global,
    tx: &mut S,
    shelf: &Shelf,
    tree: &Tree,
    child: &Child,
    row: &Row,
) -> Result<Option<Key>, StoreFault> {
    match (tree.table_of(child.parent), shelf.def(child.table)) {
        (Some(parent), Some(def)) => {
            match key_at(alloc, foreign_places(&def.foreign_key), row) {
                Ok(key) => root_of(alloc, tx, shelf, tree, parent, &key),
                Err(_) => Err(StoreFault::Memory),
            }
        }
        _ => Ok(None),
    }
}

// A root key that was found comes to these. The roots are kept as the keys of rows without values.
fn put_root(
    alloc: Global,
    found: Result<Option<Key>, StoreFault>,
    roots: &mut Rows,
) -> Result<(), StoreFault> {
    match found {
        Ok(None) => Ok(()),
        Ok(Some(root)) => put_row(roots, root, Row::from_vec(Vec::new(alloc))),
        Err(fault) => Err(fault),
    }
}
