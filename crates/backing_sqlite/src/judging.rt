//! Whether operations apply to what stands in the store.

use crate::fault::StoreFault;
use crate::reading::{child_key, row_at};
use crate::shelf::Shelf;
use crate::store::Store;
use indexed_rows::key_at;
use outside::Applied;
use row_types::{Key, Row};
use std::alloc::Global;
use table_defs::TableDef;
use table_state::{ApplyError, Op, check_key_stays, check_row, key_of_row};
use tier_base::TableId;

/// A row that isn't as an operation wants it: its table, its key, and the row that is there.
pub(crate) struct Difference {
    /// The table.
    pub table: TableId,
    /// The key.
    pub key: Key,
    /// The row there, where there is one.
    pub row: Option<Row>,
}

impl Drop for Difference {
    fn drop(self) {
        let Self {
            table: _,
            key: _,
            row: _,
        } = self;
    }
}

impl Difference {
    ghost use Rattle.std.specs.Prelude.{◌≡◌};

    /// What is told of a transaction that doesn't apply.
    pub(crate) fn told(self) -> Applied
        ensures { result ≡ Applied.Differs self.table self.key self.row }
    {
        let Self { table, key, row } = self;
        Applied::Differs(table, key, row)
    }
}

/// What keeps the operation from being applied, where something does: its own row, the parent that is missing, or the
/// least child that is there, in the order in which the rules are tested.
pub(crate) fn difference_at<S: Store>(
    alloc: Global,
    tx: &mut S,
    shelf: &Shelf,
    op: &Op,
) -> Result<Option<Difference>, StoreFault> {
    let table = op.table();
    match shelf.def(table) {
        None => Ok(Some(Difference {
            table,
            key: Key::from_vec(Vec::new(alloc)),
            row: None,
        })),
        Some(def) => {
            match found_at(alloc, tx, shelf, table, def, op) {
                Ok(there) => difference_with(alloc, tx, shelf, def, op, there),
                Err(fault) => Err(fault),
            }
        }
    }
}

// The same, where this is the key that the operation names, and the row there.
fn difference_with<S: Store>(
    alloc: Global,
    tx: &mut S,
    shelf: &Shelf,
    def: &TableDef,
    op: &Op,
    there: Difference,
) -> Result<Option<Difference>, StoreFault> {
    match is_as_wanted(alloc, def, op, &there.row) {
        Ok(true) => difference_around(alloc, tx, shelf, def, op, &there.key),
        Ok(false) => Ok(Some(there)),
        Err(fault) => Err(fault),
    }
}

// The key that the operation names, and the row there.
fn found_at<S: Store>(
    alloc: Global,
    tx: &mut S,
    shelf: &Shelf,
    table: TableId,
    def: &TableDef,
    op: &Op,
) -> Result<Difference, StoreFault> {
    match key_of_row(alloc, def, named_row(op)) {
        Ok(key) => row_of_key(alloc, tx, shelf, table, key),
        Err(_) => Err(StoreFault::Memory),
    }
}

// The row that is at a key, if any.
fn row_of_key<S: Store>(
    alloc: Global,
    tx: &mut S,
    shelf: &Shelf,
    table: TableId,
    key: Key,
) -> Result<Difference, StoreFault> {
    match row_at(alloc, tx, shelf, table, &key) {
        Ok(row) => Ok(Difference { table, key, row }),
        Err(fault) => Err(fault),
    }
}

// The parent that is missing, or the least child that is there, where the operation's own row is as it wants it.
fn difference_around<S: Store>(
    alloc: Global,
    tx: &mut S,
    shelf: &Shelf,
    def: &TableDef,
    op: &Op,
    key: &Key,
) -> Result<Option<Difference>, StoreFault> {
    match op {
        Op::Insert(_, row) => missing_parent(alloc, tx, shelf, def, row),
        Op::Update(_, _, row) => missing_parent(alloc, tx, shelf, def, row),
        Op::Delete(table, _) => first_child(alloc, tx, shelf, *table, key),
    }
}

/// The row that an operation puts in, changes or takes out.
pub(crate) fn named_row(op: &Op) -> &Row {
    match op {
        Op::Insert(_, row) => row,
        Op::Update(_, row, _) => row,
        Op::Delete(_, row) => row,
    }
}

// Whether what it puts in fits the table, and the row at its key is as it wants it.
fn is_as_wanted(
    alloc: Global,
    def: &TableDef,
    op: &Op,
    there: &Option<Row>,
) -> Result<bool, StoreFault> {
    match op {
        Op::Insert(_, row) => {
            if there.is_none() {
                holds(check_row(alloc, def.columns.as_slice(), row))
            } else {
                Ok(false)
            }
        }
        Op::Update(_, old, new) => {
            if is_row(there, old) {
                keeps_key(alloc, def, old, new)
            } else {
                Ok(false)
            }
        }
        Op::Delete(_, old) => Ok(is_row(there, old)),
    }
}

// Whether the new row has the key of the old one, and fits the table.
fn keeps_key(alloc: Global, def: &TableDef, old: &Row, new: &Row) -> Result<bool, StoreFault> {
    match holds(check_key_stays(alloc, def, old, new)) {
        Ok(true) => holds(check_row(alloc, def.columns.as_slice(), new)),
        Ok(false) => Ok(false),
        Err(fault) => Err(fault),
    }
}

fn holds(checked: Result<(), ApplyError>) -> Result<bool, StoreFault> {
    match checked {
        Ok(()) => Ok(true),
        Err(ApplyError::Memory) => Err(StoreFault::Memory),
        Err(_) => Ok(false),
    }
}

fn is_row(there: &Option<Row>, row: &Row) -> bool {
    match there {
        None => false,
        Some(there) => there.same(row),
    }
}

fn missing_parent<S: Store>(
    alloc: Global,
    tx: &mut S,
    shelf: &Shelf,
    def: &TableDef,
    row: &Row,
) -> Result<Option<Difference>, StoreFault> {
    match &def.foreign_key {
        None => Ok(None),
        Some(foreign) => match key_at(alloc, foreign.columns.as_slice(), row) {
            Ok(key) => missing_at(alloc, tx, shelf, foreign.parent, key),
            Err(_) => Err(StoreFault::Memory),
        },
    }
}

// What is told of a key, where it has no row.
fn missing_at<S: Store>(
    alloc: Global,
    tx: &mut S,
    shelf: &Shelf,
    table: TableId,
    key: Key,
) -> Result<Option<Difference>, StoreFault> {
    match row_at(alloc, tx, shelf, table, &key) {
        Ok(Some(_)) => Ok(None),
        Ok(None) => Ok(Some(Difference {
            table,
            key,
            row: None,
        })),
        Err(fault) => Err(fault),
    }
}

// The least row of the first table that has one which refers to the row of this table and key.
fn first_child<S: Store>(
    alloc: Global,
    tx: &mut S,
    shelf: &Shelf,
    table: TableId,
    key: &Key,
) -> Result<Option<Difference>, StoreFault> {
    for (place, def) in shelf.schema().as_slice().iter().enumerate() {
        if refers_to(def, table) {
            match child_in(alloc, tx, shelf, place, key) {
                Ok(None) => {}
                found => return found,
            }
        }
    }
    Ok(None)
}

fn child_in<S: Store>(
    alloc: Global,
    tx: &mut S,
    shelf: &Shelf,
    place: usize,
    key: &Key,
) -> Result<Option<Difference>, StoreFault> {
    match table_at(place) {
        Ok(child) => child_at(alloc, tx, shelf, child, key),
        Err(fault) => Err(fault),
    }
}

fn child_at<S: Store>(
    alloc: Global,
    tx: &mut S,
    shelf: &Shelf,
    child: TableId,
    key: &Key,
) -> Result<Option<Difference>, StoreFault> {
    match child_key(alloc, tx, shelf, child, key) {
        Ok(None) => Ok(None),
        Ok(Some(key)) => row_of_key(alloc, tx, shelf, child, key).map(Some),
        Err(fault) => Err(fault),
    }
}

/// Whether the table's foreign key refers to the other.
pub(crate) fn refers_to(def: &TableDef, parent: TableId) -> bool {
    match &def.foreign_key {
        None => false,
        Some(foreign) => foreign.parent == parent,
    }
}

/// The table at a place of the definitions.
pub(crate) fn table_at(place: usize) -> Result<TableId, StoreFault> {
    match u32::try_from(place) {
        Ok(number) => Ok(TableId(number)),
        Err(_) => Err(StoreFault::Failed),
    }
}
