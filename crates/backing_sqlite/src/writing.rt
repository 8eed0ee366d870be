//! What is written into the store.

use crate::fault::StoreFault;
use crate::judging::named_row;
use crate::reading::entries;
use crate::shelf::Shelf;
use crate::store::Store;
use crate::values::{LogPlace, lent_all, lent_entry, lent_update};
use row_types::{Key, Row, Value};
use sqlite::types::ValueRef;
use std::alloc::Global;
use table_defs::TableDef;
use table_state::{Op, key_of_row};
use tier_base::{TableId, Ticket};

/// Does a statement.
pub(crate) fn give<S: Store>(
    tx: &mut S,
    sql: &str,
    values: &[ValueRef<'_>],
) -> Result<(), StoreFault> {
    match tx.change(sql, values) {
        Ok(_) => Ok(()),
        Err(fault) => Err(fault),
    }
}

// Does a statement that has to change one row.
fn give_one<S: Store>(tx: &mut S, sql: &str, values: &[ValueRef<'_>]) -> Result<(), StoreFault> {
    match tx.change(sql, values) {
        Ok(1) => Ok(()),
        Ok(_) => Err(StoreFault::Failed),
        Err(fault) => Err(fault),
    }
}

/// Does an operation of a transaction, which applies, and enters it into the log at this place, where logs are kept.
/// Where the operation before it was on another table, what its table's log needs to tell no more is forgotten first.
pub(crate) fn do_op<S: Store>(
    alloc: Global,
    tx: &mut S,
    shelf: &Shelf,
    before: Option<&Op>,
    op: &Op,
    at: LogPlace,
) -> Result<(), StoreFault> {
    match make_ready(tx, shelf, before, op, at) {
        Ok(()) => match write(alloc, tx, shelf, op) {
            Ok(()) => enter(alloc, tx, shelf, op, at),
            Err(fault) => Err(fault),
        },
        Err(fault) => Err(fault),
    }
}

fn make_ready<S: Store>(
    tx: &mut S,
    shelf: &Shelf,
    before: Option<&Op>,
    op: &Op,
    at: LogPlace,
) -> Result<(), StoreFault> {
    if is_on(before, op.table()) {
        return Ok(());
    }
    match shelf.forgotten(at.position) {
        None => Ok(()),
        Some(position) => forget(tx, shelf, op.table(), position),
    }
}

fn is_on(op: Option<&Op>, table: TableId) -> bool {
    match op {
        None => false,
        Some(op) => op.table() == table,
    }
}

/// What the log of a table has up to a position is taken out.
pub(crate) fn forget<S: Store>(
    tx: &mut S,
    shelf: &Shelf,
    table: TableId,
    position: u64,
) -> Result<(), StoreFault> {
    match i64::try_from(position) {
        Ok(position) => match shelf.texts(table) {
            Ok(texts) => give(tx, texts.forget.as_str(), &[ValueRef::Int(position)]),
            Err(fault) => Err(fault),
        },
        Err(_) => Err(StoreFault::Failed),
    }
}

// Where logs are kept an entry has the row before, where there was one.
fn enter<S: Store>(
    alloc: Global,
    tx: &mut S,
    shelf: &Shelf,
    op: &Op,
    at: LogPlace,
) -> Result<(), StoreFault> {
    if !shelf.has_logged(at.position) {
        return Ok(());
    }
    match (shelf.def(op.table()), shelf.texts(op.table())) {
        (Some(def), Ok(texts)) => enter_in(alloc, tx, texts.enter.as_str(), def, op, at),
        _ => Err(StoreFault::Failed),
    }
}

fn enter_in<S: Store>(
    alloc: Global,
    tx: &mut S,
    text: &str,
    def: &TableDef,
    op: &Op,
    at: LogPlace,
) -> Result<(), StoreFault> {
    match lent_entry(alloc, def, at, had_row(op), named_row(op)) {
        Ok(values) => give_one(tx, text, values.as_slice()),
        Err(fault) => Err(fault),
    }
}

// Whether there was a row before the operation.
fn had_row(op: &Op) -> bool {
    match op {
        Op::Insert(_, _) => false,
        _ => true,
    }
}

fn write<S: Store>(alloc: Global, tx: &mut S, shelf: &Shelf, op: &Op) -> Result<(), StoreFault> {
    match op {
        Op::Insert(table, row) => insert(alloc, tx, shelf, *table, row),
        Op::Update(table, _, new) => match key_in(alloc, shelf, op) {
            Ok(key) => update(alloc, tx, shelf, *table, &key, new),
            Err(fault) => Err(fault),
        },
        Op::Delete(table, _) => match key_in(alloc, shelf, op) {
            Ok(key) => delete(alloc, tx, shelf, *table, &key),
            Err(fault) => Err(fault),
        },
    }
}

fn key_in(alloc: Global, shelf: &Shelf, op: &Op) -> Result<Key, StoreFault> {
    match shelf.def(op.table()) {
        None => Err(StoreFault::Failed),
        Some(def) => match key_of_row(alloc, def, named_row(op)) {
            Ok(key) => Ok(key),
            Err(error) => Err(StoreFault::from(error)),
        },
    }
}

// Does a statement that has these values and has to change one row.
fn give_values<S: Store>(
    alloc: Global,
    tx: &mut S,
    sql: &str,
    values: &[Value],
) -> Result<(), StoreFault> {
    match lent_all(alloc, values) {
        Ok(values) => give_one(tx, sql, values.as_slice()),
        Err(fault) => Err(fault),
    }
}

fn insert<S: Store>(
    alloc: Global,
    tx: &mut S,
    shelf: &Shelf,
    table: TableId,
    row: &Row,
) -> Result<(), StoreFault> {
    match shelf.texts(table) {
        Ok(texts) => give_values(alloc, tx, texts.insert.as_str(), row.values()),
        Err(fault) => Err(fault),
    }
}

fn update<S: Store>(
    alloc: Global,
    tx: &mut S,
    shelf: &Shelf,
    table: TableId,
    key: &Key,
    row: &Row,
) -> Result<(), StoreFault> {
    match (shelf.def(table), shelf.texts(table)) {
        (Some(def), Ok(texts)) => match &texts.update {
            None => Ok(()),
            Some(text) => update_in(alloc, tx, text.as_str(), def, key, row),
        },
        _ => Err(StoreFault::Failed),
    }
}

fn update_in<S: Store>(
    alloc: Global,
    tx: &mut S,
    text: &str,
    def: &TableDef,
    key: &Key,
    row: &Row,
) -> Result<(), StoreFault> {
    match lent_update(alloc, def, row, key) {
        Ok(values) => give_one(tx, text, values.as_slice()),
        Err(fault) => Err(fault),
    }
}

fn delete<S: Store>(
    alloc: Global,
    tx: &mut S,
    shelf: &Shelf,
    table: TableId,
    key: &Key,
) -> Result<(), StoreFault> {
    match shelf.texts(table) {
        Ok(texts) => give_values(alloc, tx, texts.delete.as_str(), key.values()),
        Err(fault) => Err(fault),
    }
}

/// How many entries the history has with one more.
pub(crate) fn next_entry<S: Store>(tx: &mut S) -> Result<u64, StoreFault> {
    match entries(tx) {
        Ok(count) => match count.checked_add(1) {
            None => Err(StoreFault::Failed),
            Some(next) => Ok(next),
        },
        Err(fault) => Err(fault),
    }
}

/// Counts one entry more, and tells how many there are then.
pub(crate) fn add_entry<S: Store>(tx: &mut S) -> Result<u64, StoreFault> {
    match next_entry(tx) {
        Ok(count) => set_entries(tx, count),
        Err(fault) => Err(fault),
    }
}

fn set_entries<S: Store>(tx: &mut S, count: u64) -> Result<u64, StoreFault> {
    let text = "UPDATE \"ttcache-history\" SET entries = ?";
    match i64::try_from(count) {
        Ok(number) => match give_one(tx, text, &[ValueRef::Int(number)]) {
            Ok(()) => Ok(count),
            Err(fault) => Err(fault),
        },
        Err(_) => Err(StoreFault::Failed),
    }
}

/// Counts one entry more, records the ticket with its position, and tells this.
pub(crate) fn add_record<S: Store>(tx: &mut S, ticket: Ticket) -> Result<u64, StoreFault> {
    match add_entry(tx) {
        Ok(position) => match record(tx, ticket, position) {
            Ok(()) => Ok(position),
            Err(fault) => Err(fault),
        },
        Err(fault) => Err(fault),
    }
}

// Records a ticket with its position.
fn record<S: Store>(tx: &mut S, ticket: Ticket, position: u64) -> Result<(), StoreFault> {
    match (i64::try_from(ticket.0), i64::try_from(position)) {
        (Ok(ticket), Ok(position)) => {
            let text = "INSERT INTO \"ttcache-tickets\" (ticket, position) VALUES (?, ?)";
            give_one(tx, text, &[ValueRef::Int(ticket), ValueRef::Int(position)])
        }
        _ => Err(StoreFault::Failed),
    }
}
