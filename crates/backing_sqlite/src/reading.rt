//! What stands in the store.

ghost use Rattle.backing_sqlite.specs.Waiting.{MissesOne};

use crate::fault::StoreFault;
use crate::shelf::Shelf;
use crate::store::{Base, Store, end_reading};
use crate::values::{is_key_of, key_of, lent_all, row_of};
use row_types::{Key, Row};
use sqlite::types::ValueRef;
use std::alloc::Global;
use table_defs::TableDef;
use tier_base::{TableId, Ticket};

// The first row of the answer, where there is one, to a text whose parameters are a key.
fn row_by<S: Store>(
    alloc: Global,
    tx: &mut S,
    sql: &str,
    key: &Key,
) -> Result<Option<sqlite::Row>, StoreFault> {
    match lent_all(alloc, key.values()) {
        Ok(values) => tx.first_row(sql, values.as_slice()),
        Err(fault) => Err(fault),
    }
}

// The number in the only column of a row.
fn count_in(row: &sqlite::Row) -> Result<u64, StoreFault> {
    match row.get::<u64>(0) {
        Ok(count) => Ok(count),
        Err(error) => Err(StoreFault::from(error)),
    }
}

/// The row of a key in a table; none where there is none, or no such table.
pub(crate) fn row_at<S: Store>(
    alloc: Global,
    tx: &mut S,
    shelf: &Shelf,
    table: TableId,
    key: &Key,
) -> Result<Option<Row>, StoreFault> {
    match shelf.def(table) {
        Some(def) if is_key_of(def, key) => match shelf.texts(table) {
            Ok(texts) => row_in(alloc, tx, texts.find.as_str(), def, key),
            Err(fault) => Err(fault),
        },
        _ => Ok(None),
    }
}

fn row_in<S: Store>(
    alloc: Global,
    tx: &mut S,
    text: &str,
    def: &TableDef,
    key: &Key,
) -> Result<Option<Row>, StoreFault> {
    match row_by(alloc, tx, text, key) {
        Ok(None) => Ok(None),
        Ok(Some(stored)) => row_of(alloc, def.columns.as_slice(), &stored).map(Some),
        Err(fault) => Err(fault),
    }
}

/// The least key of a row in `child` that refers to the key by its foreign key.
pub(crate) fn child_key<S: Store>(
    alloc: Global,
    tx: &mut S,
    shelf: &Shelf,
    child: TableId,
    key: &Key,
) -> Result<Option<Key>, StoreFault> {
    match (shelf.def(child), shelf.texts(child)) {
        (Some(def), Ok(texts)) => match &texts.child {
            None => Ok(None),
            Some(text) => key_in(alloc, tx, text.as_str(), def, key),
        },
        (None, _) => Ok(None),
        (Some(_), Err(fault)) => Err(fault),
    }
}

fn key_in<S: Store>(
    alloc: Global,
    tx: &mut S,
    text: &str,
    def: &TableDef,
    key: &Key,
) -> Result<Option<Key>, StoreFault> {
    match row_by(alloc, tx, text, key) {
        Ok(None) => Ok(None),
        Ok(Some(stored)) => key_of(alloc, def, &stored).map(Some),
        Err(fault) => Err(fault),
    }
}

/// How many entries the history has.
pub(crate) fn entries<S: Store>(tx: &mut S) -> Result<u64, StoreFault> {
    match tx.first_row("SELECT entries FROM \"ttcache-history\"", &[]) {
        Ok(None) => Err(StoreFault::Failed),
        Ok(Some(row)) => count_in(&row),
        Err(fault) => Err(fault),
    }
}

/// How many entries the history has, read in a transaction of its own.
pub(crate) fn entries_now(base: &mut Base) -> Result<u64, StoreFault> {
    match base.begin() {
        Ok(mut tx) => {
            let found = entries(&mut tx);
            end_reading(tx);
            found
        }
        Err(fault) => Err(fault),
    }
}

/// The position of a ticket, where it is recorded.
pub(crate) fn position_of<S: Store>(tx: &mut S, ticket: Ticket) -> Result<Option<u64>, StoreFault> {
    let Ok(number) = i64::try_from(ticket.0) else {
        return Ok(None);
    };
    let text = "SELECT position FROM \"ttcache-tickets\" WHERE ticket = ?";
    match tx.first_row(text, &[ValueRef::Int(number)]) {
        Ok(None) => Ok(None),
        Ok(Some(row)) => count_in(&row).map(Some),
        Err(fault) => Err(fault),
    }
}

/// The first of the tickets that isn't recorded.
pub(crate) fn first_missing<S: Store>(
    tx: &mut S,
    tickets: &[Ticket],
) -> Result<Option<Ticket>, StoreFault>
    ensures { MissesOne tickets.now result }
{
    for ticket in tickets {
        if position_of(tx, *ticket)?.is_none() {
            return Ok(Some(*ticket));
        }
    }
    Ok(None)
}

/// Whether a transaction with this ticket is recorded, read in a transaction of its own.
pub(crate) fn recorded(base: &mut Base, ticket: Ticket) -> Result<bool, StoreFault> {
    match base.begin() {
        Ok(mut tx) => {
            let found = position_of(&mut tx, ticket);
            end_reading(tx);
            is_found(found)
        }
        Err(fault) => Err(fault),
    }
}

fn is_found(found: Result<Option<u64>, StoreFault>) -> Result<bool, StoreFault> {
    match found {
        Ok(position) => Ok(position.is_some()),
        Err(fault) => Err(fault),
    }
}

/// The row of a key in a table, read in a transaction of its own.
pub(crate) fn find(
    alloc: Global,
    base: &mut Base,
    shelf: &Shelf,
    table: TableId,
    key: &Key,
) -> Result<Option<Row>, StoreFault> {
    match base.begin() {
        Ok(mut tx) => {
            let found = row_at(alloc, &mut tx, shelf, table, key);
            end_reading(tx);
            found
        }
        Err(fault) => Err(fault),
    }
}
