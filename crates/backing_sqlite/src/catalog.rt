//! What this crate keeps in the file beside the backing tables.
//!
//! Its tables have a hyphen in their names, which no name of a backing table has.

use crate::fault::StoreFault;
use crate::judging::table_at;
use crate::reading::entries;
use crate::schema_rows::read_def;
use crate::shelf::Shelf;
use crate::store::{Base, Store, end};
use crate::texts::log_text;
use crate::writing::{forget, give};
use std::alloc::Global;
use table_defs::TableDef;

/// How many entries the history has, in one row.
const HISTORY: &str =
    "CREATE TABLE \"ttcache-history\" (id INTEGER PRIMARY KEY, entries INTEGER NOT NULL) STRICT";

/// The recorded tickets, with their positions.
const TICKETS: &str =
    "CREATE TABLE \"ttcache-tickets\" (ticket INTEGER PRIMARY KEY, position INTEGER NOT NULL) STRICT";

/// The backing tables: name, the table that the foreign key refers to, and whether it has ON DELETE CASCADE.
const TABLES: &str =
    "CREATE TABLE \"ttcache-tables\" (place INTEGER PRIMARY KEY, name TEXT NOT NULL, parent INTEGER, cascades INTEGER NOT NULL) STRICT";

/// Their columns: name, type with its numbers, and the places in the primary and in the foreign key, from 0.
const COLUMNS: &str =
    "CREATE TABLE \"ttcache-columns\" (table_place INTEGER NOT NULL, place INTEGER NOT NULL, name TEXT NOT NULL, type TEXT NOT NULL, size INTEGER NOT NULL, scale INTEGER NOT NULL, not_null INTEGER NOT NULL, key_place INTEGER, foreign_place INTEGER, PRIMARY KEY (table_place, place)) STRICT";

/// A new history has no entries.
const NO_ENTRIES: &str = "INSERT INTO \"ttcache-history\" (id, entries) VALUES (1, 0)";

/// Makes what isn't there yet, and reads the definitions.
pub(crate) fn open_catalog(alloc: Global, base: &mut Base) -> Result<Shelf, StoreFault> {
    match base.begin() {
        Ok(mut tx) => {
            let done = catalog_in(alloc, &mut tx);
            match end(tx, done.is_ok()) {
                Ok(()) => done,
                Err(fault) => Err(fault),
            }
        }
        Err(fault) => Err(fault),
    }
}

fn catalog_in<S: Store>(alloc: Global, tx: &mut S) -> Result<Shelf, StoreFault> {
    let text = "SELECT name FROM sqlite_schema WHERE name = 'ttcache-history'";
    match tx.first_row(text, &[])? {
        None => {
            make_catalog(tx)?;
            Ok(Shelf::new(alloc))
        }
        Some(_) => read_catalog(alloc, tx),
    }
}

fn make_catalog<S: Store>(tx: &mut S) -> Result<(), StoreFault> {
    for text in &[HISTORY, TICKETS, TABLES, COLUMNS, NO_ENTRIES] {
        give(tx, *text, &[])?;
    }
    Ok(())
}

fn read_catalog<S: Store>(alloc: Global, tx: &mut S) -> Result<Shelf, StoreFault> {
    let text = "SELECT name, parent, cascades FROM \"ttcache-tables\" ORDER BY place";
    let stored = tx.all_rows(text, &[])?;
    match entries(tx) {
        Ok(position) => shelf_of(alloc, tx, stored.as_slice(), position),
        Err(fault) => Err(fault),
    }
}

// The tables of these rows. Their logs lose what they have up to a position.
fn shelf_of<S: Store>(
    alloc: Global,
    tx: &mut S,
    stored: &[sqlite::Row],
    position: u64,
) -> Result<Shelf, StoreFault> {
    let mut shelf = Shelf::new(alloc);
    match add_tables(alloc, tx, &mut shelf, stored, position) {
        Ok(()) => Ok(shelf),
        Err(fault) => Err(fault),
    }
}

fn add_tables<S: Store>(
    alloc: Global,
    tx: &mut S,
    shelf: &mut Shelf,
    stored: &[sqlite::Row],
    position: u64,
) -> Result<(), StoreFault> {
    for (place, row) in stored.iter().enumerate() {
        add_table(alloc, tx, shelf, place, row)?;
        forget(tx, shelf, table_at(place)?, position)?;
    }
    Ok(())
}

// Puts the table at a place behind those before it, and makes its log: a file from before the logs has none.
fn add_table<S: Store>(
    alloc: Global,
    tx: &mut S,
    shelf: &mut Shelf,
    place: usize,
    row: &sqlite::Row,
) -> Result<(), StoreFault> {
    match read_def(alloc, tx, place, row) {
        Ok(def) => match make_log(alloc, tx, &def) {
            Ok(()) => shelf.push(alloc, def),
            Err(fault) => Err(fault),
        },
        Err(fault) => Err(fault),
    }
}

/// Makes the log of a table, where it isn't there.
pub(crate) fn make_log<S: Store>(
    alloc: Global,
    tx: &mut S,
    def: &TableDef,
) -> Result<(), StoreFault> {
    let text = log_text(alloc, def)?;
    give(tx, text.as_str(), &[])
}
