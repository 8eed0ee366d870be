//! SQL texts of a backing table.
//!
//! A table has the name that it has at the backing database, between quotes, and so do its columns. SQLite keeps names
//! that begin with `sqlite_` to itself, so those have `_` in front, which no other name has.

use crate::draft::Draft;
use crate::fault::StoreFault;
use row_types::{Column, Ty};
use std::alloc::Global;
use table_defs::{ForeignKey, TableDef};
use tier_base::Name;

/// What SQLite keeps to itself, in upper case.
const KEPT: &str = "SQLITE_";

/// The texts of the statements on one table. Their parameters stand in the order of the columns, and then of the key.
pub(crate) struct TableTexts {
    /// The row of a key.
    pub find: String,
    /// All rows, in key order.
    pub all: String,
    /// One new row.
    pub insert: String,
    /// Another row at a key, by its columns that aren't of the key; none where there are no such columns.
    pub update: Option<String>,
    /// The row of a key leaves.
    pub delete: String,
    /// The least key of a row that refers to a key, where there is a foreign key.
    pub child: Option<String>,
    /// All rows that refer to a key, where there is a foreign key.
    pub children: Option<String>,
    /// One entry more of the log: position, number, whether there was a row before, and that row or its key.
    pub enter: String,
    /// The log behind a position: the key, whether there was a row before, and that row.
    pub logged: String,
    /// The log up to a position leaves.
    pub forget: String,
}

impl Drop for TableTexts {
    fn drop(self) {
        let Self {
            find: _,
            all: _,
            insert: _,
            update: _,
            delete: _,
            child: _,
            children: _,
            enter: _,
            logged: _,
            forget: _,
        } = self;
    }
}

impl TableTexts {
    /// The texts of the table.
    pub(crate) fn new(alloc: Global, def: &TableDef) -> Result<TableTexts, StoreFault> {
        let mut out = Draft::new(alloc);
        let texts = TableTexts {
            find: find_text(&mut out, def),
            all: all_text(&mut out, def),
            insert: insert_text(&mut out, def),
            update: update_text(&mut out, def),
            delete: delete_text(&mut out, def),
            child: child_text(&mut out, def),
            children: children_text(&mut out, def),
            enter: enter_text(&mut out, def),
            logged: logged_text(&mut out, def),
            forget: forget_text(&mut out, def),
        };
        match out.fault() {
            None => Ok(texts),
            Some(fault) => Err(fault),
        }
    }
}

fn find_text(out: &mut Draft, def: &TableDef) -> String {
    out.put("SELECT ");
    put_all_columns(out, def);
    out.put(" FROM ");
    put_table(out, &def.name);
    put_tests(out, def, def.primary_key.as_slice());
    out.take()
}

fn all_text(out: &mut Draft, def: &TableDef) -> String {
    out.put("SELECT ");
    put_all_columns(out, def);
    out.put(" FROM ");
    put_table(out, &def.name);
    out.put(" ORDER BY ");
    put_columns(out, def, def.primary_key.as_slice());
    out.take()
}

fn insert_text(out: &mut Draft, def: &TableDef) -> String {
    out.put("INSERT INTO ");
    put_table(out, &def.name);
    out.put(" (");
    put_all_columns(out, def);
    out.put(") VALUES (");
    for place in 0..def.columns.len() {
        out.put(if place == 0 { "?" } else { ", ?" });
    }
    out.put(")");
    out.take()
}

fn update_text(out: &mut Draft, def: &TableDef) -> Option<String> {
    if !has_others(def) {
        return None;
    }
    out.put("UPDATE ");
    put_table(out, &def.name);
    let mut between = " SET ";
    for (place, column) in def.columns.as_slice().iter().enumerate() {
        if !is_of_key(def, place) {
            out.put(between);
            put_quoted(out, &column.name);
            out.put(" = ?");
            between = ", ";
        }
    }
    put_tests(out, def, def.primary_key.as_slice());
    Some(out.take())
}

fn delete_text(out: &mut Draft, def: &TableDef) -> String {
    out.put("DELETE FROM ");
    put_table(out, &def.name);
    put_tests(out, def, def.primary_key.as_slice());
    out.take()
}

fn child_text(out: &mut Draft, def: &TableDef) -> Option<String> {
    let foreign = def.foreign_key.as_ref()?;
    out.put("SELECT ");
    put_columns(out, def, def.primary_key.as_slice());
    out.put(" FROM ");
    put_table(out, &def.name);
    put_tests(out, def, foreign.columns.as_slice());
    out.put(" ORDER BY ");
    put_columns(out, def, def.primary_key.as_slice());
    out.put(" LIMIT 1");
    Some(out.take())
}

fn children_text(out: &mut Draft, def: &TableDef) -> Option<String> {
    let foreign = def.foreign_key.as_ref()?;
    out.put("SELECT ");
    put_all_columns(out, def);
    out.put(" FROM ");
    put_table(out, &def.name);
    put_tests(out, def, foreign.columns.as_slice());
    Some(out.take())
}

fn enter_text(out: &mut Draft, def: &TableDef) -> String {
    out.put("INSERT INTO ");
    put_log(out, &def.name);
    out.put(" (\"log-position\", \"log-number\", \"log-was\", ");
    put_all_columns(out, def);
    out.put(") VALUES (?, ?, ?");
    for _ in 0..def.columns.len() {
        out.put(", ?");
    }
    out.put(")");
    out.take()
}

fn logged_text(out: &mut Draft, def: &TableDef) -> String {
    out.put("SELECT ");
    put_columns(out, def, def.primary_key.as_slice());
    out.put(", \"log-was\", ");
    put_all_columns(out, def);
    out.put(" FROM ");
    put_log(out, &def.name);
    out.put(" WHERE \"log-position\" > ? ORDER BY \"log-position\", \"log-number\"");
    out.take()
}

fn forget_text(out: &mut Draft, def: &TableDef) -> String {
    out.put("DELETE FROM ");
    put_log(out, &def.name);
    out.put(" WHERE \"log-position\" <= ?");
    out.take()
}

/// The text that makes the log of the table, where it isn't there.
pub(crate) fn log_text(alloc: Global, def: &TableDef) -> Result<String, StoreFault> {
    let mut out = Draft::new(alloc);
    out.put("CREATE TABLE IF NOT EXISTS ");
    put_log(&mut out, &def.name);
    out.put(
        " (\"log-position\" INTEGER NOT NULL, \"log-number\" INTEGER NOT NULL, \"log-was\" INTEGER NOT NULL, ",
    );
    for column in def.columns.as_slice() {
        put_quoted(&mut out, &column.name);
        out.put(type_text(column));
        out.put(", ");
    }
    out.put("PRIMARY KEY (\"log-position\", \"log-number\")) STRICT");
    out.end()
}

fn type_text(column: &Column) -> &'static str {
    match column.ty {
        Ty::Varchar2(_) => " TEXT",
        _ => " INTEGER",
    }
}

// The name of the log of a table.
fn put_log(out: &mut Draft, name: &Name) {
    out.put("\"log of ");
    out.put_name(name);
    out.put("\"");
}

/// The text that makes the table. `parent` is the definition of the table that its foreign key refers to.
pub(crate) fn create_text(
    alloc: Global,
    def: &TableDef,
    parent: Option<&TableDef>,
) -> Result<String, StoreFault> {
    let mut out = Draft::new(alloc);
    out.put("CREATE TABLE ");
    put_table(&mut out, &def.name);
    out.put(" (");
    for column in def.columns.as_slice() {
        put_declaration(&mut out, column);
    }
    out.put("PRIMARY KEY (");
    put_columns(&mut out, def, def.primary_key.as_slice());
    out.put(")");
    put_reference(&mut out, def, parent);
    out.put(") STRICT");
    out.end()
}

fn put_declaration(out: &mut Draft, column: &Column) {
    put_quoted(out, &column.name);
    out.put(type_text(column));
    out.put(if column.not_null { " NOT NULL, " } else { ", " });
}

fn put_reference(out: &mut Draft, def: &TableDef, parent: Option<&TableDef>) {
    match (&def.foreign_key, parent) {
        (Some(foreign), Some(parent)) => put_foreign(out, def, foreign, parent),
        (Some(_), None) => out.fail(StoreFault::Failed),
        (None, _) => {}
    }
}

fn put_foreign(out: &mut Draft, def: &TableDef, foreign: &ForeignKey, parent: &TableDef) {
    out.put(", FOREIGN KEY (");
    put_columns(out, def, foreign.columns.as_slice());
    out.put(") REFERENCES ");
    put_table(out, &parent.name);
    out.put(" (");
    put_columns(out, parent, parent.primary_key.as_slice());
    out.put(if foreign.cascade {
        ") ON DELETE CASCADE"
    } else {
        ")"
    });
}

/// The text that makes the index by which the children of a row are found in key order.
pub(crate) fn index_text(
    alloc: Global,
    def: &TableDef,
    foreign: &ForeignKey,
) -> Result<String, StoreFault> {
    let mut out = Draft::new(alloc);
    out.put("CREATE INDEX \"parents of ");
    out.put_name(&def.name);
    out.put("\" ON ");
    put_table(&mut out, &def.name);
    out.put(" (");
    put_columns(&mut out, def, foreign.columns.as_slice());
    for place in def.primary_key.as_slice() {
        if !foreign.columns.as_slice().contains(place) {
            out.put(", ");
            put_column(&mut out, def, *place);
        }
    }
    out.put(")");
    out.end()
}

// Whether there are columns that aren't of the key.
fn has_others(def: &TableDef) -> bool {
    for place in 0..def.columns.len() {
        if !is_of_key(def, place) {
            return true;
        }
    }
    false
}

/// Whether the column at the place is one of the primary key's.
pub(crate) fn is_of_key(def: &TableDef, place: usize) -> bool {
    def.primary_key.as_slice().contains(&place)
}

fn put_tests(out: &mut Draft, def: &TableDef, places: &[usize]) {
    let mut between = " WHERE ";
    for place in places {
        out.put(between);
        put_column(out, def, *place);
        out.put(" = ?");
        between = " AND ";
    }
}

fn put_all_columns(out: &mut Draft, def: &TableDef) {
    let mut between = "";
    for column in def.columns.as_slice() {
        out.put(between);
        put_quoted(out, &column.name);
        between = ", ";
    }
}

fn put_columns(out: &mut Draft, def: &TableDef, places: &[usize]) {
    let mut between = "";
    for place in places {
        out.put(between);
        put_column(out, def, *place);
        between = ", ";
    }
}

fn put_column(out: &mut Draft, def: &TableDef, place: usize) {
    match def.columns.get(place) {
        None => out.fail(StoreFault::Failed),
        Some(column) => put_quoted(out, &column.name),
    }
}

fn put_table(out: &mut Draft, name: &Name) {
    if name.as_bytes().starts_with(KEPT.as_bytes()) {
        out.put("\"_");
        out.put_name(name);
        out.put("\"");
    } else {
        put_quoted(out, name);
    }
}

fn put_quoted(out: &mut Draft, name: &Name) {
    out.put("\"");
    out.put_name(name);
    out.put("\"");
}
