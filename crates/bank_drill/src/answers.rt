//! Answers as text.

use crate::telling::{Output, tell_column, tell_places};
use backing_sqlite::{OpenError, SqliteBank};
use change_log::RowChange;
use indexed_rows::Rows;
use instances::Tree;
use outside::{Applied, BankError, Changes, Done, Instance, Reached, Snapshot, Touched};
use row_types::{Detail, Key, Row, Rule};
use std::alloc::{AllocError, Global};
use table_defs::{BackingSchema, TableDef};
use table_state::Tables;
use tier_base::TableId;

/// Why a call gave no answer.
pub fn tell_bank_error(out: &mut Output, error: BankError) {
    match error {
        BankError::Failed => out.put_line("failed"),
        BankError::Memory => out.put_line("memory is wanting"),
    }
}

/// Whether the database was opened.
pub fn tell_opening(
    alloc: Global,
    opened: Result<SqliteBank, OpenError>,
    out: &mut Output,
) -> Result<(), AllocError> {
    match opened {
        Ok(_) => out.put_line("opened"),
        Err(error) => {
            let text = format!(in alloc; "{error}")?;
            out.put_line(text.as_str());
        }
    }
    Ok(())
}

/// What became of a transaction of the console.
pub fn tell_done(out: &mut Output, done: &Done) {
    match done {
        Done::Rows(count) => {
            out.put("rows ");
            out.put_number(*count);
            out.end_line();
        }
        Done::Broken(rule) => tell_rule(out, rule),
    }
}

fn tell_rule(out: &mut Output, rule: &Rule) {
    out.put("broken ");
    out.put_number(u64::from(rule.code.number()));
    match &rule.detail {
        Detail::Name(name) => {
            out.put(" ");
            out.put_name(name);
        }
        Detail::Row(name, key) => {
            out.put(" ");
            out.put_name(name);
            out.put_key(key);
        }
        _ => {}
    }
    out.end_line();
}

/// What became of a transaction that was to be applied once.
pub fn tell_applied(out: &mut Output, known: &BackingSchema, applied: &Applied) {
    match applied {
        Applied::Now(receipt) => tell_counted(out, "now ", receipt.position.0),
        Applied::Before(receipt) => tell_counted(out, "before ", receipt.position.0),
        Applied::NotReady(ticket) => tell_counted(out, "waits for ", ticket.0),
        Applied::Differs(table, key, row) => tell_difference(out, known, *table, key, row),
    }
}

fn tell_counted(out: &mut Output, word: &str, number: u64) {
    out.put(word);
    out.put_number(number);
    out.end_line();
}

fn tell_difference(
    out: &mut Output,
    known: &BackingSchema,
    table: TableId,
    key: &Key,
    row: &Option<Row>,
) {
    out.put("differs ");
    if let Some(def) = known.get(table.0 as usize) {
        out.put_name(&def.name);
    }
    out.put_key(key);
    out.put(": ");
    tell_found(out, row)
}

/// A row, where there is one.
pub fn tell_found(out: &mut Output, row: &Option<Row>) {
    match row {
        None => out.put_line("none"),
        Some(row) => out.put_row(row),
    }
}

/// The definitions.
pub fn tell_schema(out: &mut Output, known: &BackingSchema) {
    for def in known.as_slice() {
        tell_def(out, known, def);
    }
}

fn tell_def(out: &mut Output, known: &BackingSchema, def: &TableDef) {
    out.put_name(&def.name);
    out.end_line();
    for column in def.columns.as_slice() {
        tell_column(out, column);
    }
    out.put("  key");
    tell_places(out, def, def.primary_key.as_slice());
    out.end_line();
    if let Some(foreign) = &def.foreign_key {
        out.put("  parent");
        tell_places(out, def, foreign.columns.as_slice());
        out.put(" in ");
        if let Some(parent) = known.get(foreign.parent.0 as usize) {
            out.put_name(&parent.name);
        }
        if foreign.cascade {
            out.put(", cascades");
        }
        out.end_line();
    }
}

/// The position, and the rows of each table.
pub fn tell_snapshot(out: &mut Output, copy: &Snapshot) {
    tell_counted(out, "position ", copy.position.0);
    let mut number: u32 = 0;
    for def in copy.tables.schema().as_slice() {
        out.put_name(&def.name);
        out.end_line();
        tell_rows(out, &copy.tables, TableId(number));
        number = number.saturating_add(1);
    }
}

fn tell_rows(out: &mut Output, tables: &Tables, table: TableId) {
    match tables.table(table) {
        None => {}
        Some(rows) => tell_each(out, rows),
    }
}

fn tell_each(out: &mut Output, rows: &Rows) {
    for place in 0..rows.len() {
        out.put("= ");
        out.put_row(rows.row_at(place));
    }
}

/// The position, and the instance, where there is one.
pub fn tell_reached(out: &mut Output, known: &BackingSchema, tree: &Tree, reached: &Reached) {
    tell_counted(out, "position ", reached.position.0);
    match &reached.instance {
        None => out.put_line("none"),
        Some(instance) => tell_instance(out, known, tree, instance),
    }
}

fn tell_instance(out: &mut Output, known: &BackingSchema, tree: &Tree, instance: &Instance) {
    out.put("root");
    out.put_key(&instance.root);
    out.end_line();
    for (place, rows) in instance.rows.as_slice().iter().enumerate() {
        tell_place(out, known, tree, place);
        tell_each(out, rows);
    }
}

// The name of the table at a place of the tree.
fn tell_place(out: &mut Output, known: &BackingSchema, tree: &Tree, place: usize) {
    if let Some(table) = tree.table_of(place) {
        if let Some(def) = known.get(table.0 as usize) {
            out.put_name(&def.name);
        }
    }
    out.end_line();
}

/// The position, what changed, and for each tree the instances that are given.
pub fn tell_changes(out: &mut Output, known: &BackingSchema, trees: &[Tree], changes: &Changes) {
    tell_counted(out, "position ", changes.position.0);
    for change in changes.log.as_slice() {
        tell_change(out, known, change);
    }
    for (tree, touched) in trees.iter().zip(changes.touched.as_slice()) {
        for one in touched.as_slice() {
            tell_touched(out, known, tree, one);
        }
    }
}

fn tell_change(out: &mut Output, known: &BackingSchema, change: &RowChange) {
    out.put("changed ");
    if let Some(def) = known.get(change.table.0 as usize) {
        out.put_name(&def.name);
    }
    out.put_key(&change.key);
    out.end_line();
    out.put("- ");
    tell_found(out, &change.old);
    out.put("+ ");
    tell_found(out, &change.new)
}

fn tell_touched(out: &mut Output, known: &BackingSchema, tree: &Tree, touched: &Touched) {
    if touched.wanted {
        out.put_line("wanted");
    }
    tell_instance(out, known, tree, &touched.instance)
}
