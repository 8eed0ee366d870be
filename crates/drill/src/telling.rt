//! What is told of a run: the replies, the history and the tables.

use crate::output::Output;
use std::alloc::{AllocError, Global};
use table_defs::TableDef;
use table_state::{ApplyError, Entry, Op, Tables};
use tier_base::TableId;

/// The replies; each entry of the history with its number; and each table that the history leaves, with its rows.
pub fn tell_all(
    alloc: Global,
    replies: &[u8],
    history: &[Entry],
    out: &mut Output,
) -> Result<(), AllocError> {
    let mut tables = Tables::new(alloc);
    if let Err(ApplyError::Memory) = tables.run(alloc, history) {
        return Err(AllocError);
    }
    out.put_bytes(replies);
    tell_history(out, history, tables.schema().as_slice());
    tell_tables(out, &tables);
    Ok(())
}

fn tell_history(out: &mut Output, history: &[Entry], schema: &[TableDef]) {
    out.put("-- history\n");
    let mut number: u64 = 0;
    for entry in history {
        number = number.saturating_add(1);
        out.put_number(number);
        tell_entry(out, entry, schema);
    }
}

fn tell_entry(out: &mut Output, entry: &Entry, schema: &[TableDef]) {
    match entry {
        Entry::Definition(def) => {
            out.put(" definition of ");
            out.put_bytes(def.name.as_bytes());
            out.end_line();
        }
        Entry::Foreign(ops) => {
            out.put(" others\n");
            tell_ops(out, ops.as_slice(), schema);
        }
        Entry::Own(ticket, ops) => {
            out.put(" ticket ");
            out.put_number(ticket.0);
            out.end_line();
            tell_ops(out, ops.as_slice(), schema);
        }
    }
}

fn tell_ops(out: &mut Output, ops: &[Op], schema: &[TableDef]) {
    for op in ops {
        tell_op(out, op, schema);
        out.end_line();
    }
}

fn tell_op(out: &mut Output, op: &Op, schema: &[TableDef]) {
    match op {
        Op::Insert(table, row) => {
            tell_verb(out, "  insert ", *table, schema);
            out.put_row(row);
        }
        Op::Update(table, old, new) => {
            tell_verb(out, "  update ", *table, schema);
            out.put_row(old);
            out.put(" to ");
            out.put_row(new);
        }
        Op::Delete(table, row) => {
            tell_verb(out, "  delete ", *table, schema);
            out.put_row(row);
        }
    }
}

fn tell_verb(out: &mut Output, verb: &str, table: TableId, schema: &[TableDef]) {
    out.put(verb);
    if let Some(def) = schema.get(table.0 as usize) {
        out.put_bytes(def.name.as_bytes());
    }
    out.put(" ");
}

fn tell_tables(out: &mut Output, tables: &Tables) {
    out.put("-- tables\n");
    let mut number: u32 = 0;
    for def in tables.schema().as_slice() {
        out.put_bytes(def.name.as_bytes());
        out.end_line();
        tell_rows(out, tables, TableId(number));
        number = number.saturating_add(1);
    }
}

fn tell_rows(out: &mut Output, tables: &Tables, table: TableId) {
    let Some(rows) = tables.table(table) else {
        return;
    };
    for place in 0..rows.len() {
        out.put("= ");
        out.put_row(rows.row_at(place));
        out.end_line();
    }
}
