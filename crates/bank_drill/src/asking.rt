//! Tables, writes, keys and tickets as a script spells them.

use crate::error::DrillError;
use evaluator::Change;
use resolution::resolve_writes;
use row_types::{Key, Row, Value, parse_literal};
use sql_query::Write;
use sql_subset::line::parse_line;
use sql_subset::request::{ConsoleRequest, Line};
use std::alloc::{AllocError, Global};
use table_defs::{BackingSchema, find_table};
use table_state::{Op, Ops};
use tier_base::{Name, Seq, TableId, Ticket};

/// What the console asks by this text.
pub fn asked(alloc: Global, text: &str) -> Result<Option<ConsoleRequest>, AllocError> {
    let line = format!(in alloc; "backing: {text}")?;
    match parse_line(alloc, line.as_bytes()) {
        Ok(Some(Line::Console(request))) => Ok(Some(request)),
        _ => Ok(None),
    }
}

/// The writes that the text spells.
pub fn writes_of(alloc: Global, text: &str, line: usize) -> Result<Seq<Write>, DrillError> {
    match asked(alloc, text)? {
        Some(ConsoleRequest::Writes(writes)) => Ok(writes),
        _ => Err(DrillError::Line(line)),
    }
}

/// The writes that the text spells, over these tables.
pub fn changes_of(
    alloc: Global,
    schema: &BackingSchema,
    text: &str,
    line: usize,
) -> Result<Seq<Change>, DrillError> {
    let writes = writes_of(alloc, text, line)?;
    resolve_writes(alloc, schema, writes.as_slice()).map_err(|_| DrillError::Line(line))
}

/// The table of this name.
pub fn table_of(
    alloc: Global,
    schema: &BackingSchema,
    text: &str,
    line: usize,
) -> Result<TableId, DrillError> {
    let Ok(name) = Name::new(alloc, text.as_bytes()) else {
        return Err(DrillError::Line(line));
    };
    match find_table(schema, &name) {
        None => Err(DrillError::Line(line)),
        Some(table) => Ok(table),
    }
}

/// The tables of these names, with blanks between.
pub fn tables_of(
    alloc: Global,
    schema: &BackingSchema,
    text: &str,
    line: usize,
) -> Result<Vec<TableId>, DrillError> {
    let mut tables = Vec::new(alloc);
    for name in text.split(' ') {
        if !name.is_empty() {
            tables.push(table_of(alloc, schema, name, line)?)?;
        }
    }
    Ok(tables)
}

/// The key of these literals, with commas between.
pub fn key_of(alloc: Global, text: &str, line: usize) -> Result<Key, DrillError> {
    Ok(Key::from_vec(values_of(alloc, text, line)?))
}

fn row_of(alloc: Global, text: &str, line: usize) -> Result<Row, DrillError> {
    Ok(Row::from_vec(values_of(alloc, text, line)?))
}

fn values_of(alloc: Global, text: &str, line: usize) -> Result<Vec<Value>, DrillError> {
    let mut values = Vec::new(alloc);
    for literal in text.split(',') {
        match parse_literal(alloc, literal.as_bytes()) {
            Ok(value) => values.push(value)?,
            Err(_) => return Err(DrillError::Line(line)),
        }
    }
    Ok(values)
}

/// The operations, with `; ` between: `insert TABLE ROW`, `delete TABLE ROW`, `update TABLE ROW to ROW`.
pub fn ops_of(
    alloc: Global,
    schema: &BackingSchema,
    text: &str,
    line: usize,
) -> Result<Ops, DrillError> {
    let mut ops = Vec::new(alloc);
    for part in text.split("; ") {
        ops.push(op_of(alloc, schema, part, line)?)?;
    }
    Ok(Seq::from_vec(ops))
}

fn op_of(alloc: Global, schema: &BackingSchema, text: &str, line: usize) -> Result<Op, DrillError> {
    let (verb, rest) = text.split_once(' ').unwrap_or((text, ""));
    let (table, rows) = rest.split_once(' ').unwrap_or((rest, ""));
    let table = table_of(alloc, schema, table, line)?;
    match verb {
        "insert" => Ok(Op::Insert(table, row_of(alloc, rows, line)?)),
        "delete" => Ok(Op::Delete(table, row_of(alloc, rows, line)?)),
        "update" => update_of(alloc, table, rows, line),
        _ => Err(DrillError::Line(line)),
    }
}

fn update_of(alloc: Global, table: TableId, rows: &str, line: usize) -> Result<Op, DrillError> {
    match rows.split_once(" to ") {
        None => Err(DrillError::Line(line)),
        Some((old, new)) => {
            let old = row_of(alloc, old, line)?;
            let new = row_of(alloc, new, line)?;
            Ok(Op::Update(table, old, new))
        }
    }
}

/// The tickets, with blanks between.
pub fn tickets_of(alloc: Global, text: &str, line: usize) -> Result<Vec<Ticket>, DrillError> {
    let mut tickets = Vec::new(alloc);
    for word in text.split(' ') {
        if !word.is_empty() {
            match word.parse::<u64>() {
                Ok(number) => tickets.push(Ticket(number))?,
                Err(_) => return Err(DrillError::Line(line)),
            }
        }
    }
    Ok(tickets)
}
