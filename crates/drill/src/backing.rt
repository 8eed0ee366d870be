//! Tables and writes as the console spells them.

use crate::error::DrillError;
use evaluator::Change;
use resolution::resolve_writes;
use sql_subset::line::parse_line;
use sql_subset::request::{ConsoleRequest, Line};
use std::alloc::{AllocError, Global};
use table_defs::{BackingSchema, TableDef};
use tier_base::Seq;

/// What the console asks by this line, none where it is no line of the console.
pub fn asked(alloc: Global, line: &[u8]) -> Option<ConsoleRequest> {
    match parse_line(alloc, line) {
        Ok(Some(Line::Console(request))) => Some(request),
        _ => None,
    }
}

/// What the console asks by this text behind its label.
pub fn asked_behind_label(alloc: Global, text: &str) -> Result<Option<ConsoleRequest>, AllocError> {
    let line = format!(in alloc; "backing: {text}")?;
    Ok(asked(alloc, line.as_bytes()))
}

/// The definition that a line of the console makes over these tables, none where it makes none.
pub fn defined(alloc: Global, schema: &BackingSchema, line: &[u8]) -> Option<TableDef> {
    match asked(alloc, line)? {
        ConsoleRequest::CreateTable(table) => TableDef::check(alloc, &table, schema).ok(),
        ConsoleRequest::Writes(_) => None,
    }
}

/// The writes over these tables. The error names the line that they stand in.
pub fn changes_of(
    alloc: Global,
    schema: &BackingSchema,
    text: &str,
    line: usize,
) -> Result<Seq<Change>, DrillError> {
    match asked_behind_label(alloc, text)? {
        Some(ConsoleRequest::Writes(writes)) => {
            resolve_writes(alloc, schema, writes.as_slice()).map_err(|_| DrillError::Line(line))
        }
        _ => Err(DrillError::Line(line)),
    }
}
