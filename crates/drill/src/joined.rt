//! Tables that foreign keys join, which the console can't spell yet.

use row_types::{Column, Ty};
use std::alloc::{AllocError, Global};
use table_defs::{ForeignKey, TableDef};
use tier_base::{Name, Seq, TableId};

/// P (ID, N); C (ID, PID), which refers to P; V (ID, X), where X is a text of up to 3 bytes; T (ID, N); and K (ID,
/// PID), which refers to P with ON DELETE CASCADE. ID is the key of each, and other columns are TT_INTEGER.
pub fn joined_tables(alloc: Global) -> Result<Vec<TableDef>, AllocError> {
    let mut tables = Vec::with_capacity(alloc, 5)?;
    tables.push(with_number(alloc, "P")?)?;
    tables.push(with_parent(alloc, "C", false)?)?;
    tables.push(with_text(alloc, "V")?)?;
    tables.push(with_number(alloc, "T")?)?;
    tables.push(with_parent(alloc, "K", true)?)?;
    Ok(tables)
}

fn with_number(alloc: Global, text: &str) -> Result<TableDef, AllocError> {
    table(alloc, text, column(alloc, "N", Ty::TtInteger, false)?, None)
}

fn with_text(alloc: Global, text: &str) -> Result<TableDef, AllocError> {
    table(
        alloc,
        text,
        column(alloc, "X", Ty::Varchar2(3), false)?,
        None,
    )
}

fn with_parent(alloc: Global, text: &str, cascade: bool) -> Result<TableDef, AllocError> {
    let foreign_key = ForeignKey {
        columns: Seq::from_vec(vec![in alloc; 1]?),
        parent: TableId(0),
        cascade,
    };
    let second = column(alloc, "PID", Ty::TtInteger, true)?;
    table(alloc, text, second, Some(foreign_key))
}

// A table of ID, which is its key, and another column.
fn table(
    alloc: Global,
    text: &str,
    second: Column,
    foreign_key: Option<ForeignKey>,
) -> Result<TableDef, AllocError> {
    let first = column(alloc, "ID", Ty::TtInteger, true)?;
    Ok(TableDef {
        name: name(alloc, text)?,
        columns: Seq::from_vec(vec![in alloc; first, second]?),
        primary_key: Seq::from_vec(vec![in alloc; 0]?),
        foreign_key,
    })
}

fn column(alloc: Global, text: &str, ty: Ty, not_null: bool) -> Result<Column, AllocError> {
    let name = name(alloc, text)?;
    Ok(Column { name, ty, not_null })
}

// The names here are spelt right, so the error is want of memory.
fn name(alloc: Global, text: &str) -> Result<Name, AllocError> {
    Name::new(alloc, text.as_bytes()).map_err(|_| AllocError)
}
