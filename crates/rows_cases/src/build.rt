// What the tests make tables, rows and conditions of.

ghost use Rattle.std.specs.Prelude.{IfOk};
ghost use Rattle.evaluator.specs.table_state.specs.Keyed.{IsKeyed};

use evaluator::expressions::{Comparator, Cond, Expr};
use evaluator::row_types::{Column, Row, Ty, Value, print_values_into};
use evaluator::table_defs::{ForeignKey, TableDef};
use evaluator::table_state::{Entry, Op, Tables};
use evaluator::tier_base::{Name, Seq, TableId};
use std::alloc::{AllocError, Global};

pub const A: TableId = TableId(0);

pub const C: TableId = TableId(1);

pub const K: TableId = TableId(2);

// The two places where values are made of numbers and numbers of values.
pub fn number(number: i64) -> Value {
    Value::integer(number)
}

pub fn number_of(value: &Value) -> Option<i64> {
    match value {
        Value::Number(number) => Some(number.units()),
        _ => None,
    }
}

pub fn value(value: Option<i64>) -> Value {
    match value {
        None => Value::Null,
        Some(it) => number(it),
    }
}

fn row(alloc: Global, id: i64, other: Option<i64>) -> Result<Row, AllocError> {
    let values = vec![in alloc; number(id), value(other)]?;
    Ok(Row::from_vec(values))
}

// The row and a blank, behind the bytes.
pub fn put_row(out: &mut Vec<u8>, row: &Row) -> Result<(), AllocError> {
    print_values_into(out, row.values())?;
    out.extend_from_slice(b" ")
}

// The names here are spelt right, so the error is want of memory.
pub fn name(alloc: Global, text: &str) -> Result<Name, AllocError> {
    Name::new(alloc, text.as_bytes()).map_err(|_| AllocError)
}

fn column(alloc: Global, text: &str, ty: Ty, not_null: bool) -> Result<Column, AllocError> {
    let name = name(alloc, text)?;
    Ok(Column { name, ty, not_null })
}

// A reference from the second column to a table.
fn reference(alloc: Global, parent: TableId, cascade: bool) -> Result<ForeignKey, AllocError> {
    Ok(ForeignKey {
        columns: Seq::from_vec(vec![in alloc; 1]?),
        parent,
        cascade,
    })
}

fn table(
    alloc: Global,
    text: &str,
    foreign_key: Option<ForeignKey>,
) -> Result<TableDef, AllocError> {
    let id = column(alloc, "ID", Ty::TtBigint, true)?;
    let other = column(alloc, "N", Ty::TtBigint, foreign_key.is_some())?;
    Ok(TableDef {
        name: name(alloc, text)?,
        columns: Seq::from_vec(vec![in alloc; id, other]?),
        primary_key: Seq::from_vec(vec![in alloc; 0]?),
        foreign_key,
    })
}

// A (ID, N); C (ID, N), whose N refers to A and cascades; and K (ID, N), whose N refers to what is given.
fn definitions(alloc: Global, parent: TableId) -> Result<Vec<Entry>, AllocError> {
    let first = table(alloc, "A", None)?;
    let second = table(alloc, "C", Some(reference(alloc, A, true)?))?;
    let third = table(alloc, "K", Some(reference(alloc, parent, false)?))?;
    let entries = vec![in alloc;
        Entry::Definition(first),
        Entry::Definition(second),
        Entry::Definition(third),
    ]?;
    Ok(entries)
}

pub fn inserts(alloc: Global, rows: &[(TableId, i64, Option<i64>)]) -> Result<Seq<Op>, AllocError> {
    let mut ops = Vec::with_capacity(alloc, rows.len())?;
    for (table, id, other) in rows {
        ops.push(Op::Insert(*table, row(alloc, *id, *other)?))?;
    }
    Ok(Seq::from_vec(ops))
}

// The tables with these rows, where K refers to the table that is given.
pub fn tables(
    alloc: Global,
    parent: TableId,
    rows: &[(TableId, i64, Option<i64>)],
) -> Result<Tables, AllocError>
    ensures { IfOk result (λ tables. IsKeyed tables) }
{
    let mut entries = definitions(alloc, parent)?;
    entries.push(Entry::Foreign(inserts(alloc, rows)?))?;
    run(alloc, entries.as_slice())
}

fn run(alloc: Global, entries: &[Entry]) -> Result<Tables, AllocError>
    ensures { IfOk result (λ tables. IsKeyed tables) }
{
    let mut tables = Tables::new(alloc);
    match tables.run(alloc, entries) {
        Ok(()) => Ok(tables),
        Err(_) => Err(AllocError),
    }
}

pub fn int(it: i64) -> Expr {
    Expr::literal(number(it))
}

pub fn equal(left: Expr, right: Expr) -> Cond {
    Cond::compared(Comparator::Equal, left, right)
}

pub fn both(alloc: Global, left: Cond, right: Cond) -> Result<Cond, AllocError> {
    Cond::and(alloc, left, right)
}

pub fn either(alloc: Global, left: Cond, right: Cond) -> Result<Cond, AllocError> {
    Cond::or(alloc, left, right)
}
