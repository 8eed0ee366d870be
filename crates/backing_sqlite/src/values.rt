//! Values of columns as values of SQLite: numbers as their units and times as seconds in INTEGER, texts as TEXT.

ghost use Rattle.std.specs.Prelude.{IfSome};
ghost use Rattle.row_types.specs.Times.{IsTime};

use crate::fault::StoreFault;
use numbers::Number;
use row_types::{Column, Key, Row, Text, Time, Ty, Value, fits};
use sqlite::types::ValueRef;
use std::alloc::Global;
use table_defs::TableDef;

/// The first and the last second of the years 0001 to 9999.
const FIRST_SECOND: i64 = -62_135_596_800;

const LAST_SECOND: i64 = 253_402_300_799;

/// Where an entry stands in the log.
#[derive(Clone, Copy)]
pub(crate) struct LogPlace {
    /// The position of the history behind it.
    pub position: u64,
    /// Its number in its transaction, from 0.
    pub number: usize,
}

/// The value as SQLite keeps it.
fn lent(value: &Value) -> ValueRef<'_> {
    match value {
        Value::Null => ValueRef::Null,
        Value::Number(number) => ValueRef::Int(number.units()),
        Value::Text(text) => ValueRef::Text(text.as_bytes()),
        Value::Time(time) => ValueRef::Int(time.seconds()),
    }
}

/// The values as SQLite keeps them.
pub(crate) fn lent_all<'a>(
    alloc: Global,
    values: &'a [Value],
) -> Result<Vec<ValueRef<'a>>, StoreFault> {
    let mut out = Vec::with_capacity(alloc, values.len())?;
    match put_all(&mut out, values) {
        Ok(()) => Ok(out),
        Err(fault) => Err(fault),
    }
}

fn put_all<'a>(out: &mut Vec<ValueRef<'a>>, values: &'a [Value]) -> Result<(), StoreFault> {
    for value in values {
        put(out, lent(value))?;
    }
    Ok(())
}

fn put<'a>(out: &mut Vec<ValueRef<'a>>, value: ValueRef<'a>) -> Result<(), StoreFault> {
    match out.push(value) {
        Ok(()) => Ok(()),
        Err(_) => Err(StoreFault::Memory),
    }
}

/// The values of an update: those of the new row that aren't of the key, and then the key.
pub(crate) fn lent_update<'a>(
    alloc: Global,
    def: &TableDef,
    row: &'a Row,
    key: &'a Key,
) -> Result<Vec<ValueRef<'a>>, StoreFault> {
    let mut out = Vec::with_capacity(alloc, row.values().len())?;
    match put_update(&mut out, def, row, key) {
        Ok(()) => Ok(out),
        Err(fault) => Err(fault),
    }
}

fn put_update<'a>(
    out: &mut Vec<ValueRef<'a>>,
    def: &TableDef,
    row: &'a Row,
    key: &'a Key,
) -> Result<(), StoreFault> {
    for (place, value) in row.values().iter().enumerate() {
        if !def.primary_key.as_slice().contains(&place) {
            put(out, lent(value))?;
        }
    }
    put_all(out, key.values())
}

/// The values of an entry of the log: position, number, whether there was a row before, and that row, or of a new row
/// those of its key.
pub(crate) fn lent_entry<'a>(
    alloc: Global,
    def: &TableDef,
    at: LogPlace,
    was: bool,
    row: &'a Row,
) -> Result<Vec<ValueRef<'a>>, StoreFault> {
    match (i64::try_from(at.position), i64::try_from(at.number)) {
        (Ok(position), Ok(number)) => {
            let mut out = Vec::with_capacity(alloc, row.values().len())?;
            match put_entry(&mut out, def, position, number, was, row) {
                Ok(()) => Ok(out),
                Err(fault) => Err(fault),
            }
        }
        _ => Err(StoreFault::Failed),
    }
}

fn put_entry<'a>(
    out: &mut Vec<ValueRef<'a>>,
    def: &TableDef,
    position: i64,
    number: i64,
    was: bool,
    row: &'a Row,
) -> Result<(), StoreFault> {
    out.extend_from_slice(&[
        ValueRef::Int(position),
        ValueRef::Int(number),
        ValueRef::Int(i64::from(was)),
    ])?;
    for (place, value) in row.values().iter().enumerate() {
        put(out, entered(def, was, place, value))?;
    }
    Ok(())
}

// The value that an entry has at a place.
fn entered<'a>(def: &TableDef, was: bool, place: usize, value: &'a Value) -> ValueRef<'a> {
    if was || def.primary_key.as_slice().contains(&place) {
        lent(value)
    } else {
        ValueRef::Null
    }
}

/// The row of these columns, in their order. It fails where a value isn't one that its column holds.
pub(crate) fn row_of(
    alloc: Global,
    columns: &[Column],
    stored: &sqlite::Row,
) -> Result<Row, StoreFault> {
    row_behind(alloc, columns, stored, 0)
}

/// The same, where so many other values stand before it.
pub(crate) fn row_behind(
    alloc: Global,
    columns: &[Column],
    stored: &sqlite::Row,
    others: usize,
) -> Result<Row, StoreFault> {
    let mut values = Vec::with_capacity(alloc, columns.len())?;
    match put_row(alloc, columns, stored, others, &mut values) {
        Ok(()) => Ok(Row::from_vec(values)),
        Err(fault) => Err(fault),
    }
}

fn put_row(
    alloc: Global,
    columns: &[Column],
    stored: &sqlite::Row,
    others: usize,
    out: &mut Vec<Value>,
) -> Result<(), StoreFault> {
    for (place, column) in columns.iter().enumerate() {
        put_value(
            out,
            value_at(alloc, column, stored, others.saturating_add(place)),
        )?;
    }
    Ok(())
}

// Puts a value that was read behind the others.
fn put_value(out: &mut Vec<Value>, read: Result<Value, StoreFault>) -> Result<(), StoreFault> {
    match read {
        Ok(value) => match out.push(value) {
            Ok(()) => Ok(()),
            Err(_) => Err(StoreFault::Memory),
        },
        Err(fault) => Err(fault),
    }
}

/// The key of the columns at these places. It fails where a value isn't one that its column holds.
pub(crate) fn key_of(
    alloc: Global,
    def: &TableDef,
    stored: &sqlite::Row,
) -> Result<Key, StoreFault> {
    let mut values = Vec::with_capacity(alloc, def.primary_key.len())?;
    match put_key(alloc, def, stored, &mut values) {
        Ok(()) => Ok(Key::from_vec(values)),
        Err(fault) => Err(fault),
    }
}

fn put_key(
    alloc: Global,
    def: &TableDef,
    stored: &sqlite::Row,
    out: &mut Vec<Value>,
) -> Result<(), StoreFault> {
    for (at, place) in def.primary_key.as_slice().iter().enumerate() {
        put_value(out, value_in(alloc, def, *place, stored, at))?;
    }
    Ok(())
}

// The value of the column at a place of the table.
fn value_in(
    alloc: Global,
    def: &TableDef,
    place: usize,
    stored: &sqlite::Row,
    at: usize,
) -> Result<Value, StoreFault> {
    match def.columns.get(place) {
        None => Err(StoreFault::Failed),
        Some(column) => value_at(alloc, column, stored, at),
    }
}

fn value_at(
    alloc: Global,
    column: &Column,
    stored: &sqlite::Row,
    at: usize,
) -> Result<Value, StoreFault> {
    match stored.get_ref(at) {
        Ok(stored) => value_of(alloc, column, stored),
        Err(error) => Err(StoreFault::from(error)),
    }
}

fn value_of(alloc: Global, column: &Column, stored: ValueRef<'_>) -> Result<Value, StoreFault> {
    match value_read(alloc, column.ty, stored) {
        Ok(value) => fitting(value, column),
        Err(fault) => Err(fault),
    }
}

fn value_read(alloc: Global, ty: Ty, stored: ValueRef<'_>) -> Result<Value, StoreFault> {
    match stored {
        ValueRef::Null => Ok(Value::Null),
        ValueRef::Int(number) => whole_of(ty, number),
        ValueRef::Text(bytes) => text_value(alloc, bytes),
        ValueRef::Blob(bytes) => text_value(alloc, bytes),
        ValueRef::Real(_) => Err(StoreFault::Failed),
    }
}

// The value, where the column may have it.
fn fitting(value: Value, column: &Column) -> Result<Value, StoreFault> {
    match fits(&value, column) {
        Ok(()) => Ok(value),
        Err(_) => Err(StoreFault::Failed),
    }
}

fn text_value(alloc: Global, bytes: &[u8]) -> Result<Value, StoreFault> {
    if bytes.is_empty() {
        return Ok(Value::Null);
    }
    Ok(Value::Text(Text::new(alloc, bytes)?))
}

fn whole_of(ty: Ty, number: i64) -> Result<Value, StoreFault> {
    match ty {
        Ty::TtInteger => Ok(Value::integer(number)),
        Ty::TtBigint => Ok(Value::integer(number)),
        Ty::Number(_, scale) => match Number::new(number, scale) {
            None => Err(StoreFault::Failed),
            Some(number) => Ok(Value::Number(number)),
        },
        Ty::Timestamp => match time_of(number) {
            None => Err(StoreFault::Failed),
            Some(time) => Ok(Value::Time(time)),
        },
        Ty::Varchar2(_) => Err(StoreFault::Failed),
    }
}

fn time_of(seconds: i64) -> Option<Time> {
    if FIRST_SECOND <= seconds && seconds <= LAST_SECOND {
        Some(Time::from_seconds(seconds))
    } else {
        None
    }
}

/// Whether each value of the key is one that its column of the table's primary key holds.
pub(crate) fn is_key_of(def: &TableDef, key: &Key) -> bool {
    let places = def.primary_key.as_slice();
    let values = key.values();
    places.len() == values.len()
        && places
            .iter()
            .zip(values.iter())
            .all(|(place, value)| holds_at(def, *place, value))
}

fn holds_at(def: &TableDef, place: usize, value: &Value) -> bool {
    match def.columns.get(place) {
        None => false,
        Some(column) => column.ty.holds(value),
    }
}
