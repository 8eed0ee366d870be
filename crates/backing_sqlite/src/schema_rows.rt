//! Definitions of tables as rows.

use crate::draft::text_of;
use crate::fault::StoreFault;
use crate::store::Store;
use crate::writing::give;
use row_types::{Column, Ty};
use sqlite::types::{ToSql, ValueRef};
use std::alloc::Global;
use table_defs::{ForeignKey, TableDef};
use tier_base::{Name, NameError, Seq, TableId};

/// The definition of the table at a place, of which the row has name, parent and ON DELETE CASCADE.
pub(crate) fn read_def<S: Store>(
    alloc: Global,
    tx: &mut S,
    place: usize,
    stored: &sqlite::Row,
) -> Result<TableDef, StoreFault> {
    let Ok(place) = i64::try_from(place) else {
        return Err(StoreFault::Failed);
    };
    match name_at(alloc, stored, 0) {
        Ok(name) => read_named(alloc, tx, place, stored, name),
        Err(fault) => Err(fault),
    }
}

fn read_named<S: Store>(
    alloc: Global,
    tx: &mut S,
    place: i64,
    stored: &sqlite::Row,
    name: Name,
) -> Result<TableDef, StoreFault> {
    match read_columns(alloc, tx, place) {
        Ok(columns) => match read_keys(alloc, tx, place, stored) {
            Ok((primary_key, foreign_key)) => Ok(TableDef {
                name,
                columns,
                primary_key,
                foreign_key,
            }),
            Err(fault) => Err(fault),
        },
        Err(fault) => Err(fault),
    }
}

// The primary and the foreign key.
fn read_keys<S: Store>(
    alloc: Global,
    tx: &mut S,
    place: i64,
    stored: &sqlite::Row,
) -> Result<(Seq<usize>, Option<ForeignKey>), StoreFault> {
    let text =
        "SELECT place FROM \"ttcache-columns\" WHERE table_place = ? AND key_place IS NOT NULL ORDER BY key_place";
    match read_places(alloc, tx, text, place) {
        Ok(primary) => match read_foreign(alloc, tx, place, stored) {
            Ok(foreign) => Ok((primary, foreign)),
            Err(fault) => Err(fault),
        },
        Err(fault) => Err(fault),
    }
}

fn read_foreign<S: Store>(
    alloc: Global,
    tx: &mut S,
    place: i64,
    stored: &sqlite::Row,
) -> Result<Option<ForeignKey>, StoreFault> {
    let text =
        "SELECT place FROM \"ttcache-columns\" WHERE table_place = ? AND foreign_place IS NOT NULL ORDER BY foreign_place";
    match read_places(alloc, tx, text, place) {
        Ok(columns) => foreign_key_of(stored, columns),
        Err(fault) => Err(fault),
    }
}

fn foreign_key_of(
    stored: &sqlite::Row,
    columns: Seq<usize>,
) -> Result<Option<ForeignKey>, StoreFault> {
    match reference_in(stored) {
        Ok(None) => Ok(None),
        Ok(Some((parent, cascade))) => Ok(Some(ForeignKey {
            columns,
            parent,
            cascade,
        })),
        Err(fault) => Err(fault),
    }
}

// The table that the foreign key refers to, and whether it has ON DELETE CASCADE.
fn reference_in(stored: &sqlite::Row) -> Result<Option<(TableId, bool)>, StoreFault> {
    let cascade = stored.get::<bool>(2)?;
    match stored.get::<Option<u32>>(1) {
        Ok(None) => Ok(None),
        Ok(Some(parent)) => Ok(Some((TableId(parent), cascade))),
        Err(error) => Err(StoreFault::from(error)),
    }
}

fn read_columns<S: Store>(
    alloc: Global,
    tx: &mut S,
    place: i64,
) -> Result<Seq<Column>, StoreFault> {
    let text =
        "SELECT name, type, size, scale, not_null FROM \"ttcache-columns\" WHERE table_place = ? ORDER BY place";
    let stored = tx.all_rows(text, &[ValueRef::Int(place)])?;
    let mut columns = Vec::with_capacity(alloc, stored.len())?;
    for row in &stored {
        columns.push(column_of(alloc, row)?)?;
    }
    Ok(Seq::from_vec(columns))
}

fn column_of(alloc: Global, stored: &sqlite::Row) -> Result<Column, StoreFault> {
    let name = name_at(alloc, stored, 0)?;
    let ty = type_of(stored)?;
    let not_null = stored.get::<bool>(4)?;
    Ok(Column { name, ty, not_null })
}

fn type_of(stored: &sqlite::Row) -> Result<Ty, StoreFault> {
    let size = number_at(stored, 2)?;
    let scale = number_at(stored, 3)?;
    match type_named(word_at(stored, 1)?, size, scale) {
        None => Err(StoreFault::Failed),
        Some(ty) => Ok(ty),
    }
}

// A comparison of texts is one call, and one of bytes has each byte written out.
fn type_named(word: &str, size: u16, scale: u16) -> Option<Ty> {
    match word {
        "TT_INTEGER" => Some(Ty::TtInteger),
        "TT_BIGINT" => Some(Ty::TtBigint),
        "NUMBER" => number_type(size, scale),
        "VARCHAR2" => Some(Ty::Varchar2(size)),
        "TIMESTAMP" => Some(Ty::Timestamp),
        _ => None,
    }
}

fn number_type(size: u16, scale: u16) -> Option<Ty> {
    let size = u8::try_from(size).ok()?;
    let scale = u8::try_from(scale).ok()?;
    Some(Ty::Number(size, scale))
}

fn word_at(stored: &sqlite::Row, at: usize) -> Result<&str, StoreFault> {
    match stored.get_ref(at)? {
        ValueRef::Text(bytes) => match str::from_utf8(bytes) {
            Ok(word) => Ok(word),
            Err(_) => Err(StoreFault::Failed),
        },
        _ => Err(StoreFault::Failed),
    }
}

fn number_at(stored: &sqlite::Row, at: usize) -> Result<u16, StoreFault> {
    match u16::try_from(stored.get::<i64>(at)?) {
        Ok(number) => Ok(number),
        Err(_) => Err(StoreFault::Failed),
    }
}

fn name_at(alloc: Global, stored: &sqlite::Row, at: usize) -> Result<Name, StoreFault> {
    match stored.get_ref(at)? {
        ValueRef::Text(bytes) => match Name::new(alloc, bytes) {
            Ok(name) => Ok(name),
            Err(NameError::Memory) => Err(StoreFault::Memory),
            Err(NameError::Bad) => Err(StoreFault::Failed),
        },
        _ => Err(StoreFault::Failed),
    }
}

fn read_places<S: Store>(
    alloc: Global,
    tx: &mut S,
    text: &str,
    place: i64,
) -> Result<Seq<usize>, StoreFault> {
    let stored = tx.all_rows(text, &[ValueRef::Int(place)])?;
    let mut places = Vec::with_capacity(alloc, stored.len())?;
    for row in &stored {
        places.push(row.get::<u32>(0)? as usize)?;
    }
    Ok(Seq::from_vec(places))
}

/// Puts in the rows of a definition, which stands at a place.
pub(crate) fn write_def<S: Store>(
    tx: &mut S,
    place: u32,
    def: &TableDef,
) -> Result<(), StoreFault> {
    write_table(tx, place, def)?;
    for (at, column) in def.columns.as_slice().iter().enumerate() {
        write_column(tx, place, def, at, column)?;
    }
    Ok(())
}

fn write_table<S: Store>(tx: &mut S, place: u32, def: &TableDef) -> Result<(), StoreFault> {
    let (parent, cascades) = match &def.foreign_key {
        None => (ValueRef::Null, false),
        Some(foreign) => (foreign.parent.0.to_sql(), foreign.cascade),
    };
    let text = "INSERT INTO \"ttcache-tables\" (place, name, parent, cascades) VALUES (?, ?, ?, ?)";
    let values = [
        place.to_sql(),
        text_of(&def.name)?.to_sql(),
        parent,
        cascades.to_sql(),
    ];
    give(tx, text, &values)
}

fn write_column<S: Store>(
    tx: &mut S,
    place: u32,
    def: &TableDef,
    at: usize,
    column: &Column,
) -> Result<(), StoreFault> {
    let (ty, size, scale) = words_of(column.ty);
    let text =
        "INSERT INTO \"ttcache-columns\" (table_place, place, name, type, size, scale, not_null, key_place, foreign_place) VALUES (?, ?, ?, ?, ?, ?, ?, ?, ?)";
    let values = [
        place.to_sql(),
        number(at)?,
        text_of(&column.name)?.to_sql(),
        ty.to_sql(),
        u32::from(size).to_sql(),
        u32::from(scale).to_sql(),
        column.not_null.to_sql(),
        place_in(def.primary_key.as_slice(), at)?,
        place_in(foreign_places(def), at)?,
    ];
    give(tx, text, &values)
}

fn words_of(ty: Ty) -> (&'static str, u16, u8) {
    match ty {
        Ty::TtInteger => ("TT_INTEGER", 0, 0),
        Ty::TtBigint => ("TT_BIGINT", 0, 0),
        Ty::Number(precision, scale) => ("NUMBER", u16::from(precision), scale),
        Ty::Varchar2(size) => ("VARCHAR2", size, 0),
        Ty::Timestamp => ("TIMESTAMP", 0, 0),
    }
}

fn foreign_places(def: &TableDef) -> &[usize] {
    match &def.foreign_key {
        None => &[],
        Some(foreign) => foreign.columns.as_slice(),
    }
}

fn number(place: usize) -> Result<ValueRef<'static>, StoreFault> {
    match i64::try_from(place) {
        Ok(number) => Ok(ValueRef::Int(number)),
        Err(_) => Err(StoreFault::Failed),
    }
}

// At which place of the key the column stands, NULL where it isn't one of the key's.
fn place_in(places: &[usize], column: usize) -> Result<ValueRef<'static>, StoreFault> {
    match places.iter().position(|place| *place == column) {
        None => Ok(ValueRef::Null),
        Some(place) => number(place),
    }
}
