//! Tables behind what is printed so far, in their normal form.
ghost use Rattle.std.specs.Prelude.{◌≡◌, ◌++◌, ◌∷◌, [], IfOk, OnOk, codes, length};
ghost use Rattle.std.specs.Option.{option_or};
ghost use Rattle.sql_words.specs.NormalTables.{by_value, foreign_columns, is_in, key_columns, marked, normal_column, normal_table, normal_type, scale_by_value, single_key, with_key};
ghost use Rattle.sql_words.specs.Tables.{attribute_words, cascade_words, column_words, element_words, foreign_words, key_words, mark_words, reference_words, table_words, type_words};
ghost use Rattle.sql_words.specs.Words.{enclosed, listed, more, spaced};

use crate::word::{put, put_name, put_names};
use sql_phrases::row_types::{
    ColumnDeclaration, ForeignKeyDeclaration, TableDeclaration, Text, TypeDeclaration,
};
use sql_phrases::tables::TableAttribute;
use sql_phrases::tier_base::{Name, Seq};
use std::alloc::{AllocError, Global};

/// The digits without the zeros in front.
fn by_value(digits: &[u8]) -> &[u8]
    ensures { result.now ≡ by_value digits.now }
{
    let mut rest = digits;
    while let Some((first, behind)) = rest.split_first() {
        if *first != b'0' || behind.is_empty() {
            return rest;
        }
        rest = behind;
    }
    b"0"
}

/// Puts the digits of a scale by value; 0 where it isn't written.
fn put_scale(out: &mut Vec<u8>, scale: &Option<Text>) -> Result<(), AllocError>
    ensures { OnOk result (out.new.items ≡ out.old.items ++ 32 ∷ scale_by_value scale.now) }
{
    match scale {
        None => put(out, b"0"),
        Some(digits) => put(out, by_value(digits.as_bytes())),
    }
}

fn put_number_type(
    out: &mut Vec<u8>,
    precision: &Text,
    scale: &Option<Text>,
) -> Result<(), AllocError>
    ensures { OnOk result (out.new.items ≡ out.old.items
        ++ spaced (codes "NUMBER" ∷ codes "(" ∷ by_value precision.now ∷ codes "," ∷ scale_by_value scale.now
        ∷ codes ")" ∷ [])) }
{
    put(out, b"NUMBER (")?;
    put(out, by_value(precision.as_bytes()))?;
    put(out, b",")?;
    put_scale(out, scale)?;
    put(out, b")")
}

fn put_type(out: &mut Vec<u8>, ty: &TypeDeclaration) -> Result<(), AllocError>
    ensures { OnOk result (out.new.items ≡ out.old.items ++ spaced (type_words (normal_type ty.now))) }
{
    match ty {
        TypeDeclaration::TtInteger => put(out, b"TT_INTEGER"),
        TypeDeclaration::TtBigint => put(out, b"TT_BIGINT"),
        TypeDeclaration::Varchar2(digits) => {
            put(out, b"VARCHAR2 (")?;
            put(out, by_value(digits.as_bytes()))?;
            put(out, b")")
        }
        TypeDeclaration::Number(precision, scale) => put_number_type(out, precision, scale),
        TypeDeclaration::Timestamp => put(out, b"TIMESTAMP"),
    }
}

/// The columns that have PRIMARY KEY behind them.
fn marked(alloc: Global, columns: &[ColumnDeclaration]) -> Result<Vec<Name>, AllocError>
    ensures { IfOk result (λ names. names.items ≡ marked columns.now) }
{
    let mut names = Vec::new(alloc);
    for column in columns {
        if column.primary_key {
            names.push(column.name.copied(alloc)?)?;
        }
    }
    Ok(names)
}

fn copied_names(alloc: Global, names: &[Name]) -> Result<Seq<Name>, AllocError>
    ensures { IfOk result (λ copies. copies ≡ names.now) }
{
    let mut copies = Vec::new(alloc);
    for name in names {
        copies.push(name.copied(alloc)?)?;
    }
    Ok(Seq::from_vec(copies))
}

/// The key that the table declares once, by a clause or behind one column.
fn single_key(alloc: Global, table: &TableDeclaration) -> Result<Option<Seq<Name>>, AllocError>
    ensures { IfOk result (λ key. key ≡ single_key table.now.primary_key (marked table.now.columns)) }
{
    let names = marked(alloc, table.columns.as_slice())?;
    match &table.primary_key {
        None => {
            if names.len() == 1 {
                return Ok(Some(Seq::from_vec(names)));
            }
            Ok(None)
        }
        Some(clause) => {
            if names.is_empty() {
                let copies = copied_names(alloc, clause.as_slice())?;
                return Ok(Some(copies));
            }
            Ok(None)
        }
    }
}

fn is_in(name: &Name, names: &[Name]) -> bool
    ensures { result ≡ is_in name.now names.now }
{
    names
        .iter()
        .any(|other| name.as_bytes() == other.as_bytes())
}

fn is_key_column(name: &Name, key: &Option<Seq<Name>>) -> bool
    ensures { result ≡ is_in name.now (key_columns key.now) }
{
    match key {
        None => false,
        Some(names) => is_in(name, names.as_slice()),
    }
}

fn is_foreign_column(name: &Name, key: &Option<ForeignKeyDeclaration>) -> bool
    ensures { result ≡ is_in name.now (foreign_columns key.now) }
{
    match key {
        None => false,
        Some(key) => is_in(name, key.columns.as_slice()),
    }
}

fn put_marks(out: &mut Vec<u8>, not_null: bool, primary_key: bool) -> Result<(), AllocError>
    ensures { OnOk result (out.new.items ≡ out.old.items ++ spaced (mark_words not_null primary_key)) }
{
    if not_null {
        put(out, b"NOT NULL")?;
    }
    if primary_key {
        put(out, b"PRIMARY KEY")?;
    }
    Ok(())
}

/// Puts a column of a table with this key and this foreign key.
fn put_column(
    out: &mut Vec<u8>,
    column: &ColumnDeclaration,
    key: &Option<Seq<Name>>,
    foreign: &Option<ForeignKeyDeclaration>,
) -> Result<(), AllocError>
    ensures { OnOk result (out.new.items ≡ out.old.items
        ++ spaced (column_words (normal_column key.now (foreign_columns foreign.now) column.now))) }
{
    let named = is_key_column(&column.name, key);
    let referring = is_foreign_column(&column.name, foreign);
    put(out, column.name.as_bytes())?;
    put_type(out, &column.ty)?;
    put_marks(
        out,
        named || referring || column.not_null,
        key.is_none() && column.primary_key,
    )
}

/// Puts a comma and a column for each.
fn put_more_columns(
    out: &mut Vec<u8>,
    columns: &[ColumnDeclaration],
    key: &Option<Seq<Name>>,
    foreign: &Option<ForeignKeyDeclaration>,
) -> Result<(), AllocError>
    ensures { OnOk result (out.new.items ≡ out.old.items
        ++ spaced (more (λ c. column_words (normal_column key.now (foreign_columns foreign.now) c)) columns.now)) }
{
    for column in columns {
        put(out, b",")?;
        put_column(out, column, key, foreign)?;
    }
    Ok(())
}

fn put_columns(
    out: &mut Vec<u8>,
    columns: &[ColumnDeclaration],
    key: &Option<Seq<Name>>,
    foreign: &Option<ForeignKeyDeclaration>,
) -> Result<(), AllocError>
    ensures { OnOk result (out.new.items ≡ out.old.items
        ++ spaced (listed (λ c. column_words (normal_column key.now (foreign_columns foreign.now) c)) columns.now)) }
{
    match columns.split_first() {
        None => Ok(()),
        Some((first, rest)) => {
            put_column(out, first, key, foreign)?;
            put_more_columns(out, rest, key, foreign)
        }
    }
}

fn put_key(out: &mut Vec<u8>, key: &Option<Seq<Name>>) -> Result<(), AllocError>
    ensures { OnOk result (out.new.items ≡ out.old.items ++ spaced (key_words key.now)) }
{
    match key {
        None => Ok(()),
        Some(names) => {
            put(out, b", PRIMARY KEY")?;
            put_names(out, names.as_slice())
        }
    }
}

fn put_cascade(out: &mut Vec<u8>, cascade: bool) -> Result<(), AllocError>
    ensures { OnOk result (out.new.items ≡ out.old.items ++ spaced (cascade_words cascade)) }
{
    if cascade {
        return put(out, b"ON DELETE CASCADE");
    }
    Ok(())
}

fn put_reference(out: &mut Vec<u8>, key: &ForeignKeyDeclaration) -> Result<(), AllocError>
    ensures { OnOk result (out.new.items ≡ out.old.items ++ spaced (reference_words key.now)) }
{
    put(out, b"REFERENCES")?;
    put_name(out, &key.parent)?;
    put_names(out, key.parent_columns.as_slice())?;
    put_cascade(out, key.cascade)
}

fn put_foreign_key(out: &mut Vec<u8>, key: &Option<ForeignKeyDeclaration>) -> Result<(), AllocError>
    ensures { OnOk result (out.new.items ≡ out.old.items ++ spaced (foreign_words key.now)) }
{
    match key {
        None => Ok(()),
        Some(key) => {
            put(out, b", FOREIGN KEY")?;
            put_names(out, key.columns.as_slice())?;
            put_reference(out, key)
        }
    }
}

/// Puts the key of a table: the one that it declares once, or its clause.
fn put_keys(
    out: &mut Vec<u8>,
    key: &Option<Seq<Name>>,
    clause: &Option<Seq<Name>>,
) -> Result<(), AllocError>
    ensures { OnOk result (out.new.items ≡ out.old.items ++ spaced (key_words (option_or key.now clause.now))) }
{
    if key.is_some() {
        return put_key(out, key);
    }
    put_key(out, clause)
}

/// Puts the columns and keys of a table with this key.
fn put_elements(
    out: &mut Vec<u8>,
    table: &TableDeclaration,
    key: &Option<Seq<Name>>,
) -> Result<(), AllocError>
    ensures { OnOk result (out.new.items ≡ out.old.items ++ spaced (element_words (with_key key.now table.now))) }
{
    put_columns(out, table.columns.as_slice(), key, &table.foreign_key)?;
    put_keys(out, key, &table.primary_key)?;
    put_foreign_key(out, &table.foreign_key)
}

fn put_attribute(out: &mut Vec<u8>, attribute: Option<TableAttribute>) -> Result<(), AllocError>
    ensures { OnOk result (out.new.items ≡ out.old.items ++ spaced (attribute_words attribute)) }
{
    match attribute {
        None => Ok(()),
        Some(TableAttribute::ReadOnly) => put(out, b", READONLY"),
        Some(TableAttribute::Propagate) => put(out, b", PROPAGATE"),
        Some(TableAttribute::NotPropagate) => put(out, b", NOT PROPAGATE"),
    }
}

/// Puts a table in its normal form, with its attribute where it has one. The error is want of memory.
pub fn put_table(
    alloc: Global,
    out: &mut Vec<u8>,
    table: &TableDeclaration,
    attribute: Option<TableAttribute>,
) -> Result<(), AllocError>
    ensures { OnOk result (out.new.items ≡ out.old.items ++ spaced (table_words (normal_table table.now) attribute)) }
{
    let key = single_key(alloc, table)?;
    put_name(out, &table.name)?;
    put(out, b"(")?;
    put_elements(out, table, &key)?;
    put_attribute(out, attribute)?;
    put(out, b")")
}
