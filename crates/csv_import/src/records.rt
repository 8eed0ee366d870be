//! The records of a file.

ghost use Rattle.std.specs.Prelude.{◌≡◌, ◌+◌, ◌-◌, ◌^◌, ◌≤◌, [], IfOk, IfSome, MatchOption, drop, false, vec_items};
ghost use Rattle.csv.specs.Records.{fields_of};
ghost use Rattle.evaluator.specs.row_types.specs.declared.rule.Refused.TheVariants as refused;
ghost use Rattle.evaluator.specs.tier_base.specs.declared.code.Code.TheVariants as code;
ghost use Rattle.evaluator.specs.tier_base.specs.Names.{spells};
ghost use Rattle.evaluator.specs.Rules.{Gives, about, then_do};
ghost use Rattle.csv_import.specs.Inserts.{GivesAll, given_by, insert_in, is_record, kept_insert, literal_of, literals_in, name_columns, value_in, wrong_record};
ghost use Rattle.csv_import.specs.Reading.{BeginsFrom, IsRecord, PutsAll};

use crate::fields::value_in;
use csv::{ByteRecord, StringRecord};
use evaluator::building::build_row;
use evaluator::expressions::{Expr, NoColumns};
use evaluator::refusing::over_limit;
use evaluator::row_types::{Column, Detail, Refused, Rule};
use evaluator::tier_base::{Code, Limit, Name, Seq, TableId};
use evaluator::{Action, Change};
use std::alloc::{AllocError, Global};

/// Takes the record of a number: the header is number 0, and any other one's INSERT comes behind those before it.
///
/// The refusal is 101 of a header that doesn't name the columns, 119 of a record past the greatest number of operations
/// of a transaction, or what `insert_in` tells; or memory was wanting.
pub(crate) fn take_record(
    alloc: Global,
    table: TableId,
    columns: &[Column],
    number: u64,
    raw: ByteRecord,
    inserts: &mut Vec<Change>,
) -> Result<(), Refused>
    ensures { PutsAll (given_by table columns.now number (fields_of raw)) result inserts.old.items inserts.new.items }
{
    if number == 0 {
        return if name_columns(columns, &raw, 0) {
            Ok(())
        } else {
            Err(wrong_record(0))
        };
    }
    if number > Limit::Operations.number() {
        return Err(over_limit(Limit::Operations));
    }
    let insert = insert_in(alloc, table, columns, number, raw)?;
    if inserts.push(insert).is_err() {
        return Err(Refused::Memory);
    }
    Ok(())
}

/// The INSERT of a record.
///
/// The refusal is 101 of a record with another number of fields than columns or with a field that isn't UTF-8, then 105
/// of the first column whose field doesn't read, then 105 of the first column that can't hold its value, then 106 of
/// the first that refuses NULL; or memory was wanting.
fn insert_in(
    alloc: Global,
    table: TableId,
    columns: &[Column],
    number: u64,
    raw: ByteRecord,
) -> Result<Change, Refused>
    ensures { Gives (insert_in table columns.now number (fields_of raw)) result }
{
    match text_record(columns, raw) {
        None => Err(wrong_record(number)),
        Some(text) => kept_insert(alloc, table, columns, text.as_byte_record()),
    }
}

/// The record, where it has a field for each column and all its fields are UTF-8.
#[tactic(auto, using(crate::proofs::FieldLaws::all_text, crate::proofs::FieldLaws::some_no_text))]
fn text_record(columns: &[Column], raw: ByteRecord) -> Option<StringRecord>
    ensures { MatchOption result (is_record columns.now (fields_of raw) ≡ false)
        (IsRecord columns.now (fields_of raw)) }
{
    if raw.len() != columns.len() {
        return None;
    }
    match StringRecord::from_byte_record(raw) {
        Ok(text) => Some(text),
        Err(_) => None,
    }
}

/// The INSERT of a record's fields, one for each column.
fn kept_insert(
    alloc: Global,
    table: TableId,
    columns: &[Column],
    raw: &ByteRecord,
) -> Result<Change, Refused>
    ensures { Gives (then_do (kept_insert table columns.now) (literals_in columns.now (fields_of raw.now))) result }
{
    let values = literals_in(alloc, columns, raw)?;
    build_row(alloc, columns, values.as_slice(), &NoColumns)?;
    Ok(Change {
        table,
        action: Action::Insert(Seq::from_vec(values)),
    })
}

/// The values of a record's fields, one for each column.
fn literals_in(alloc: Global, columns: &[Column], raw: &ByteRecord) -> Result<Vec<Expr>, Refused>
    ensures { GivesAll vec_items (literals_in columns.now (fields_of raw.now)) result }
{
    let mut values = Vec::with_capacity(alloc, columns.len())?;
    read_values(alloc, columns, raw, 0, &mut values)?;
    Ok(values)
}

/// Puts the values of the fields from a place on, one for each column, behind those before.
fn read_values(
    alloc: Global,
    columns: &[Column],
    raw: &ByteRecord,
    place: usize,
    values: &mut Vec<Expr>,
) -> Result<(), Refused>
    ensures { PutsAll (literals_in columns.now (drop place (fields_of raw.now))) result
        values.old.items values.new.items }
{
    match (columns.split_first(), field_from(raw, place)) {
        (Some((column, columns)), Some(field)) => {
            let literal = literal_of(alloc, column, field)?;
            if values.push(literal).is_err() {
                return Err(Refused::Memory);
            }
            read_values(alloc, columns, raw, place + 1, values)
        }
        _ => Ok(()),
    }
}

/// The value of a field as a literal, or 105 of its column.
fn literal_of(alloc: Global, column: &Column, field: &[u8]) -> Result<Expr, Refused>
    ensures { Gives (literal_of column.now.name (value_in column.now.ty field.now)) result }
{
    match value_in(alloc, column.ty, field)? {
        None => Err(Refused::Rule(unread(alloc, &column.name)?)),
        Some(value) => Ok(Expr::literal(value)),
    }
}

/// Whether the fields from a place on are the names of the columns, in any case.
fn name_columns(columns: &[Column], raw: &ByteRecord, place: usize) -> bool
    ensures { result ≡ name_columns columns.now (drop place (fields_of raw.now)) }
{
    match (columns.split_first(), field_from(raw, place)) {
        (None, None) => true,
        (Some((column, columns)), Some(field)) => {
            is_spelled(field, column.name.as_bytes()) && name_columns(columns, raw, place + 1)
        }
        _ => false,
    }
}

/// The field at a place, with which those from there on begin.
#[tactic(auto, using(crate::proofs::FieldLaws::field_begins, crate::proofs::FieldLaws::none_left))]
fn field_from(raw: &ByteRecord, place: usize) -> Option<&[u8]>
    ensures begins { MatchOption result (drop place (fields_of raw.now) ≡ [])
        (BeginsFrom (fields_of raw.now) place) }
    ensures bound { IfSome result (λ field. place + 1 ≤ 2 ^ 64 - 1) }
{
    raw.get(place)
}

/// Whether the bytes are the word, which is in upper case, but for the case of their letters.
fn is_spelled(bytes: &[u8], word: &[u8]) -> bool
    ensures { result ≡ spells bytes.now word.now }
{
    match (bytes.split_first(), word.split_first()) {
        (None, None) => true,
        (Some((byte, bytes)), Some((letter, word))) => {
            byte.to_ascii_uppercase() == *letter && is_spelled(bytes, word)
        }
        _ => false,
    }
}

/// 101 of the record of a number.
pub(crate) fn wrong_record(number: u64) -> Refused
    ensures { result ≡ refused.Rule (wrong_record number) }
{
    Refused::Rule(Rule {
        code: Code::Syntax,
        detail: Detail::Byte(number),
    })
}

/// 105 of a column.
///
/// The error is want of memory for its name.
fn unread(alloc: Global, name: &Name) -> Result<Rule, AllocError>
    ensures { IfOk result (λ rule. rule ≡ about code.OutOfRange name.now) }
{
    let name = name.copied(alloc)?;
    Ok(Rule {
        code: Code::OutOfRange,
        detail: Detail::Name(name),
    })
}
