//! What rows have to be: fit for their columns, and with the key that they had.

ghost use Rattle.std.specs.Prelude.{◌≡◌, option_copied, IfOk, Some};
ghost use Rattle.table_defs.specs.row_types.specs.Columns.{fit_of};
ghost use Rattle.table_state.specs.Refusals.{Judges, changed_key, column_name, first_refused, is_code, misfit, refused, refused_at};

use crate::refusal::ApplyError;
use indexed_rows::first_change;
use std::alloc::{AllocError, Global};
use table_defs::TableDef;
use table_defs::row_types::{Column, Detail, Row, Rule, Value, fits};
use table_defs::tier_base::{Code, Name};

/// A broken rule.
pub(crate) fn broken(code: Code, detail: Detail) -> ApplyError
    ensures { Some result ≡ refused code detail }
{
    ApplyError::Rule(Rule { code, detail })
}

/// Refuses a row that doesn't fit the columns: 104 of another number of values, 105 of the first column that can't hold
/// its value, 106 of the first that refuses NULL.
pub fn check_row(alloc: Global, columns: &[Column], row: &Row) -> Result<(), ApplyError>
    ensures { Judges result (misfit columns.now row.now) }
{
    check_fit(alloc, columns, row)
}

pub(crate) fn check_fit(alloc: Global, columns: &[Column], row: &Row) -> Result<(), ApplyError>
    ensures { Judges result (misfit columns.now row.now) }
{
    let values = row.values();
    if values.len() != columns.len() {
        return Err(broken(Code::TypeMismatch, Detail::Nothing));
    }
    check_column(alloc, Code::OutOfRange, columns, values)?;
    check_column(alloc, Code::NullNotAllowed, columns, values)
}

fn check_column(
    alloc: Global,
    code: Code,
    columns: &[Column],
    values: &[Value],
) -> Result<(), ApplyError>
    ensures { Judges result (refused_at code (first_refused code columns.now values.now)) }
{
    match first_refused(code, columns, values) {
        None => Ok(()),
        Some(name) => match name.copied(alloc) {
            Err(_) => Err(ApplyError::Memory),
            Ok(name) => Err(broken(code, Detail::Name(name))),
        },
    }
}

fn first_refused<'a>(code: Code, columns: &'a [Column], values: &[Value]) -> Option<&'a Name>
    ensures { option_copied result ≡ first_refused code columns.now values.now }
{
    match (columns.split_first(), values.split_first()) {
        (Some((column, columns)), Some((value, values))) => {
            if is_code(code, fits(value, column)) {
                Some(&column.name)
            } else {
                first_refused(code, columns, values)
            }
        }
        _ => None,
    }
}

fn is_code(code: Code, fit: Result<(), Code>) -> bool
    ensures { result ≡ is_code code fit }
{
    match fit {
        Ok(()) => false,
        Err(why) => why.number() == code.number(),
    }
}

/// Refuses a change of the primary key: 118 of the first column of the key that changes, in the key's order.
pub fn check_key_stays(
    alloc: Global,
    def: &TableDef,
    old: &Row,
    new: &Row,
) -> Result<(), ApplyError>
    ensures { Judges result (changed_key def.now old.now new.now) }
{
    match first_change(def.primary_key.as_slice(), old.values(), new.values()) {
        None => Ok(()),
        Some(place) => match column_name(alloc, def.columns.get(place)) {
            Err(_) => Err(ApplyError::Memory),
            Ok(name) => Err(broken(Code::KeyColumnSet, name)),
        },
    }
}

fn column_name(alloc: Global, column: Option<&Column>) -> Result<Detail, AllocError>
    ensures { IfOk result (λ name. name ≡ column_name (option_copied column.entry)) }
{
    match column {
        None => Ok(Detail::Nothing),
        Some(column) => {
            let name = column.name.copied(alloc)?;
            Ok(Detail::Name(name))
        }
    }
}
