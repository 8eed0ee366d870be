//! Columns and what they hold.

ghost use Rattle.std.specs.Prelude.{◌≡◌, ◌↔◌, ◌≤◌, IfOk, IsTrue};
ghost use Rattle.row_types.specs.Columns.{fit_of, holds, is_within, rescaled_for, rounded_for, scale_of, stored_in};

use crate::value::Value;
use std::alloc::{AllocError, Global};
use tier_base::{Code, Name};

/// The type of a column.
#[derive(Clone, Copy, Debug, PartialEq, Eq)]
pub enum Ty {
    /// TT_INTEGER: whole numbers of 32 signed bits.
    TtInteger,
    /// TT_BIGINT: whole numbers of 64 signed bits.
    TtBigint,
    /// NUMBER(p, s): numbers of scale s with at most p digits, p from 1 to 18 and s from 0 to p.
    Number(u8, u8),
    /// VARCHAR2(n): texts of up to n bytes, n from 1 to 4000.
    Varchar2(u16),
    /// TIMESTAMP: times in whole seconds, of the years 0001 to 9999.
    Timestamp,
}

impl Ty {
    /// Whether the type holds the value. Each type holds NULL.
    pub fn holds(self, value: &Value) -> bool
        ensures { result ≡ holds self value.now }
    {
        match (self, value) {
            (_, Value::Null) => true,
            (Ty::TtInteger, Value::Number(number)) => {
                number.scale() == 0 && is_within(-2_147_483_648, 2_147_483_647, number.units())
            }
            (Ty::TtBigint, Value::Number(number)) => {
                number.scale() == 0 && is_within(i64::MIN, i64::MAX, number.units())
            }
            (Ty::Number(precision, scale), Value::Number(number)) => {
                number.scale() == scale && number.has_precision(precision)
            }
            (Ty::Varchar2(greatest), Value::Text(text)) => text.as_bytes().len()
                <= greatest as usize,
            (Ty::Timestamp, Value::Time(_)) => true,
            _ => false,
        }
    }
}

/// The scale of the type's numbers; 0 of a type that has none.
fn scale_of(ty: Ty) -> u8
    ensures { result ≡ scale_of ty }
{
    match ty {
        Ty::Number(_, scale) => scale,
        _ => 0,
    }
}

fn is_within(first: i64, last: i64, number: i64) -> bool
    ensures { result ≡ is_within first last number }
{
    first <= number && number <= last
}

/// A column of a table.
pub struct Column {
    /// Its name, one identifier.
    pub name: Name,
    /// What it holds.
    pub ty: Ty,
    /// Whether it refuses NULL.
    pub not_null: bool,
}

impl Drop for Column {
    fn drop(self) {
        let Self {
            name: _,
            ty: _,
            not_null: _,
        } = self;
    }
}

impl Column {
    /// Whether this is the same column.
    pub fn same(&self, other: &Column) -> bool
        ensures { IsTrue result ↔ (self.now ≡ other.now) }
    {
        self.name.same(&other.name) && self.ty == other.ty && self.not_null == other.not_null
    }

    /// A second copy of the column.
    pub fn copied(&self, alloc: Global) -> Result<Column, AllocError>
        ensures { IfOk result (λ column. column ≡ self.now) }
    {
        let name = self.name.copied(alloc)?;
        Ok(Column {
            name,
            ty: self.ty,
            not_null: self.not_null,
        })
    }
}

/// The value as the column keeps it: a number is rounded to the column's scale, half away from zero.
///
/// `NullNotAllowed` for NULL where the column refuses NULL, `OutOfRange` for a value that its type doesn't hold then.
/// (TimesTen SQL Reference, "Type specifications"; the half away from zero is this project's rule.)
pub fn stored(value: Value, column: &Column) -> Result<Value, Code>
    ensures { result ≡ stored_in column.now value }
{
    match rounded_for(value, column.ty) {
        None => Err(Code::OutOfRange),
        Some(value) => match fits(&value, column) {
            Ok(()) => Ok(value),
            Err(code) => Err(code),
        },
    }
}

/// The value that a column of the type would keep it as, where that one stands for the same: a number with the scale of
/// the type's numbers, another value as it is. None where no number with that scale stands for the same, or none that
/// 64 signed bits hold.
pub fn rescaled(alloc: Global, value: &Value, ty: Ty) -> Result<Option<Value>, AllocError>
    ensures { IfOk result (λ found. found ≡ rescaled_for ty value.now) }
{
    match value {
        Value::Number(number) => { Ok(number.rescaled_exactly(scale_of(ty)).map(Value::Number)) }
        value => {
            let value = value.copied(alloc)?;
            Ok(Some(value))
        }
    }
}

fn rounded_for(value: Value, ty: Ty) -> Option<Value>
    ensures { result ≡ rounded_for ty value }
{
    match value {
        Value::Number(number) => number.rounded(scale_of(ty)).map(Value::Number),
        value => Some(value),
    }
}

/// Whether the column takes the value: `NullNotAllowed` for NULL where it refuses NULL, `OutOfRange` for a value
/// that its type doesn't hold.
pub fn fits(value: &Value, column: &Column) -> Result<(), Code>
    ensures { result ≡ fit_of column.now value.now }
{
    match value {
        Value::Null => {
            if column.not_null {
                Err(Code::NullNotAllowed)
            } else {
                Ok(())
            }
        }
        _ => {
            if column.ty.holds(value) {
                Ok(())
            } else {
                Err(Code::OutOfRange)
            }
        }
    }
}
