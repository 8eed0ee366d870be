//! The values of fields.

ghost use Rattle.std.specs.Prelude.{◌≡◌, ◌==◌, IfOk};
ghost use Rattle.std.specs.List.{list_all, list_any};
ghost use Rattle.csv_import.specs.Inserts.{is_text_byte, plain_text, value_in, value_written, whole_value};

use evaluator::numbers::Number;
use evaluator::row_types::{Text, Time, Ty, Value};
use std::alloc::{AllocError, Global};

/// The value that a field writes for a column of this type, NULL where it has no bytes. None where it writes none.
///
/// The error is want of memory for a text.
pub(crate) fn value_in(alloc: Global, ty: Ty, field: &[u8]) -> Result<Option<Value>, AllocError>
    ensures { IfOk result (λ value. value ≡ value_in ty field.now) }
{
    if field.is_empty() {
        return Ok(Some(Value::Null));
    }
    value_written(alloc, ty, field)
}

/// The same of a field with bytes.
fn value_written(alloc: Global, ty: Ty, field: &[u8]) -> Result<Option<Value>, AllocError>
    ensures { IfOk result (λ value. value ≡ value_written ty field.now) }
{
    match ty {
        Ty::TtInteger => Ok(whole_value(field)),
        Ty::TtBigint => Ok(whole_value(field)),
        Ty::Number(_, _) => Ok(Number::from_text(field).map(Value::Number)),
        Ty::Varchar2(_) => plain_text(alloc, field),
        Ty::Timestamp => Ok(Time::from_text(field).map(Value::Time)),
    }
}

/// A number without a point.
fn whole_value(field: &[u8]) -> Option<Value>
    ensures { result ≡ whole_value field.now }
{
    if has_point(field) {
        return None;
    }
    Number::from_text(field).map(Value::Number)
}

/// The text of the field's bytes, where each may stand in one.
fn plain_text(alloc: Global, field: &[u8]) -> Result<Option<Value>, AllocError>
    ensures { IfOk result (λ value. value ≡ plain_text field.now) }
{
    if !is_plain(field) {
        return Ok(None);
    }
    let text = Text::new(alloc, field)?;
    Ok(Some(Value::Text(text)))
}

fn has_point(field: &[u8]) -> bool
    ensures { result ≡ list_any (λ b. b == 46) field.now }
{
    field.iter().any(|byte| *byte == b'.')
}

/// Whether each byte may stand in a text.
fn is_plain(field: &[u8]) -> bool
    ensures { result ≡ list_all is_text_byte field.now }
{
    field.iter().all(|byte| is_text_byte(*byte))
}

/// Whether the byte may stand in a text: a tab, and no other control character.
fn is_text_byte(byte: u8) -> bool
    ensures { result ≡ is_text_byte byte }
{
    byte == b'\t' || (byte >= b' ' && byte != 127)
}
