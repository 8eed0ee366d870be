//! Literals.

ghost use Rattle.std.specs.Prelude.{◌≡◌, ◌<◌, ◌∷◌, length, IfErr, IfOk, MatchOption, vec_items};
ghost use Rattle.std.specs.Option.{option_and_then, option_map};
ghost use Rattle.row_types.specs.Literals.{IsLiteralRefusal, held_text, is_quoted, is_time_literal, undoubled, value_of};

use crate::rule::{Detail, Refused, Rule};
use crate::text::Text;
use crate::time::Time;
use crate::value::Value;
use numbers::Number;
use std::alloc::{AllocError, Global};
use tier_base::Code;

/// The greatest number of bytes of a text.
pub const TEXT_BYTES: usize = 4000;

/// The value of a literal: `NULL`; digits, or digits, a point and digits, with or without a `-` before them; a text in
/// single quotes, where two quotes stand for one of the text and `''` alone is NULL; `TIMESTAMP 'YYYY-MM-DD HH:MM:SS'`.
///
/// `OutOfRange` exactly where no type holds it: a number with units past 64 signed bits, or with more than 18 digits
/// behind its point, a text of more than 4,000 bytes, a
/// `TIMESTAMP` of anything else than a date of the years 0001 to 9999 with a time of day, and bytes that are no
/// literal.
pub fn parse_literal(alloc: Global, bytes: &[u8]) -> Result<Value, Refused>
    ensures value { IfOk result (λ value. value_of bytes.now ≡ Some value) }
    ensures refused { IfErr result (IsLiteralRefusal bytes.now) }
{
    if bytes == b"NULL".as_slice() {
        return Ok(Value::Null);
    }
    let value = if is_quoted(bytes) {
        parse_text(alloc, &bytes[1..bytes.len() - 1])?
    } else if is_time_literal(bytes) {
        Time::from_text(&bytes[11..30]).map(Value::Time)
    } else {
        Number::from_text(bytes).map(Value::Number)
    };
    value.ok_or(Refused::Rule(Rule {
        code: Code::OutOfRange,
        detail: Detail::NoType,
    }))
}

fn is_quoted(bytes: &[u8]) -> bool
    ensures { result ≡ is_quoted bytes.now }
{
    bytes.len() >= 2 && bytes[0] == b'\'' && bytes[bytes.len() - 1] == b'\''
}

fn is_time_literal(bytes: &[u8]) -> bool
    ensures { result ≡ is_time_literal bytes.now }
{
    bytes.len() == 31 && bytes.starts_with(b"TIMESTAMP '") && bytes[30] == b'\''
}

/// The value of a text literal, without the quotes at its ends.
fn parse_text(alloc: Global, quoted: &[u8]) -> Result<Option<Value>, AllocError>
    ensures { IfOk result (λ value. value ≡ option_and_then held_text (undoubled quoted.now)) }
{
    if !quoted.contains(&b'\'') {
        return held_text(alloc, quoted);
    }
    match undoubled(alloc, quoted)? {
        None => Ok(None),
        Some(text) => held_text(alloc, text.as_slice()),
    }
}

/// The value of a text literal without its quotes: NULL of none, and none of more than 4,000 bytes.
pub fn held_text(alloc: Global, text: &[u8]) -> Result<Option<Value>, AllocError>
    ensures { IfOk result (λ value. value ≡ held_text text.now) }
{
    if text.is_empty() {
        return Ok(Some(Value::Null));
    }
    if text.len() > TEXT_BYTES {
        return Ok(None);
    }
    let text = Text::new(alloc, text)?;
    Ok(Some(Value::Text(text)))
}

/// The text with one quote for each two; none where a quote stands alone.
fn undoubled(alloc: Global, quoted: &[u8]) -> Result<Option<Vec<u8>>, AllocError>
    ensures { IfOk result (λ text. option_map vec_items text ≡ undoubled quoted.now) }
{
    let mut text = Vec::with_capacity(alloc, quoted.len())?;
    let mut left = quoted;
    while !left.is_empty() {
        let Some((byte, behind)) = first_of_text(left) else {
            return Ok(None);
        };
        text.push(byte)?;
        left = behind;
    }
    Ok(Some(text))
}

/// The first byte of the text and the quoted bytes behind it; none where a quote stands alone.
fn first_of_text(quoted: &[u8]) -> Option<(u8, &[u8])>
    requires { 0 < length quoted.now }
    ensures { MatchOption result (undoubled quoted.now ≡ None)
        (λ first. (undoubled quoted.now
        ≡ option_map (λ text. first.0 ∷ text) (undoubled first.1.now))
        × (length first.1.now < length quoted.now)) }
{
    if quoted.starts_with(b"''") {
        Some((b'\'', &quoted[2..]))
    } else if quoted[0] == b'\'' {
        None
    } else {
        Some((quoted[0], &quoted[1..]))
    }
}
