//! Literals behind what is printed so far.
ghost use Rattle.std.specs.Prelude.{◌≡◌, ◌++◌, ◌∷◌, OnOk};
ghost use Rattle.sql_phrases.specs.row_types.specs.Printing.{doubled_quote, quoted};
ghost use Rattle.sql_phrases.specs.sql_query.specs.Literals.{signed_digits};
ghost use Rattle.sql_words.specs.Words.{enclosed, listed, literal_words, more, spaced};

use crate::word::put;
use sql_phrases::sql_query::{Literal, NumberLiteral};
use std::alloc::AllocError;

fn put_signed(out: &mut Vec<u8>, number: &NumberLiteral) -> Result<(), AllocError>
    ensures { OnOk result (out.new.items ≡ out.old.items ++ 32 ∷ signed_digits number.now) }
{
    out.push(b' ')?;
    if number.negative {
        out.push(b'-')?;
    }
    out.extend_from_slice(number.digits.as_bytes())
}

/// Puts a byte of a text, a quote twice.
fn put_byte(out: &mut Vec<u8>, byte: u8) -> Result<(), AllocError>
    ensures { OnOk result (out.new.items ≡ out.old.items ++ doubled_quote byte) }
{
    if byte == b'\'' {
        out.push(b'\'')?;
    }
    out.push(byte)?;
    Ok(())
}

/// Puts a space and the text between quotes, with each quote in it twice.
fn put_text(out: &mut Vec<u8>, text: &[u8]) -> Result<(), AllocError>
    ensures { OnOk result (out.new.items ≡ out.old.items ++ 32 ∷ quoted text.now) }
{
    out.extend_from_slice(b" '")?;
    for byte in text {
        put_byte(out, *byte)?;
    }
    out.push(b'\'')?;
    Ok(())
}

/// Puts a literal: the bytes of a number as they are written, a `-` and its digits being one word. The error is want of
/// memory.
pub fn put_literal(out: &mut Vec<u8>, literal: &Literal) -> Result<(), AllocError>
    ensures { OnOk result (out.new.items ≡ out.old.items ++ spaced (literal_words literal.now)) }
{
    match literal {
        Literal::Null => put(out, b"NULL"),
        Literal::Number(number) => put_signed(out, number),
        Literal::Text(text) => put_text(out, text.as_bytes()),
        Literal::Time(text) => {
            put(out, b"TIMESTAMP")?;
            put_text(out, text.as_bytes())
        }
    }
}

/// Puts a comma and a literal for each.
fn put_more_literals(out: &mut Vec<u8>, literals: &[Literal]) -> Result<(), AllocError>
    ensures { OnOk result (out.new.items ≡ out.old.items ++ spaced (more literal_words literals.now)) }
{
    for literal in literals {
        put(out, b",")?;
        put_literal(out, literal)?;
    }
    Ok(())
}

/// Puts the literals between parentheses, with commas between. The error is want of memory.
pub fn put_literals(out: &mut Vec<u8>, literals: &[Literal]) -> Result<(), AllocError>
    ensures { OnOk result (out.new.items ≡ out.old.items ++ spaced (enclosed (listed literal_words literals.now))) }
{
    put(out, b"(")?;
    if let Some((first, rest)) = literals.split_first() {
        put_literal(out, first)?;
        put_more_literals(out, rest)?;
    }
    put(out, b")")
}
