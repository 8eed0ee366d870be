//! Literals as they are written.

ghost use Rattle.std.specs.Prelude.{◌≡◌, IfOk};
ghost use Rattle.expressions.specs.numbers.specs.NumberTexts.{number_read};
ghost use Rattle.sql_query.specs.Literals.{signed_digits, value_of};

use expressions::numbers::Number;
use expressions::row_types::{Text, Time, Value, held_text};
use std::alloc::{AllocError, Global};

/// A number as it is written. Blanks between its sign and its digits don't count.
pub struct NumberLiteral {
    /// Whether a `-` stands before it.
    pub negative: bool,
    /// Its digits, leading zeros too, with a point and the digits behind it where it has them.
    pub digits: Text,
}

impl Drop for NumberLiteral {
    fn drop(self) {
        let Self {
            negative: _,
            digits: _,
        } = self;
    }
}

/// A literal as it is written.
pub enum Literal {
    /// NULL.
    Null,
    /// A number.
    Number(NumberLiteral),
    /// A text: its bytes without the quotes around it, `''` in it being one quote.
    Text(Text),
    /// TIMESTAMP: the text behind it, without its quotes.
    Time(Text),
}

impl Drop for Literal {
    fn drop(self) {
        match self {
            Self::Null => {}
            Self::Number(_) => {}
            Self::Text(_) => {}
            Self::Time(_) => {}
        }
    }
}

impl Literal {
    /// The value of the literal. It is NULL of the text without bytes.
    ///
    /// None exactly where no type holds it: a number with units past 64 signed bits or with more than 18 digits behind
    /// its point, a text of more than 4,000 bytes, and a TIMESTAMP of anything else than `YYYY-MM-DD HH:MM:SS` with a
    /// date of the years 0001 to 9999 and a time of day. The error is want of memory. (TimesTen SQL Reference,
    /// "Constants", "Datetime literals"; the ranges are this project's.)
    pub fn value(&self, alloc: Global) -> Result<Option<Value>, AllocError>
        ensures { IfOk result (λ value. value ≡ value_of self.now) }
    {
        match self {
            Literal::Null => Ok(Some(Value::Null)),
            Literal::Number(literal) => {
                let number = number_of(alloc, literal)?;
                Ok(number.map(Value::Number))
            }
            Literal::Text(text) => held_text(alloc, text.as_bytes()),
            Literal::Time(text) => Ok(Time::from_text(text.as_bytes()).map(Value::Time)),
        }
    }
}

/// The number that a literal writes; none where no type holds it.
fn number_of(alloc: Global, literal: &NumberLiteral) -> Result<Option<Number>, AllocError>
    ensures { IfOk result (λ number. number ≡ number_read (signed_digits literal.now)) }
{
    let digits = literal.digits.as_bytes();
    if !literal.negative {
        return Ok(Number::from_text(digits));
    }
    let mut signed = Vec::with_capacity(alloc, 1)?;
    signed.push(b'-')?;
    signed.extend_from_slice(digits)?;
    Ok(Number::from_text(signed.as_slice()))
}
