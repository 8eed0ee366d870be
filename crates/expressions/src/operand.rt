//! Values that aren't copied.

ghost use Rattle.std.specs.Prelude.{◌≡◌, IfOk};
ghost use Rattle.row_types.specs.Order.{value_order};
ghost use Rattle.expressions.specs.Operands.{shown};

use row_types::numbers::Number;
use row_types::{Value, value_order};
use std::alloc::{AllocError, Global};
use std::cmp::Ordering;

/// What an expression is on a row: a number that was calculated, or a value where it is kept. Nothing is copied.
#[derive(Clone, Copy)]
pub enum Operand<'a> {
    /// No value.
    Null,
    /// A number.
    Number(Number),
    /// A value of the row, or a literal.
    Stored(&'a Value),
}

impl<'a> Operand<'a> {
    /// A copy of the value.
    pub fn copied(&self, alloc: Global) -> Result<Value, AllocError>
        ensures { IfOk result (λ value. value ≡ shown self.now) }
    {
        match self {
            Operand::Null => Ok(Value::Null),
            Operand::Number(number) => Ok(Value::Number(*number)),
            Operand::Stored(value) => value.copied(alloc),
        }
    }

    /// The order of what the values stand for: numbers and times by size, texts by bytes, NULL last. It takes no
    /// memory.
    pub fn order(&self, other: &Operand<'a>) -> Ordering
        ensures { result ≡ value_order (shown self.now) (shown other.now) }
    {
        match self {
            Operand::Null => order_behind(&Value::Null, other),
            Operand::Number(number) => order_behind(&Value::Number(*number), other),
            Operand::Stored(value) => order_behind(value, other),
        }
    }
}

fn order_behind(value: &Value, other: &Operand<'_>) -> Ordering
    ensures { result ≡ value_order value.now (shown other.now) }
{
    match other {
        Operand::Null => value_order(value, &Value::Null),
        Operand::Number(number) => value_order(value, &Value::Number(*number)),
        Operand::Stored(other) => value_order(value, other),
    }
}
