//! Values, their comparison and their order.

ghost use Rattle.std.specs.Prelude.{◌≡◌, ◌↔◌, IfOk, IsTrue};
ghost use Rattle.row_types.specs.declared.value.Value.TheVariants.{Number as NumberOf};
ghost use Rattle.row_types.specs.Order.{order_of, rank, value_order};
ghost use Rattle.row_types.specs.Values.{comparison_of, is_null};

use crate::text::Text;
use crate::time::Time;
use crate::truth::Truth;
use numbers::Number;
use std::alloc::{AllocError, Global};
use std::cmp::Ordering;

/// A value of a column.
#[derive(Drop)]
pub enum Value {
    /// No value. The text without bytes is NULL too.
    Null,
    /// A number with a scale. A whole number has scale 0.
    Number(Number),
    /// A text.
    Text(Text),
    /// A time in whole seconds.
    Time(Time),
}

impl Value {
    /// A whole number.
    pub fn integer(number: i64) -> Value
        ensures { result ≡ NumberOf (record { units = number; scale = 0 }) }
    {
        Value::Number(Number::integer(number))
    }

    /// Whether it is NULL.
    pub fn is_null(&self) -> bool
        ensures { result ≡ is_null self.now }
    {
        matches!(self, Value::Null)
    }

    /// Whether this is the same value. NULL is the same as NULL here.
    pub fn same(&self, other: &Value) -> bool
        ensures { IsTrue result ↔ (self.now ≡ other.now) }
    {
        match (self, other) {
            (Value::Null, Value::Null) => true,
            (Value::Number(a), Value::Number(b)) => *a == *b,
            (Value::Text(a), Value::Text(b)) => a.same(b),
            (Value::Time(a), Value::Time(b)) => *a == *b,
            _ => false,
        }
    }

    /// A second copy of the value.
    pub fn copied(&self, alloc: Global) -> Result<Value, AllocError>
        ensures { IfOk result (λ value. value ≡ self.now) }
    {
        match self {
            Value::Null => Ok(Value::Null),
            Value::Number(number) => Ok(Value::Number(*number)),
            Value::Text(text) => {
                let text = text.copied(alloc)?;
                Ok(Value::Text(text))
            }
            Value::Time(time) => Ok(Value::Time(*time)),
        }
    }
}

/// The operator `=`: `True` where both are equal, `False` where they differ, `Unknown` where a side is NULL. Numbers
/// are equal where they stand for the same, whatever their scales.
pub fn compare(a: &Value, b: &Value) -> Truth
    ensures { result ≡ comparison_of a.now b.now }
{
    if a.is_null() || b.is_null() {
        return Truth::Unknown;
    }
    Truth::of(value_order(a, b).is_eq())
}

/// The order of keys and rows: that of what values stand for, and then by scale, so that only the same values are equal
/// in it.
pub fn order(a: &Value, b: &Value) -> Ordering
    ensures { result ≡ order_of a.now b.now }
{
    match (a, b) {
        (Value::Number(a), Value::Number(b)) => a.order(*b).then(a.scale().cmp(&b.scale())),
        _ => value_order(a, b),
    }
}

/// The order of what values stand for, by which conditions go: numbers and times by size, texts by bytes, NULL last.
/// Numbers stand before times and times before texts, though no column has two of these.
pub fn value_order(a: &Value, b: &Value) -> Ordering
    ensures { result ≡ value_order a.now b.now }
{
    match (a, b) {
        (Value::Number(a), Value::Number(b)) => a.order(*b),
        (Value::Time(a), Value::Time(b)) => a.seconds().cmp(&b.seconds()),
        (Value::Text(a), Value::Text(b)) => a.as_bytes().cmp(b.as_bytes()),
        _ => rank(a).cmp(&rank(b)),
    }
}

fn rank(value: &Value) -> u8
    ensures { result ≡ rank value.now }
{
    match value {
        Value::Number(_) => 0,
        Value::Time(_) => 1,
        Value::Text(_) => 2,
        Value::Null => 3,
    }
}
