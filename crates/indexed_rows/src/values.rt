//! Values of rows compared.

ghost use Rattle.std.specs.Prelude.{◌≡◌, find};
ghost use Rattle.std.specs.Ordering.{is_eq};
ghost use Rattle.row_types.specs.declared.value.Value.TheVariants.{Null};
ghost use Rattle.row_types.specs.Order.{order_of};
ghost use Rattle.indexed_rows.specs.Rows.{changes, is_same, key_of, value_at};

use row_types::{Row, Value, order, order_of_values};
use std::cmp::Ordering;

/// The first of these places at which the rows differ.
pub fn first_change(places: &[usize], old: &[Value], new: &[Value]) -> Option<usize>
    ensures { result ≡ find (changes old.now new.now) places.now }
{
    match places.split_first() {
        None => None,
        Some((place, places)) => {
            if changes(old, new, *place) {
                Some(*place)
            } else {
                first_change(places, old, new)
            }
        }
    }
}

fn changes(old: &[Value], new: &[Value], place: usize) -> bool
    ensures { result ≡ changes old.now new.now place }
{
    let null = Value::Null;
    !is_same_value(value_at(old, place, &null), value_at(new, place, &null))
}

fn value_at<'a>(values: &'a [Value], place: usize, null: &'a Value) -> &'a Value
    requires { null.now ≡ Null }
    ensures { result.now ≡ value_at values.now place }
{
    match values.get(place) {
        None => null,
        Some(value) => value,
    }
}

fn is_same_value(a: &Value, b: &Value) -> bool
    ensures { result ≡ is_eq (order_of a.now b.now) }
{
    match order(a, b) {
        Ordering::Equal => true,
        _ => false,
    }
}

/// Whether the values of the row at these places are the key.
pub(crate) fn has_key(places: &[usize], row: &[Value], key: &[Value]) -> bool
    ensures { result ≡ is_same (key_of places.now row.now) key.now }
{
    match (places.split_first(), key.split_first()) {
        (None, None) => true,
        (Some((place, places)), Some((value, key))) => {
            let null = Value::Null;
            is_same_value(value_at(row, *place, &null), value) && has_key(places, row, key)
        }
        _ => false,
    }
}

/// Whether both rows have the same values.
pub fn is_same_row(a: &Row, b: &Row) -> bool
    ensures { result ≡ is_same a.now b.now }
{
    is_same_values(a.values(), b.values())
}

/// Whether both lists have the same values.
pub fn is_same_values(a: &[Value], b: &[Value]) -> bool
    ensures { result ≡ is_same a.now b.now }
{
    match order_of_values(a, b) {
        Ordering::Equal => true,
        _ => false,
    }
}
