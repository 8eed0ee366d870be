//! ORDER BY.

ghost use Rattle.std.specs.Prelude.{◌≡◌, OnOk, drop};
ghost use Rattle.expressions.specs.row_types.specs.Order.{order_of};
ghost use Rattle.evaluator.specs.Queries.{IsOrdered, by_values, first_value, way};

use crate::plan::Found;
use expressions::row_types::{Value, order};
use std::alloc::AllocError;
use std::cmp::Ordering;

/// Sorts what was found by ORDER BY. What ties keeps its order. It fails for want of memory alone.
pub fn sort_found(found: &mut Vec<Found>, descending: &[bool]) -> Result<(), AllocError>
    ensures { OnOk result (IsOrdered descending.now found.old.items found.new.items) }
{
    found.sort_by(
        |a: &Found, b: &Found| -> Ordering
            ensures { result ≡ by_values descending.entry.now a.now.order b.now.order }
        { order_by(descending, a.order.values(), b.order.values()) },
    )
}

/// The order of the values of ORDER BY: by the first, where that ties by the next.
pub fn order_by(descending: &[bool], a: &[Value], b: &[Value]) -> Ordering
    ensures { result ≡ by_values descending.now a.now b.now }
{
    let mut ways = descending;
    let mut these = a;
    let mut those = b;
    while let Some((way, others)) = ways.split_first() {
        match order_first(*way, these, those) {
            Ordering::Equal => {
                ways = others;
                these = rest_of(these);
                those = rest_of(those);
            }
            decided => return decided,
        }
    }
    Ordering::Equal
}

// The order of the first values.
fn order_first(descending: bool, a: &[Value], b: &[Value]) -> Ordering
    ensures { result ≡ way descending order_of (first_value a.now) (first_value b.now) }
{
    let null = Value::Null;
    let a = a.first().unwrap_or(&null);
    let b = b.first().unwrap_or(&null);
    if descending { order(b, a) } else { order(a, b) }
}

// The values behind the first.
fn rest_of(values: &[Value]) -> &[Value]
    ensures { result.now ≡ drop 1 values.now }
{
    match values.split_first() {
        None => values,
        Some((_, rest)) => rest,
    }
}
