//! Lists of values.

ghost use Rattle.std.specs.Prelude.{◌≡◌, ◌↔◌, IfOk, IsTrue};
ghost use Rattle.row_types.specs.Order.{key_order};

use crate::value::{Value, order};
use std::alloc::{AllocError, Global};
use std::cmp::Ordering;

/// The order of lists of values: by the first values that differ, and a list that ends before another is less.
pub fn order_of_values(left: &[Value], right: &[Value]) -> Ordering
    ensures { result ≡ key_order left.now right.now }
{
    let mut these = left;
    let mut those = right;
    while let (Some((a, after_a)), Some((b, after_b))) = (
        these.split_first(),
        those.split_first(),
    ) {
        match order(a, b) {
            Ordering::Equal => {
                these = after_a;
                those = after_b;
            }
            decided => return decided,
        }
    }
    these.len().cmp(&those.len())
}

/// Whether both lists have the same values.
pub fn same_values(left: &[Value], right: &[Value]) -> bool
    ensures { IsTrue result ↔ (left.now ≡ right.now) }
{
    let mut these = left;
    let mut those = right;
    while let (Some((a, after_a)), Some((b, after_b))) = (
        these.split_first(),
        those.split_first(),
    ) {
        if !a.same(b) {
            return false;
        }
        these = after_a;
        those = after_b;
    }
    these.len() == those.len()
}

/// A second copy of the values.
pub fn copied_values(alloc: Global, values: &[Value]) -> Result<Vec<Value>, AllocError>
    ensures { IfOk result (λ copies. copies.items ≡ values.now) }
{
    let mut copies = Vec::with_capacity(alloc, values.len())?;
    for value in values {
        copies.push(value.copied(alloc)?)?;
    }
    Ok(copies)
}
