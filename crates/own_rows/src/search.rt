//! Where the key of a row stands among other keys. Nothing here takes memory.

ghost use Rattle.std.specs.Prelude.{◌≡◌, ◌<◌, ◌≤◌, ◌^◌, option_copied};
ghost use Rattle.std.specs.FinMap as map;
ghost use Rattle.table_state.specs.row_types.specs.Order.{key_order, order_of};
ghost use Rattle.table_state.specs.indexed_rows.specs.Rows.{key_of, value_at};
ghost use Rattle.own_rows.specs.Ranks.{rank};

use std::cmp::Ordering;
use table_state::indexed_rows::Rows;
use table_state::row_types::{Key, Row, Value, order};

/// The order of a key and that of a row, whose values stand at these places.
pub(crate) fn order_to_row(key: &Key, places: &[usize], row: &Row) -> Ordering
    ensures { result ≡ key_order key.now (key_of places.now row.now) }
{
    order_of_both(key.values(), places, row.values())
}

fn order_of_both(key: &[Value], places: &[usize], row: &[Value]) -> Ordering
    ensures { result ≡ key_order key.now (key_of places.now row.now) }
{
    match (key.split_first(), places.split_first()) {
        (None, None) => Ordering::Equal,
        (None, Some(_)) => Ordering::Less,
        (Some(_), None) => Ordering::Greater,
        (Some((value, key)), Some((place, places))) => match order_at(value, row, *place) {
            Ordering::Equal => order_of_both(key, places, row),
            decided => decided,
        },
    }
}

fn order_at(value: &Value, row: &[Value], place: usize) -> Ordering
    ensures { result ≡ order_of value.now (value_at row.now place) }
{
    match row.get(place) {
        None => order(value, &Value::Null),
        Some(other) => order(value, other),
    }
}

/// How many of the rows have a key below that of a row.
pub(crate) fn rank_of_row(rows: &Rows, places: &[usize], row: &Row) -> usize
    ensures rank { result ≡ rank rows.now (key_of places.now row.now) }
    ensures bound { result ≤ map.len rows.now }
    ensures fits { result < 2 ^ 63 }
{
    let mut low: usize = 0;
    let mut high = rows.len();
    while low < high {
        let mid = low + (high - low) / 2;
        let (key, _) = rows.entry_at(mid);
        match order_to_row(key, places, row) {
            Ordering::Less => low = mid + 1,
            _ => high = mid,
        }
    }
    low
}

/// The row that stands under the key of another row.
pub(crate) fn row_of_same_key<'a>(rows: &'a Rows, places: &[usize], row: &Row) -> Option<&'a Row>
    ensures { option_copied result ≡ map.get rows.now (key_of places.now row.now) }
{
    let place = rank_of_row(rows, places, row);
    if place >= rows.len() {
        return None;
    }
    let (key, found) = rows.entry_at(place);
    match order_to_row(key, places, row) {
        Ordering::Equal => Some(found),
        _ => None,
    }
}

/// Whether there is a row under the key of another row.
pub fn has_same_key(rows: &Rows, places: &[usize], row: &Row) -> bool
    ensures { result ≡ map.contains_key rows.now (key_of places.now row.now) }
{
    match row_of_same_key(rows, places, row) {
        None => false,
        Some(_) => true,
    }
}

/// How many of the rows have a key below this one.
pub(crate) fn rank_of_key(rows: &Rows, key: &Key) -> usize
    ensures rank { result ≡ rank rows.now key.now }
    ensures fits { result < 2 ^ 63 }
{
    let _count = rows.len();
    rows.first_at_least(key)
}
