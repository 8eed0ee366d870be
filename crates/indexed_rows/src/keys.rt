//! The values of a row at the places of a key.

ghost use Rattle.std.specs.Prelude.{◌≡◌, IfOk, slice_get, unwrap_or};
ghost use Rattle.row_types.specs.declared.value.Value.TheVariants.{Null};
ghost use Rattle.indexed_rows.specs.Rows.{key_of};

use row_types::{Key, Row, Value};
use std::alloc::{AllocError, Global};

/// The values of a row at these places, NULL past its end.
pub fn key_at(alloc: Global, places: &[usize], row: &Row) -> Result<Key, AllocError>
    ensures { IfOk result (λ key. key ≡ key_of places.now row.now) }
{
    if places.len() == 1 {
        let value = value_at(alloc, row.values(), places[0])?;
        return Ok(Key::one(value));
    }
    Ok(Key::from_vec(values_at(alloc, places, row)?))
}

/// The values of a row at these places, NULL past its end.
pub(crate) fn values_at(
    alloc: Global,
    places: &[usize],
    row: &Row,
) -> Result<Vec<Value>, AllocError>
    ensures { IfOk result (λ values. values.items ≡ key_of places.now row.now) }
{
    let mut values = Vec::with_capacity(alloc, places.len())?;
    for place in places {
        values.push(value_at(alloc, row.values(), *place)?)?;
    }
    Ok(values)
}

fn value_at(alloc: Global, values: &[Value], place: usize) -> Result<Value, AllocError>
    ensures { IfOk result (λ value. value ≡ unwrap_or (slice_get values.now place) Null) }
{
    match values.get(place) {
        None => Ok(Value::Null),
        Some(value) => value.copied(alloc),
    }
}
