//! The lead of a key: a number that rises with the key's first value.
//!
//! This is the only place that looks inside a value. Where a value has a new form, its lead has to rise with the order
//! of values: `lead_rises` in `proofs/LeadLaws.antt` is what all else stands on. One lead for all values of a form is
//! always right, as rows decide where leads are equal.

ghost use Rattle.std.specs.Prelude.{◌≡◌, ◌<◌, ◌^◌, slice_get, unwrap_or};
ghost use Rattle.indexed_rows.specs.row_types.specs.declared.value.Value.TheVariants.{Null};
ghost use Rattle.slot_rows.specs.Leads.{lead, lead_of, near};
ghost use Rattle.indexed_rows.specs.Rows.{key_of};

use crate::compare::value_at;
use indexed_rows::row_types::Value;

// How far from 0 numbers have leads of their own.
const BOUND: u64 = 0x2000_0000_0000_0000;
// The lowest lead of a time.
const TIMES: u64 = 0x4000_0000_0000_0000;
// The lead of each text.
const TEXTS: u64 = 0x8000_0000_0000_0000;

fn near(number: i64) -> u64
    ensures value { result ≡ near number }
    ensures bound { result < 2 ^ 62 }
{
    let size = number.unsigned_abs();
    if number < 0 {
        BOUND - size.min(BOUND)
    } else {
        BOUND + size.min(BOUND - 1)
    }
}

pub(crate) fn lead(value: &Value) -> u64
    ensures { result ≡ lead value.now }
{
    match value {
        Value::Number(number) => near(number.floor()),
        Value::Time(time) => TIMES + near(time.seconds()),
        Value::Text(_) => TEXTS,
        Value::Null => u64::MAX,
    }
}

// The lead of a key.
pub(crate) fn lead_of_key(key: &[Value]) -> u64
    ensures { result ≡ lead_of key.now }
{
    match key.first() {
        None => 0,
        Some(value) => lead(value),
    }
}

// The lead of a row's values at some columns.
pub(crate) fn lead_of_row(places: &[usize], row: &[Value]) -> u64
    ensures { result ≡ lead_of (key_of places.now row.now) }
{
    match places.first() {
        None => 0,
        Some(place) => {
            let null = Value::Null;
            lead(value_at(row, *place, &null))
        }
    }
}
