//! Rows compared by their keys, where they lie.

ghost use Rattle.std.specs.Prelude.{◌≡◌, ◌++◌, slice_get, unwrap_or};
ghost use Rattle.indexed_rows.specs.row_types.specs.declared.value.Value.TheVariants.{Null};
ghost use Rattle.indexed_rows.specs.row_types.specs.Order.{key_order};
ghost use Rattle.indexed_rows.specs.Rows.{is_same, key_of};
ghost use Rattle.slot_rows.specs.Slots.{entry_order, row_in};

use crate::order::Entry;
use indexed_rows::long_list::Probe;
use indexed_rows::row_types::{Row, Value, order};
use slab::Slab;
use std::cmp::Ordering;

pub(crate) fn value_at<'a>(values: &'a [Value], place: usize, null: &'a Value) -> &'a Value
    requires { null.now ≡ Null }
    ensures { result.now ≡ unwrap_or (slice_get values.now place) Null }
{
    match values.get(place) {
        None => null,
        Some(value) => value,
    }
}

// How the key of a row stands to a key.
fn order_to_key(places: &[usize], row: &[Value], key: &[Value]) -> Ordering
    ensures { result ≡ key_order (key_of places.now row.now) key.now }
{
    match (places.split_first(), key.split_first()) {
        (None, None) => Ordering::Equal,
        (None, Some(_)) => Ordering::Less,
        (Some(_), None) => Ordering::Greater,
        (Some((place, places)), Some((value, key))) => {
            let null = Value::Null;
            match order(value_at(row, *place, &null), value) {
                Ordering::Equal => order_to_key(places, row, key),
                decided => decided,
            }
        }
    }
}

// How the key of a row stands to a row's values at some columns.
fn order_of_rows(places: &[usize], row: &[Value], columns: &[usize], other: &[Value]) -> Ordering
    ensures { result ≡ key_order (key_of places.now row.now) (key_of columns.now other.now) }
{
    match (places.split_first(), columns.split_first()) {
        (None, None) => Ordering::Equal,
        (None, Some(_)) => Ordering::Less,
        (Some(_), None) => Ordering::Greater,
        (Some((place, places)), Some((column, columns))) => {
            let null = Value::Null;
            match order(
                value_at(row, *place, &null),
                value_at(other, *column, &null),
            ) {
                Ordering::Equal => order_of_rows(places, row, columns, other),
                decided => decided,
            }
        }
    }
}

// How the key of a row stands to some values with a row's values at some columns behind them.
fn order_to_parts(
    places: &[usize],
    row: &[Value],
    values: &[Value],
    columns: &[usize],
    other: &[Value],
) -> Ordering
    ensures { result ≡ key_order (key_of places.now row.now) (values.now ++ key_of columns.now other.now) }
{
    match values.split_first() {
        None => order_of_rows(places, row, columns, other),
        Some((value, values)) => match places.split_first() {
            None => Ordering::Less,
            Some((place, places)) => {
                let null = Value::Null;
                match order(value_at(row, *place, &null), value) {
                    Ordering::Equal => order_to_parts(places, row, values, columns, other),
                    decided => decided,
                }
            }
        },
    }
}

// How the key of a row stands to a row's values at some columns with another row's values at others behind them.
fn order_to_both(
    places: &[usize],
    row: &[Value],
    columns: &[usize],
    parent: &[Value],
    rest: &[usize],
    other: &[Value],
) -> Ordering
    ensures { result ≡ key_order (key_of places.now row.now)
        (key_of columns.now parent.now ++ key_of rest.now other.now) }
{
    match columns.split_first() {
        None => order_of_rows(places, row, rest, other),
        Some((column, columns)) => match places.split_first() {
            None => Ordering::Less,
            Some((place, places)) => {
                let null = Value::Null;
                match order(
                    value_at(row, *place, &null),
                    value_at(parent, *column, &null),
                ) {
                    Ordering::Equal => order_to_both(places, row, columns, parent, rest, other),
                    decided => decided,
                }
            }
        },
    }
}

// Whether a row has a key.
pub(crate) fn is_key_of(places: &[usize], row: &[Value], key: &[Value]) -> bool
    ensures { result ≡ is_same (key_of places.now row.now) key.now }
{
    match order_to_key(places, row, key) {
        Ordering::Equal => true,
        _ => false,
    }
}

// Whether a row's key is a row's values at some columns.
pub(crate) fn is_key_of_row(
    places: &[usize],
    row: &[Value],
    columns: &[usize],
    other: &[Value],
) -> bool
    ensures { result ≡ is_same (key_of places.now row.now) (key_of columns.now other.now) }
{
    match order_of_rows(places, row, columns, other) {
        Ordering::Equal => true,
        _ => false,
    }
}

pub(crate) fn values_in(rows: &Slab<Row>, slot: usize) -> &[Value]
    ensures { result.now ≡ row_in rows.now slot }
{
    match rows.get(slot) {
        None => &[],
        Some(row) => row.values(),
    }
}

// The entry of a key, whose lead is beside it.
#[derive(Drop)]
pub(crate) struct ByKey<'a> {
    pub(crate) rows: &'a Slab<Row>,
    pub(crate) places: &'a [usize],
    pub(crate) key: &'a [Value],
    pub(crate) lead: u64,
}

impl<'a> Probe<Entry> for ByKey<'a> {
    ghost order_gives = { λ sought. entry_order sought.rows.now sought.places.now sought.lead sought.key.now };

    fn order(&self, entry: &Entry) -> Ordering {
        match entry.lead.cmp(&self.lead) {
            Ordering::Equal => order_to_key(
                self.places,
                values_in(self.rows, entry.slot),
                self.key,
            ),
            decided => decided,
        }
    }
}

// The entry of a row's key, whose lead is beside it.
#[derive(Drop)]
pub(crate) struct ByRow<'a> {
    pub(crate) rows: &'a Slab<Row>,
    pub(crate) places: &'a [usize],
    pub(crate) row: &'a [Value],
    pub(crate) lead: u64,
}

impl<'a> Probe<Entry> for ByRow<'a> {
    ghost order_gives = { λ sought. entry_order sought.rows.now sought.places.now sought.lead
        (key_of sought.places.now sought.row.now) };

    fn order(&self, entry: &Entry) -> Ordering {
        match entry.lead.cmp(&self.lead) {
            Ordering::Equal => order_of_rows(
                self.places,
                values_in(self.rows, entry.slot),
                self.places,
                self.row,
            ),
            decided => decided,
        }
    }
}

// The entry of a row's values at some columns, whose lead is beside it.
#[derive(Drop)]
pub(crate) struct ByOther<'a> {
    pub(crate) rows: &'a Slab<Row>,
    pub(crate) places: &'a [usize],
    pub(crate) columns: &'a [usize],
    pub(crate) row: &'a [Value],
    pub(crate) lead: u64,
}

impl<'a> Probe<Entry> for ByOther<'a> {
    ghost order_gives = { λ sought. entry_order sought.rows.now sought.places.now sought.lead
        (key_of sought.columns.now sought.row.now) };

    fn order(&self, entry: &Entry) -> Ordering {
        match entry.lead.cmp(&self.lead) {
            Ordering::Equal => order_of_rows(
                self.places,
                values_in(self.rows, entry.slot),
                self.columns,
                self.row,
            ),
            decided => decided,
        }
    }
}

// The entry of some values with a row's values at some columns behind them, whose lead is beside it.
#[derive(Drop)]
pub(crate) struct ByParts<'a> {
    pub(crate) rows: &'a Slab<Row>,
    pub(crate) places: &'a [usize],
    pub(crate) values: &'a [Value],
    pub(crate) columns: &'a [usize],
    pub(crate) row: &'a [Value],
    pub(crate) lead: u64,
}

impl<'a> Probe<Entry> for ByParts<'a> {
    ghost order_gives = { λ sought. entry_order sought.rows.now sought.places.now sought.lead
        (sought.values.now ++ key_of sought.columns.now sought.row.now) };

    fn order(&self, entry: &Entry) -> Ordering {
        match entry.lead.cmp(&self.lead) {
            Ordering::Equal => order_to_parts(
                self.places,
                values_in(self.rows, entry.slot),
                self.values,
                self.columns,
                self.row,
            ),
            decided => decided,
        }
    }
}

// The entry of a row's values at some columns with another row's values at others behind them, whose lead is beside it.
#[derive(Drop)]
pub(crate) struct ByBoth<'a> {
    pub(crate) rows: &'a Slab<Row>,
    pub(crate) places: &'a [usize],
    pub(crate) columns: &'a [usize],
    pub(crate) parent: &'a [Value],
    pub(crate) rest: &'a [usize],
    pub(crate) row: &'a [Value],
    pub(crate) lead: u64,
}

impl<'a> Probe<Entry> for ByBoth<'a> {
    ghost order_gives = { λ sought. entry_order sought.rows.now sought.places.now sought.lead
        (key_of sought.columns.now sought.parent.now ++ key_of sought.rest.now sought.row.now) };

    fn order(&self, entry: &Entry) -> Ordering {
        match entry.lead.cmp(&self.lead) {
            Ordering::Equal => order_to_both(
                self.places,
                values_in(self.rows, entry.slot),
                self.columns,
                self.parent,
                self.rest,
                self.row,
            ),
            decided => decided,
        }
    }
}
