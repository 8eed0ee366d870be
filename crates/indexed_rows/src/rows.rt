//! Rows in key order.

ghost use Rattle.std.specs.Prelude.{◌≡◌, ◌==◌, ◌<◌, ◌≤◌, ◌≢◌, ◌+◌, ◌^◌, ◌++◌, List, All, take, drop, MatchResult, IfOk, IfErr, OnOk, OnErr, OnSome, length, None, Some, false, not, slice_get, MatchOption, option_copied, if◌then◌else◌};
ghost use Rattle.std.specs.List.Sorted.{IsSearchInRange};
ghost use Rattle.row_types.specs.declared.value.Value.{Value};
ghost use Rattle.row_types.specs.Order.{key_order};
ghost use Rattle.indexed_rows.specs.Places.{IsKeyAt, IsGapFor, IsSplitAt};
ghost use Rattle.std.specs.FinMap as map;

use crate::spare::Spare;
use long_list::{LongList, Probe};
use row_types::{Key, Row, Value, order, order_of_values};
use std::alloc::{AllocError, Global};
use std::cmp::Ordering;
use std::marker::Model;

// The entry of a key.
#[derive(Drop)]
struct ByKey<'a>(&'a Key);

impl<'a> Probe<(Key, Row)> for ByKey<'a> {
    ghost order_gives = { λ sought entry. key_order entry.0 sought.0.now };

    fn order(&self, entry: &(Key, Row)) -> Ordering {
        entry.0.order(self.0)
    }
}

// The entry of the key that two lists make, one behind the other.
struct ByParts<'a>(&'a [Value], &'a [Value]);

impl<'a> Drop for ByParts<'a> {
    fn drop(self) {
        let Self(_, _) = self;
    }
}

impl<'a> Probe<(Key, Row)> for ByParts<'a> {
    ghost order_gives = { λ sought entry. key_order entry.0 (sought.0.now ++ sought.1.now) };

    fn order(&self, entry: &(Key, Row)) -> Ordering {
        order_to_parts(entry.0.values(), self.0, self.1)
    }
}

fn order_to_parts(values: &[Value], head: &[Value], tail: &[Value]) -> Ordering
    ensures { result ≡ key_order values.now (head.now ++ tail.now) }
{
    match (values.split_first(), head.split_first()) {
        (_, None) => order_of_values(values, tail),
        (None, Some(_)) => Ordering::Less,
        (Some((a, values)), Some((b, head))) => match order(a, b) {
            Ordering::Equal => order_to_parts(values, head, tail),
            decided => decided,
        },
    }
}

/// The rows of a table by primary key. Clauses see a finite map from keys to rows.
///
/// A key is found among a million in about a microsecond, and a row is read by its place in key order in some tens
/// of nanoseconds.
#[derive(Drop)]
pub struct Rows {
    entries: LongList<(Key, Row)>,
}

impl Model for Rows {
    ghost use Rattle.std.specs.Prelude.{List, T};
    ghost use Rattle.row_types.specs.declared.value.Value.{Value as OneValue};
    ghost use Rattle.row_types.specs.Order.{key_order};
    ghost use Rattle.std.specs.FinMap as map;
    ghost use Rattle.std.specs.Coded.{coded_list};
    ghost use Rattle.row_types.specs.contracts.value.Value as one;

    ghost Value = { map.FinMap key_order (List OneValue) };

    ghost coded = { map.code (coded_list one.the_row.coded) (coded_list one.the_row.coded) };

    ghost view = { λ r. map.from_sorted r.entries };

    ghost invariant = { λ r. T (map.is_sorted key_order r.entries) };
}

impl Rows {
    /// No rows. It takes no memory yet.
    pub fn new(alloc: Global) -> Rows
        ensures { result ≡ map.empty }
    {
        Rows {
            entries: LongList::new(alloc),
        }
    }

    /// How many rows there are.
    pub fn len(&self) -> usize
        ensures value { result ≡ map.len self.now }
        ensures fits { result < 2 ^ 63 }
    {
        self.entries.len()
    }

    /// Whether there is no row.
    pub fn is_empty(&self) -> bool
        ensures { result ≡ (map.len self.now == 0) }
    {
        self.entries.is_empty()
    }

    // Where a key is, or where it would go.
    fn search(&self, key: &Key) -> Result<usize, usize>
        ensures bound { IsSearchInRange result (map.len self.now) }
        ensures found { IfOk result (IsKeyAt (map.entries self.now) key.now) }
        ensures absent { IfErr result (IsGapFor (map.entries self.now) key.now) }
        ensures split { MatchResult result (IsSplitAt (map.entries self.now) key.now)
            (IsSplitAt (map.entries self.now) key.now) }
    {
        self.entries.search(&ByKey(key))
    }

    /// The row of a key.
    pub fn get(&self, key: &Key) -> Option<&Row>
        ensures { option_copied result ≡ map.get self.now key.now }
    {
        match self.search(key) {
            Ok(place) => Some(&self.entries.at(place).1),
            Err(_) => None,
        }
    }

    /// Whether a key has a row.
    pub fn contains_key(&self, key: &Key) -> bool
        ensures { result ≡ map.contains_key self.now key.now }
    {
        match self.search(key) {
            Ok(_) => true,
            Err(_) => false,
        }
    }

    /// The place of a key in key order, from 0.
    pub fn position(&self, key: &Key) -> Option<usize>
        ensures { MatchOption result (map.contains_key self.now key.now ≡ false)
            (λ place. slice_get (map.keys self.now) place ≡ Some key.now) }
    {
        match self.search(key) {
            Ok(place) => Some(place),
            Err(_) => None,
        }
    }

    /// The place of the first key that isn't below a key, or the length where each is below it.
    ///
    /// A range of keys goes from one such place to another.
    pub fn first_at_least(&self, key: &Key) -> usize
        ensures bound { result ≤ map.len self.now }
        ensures below { All (λ other. key_order other key.now ≡ Ordering.Less) (take result (map.keys self.now)) }
        ensures at_least { All (λ other. key_order other key.now ≢ Ordering.Less) (drop result (map.keys self.now)) }
    {
        match self.search(key) {
            Ok(place) => place,
            Err(place) => place,
        }
    }

    fn search_parts(&self, head: &[Value], tail: &[Value]) -> Result<usize, usize>
        ensures bound { IsSearchInRange result (map.len self.now) }
        ensures split { MatchResult result (IsSplitAt (map.entries self.now) (head.now ++ tail.now))
            (IsSplitAt (map.entries self.now) (head.now ++ tail.now)) }
    {
        self.entries.search(&ByParts(head, tail))
    }

    /// The place of the first key that isn't below the one that two lists make, one behind the other, or the length
    /// where each is below it. It takes no memory.
    pub fn first_at_least_parts(&self, head: &[Value], tail: &[Value]) -> usize
        ensures bound { result ≤ map.len self.now }
        ensures below { All (λ other. key_order other (head.now ++ tail.now) ≡ Ordering.Less)
            (take result (map.keys self.now)) }
        ensures at_least { All (λ other. key_order other (head.now ++ tail.now) ≢ Ordering.Less)
            (drop result (map.keys self.now)) }
    {
        match self.search_parts(head, tail) {
            Ok(found) => found,
            Err(gap) => gap,
        }
    }

    /// The key and the row at a place in key order, which is below the length.
    pub fn entry_at(&self, place: usize) -> &(Key, Row)
        requires { place < map.len self.now }
        ensures { slice_get (map.entries self.now) place ≡ Some result.now }
    {
        self.entries.at(place)
    }

    /// The row at a place in key order, which is below the length.
    pub fn row_at(&self, place: usize) -> &Row
        requires { place < map.len self.now }
        ensures { slice_get (map.values self.now) place ≡ Some result.now }
    {
        &self.entry_at(place).1
    }

    /// Puts in a row where its key has none, and says whether it had none.
    ///
    /// It fails for want of memory alone, and the rows then are as they were.
    pub fn insert(&mut self, key: Key, row: Row) -> Result<bool, AllocError>
        ensures was_new { IfOk result (λ was_new. was_new ≡ not (map.contains_key self.old key)) }
        ensures ok { OnOk result (self.new ≡ (if map.contains_key self.old key then self.old else map.insert self.old
            key row)) }
        ensures err { OnErr result (self.new ≡ self.old) }
    {
        match self.search(&key) {
            Ok(_) => Ok(false),
            Err(place) => {
                self.entries.insert(place, (key, row))?;
                Ok(true)
            }
        }
    }

    /// Puts another row in the place of the one that the key has, and gives back that one. It takes no memory.
    pub fn replace(&mut self, key: Key, row: Row) -> Option<Row>
        ensures old { result ≡ map.get self.old key }
        ensures new { OnSome result (self.new ≡ map.insert self.old key row) }
        ensures none { result ≡ None → self.new ≡ self.old }
    {
        match self.search(&key) {
            Ok(place) => {
                let (_, old) = self.entries.replace(place, (key, row));
                Some(old)
            }
            Err(_) => None,
        }
    }

    /// Takes out the row of a key. It takes no memory.
    pub fn remove(&mut self, key: &Key) -> Option<Row>
        ensures old { result ≡ map.get self.old key.now }
        ensures new { self.new ≡ map.remove self.old key.now }
    {
        match self.search(key) {
            Ok(place) => {
                let (_, row) = self.entries.remove(place);
                Some(row)
            }
            Err(_) => None,
        }
    }

    /// Puts a row back where its key has none. It needs no memory.
    pub fn put_back(&mut self, spare: Spare)
        requires { map.len self.old + 1 < 2 ^ 63 }
        ensures { self.new ≡ (if map.contains_key self.old spare.0 then self.old else map.insert self.old spare.0
            spare.1) }
    {
        match self.search(spare.key()) {
            Ok(_) => {}
            Err(place) => self.entries.put_back(place, spare.into_room()),
        }
    }
}
