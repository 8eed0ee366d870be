//! The rows of a table in slots.

ghost use Rattle.std.specs.Prelude.{◌≡◌, ◌≤◌, ◌<◌, ◌+◌, ◌^◌, ◌++◌, ℕ, List, [], ◌∷◌, length, IfSome, OnOk, OnErr, None, Some, false, option_copied, slice_get, slice_index_or};
ghost use Rattle.std.specs.FinMap as map;
ghost use Rattle.indexed_rows.specs.Places.{IsKeyAt};
ghost use Rattle.indexed_rows.specs.Rows.{key_of, put_in, put_over};
ghost use Rattle.indexed_rows.specs.row_types.specs.declared.value.Value.{Value as OneValue};
ghost use Rattle.slot_rows.specs.Orders.{HasBefore, IsRowWith, IsWider, TakesRow, first_columns, place_from};
ghost use Rattle.slot_rows.specs.SlotKeys.{HasSlotKeys, IsKeyedBy, IsPlaceOf, IsSlotOf, LeavesSlot, PutsInSlot};

use crate::compare::values_in;
use crate::lead::lead_of_row;
use crate::order::Order;
use crate::orders::{clear_all, enter_all, leave_all, reserve_all};
use indexed_rows::row_types::{Row, Value};
use indexed_rows::tier_base::Seq;
use slab::Slab;
use std::alloc::{AllocError, Global};
use std::marker::Model;

// One more than the most rows that a table holds.
const LIMIT: usize = 0x8000_0000_0000_0000;

/// The rows of a table by their values at some columns, the key. Clauses see the rows by key, these columns, the key of
/// the row in each slot, and how many more rows go in without memory. A row keeps its slot until it is taken out.
///
/// A look-up, an insert and a removal cost O(log n) comparisons, most of which read no row. This project's rule.
pub struct SlotRows {
    rows: Slab<Row>,
    by_key: Order,
    others: Vec<Order>,
}

impl Drop for SlotRows {
    fn drop(self) {
        let Self {
            rows: _,
            by_key: _,
            others: _,
        } = self;
    }
}

impl Model for SlotRows {
    ghost use Rattle.std.specs.Prelude.{◌+◌, ◌<◌, ◌^◌, length, map};
    ghost use Rattle.slab.specs.Slab.{HasRoomFor};
    ghost use Rattle.slot_rows.specs.Orders.{Each, IsOther};
    ghost use Rattle.slot_rows.specs.SlotKeys.{RowsHeld, rows_held_code, slot_keys_in};
    ghost use Rattle.slot_rows.specs.Slots.{AreOrdered, table_in};

    ghost Value = { RowsHeld };

    ghost coded = { rows_held_code };

    ghost view = { λ r. record {
      table = table_in r.rows r.by_key.places r.by_key.entries;
      places = r.by_key.places;
      orders = map (λ o. o.places) r.others.items;
      slots = slot_keys_in r.rows r.by_key.places r.by_key.entries;
      vacant = r.rows.vacant_key;
      spare = length r.by_key.room.items;
    } };

    ghost invariant = { λ r. AreOrdered r.rows r.by_key.places r.by_key.entries ×
        HasRoomFor r.rows (length r.by_key.room.items) ×
        Each (IsOther r.rows r.by_key.places r.by_key.entries (length r.by_key.room.items)) r.others.items ×
        (length r.by_key.entries + length r.by_key.room.items < 2 ^ 63) };
}

impl SlotRows {
    /// No rows, whose key is the values at these columns. It takes no memory.
    pub fn new(alloc: Global, places: Seq<usize>) -> SlotRows
        ensures table { result.table ≡ map.empty }
        ensures places { result.places ≡ places }
        ensures orders { result.orders ≡ [] }
        ensures slots { result.slots ≡ map.empty }
    {
        SlotRows {
            rows: Slab::new(alloc),
            by_key: Order::new(alloc, places),
            others: Vec::new(alloc),
        }
    }

    /// The columns of the key.
    pub fn places(&self) -> &[usize]
        ensures { result.now ≡ self.now.places }
    {
        self.by_key.places.as_slice()
    }

    /// How many rows there are. Each stands under its key.
    pub fn len(&self) -> usize
        ensures value { result ≡ map.len self.now.table }
        ensures fits { result < 2 ^ 63 }
        ensures keyed { IsKeyedBy self.now.places self.now.table }
    {
        self.by_key.entries.len()
    }

    /// The row of a key.
    pub fn get(&self, key: &[Value]) -> Option<&Row>
        ensures { option_copied result ≡ map.get self.now.table key.now }
    {
        match self.by_key.search(&self.rows, key) {
            Ok(place) => self.rows.get(self.by_key.slot_at(place)),
            Err(_) => None,
        }
    }

    /// The keys in slots are those that have rows, each in one slot. It does nothing.
    pub fn slots_law(&self)
        ensures { HasSlotKeys self.now }
    {
        let _ = self.by_key.entries.len();
    }

    /// The slot of the row of a key.
    pub fn slot_of(&self, key: &[Value]) -> Option<usize>
        ensures { IsSlotOf self.now key.now result }
    {
        match self.by_key.search(&self.rows, key) {
            Ok(place) => Some(self.by_key.slot_at(place)),
            Err(_) => None,
        }
    }

    /// The slot of the row at a place in key order, which is below the length.
    pub fn slot_at(&self, place: usize) -> usize
        requires { place < map.len self.now.table }
        ensures { (key : List OneValue) → IsKeyAt (map.entries self.now.table) key place → IsSlotOf
            self.now key (Some result) }
    {
        self.by_key.slot_at(place)
    }

    /// The row in a slot, where the slot has one.
    pub fn row_in(&self, slot: usize) -> Option<&Row>
        ensures { (key : List OneValue) → map.get self.now.slots slot ≡ Some key → option_copied result ≡ map.get
            self.now.table key }
    {
        self.rows.get(slot)
    }

    /// The place in key order of the row that has another row's key.
    pub fn place_of(&self, row: &Row) -> Option<usize>
        ensures { IsPlaceOf self.now (key_of self.now.places row.now) result }
    {
        match self.by_key.search_row(&self.rows, row.values()) {
            Ok(place) => Some(place),
            Err(_) => None,
        }
    }

    /// A row that has at the first columns of another order the values that a row of another table has at some columns,
    /// as a child has its parent's key. It costs O(log n) comparisons.
    pub fn find_for(&self, order: usize, columns: &[usize], row: &Row) -> Option<&Row>
        requires there { order < length self.now.orders }
        requires some { 0 < length columns.now }
        requires columns { length columns.now ≤ length (slice_index_or self.now.orders order []) }
        ensures { IsRowWith self.now.table self.now.places (first_columns self.now.orders order (length columns.now))
            (key_of columns.now row.now) (option_copied result) }
    {
        match self.others[order].search_for(&self.rows, columns, row.values()) {
            None => None,
            Some(slot) => self.rows.get(slot),
        }
    }

    /// A row that has these values at the first columns of another order. It costs O(log n) comparisons.
    pub fn find(&self, order: usize, values: &[Value]) -> Option<&Row>
        requires there { order < length self.now.orders }
        requires some { 0 < length values.now }
        requires columns { length values.now ≤ length (slice_index_or self.now.orders order []) }
        ensures { IsRowWith self.now.table self.now.places (first_columns self.now.orders order (length values.now))
            values.now (option_copied result) }
    {
        match self.others[order].search_front(&self.rows, values) {
            None => None,
            Some(slot) => self.rows.get(slot),
        }
    }

    /// The first place in key order, from a place on, of a row that has these values at the columns that another order
    /// has before the key's. It costs O(log n) comparisons.
    pub fn next_with(&self, order: usize, values: &[Value], from: usize) -> Option<usize>
        requires there { order < length self.now.orders }
        requires some { 0 < length values.now }
        requires before { HasBefore self.now.orders order self.now.places (length values.now) }
        ensures { result ≡ place_from self.now.table
            (first_columns self.now.orders order (length values.now)) values.now from }
    {
        if from >= self.by_key.entries.len() {
            return None;
        }
        let places = self.by_key.places.as_slice();
        let least = values_in(&self.rows, self.by_key.slot_at(from));
        let other = &self.others[order];
        let start = other.first_at_least(&self.rows, values, places, least);
        match other.slot_at_front(&self.rows, start, values) {
            None => None,
            Some(slot) => match self
                .by_key
                .search_row(&self.rows, values_in(&self.rows, slot))
            {
                Ok(place) => Some(place),
                Err(_) => None,
            },
        }
    }

    /// The first place in key order, from a place on, of a row that has at the columns that another order has before
    /// the key's the values that a row of another table has at some columns, as a child has its parent's key. It costs
    /// O(log n) comparisons.
    pub fn next_for(&self, order: usize, columns: &[usize], row: &Row, from: usize) -> Option<usize>
        requires there { order < length self.now.orders }
        requires some { 0 < length columns.now }
        requires before { HasBefore self.now.orders order self.now.places (length columns.now) }
        ensures { result ≡ place_from self.now.table (first_columns self.now.orders order (length columns.now))
            (key_of columns.now row.now) from }
    {
        if from >= self.by_key.entries.len() {
            return None;
        }
        let places = self.by_key.places.as_slice();
        let least = values_in(&self.rows, self.by_key.slot_at(from));
        let other = &self.others[order];
        let parent = row.values();
        let start = other.first_for(&self.rows, columns, parent, places, least);
        match other.slot_at_front_for(&self.rows, start, columns, parent) {
            None => None,
            Some(slot) => match self
                .by_key
                .search_row(&self.rows, values_in(&self.rows, slot))
            {
                Ok(place) => Some(place),
                Err(_) => None,
            },
        }
    }

    /// The row at a place in key order, which is below the length.
    pub fn row_at(&self, place: usize) -> Option<&Row>
        requires { place < map.len self.now.table }
        ensures { option_copied result ≡ slice_get (map.values self.now.table) place }
    {
        self.rows.get(self.by_key.slot_at(place))
    }

    /// Another order of the rows, which are none yet: by some columns and then the key's.
    ///
    /// It fails for want of memory alone, and the rows then are as they were.
    pub fn add_order(&mut self, alloc: Global, columns: Seq<usize>) -> Result<(), AllocError>
        requires empty { map.len self.old.table ≡ 0 }
        requires wider { IsWider columns self.old.places }
        ensures ok { OnOk result (self.new ≡ record self.old { orders = self.old.orders ++ columns ∷ [] }) }
        ensures err { OnErr result (self.new ≡ self.old) }
    {
        let mut order = Order::new(alloc, columns);
        order.reserve(alloc, self.by_key.room.len())?;
        self.others.push(order)?;
        Ok(())
    }

    /// Makes room for so many more rows, so that they go in without memory.
    ///
    /// It fails for want of memory alone.
    pub fn reserve(&mut self, alloc: Global, more: usize) -> Result<(), AllocError>
        ensures table { self.new.table ≡ self.old.table }
        ensures places { self.new.places ≡ self.old.places }
        ensures orders { self.new.orders ≡ self.old.orders }
        ensures slots { self.new.slots ≡ self.old.slots }
        ensures ok { OnOk result (more ≤ self.new.spare) }
        ensures spare { self.old.spare ≤ self.new.spare }
    {
        if self.by_key.room.len() >= more {
            return Ok(());
        }
        if more >= LIMIT - self.by_key.entries.len() {
            return Err(AllocError);
        }
        self.rows.reserve(more)?;
        reserve_all(&mut self.others, alloc, more)?;
        self.by_key.reserve(alloc, more)
    }

    /// Puts in a row where its key has none, and tells its slot. It takes no memory.
    pub fn insert_reserved(&mut self, row: Row) -> Option<usize>
        requires { 0 < self.old.spare }
        ensures table { self.new.table ≡ put_in self.old.table (key_of self.old.places row) row }
        ensures places { self.new.places ≡ self.old.places }
        ensures orders { self.new.orders ≡ self.old.orders }
        ensures slot { PutsInSlot self.old self.new (key_of self.old.places row) result }
        ensures spare { self.old.spare ≤ self.new.spare + 1 }
    {
        match self.by_key.search_row(&self.rows, row.values()) {
            Ok(_) => None,
            Err(place) => {
                let lead = lead_of_row(self.by_key.places.as_slice(), row.values());
                let slot = self.rows.insert_reserved(row);
                self.by_key.enter(place, lead, slot);
                enter_all(&mut self.others, &self.rows, slot);
                Some(slot)
            }
        }
    }

    /// Puts in a row where its key has none.
    ///
    /// It fails for want of memory alone, and the rows then are as they were.
    pub fn insert(&mut self, alloc: Global, row: Row) -> Result<(), AllocError>
        ensures ok { OnOk result (self.new.table ≡ put_in self.old.table (key_of self.old.places row) row) }
        ensures err { OnErr result (self.new.table ≡ self.old.table) }
        ensures places { self.new.places ≡ self.old.places }
        ensures orders { self.new.orders ≡ self.old.orders }
    {
        self.reserve(alloc, 1)?;
        let _ = self.insert_reserved(row);
        Ok(())
    }

    /// Puts a row over the one that its key has, in the same slot. It takes no memory.
    pub fn replace_reserved(&mut self, row: Row)
        requires { 0 < self.old.spare }
        ensures table { self.new.table ≡ put_over self.old.table (key_of self.old.places row) row }
        ensures places { self.new.places ≡ self.old.places }
        ensures orders { self.new.orders ≡ self.old.orders }
        ensures slots { self.new.slots ≡ self.old.slots }
        ensures spare { self.old.spare ≤ self.new.spare + 1 }
    {
        match self.by_key.search_row(&self.rows, row.values()) {
            Err(_) => {}
            Ok(place) => {
                let _ = self.remove_at(place);
                let _ = self.insert_reserved(row);
            }
        }
    }

    /// Takes out the row of a key. It takes no memory.
    pub fn remove(&mut self, key: &[Value]) -> Option<Row>
        ensures old { result ≡ map.get self.old.table key.now }
        ensures table { self.new.table ≡ map.remove self.old.table key.now }
        ensures places { self.new.places ≡ self.old.places }
        ensures orders { self.new.orders ≡ self.old.orders }
        ensures slots { LeavesSlot self.old self.new key.now }
        ensures spare { self.new.spare ≡ self.old.spare }
    {
        match self.by_key.search(&self.rows, key) {
            Err(_) => None,
            Ok(place) => self.remove_at(place),
        }
    }

    /// Takes out the row that has another row's key. It takes no memory.
    pub fn remove_for(&mut self, row: &Row)
        ensures table { self.new.table ≡ map.remove self.old.table (key_of self.old.places row.now) }
        ensures places { self.new.places ≡ self.old.places }
        ensures orders { self.new.orders ≡ self.old.orders }
        ensures spare { self.new.spare ≡ self.old.spare }
    {
        match self.by_key.search_row(&self.rows, row.values()) {
            Err(_) => {}
            Ok(place) => {
                let _ = self.remove_at(place);
            }
        }
    }

    /// Takes out the row at a place in key order, which is below the length. It takes no memory.
    pub fn remove_at(&mut self, place: usize) -> Option<Row>
        requires { place < map.len self.old.table }
        ensures taken { (key : List OneValue) → IsKeyAt (map.entries self.old.table) key place → TakesRow self.old.table
            self.new.table key result }
        ensures places { self.new.places ≡ self.old.places }
        ensures orders { self.new.orders ≡ self.old.orders }
        ensures slots { (key : List OneValue) → IsKeyAt (map.entries self.old.table) key place →
            LeavesSlot self.old self.new key }
        ensures spare { self.new.spare ≡ self.old.spare }
    {
        let slot = self.by_key.slot_at(place);
        leave_all(&mut self.others, &self.rows, slot);
        let _ = self.by_key.leave(place);
        self.rows.try_remove(slot)
    }

    /// Takes out all rows. It takes no memory, and the room stays.
    pub fn clear(&mut self, alloc: Global)
        ensures table { self.new.table ≡ map.empty }
        ensures places { self.new.places ≡ self.old.places }
        ensures orders { self.new.orders ≡ self.old.orders }
        ensures slots { self.new.slots ≡ map.empty }
        ensures spare { self.new.spare ≡ self.old.spare }
    {
        self.rows.clear();
        self.by_key.clear(alloc);
        clear_all(&mut self.others, alloc);
    }
}
