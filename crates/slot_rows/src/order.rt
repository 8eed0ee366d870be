//! An order of rows in slots.

ghost use Rattle.std.specs.Prelude.{◌≡◌, ◌≤◌, ◌<◌, ◌+◌, ◌^◌, ◌++◌, [], length, IfOk, IfErr, OnOk, Some, slice_get, take, insert, remove};
ghost use Rattle.std.specs.List.Sorted.{IsSearchInRange};
ghost use Rattle.std.specs.FinMap as map;
ghost use Rattle.indexed_rows.specs.Places.{IsGapFor, IsKeyAt};
ghost use Rattle.indexed_rows.specs.Rows.{key_of};
ghost use Rattle.slot_rows.specs.Orders.{Awaits, EmptiesOrder, EntersOrder, Includes, IsSlotWith, IsStart, SameOrder, LeavesOrder};
ghost use Rattle.slot_rows.specs.Slots.{AreOrdered, slot_at_front, slots_of, table_in};

use crate::compare::{ByBoth, ByKey, ByOther, ByParts, ByRow, is_key_of, is_key_of_row, values_in};
use crate::lead::{lead_of_key, lead_of_row};
use indexed_rows::long_list::{LongList, Spare};
use indexed_rows::row_types::{Row, Value};
use indexed_rows::tier_base::Seq;
use slab::Slab;
use std::alloc::{AllocError, Global};

// A slot, and the lead of its row's key.
#[derive(Clone, Copy)]
pub(crate) struct Entry {
    pub(crate) lead: u64,
    pub(crate) slot: usize,
}

// Slots in the order of their rows' values at some columns, and room for more.
pub(crate) struct Order {
    pub(crate) places: Seq<usize>,
    pub(crate) entries: LongList<Entry>,
    pub(crate) room: Vec<Spare<Entry>>,
}

impl Drop for Order {
    fn drop(self) {
        let Self {
            places: _,
            entries: _,
            room: _,
        } = self;
    }
}

impl Order {
    // It takes no memory.
    pub(crate) fn new(alloc: Global, places: Seq<usize>) -> Order
        ensures places { result.places ≡ places }
        ensures entries { result.entries ≡ [] }
        ensures room { result.room.items ≡ [] }
    {
        Order {
            places,
            entries: LongList::new(alloc),
            room: Vec::new(alloc),
        }
    }

    pub(crate) fn search(&self, rows: &Slab<Row>, key: &[Value]) -> Result<usize, usize>
        requires { AreOrdered rows.now self.now.places self.now.entries }
        ensures bound { IsSearchInRange result (length self.now.entries) }
        ensures found { IfOk result (IsKeyAt (map.entries
            (table_in rows.now self.now.places self.now.entries)) key.now) }
        ensures absent { IfErr result (IsGapFor (map.entries
            (table_in rows.now self.now.places self.now.entries)) key.now) }
    {
        self.entries.search(&ByKey {
            rows,
            places: self.places.as_slice(),
            key,
            lead: lead_of_key(key),
        })
    }

    pub(crate) fn search_row(&self, rows: &Slab<Row>, row: &[Value]) -> Result<usize, usize>
        requires { AreOrdered rows.now self.now.places self.now.entries }
        ensures bound { IsSearchInRange result (length self.now.entries) }
        ensures found { IfOk result (IsKeyAt (map.entries (table_in rows.now self.now.places self.now.entries))
            (key_of self.now.places row.now)) }
        ensures absent { IfErr result (IsGapFor (map.entries (table_in rows.now self.now.places self.now.entries))
            (key_of self.now.places row.now)) }
    {
        let places = self.places.as_slice();
        self.entries.search(&ByRow {
            rows,
            places,
            row,
            lead: lead_of_row(places, row),
        })
    }

    // A slot whose row has these values at the first columns.
    pub(crate) fn search_front(&self, rows: &Slab<Row>, values: &[Value]) -> Option<usize>
        requires ordered { AreOrdered rows.now self.now.places self.now.entries }
        requires some { 0 < length values.now }
        requires columns { length values.now ≤ length self.now.places }
        ensures { IsSlotWith rows.now (slots_of self.now.entries)
            (take (length values.now) self.now.places) values.now result }
    {
        let (places, _) = self.places.as_slice().split_at(values.len());
        match self.entries.search(&ByKey {
            rows,
            places,
            key: values,
            lead: lead_of_key(values),
        }) {
            Ok(place) => Some(self.slot_at(place)),
            Err(_) => None,
        }
    }

    // A slot whose row has at the first columns the values that a row of another table has at these columns.
    pub(crate) fn search_for(
        &self,
        rows: &Slab<Row>,
        columns: &[usize],
        row: &[Value],
    ) -> Option<usize>
        requires ordered { AreOrdered rows.now self.now.places self.now.entries }
        requires some { 0 < length columns.now }
        requires columns { length columns.now ≤ length self.now.places }
        ensures { IsSlotWith rows.now (slots_of self.now.entries) (take (length columns.now) self.now.places)
            (key_of columns.now row.now) result }
    {
        let (places, _) = self.places.as_slice().split_at(columns.len());
        match self.entries.search(&ByOther {
            rows,
            places,
            columns,
            row,
            lead: lead_of_row(columns, row),
        }) {
            Ok(at) => Some(self.slot_at(at)),
            Err(_) => None,
        }
    }

    // The place of the first entry that isn't below some values with a row's values at some columns behind them.
    pub(crate) fn first_at_least(
        &self,
        rows: &Slab<Row>,
        values: &[Value],
        columns: &[usize],
        row: &[Value],
    ) -> usize
        requires ordered { AreOrdered rows.now self.now.places self.now.entries }
        requires some { 0 < length values.now }
        ensures { IsStart (table_in rows.now self.now.places self.now.entries)
            (values.now ++ key_of columns.now row.now) result }
    {
        match self.entries.search(&ByParts {
            rows,
            places: self.places.as_slice(),
            values,
            columns,
            row,
            lead: lead_of_key(values),
        }) {
            Ok(place) => place,
            Err(place) => place,
        }
    }

    // The place of the first entry that isn't below a row's values at some columns with another row's values at others
    // behind them.
    pub(crate) fn first_for(
        &self,
        rows: &Slab<Row>,
        columns: &[usize],
        parent: &[Value],
        rest: &[usize],
        row: &[Value],
    ) -> usize
        requires ordered { AreOrdered rows.now self.now.places self.now.entries }
        requires some { 0 < length columns.now }
        ensures { IsStart (table_in rows.now self.now.places self.now.entries)
            (key_of columns.now parent.now ++ key_of rest.now row.now) result }
    {
        match self.entries.search(&ByBoth {
            rows,
            places: self.places.as_slice(),
            columns,
            parent,
            rest,
            row,
            lead: lead_of_row(columns, parent),
        }) {
            Ok(place) => place,
            Err(place) => place,
        }
    }

    // The slot at a place, where there is one and its row has at the first columns the values that a row of another
    // table has at these columns.
    pub(crate) fn slot_at_front_for(
        &self,
        rows: &Slab<Row>,
        place: usize,
        columns: &[usize],
        parent: &[Value],
    ) -> Option<usize>
        requires { length columns.now ≤ length self.now.places }
        ensures { result ≡ slot_at_front rows.now (take (length columns.now) self.now.places)
            (key_of columns.now parent.now) (slice_get (slots_of self.now.entries) place) }
    {
        if place >= self.entries.len() {
            return None;
        }
        let (places, _) = self.places.as_slice().split_at(columns.len());
        let slot = self.slot_at(place);
        if is_key_of_row(places, values_in(rows, slot), columns, parent) {
            Some(slot)
        } else {
            None
        }
    }

    // The slot at a place, where there is one and its row has these values at the first columns.
    pub(crate) fn slot_at_front(
        &self,
        rows: &Slab<Row>,
        place: usize,
        values: &[Value],
    ) -> Option<usize>
        requires { length values.now ≤ length self.now.places }
        ensures { result ≡ slot_at_front rows.now (take (length values.now) self.now.places) values.now
            (slice_get (slots_of self.now.entries) place) }
    {
        if place >= self.entries.len() {
            return None;
        }
        let (places, _) = self.places.as_slice().split_at(values.len());
        let slot = self.slot_at(place);
        if is_key_of(places, values_in(rows, slot), values) {
            Some(slot)
        } else {
            None
        }
    }

    // The slot at a place, which is below the length.
    pub(crate) fn slot_at(&self, place: usize) -> usize
        requires { place < length self.now.entries }
        ensures { slice_get (slots_of self.now.entries) place ≡ Some result }
    {
        self.entries.at(place).slot
    }

    // Makes room until there is room for so many more slots.
    //
    // It fails for want of memory alone.
    pub(crate) fn reserve(&mut self, alloc: Global, more: usize) -> Result<(), AllocError>
        ensures kept { SameOrder self.old self.new }
        ensures most { length self.old.room.items ≤ more → length self.new.room.items ≤ more }
        ensures ok { OnOk result (more ≤ length self.new.room.items) }
    {
        for at in self.room.len()..more {
            let _held = at;
            let spare = Spare::new(alloc, Entry { lead: 0, slot: 0 })?;
            self.room.push(spare)?;
        }
        Ok(())
    }

    // Enters a slot at a place up to the length. It takes no memory.
    pub(crate) fn enter(&mut self, place: usize, lead: u64, slot: usize)
        requires within { place ≤ length self.old.entries }
        requires fits { length self.old.entries + 1 < 2 ^ 63 }
        requires room { 0 < length self.old.room.items }
        ensures places { self.new.places ≡ self.old.places }
        ensures entries { self.new.entries ≡ insert self.old.entries place (record { lead = lead; slot = slot }) }
        ensures room { length self.old.room.items ≡ length self.new.room.items + 1 }
    {
        let mut spare = self.room.pop().unwrap();
        let _ = spare.replace(Entry { lead, slot });
        self.entries.put_back(place, spare);
    }

    // Takes out the slot at a place below the length. It takes no memory.
    pub(crate) fn leave(&mut self, place: usize) -> usize
        requires { place < length self.old.entries }
        ensures slot { slice_get (slots_of self.old.entries) place ≡ Some result }
        ensures places { self.new.places ≡ self.old.places }
        ensures entries { self.new.entries ≡ remove self.old.entries place }
        ensures room { self.new.room ≡ self.old.room }
    {
        self.entries.remove(place).slot
    }

    // Takes out all slots. It takes no memory.
    pub(crate) fn clear(&mut self, alloc: Global)
        ensures { EmptiesOrder self.old self.new }
    {
        self.entries = LongList::new(alloc);
    }

    // Enters a slot with a row where it goes. It takes no memory.
    pub(crate) fn enter_row(&mut self, rows: &Slab<Row>, slot: usize)
        requires { Awaits rows.now slot self.old }
        ensures { EntersOrder rows.now slot self.old self.new }
    {
        let row = values_in(rows, slot);
        match self.search_row(rows, row) {
            Ok(_) => {}
            Err(place) => {
                let lead = lead_of_row(self.places.as_slice(), row);
                self.enter(place, lead, slot);
            }
        }
    }

    // Takes out a slot with a row. It takes no memory.
    pub(crate) fn leave_row(&mut self, rows: &Slab<Row>, slot: usize)
        requires { Includes rows.now slot self.old }
        ensures { LeavesOrder slot self.old self.new }
    {
        match self.search_row(rows, values_in(rows, slot)) {
            Ok(place) => {
                let _ = self.leave(place);
            }
            Err(_) => {}
        }
    }
}
