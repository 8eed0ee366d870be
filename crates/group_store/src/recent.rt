//! The rows of a root table, and their keys in the order of last use.

ghost use Rattle.std.specs.Prelude.{◌≡◌, ◌≤◌, ◌<◌, ◌+◌, ◌^◌, ◌++◌, List, [], ◌∷◌, Some, true, IfOk, OnOk, length, option_copied, slice_get};
ghost use Rattle.std.specs.Option.{option_and_then};
ghost use Rattle.std.specs.FinMap as map;
ghost use Rattle.cache_store.specs.recency.specs.Rings.{keys_without, next_key, touched};
ghost use Rattle.slot_rows.specs.indexed_rows.specs.Rows.{is_same, key_of, put_in, put_over};
ghost use Rattle.slot_rows.specs.indexed_rows.specs.Places.{IsKeyAt};
ghost use Rattle.slot_rows.specs.row_types.specs.declared.value.Value.{Value as OneValue};
ghost use Rattle.slot_rows.specs.SlotKeys.{IsKeyedBy};
ghost use Rattle.slot_rows.specs.Orders.{place_from};
ghost use Rattle.group_store.specs.Recent.{HasItsKeys, HasNoRows, HasOrders, IsRowPlace, LosesRecent, TakesRecent, StandsAt, entered_last};

use crate::columns::{joined, place_of_child};
use cache_store::recency::Recency;
use slot_rows::SlotRows;
use slot_rows::row_types::{Row, Value};
use slot_rows::tier_base::Seq;
use std::alloc::{AllocError, Global};
use std::marker::Model;

/// The rows of a root table by primary key, and the keys in the order of last use. Clauses see the rows by key, the
/// columns of the key, those of the foreign key, the keys with the one first that was not used for longest, and how
/// many more rows go in without memory.
///
/// A row that comes is the newest. (TimesTen Cache User's Guide, "Implementing aging in a cache group": the least
/// recently used instances go first.)
pub struct RecentRows {
    rows: SlotRows,
    recent: Recency<usize>,
    foreign: Seq<usize>,
}

impl Drop for RecentRows {
    fn drop(self) {
        let Self {
            rows: _,
            recent: _,
            foreign: _,
        } = self;
    }
}

impl Model for RecentRows {
    ghost use Rattle.std.specs.Prelude.{◌≡◌, min};
    ghost use Rattle.group_store.specs.Recent.{AreOnce, AreRecent, RecentHeld, keys_of, orders_for, recent_held_code};

    ghost Value = { RecentHeld };

    ghost coded = { recent_held_code };

    ghost view = { λ r. record {
      table = r.rows.table;
      places = r.rows.places;
      foreign = r.foreign;
      keys = keys_of r.rows.slots r.recent.keys;
      spare = min r.rows.spare r.recent.spare;
    } };

    ghost invariant = { λ r. AreRecent r.rows.slots r.recent.keys ×
        (r.rows.orders ≡ orders_for r.foreign r.rows.places) × AreOnce r.recent.keys };
}

impl RecentRows {
    /// No rows, whose key is the values at some columns, and whose foreign key those at others; there are none where
    /// there is no foreign key.
    ///
    /// It fails for want of memory alone.
    pub fn new(
        alloc: Global,
        places: Seq<usize>,
        foreign: Seq<usize>,
    ) -> Result<RecentRows, AllocError>
        ensures { IfOk result (HasNoRows places foreign) }
    {
        let rows = rows_with(alloc, places, &foreign)?;
        Ok(RecentRows {
            rows,
            recent: Recency::new(alloc),
            foreign,
        })
    }

    /// The columns of the key.
    pub fn places(&self) -> &[usize]
        ensures { result.now ≡ self.now.places }
    {
        self.rows.places()
    }

    /// How many rows there are. Each stands under its key.
    pub fn len(&self) -> usize
        ensures value { result ≡ map.len self.now.table }
        ensures fits { result < 2 ^ 63 }
        ensures keyed { IsKeyedBy self.now.places self.now.table }
    {
        self.rows.len()
    }

    /// The keys in the order of last use are those that have rows, each once. It does nothing.
    pub fn keys_law(&self)
        ensures { HasItsKeys self.now }
    {
        self.rows.slots_law();
    }

    /// How many keys there are.
    pub fn count(&self) -> usize
        ensures { result ≡ length self.now.keys }
    {
        self.recent.len()
    }

    /// The row of a key.
    pub fn get(&self, key: &[Value]) -> Option<&Row>
        ensures { option_copied result ≡ map.get self.now.table key.now }
    {
        self.rows.get(key)
    }

    /// The row at a place in key order, which is below the length.
    pub fn row_at(&self, place: usize) -> Option<&Row>
        requires { place < map.len self.now.table }
        ensures { option_copied result ≡ slice_get (map.values self.now.table) place }
    {
        self.rows.row_at(place)
    }

    /// The first place in key order, from a place on, of a row whose foreign key names this key. It costs O(log n)
    /// comparisons.
    pub fn child(&self, key: &[Value], from: usize) -> Option<usize>
        ensures { result ≡ place_from self.now.table self.now.foreign key.now from }
    {
        place_of_child(&self.rows, self.foreign.as_slice(), key, from)
    }

    /// The place in key order of the row that has another row's key.
    pub fn place_of(&self, row: &Row) -> Option<usize>
        ensures { IsRowPlace self.now.table (key_of self.now.places row.now) result }
    {
        self.rows.place_of(row)
    }

    /// The row that was not used for longest.
    pub fn oldest(&self) -> Option<&Row>
        ensures { option_copied result ≡ option_and_then (map.get self.now.table) (slice_get self.now.keys 0) }
    {
        match self.recent.oldest() {
            None => None,
            Some(slot) => self.rows.row_in(*slot),
        }
    }

    /// The row whose key is behind another in the order of last use.
    pub fn newer(&self, key: &[Value]) -> Option<&Row>
        ensures { option_copied result ≡ option_and_then (map.get self.now.table)
            (next_key is_same key.now self.now.keys) }
    {
        match self.rows.slot_of(key) {
            None => None,
            Some(slot) => match self.recent.newer(&slot) {
                None => None,
                Some(slot) => self.rows.row_in(*slot),
            },
        }
    }

    /// The place in key order of the row that was not used for longest.
    pub fn oldest_at(&self) -> Option<usize>
        ensures { StandsAt self.now.table (slice_get self.now.keys 0) result }
    {
        match self.recent.oldest() {
            None => None,
            Some(slot) => place_in(&self.rows, *slot),
        }
    }

    /// The place in key order of the row whose key is behind another's in the order of last use. The other row is at a
    /// place in key order, which is below the length.
    pub fn newer_at(&self, place: usize) -> Option<usize>
        requires { place < map.len self.now.table }
        ensures { (key : List OneValue) → IsKeyAt (map.entries self.now.table) key place →
            StandsAt self.now.table (next_key is_same key self.now.keys) result }
    {
        let used = self.rows.slot_at(place);
        match self.recent.newer(&used) {
            None => None,
            Some(slot) => place_in(&self.rows, *slot),
        }
    }

    /// Makes room for so many more rows, so that they go in without memory.
    ///
    /// It fails for want of memory alone.
    pub fn reserve(&mut self, alloc: Global, more: usize) -> Result<(), AllocError>
        ensures table { self.new.table ≡ self.old.table }
        ensures places { self.new.places ≡ self.old.places }
        ensures foreign { self.new.foreign ≡ self.old.foreign }
        ensures keys { self.new.keys ≡ self.old.keys }
        ensures ok { OnOk result (more ≤ self.new.spare) }
        ensures spare { self.old.spare ≤ self.new.spare }
    {
        self.rows.reserve(alloc, more)?;
        self.recent.reserve(more)
    }

    /// Puts in a row where its key has none, as the newest. It takes no memory.
    pub fn insert_reserved(&mut self, row: Row)
        requires { 0 < self.old.spare }
        ensures table { self.new.table ≡ put_in self.old.table (key_of self.old.places row) row }
        ensures places { self.new.places ≡ self.old.places }
        ensures foreign { self.new.foreign ≡ self.old.foreign }
        ensures keys { self.new.keys ≡ entered_last self.old.table (key_of self.old.places row) self.old.keys }
        ensures spare { self.old.spare ≤ self.new.spare + 1 }
    {
        match self.rows.insert_reserved(row) {
            None => {}
            Some(slot) => {
                let _ = self.recent.push(slot);
            }
        }
    }

    /// Puts a row over the one that its key has, which doesn't count as a use. It takes no memory.
    pub fn replace_reserved(&mut self, row: Row)
        requires { 0 < self.old.spare }
        ensures table { self.new.table ≡ put_over self.old.table (key_of self.old.places row) row }
        ensures places { self.new.places ≡ self.old.places }
        ensures foreign { self.new.foreign ≡ self.old.foreign }
        ensures keys { self.new.keys ≡ self.old.keys }
        ensures spare { self.old.spare ≤ self.new.spare + 1 }
    {
        self.rows.replace_reserved(row);
    }

    /// Takes out the row at a place in key order, which is below the length, and its key. It takes no memory.
    pub fn remove_at(&mut self, place: usize) -> Option<Row>
        requires { place < map.len self.old.table }
        ensures taken { (key : List OneValue) → IsKeyAt (map.entries self.old.table) key place →
            TakesRecent self.old self.new key result }
        ensures places { self.new.places ≡ self.old.places }
        ensures foreign { self.new.foreign ≡ self.old.foreign }
        ensures spare { self.old.spare ≤ self.new.spare }
    {
        let slot = self.rows.slot_at(place);
        self.recent.remove(&slot);
        self.rows.remove_at(place)
    }

    /// Takes out the row of a key, and the key. It takes no memory.
    pub fn remove(&mut self, key: &[Value]) -> Option<Row>
        ensures taken { TakesRecent self.old self.new key.now result }
        ensures places { self.new.places ≡ self.old.places }
        ensures foreign { self.new.foreign ≡ self.old.foreign }
        ensures spare { self.old.spare ≤ self.new.spare }
    {
        match self.rows.slot_of(key) {
            None => None,
            Some(slot) => {
                self.recent.remove(&slot);
                self.rows.remove(key)
            }
        }
    }

    /// Takes out the row that has another row's key, and the key. It takes no memory.
    pub fn remove_for(&mut self, row: &Row)
        ensures taken { LosesRecent self.old self.new (key_of self.old.places row.now) }
        ensures places { self.new.places ≡ self.old.places }
        ensures foreign { self.new.foreign ≡ self.old.foreign }
        ensures spare { self.old.spare ≤ self.new.spare }
    {
        match self.rows.place_of(row) {
            None => {}
            Some(place) => {
                let _ = self.remove_at(place);
            }
        }
    }

    /// Takes out all rows and their keys. It takes no memory. What room there was for more is to be made anew.
    pub fn clear(&mut self, alloc: Global)
        ensures table { self.new.table ≡ map.empty }
        ensures places { self.new.places ≡ self.old.places }
        ensures foreign { self.new.foreign ≡ self.old.foreign }
        ensures keys { self.new.keys ≡ [] }
    {
        self.rows.clear(alloc);
        self.recent = Recency::new(alloc);
    }

    /// A key becomes the newest, where it has a row. It takes no memory.
    pub fn touch(&mut self, key: &[Value])
        ensures table { self.new.table ≡ self.old.table }
        ensures places { self.new.places ≡ self.old.places }
        ensures foreign { self.new.foreign ≡ self.old.foreign }
        ensures keys { self.new.keys ≡ touched is_same key.now self.old.keys }
        ensures newest { map.contains_key self.old.table key.now ≡ true →
            self.new.keys ≡ keys_without is_same key.now self.old.keys ++ key.now ∷ [] }
        ensures spare { self.old.spare ≤ self.new.spare }
    {
        match self.rows.slot_of(key) {
            None => {}
            Some(slot) => self.recent.touch(&slot),
        }
    }
}

// The place in key order of the row in a slot.
fn place_in(rows: &SlotRows, slot: usize) -> Option<usize>
    ensures { (key : List OneValue) → map.get rows.now.slots slot ≡ Some key →
        StandsAt rows.now.table (Some key) result }
{
    rows.slots_law();
    let _held = rows.len();
    match rows.row_in(slot) {
        None => None,
        Some(row) => rows.place_of(row),
    }
}

// No rows, with an order by the foreign key where there is one.
fn rows_with(
    alloc: Global,
    places: Seq<usize>,
    foreign: &Seq<usize>,
) -> Result<SlotRows, AllocError>
    ensures { IfOk result (HasOrders places foreign.now) }
{
    let columns = joined(alloc, foreign.as_slice(), places.as_slice())?;
    let mut rows = SlotRows::new(alloc, places);
    if foreign.len() > 0 {
        rows.add_order(alloc, columns)?;
    }
    Ok(rows)
}
