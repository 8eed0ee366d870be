//! The rows of a group's tree of tables.

ghost use Rattle.std.specs.Prelude.{◌≡◌, ◌≤◌, ◌<◌, ◌+◌, ◌^◌, ◌++◌, ◌∷◌, [], List, Some, slice_get, MatchOption, OnOk, length, option_copied, if◌then◌else◌, nat_eq};
ghost use Rattle.std.specs.FinMap as map;
ghost use Rattle.slot_rows.specs.indexed_rows.specs.Rows.{is_same, key_of, put_in, put_over};
ghost use Rattle.slot_rows.specs.indexed_rows.specs.Places.{IsKeyAt};
ghost use Rattle.slot_rows.specs.row_types.specs.declared.value.Value.{Value as OneValue};
ghost use Rattle.cache_store.specs.instances.specs.Views.{kept_at};
ghost use Rattle.cache_store.specs.recency.specs.Rings.{keys_without};
ghost use Rattle.cache_store.specs.Operating.{change_at};
ghost use Rattle.slot_rows.specs.Orders.{place_from};
ghost use Rattle.slot_rows.specs.SlotKeys.{IsKeyedBy};
ghost use Rattle.group_store.specs.Recent.{IsRowPlace, entered_last};
ghost use Rattle.group_store.specs.Trees.{all_empty, CanGo, IsChild, IsChildless, IsLeaf, cut_from};
ghost use Rattle.group_store.specs.Joined.{AreJoined, CutsRoot, IsBared, IsRowOf, KeepsTree, LeavesChildren, TakesChild, foreign_there, layers_of, least_spare, places_at, tables_of};

use crate::columns::place_of_child;
use crate::recent::RecentRows;
use slot_rows::SlotRows;
use slot_rows::row_types::{Row, Value};
use slot_rows::tier_base::{Seq, TableId};
use std::alloc::{AllocError, Global};

// The rows of a child table, with an order of them by parent.
pub(crate) struct ChildRows {
    pub(crate) table: TableId,
    pub(crate) parent: usize,
    pub(crate) foreign: Seq<usize>,
    pub(crate) rows: SlotRows,
}

impl Drop for ChildRows {
    fn drop(self) {
        let Self {
            table: _,
            parent: _,
            foreign: _,
            rows: _,
        } = self;
    }
}

// The rows of all tables. The root has place 0, and the children the places from 1 on.
pub(crate) struct TreeRows {
    pub(crate) roots: RecentRows,
    pub(crate) children: Vec<ChildRows>,
}

impl Drop for TreeRows {
    fn drop(self) {
        let Self {
            roots: _,
            children: _,
        } = self;
    }
}

// A row, and the place of its table.
pub(crate) struct Found<'a> {
    pub(crate) place: usize,
    pub(crate) row: &'a Row,
}

impl Drop for Found<'_> {
    fn drop(self) {
        let Self { place: _, row: _ } = self;
    }
}

// A row of this table that refers to the key of another row, where its parent stands at the place.
fn row_of<'a>(child: &'a ChildRows, place: usize, columns: &[usize], row: &Row) -> Option<&'a Row>
    requires orders { child.now.rows.orders ≡ (child.now.foreign ++ child.now.rows.places) ∷ [] }
    requires some { 0 < length child.now.foreign }
    requires long { child.now.parent ≡ place → length child.now.foreign ≡ length columns.now }
    ensures { IsRowOf child.now place (key_of columns.now row.now) (option_copied result) }
{
    if child.parent == place {
        child.rows.find_for(0, columns, row)
    } else {
        None
    }
}

impl TreeRows {
    // The columns of the primary key of the table at a place.
    pub(crate) fn places(&self, place: usize) -> &[usize]
        requires { place ≤ length self.now.children.items }
        ensures { result.now ≡ places_at self.now place }
    {
        if place == 0 {
            return self.roots.places();
        }
        self.children[place - 1].rows.places()
    }

    // The row of a key in the table at a place. It stands under its key.
    pub(crate) fn get(&self, place: usize, key: &[Value]) -> Option<&Row>
        requires { place ≤ length self.now.children.items }
        ensures value { option_copied result ≡ map.get (kept_at (tables_of self.now) place) key.now }
        ensures keyed { IsKeyedBy (places_at self.now place) (kept_at (tables_of self.now) place) }
    {
        if place == 0 {
            let _held = self.roots.len();
            return self.roots.get(key);
        }
        let rows = &self.children[place - 1].rows;
        let _held = rows.len();
        rows.get(key)
    }

    // How many rows the table at a place has. Each stands under its key.
    pub(crate) fn len(&self, place: usize) -> usize
        requires { place ≤ length self.now.children.items }
        ensures value { result ≡ map.len (kept_at (tables_of self.now) place) }
        ensures fits { result < 2 ^ 63 }
        ensures keyed { IsKeyedBy (places_at self.now place) (kept_at (tables_of self.now) place) }
    {
        if place == 0 {
            return self.roots.len();
        }
        self.children[place - 1].rows.len()
    }

    // The row at a place in key order of the table at a place, where there is one.
    pub(crate) fn row(&self, place: usize, at: usize) -> Option<&Row>
        requires { place ≤ length self.now.children.items }
        ensures { option_copied result ≡ slice_get (map.values (kept_at (tables_of self.now) place)) at }
    {
        if at >= self.len(place) {
            return None;
        }
        if place == 0 {
            return self.roots.row_at(at);
        }
        self.children[place - 1].rows.row_at(at)
    }

    // The first place in key order, from a place on, of a row of the table at a place that refers to a key.
    pub(crate) fn child(&self, place: usize, key: &[Value], from: usize) -> Option<usize>
        requires joined { AreJoined self.now }
        requires within { place ≤ length self.now.children.items }
        ensures { result ≡ place_from (kept_at (tables_of self.now) place) (foreign_there self.now place) key.now from }
    {
        if place == 0 {
            return self.roots.child(key, from);
        }
        let child = &self.children[place - 1];
        place_of_child(&child.rows, child.foreign.as_slice(), key, from)
    }

    // The place in key order of the row that has another row's key in the table at a place.
    pub(crate) fn spot_of(&self, place: usize, row: &Row) -> Option<usize>
        requires { place ≤ length self.now.children.items }
        ensures { IsRowPlace (kept_at (tables_of self.now) place) (key_of (places_at self.now place) row.now) result }
    {
        if place == 0 {
            return self.roots.place_of(row);
        }
        self.children[place - 1].rows.place_of(row)
    }

    // The place in key order of the row of a key in the table at a place.
    fn spot_at(&self, place: usize, key: &[Value]) -> Option<usize>
        requires { place ≤ length self.now.children.items }
        ensures { IsRowPlace (kept_at (tables_of self.now) place) key.now result }
    {
        match self.get(place, key) {
            None => None,
            Some(row) => self.spot_of(place, row),
        }
    }

    // A row that refers to a row of the table at a place.
    fn child_of(&self, place: usize, row: &Row) -> Option<Found<'_>>
        requires joined { AreJoined self.now }
        requires within { place ≤ length self.now.children.items }
        ensures { MatchOption result (IsChildless (layers_of self.now) (tables_of self.now) place
            (key_of (places_at self.now place) row.now))
            (λ found. IsChild (layers_of self.now) (tables_of self.now) place
            (key_of (places_at self.now place) row.now) found.place found.row.now) }
    {
        let columns = self.places(place);
        for (at, child) in self.children.iter().enumerate() {
            match row_of(child, place, columns, row) {
                None => {}
                Some(row) => return Some(Found { place: at + 1, row }),
            }
        }
        None
    }

    // A row that no row refers to, and that leads to this one or is it. The depth is that of the tree.
    fn leaf<'a>(&'a self, place: usize, row: &'a Row) -> Found<'a>
        requires joined { AreJoined self.now }
        requires within { place ≤ length self.now.children.items }
        requires found { map.get (kept_at (tables_of self.now) place)
            (key_of (places_at self.now place) row.now) ≡ Some row.now }
        ensures { IsLeaf self.now.roots.places (layers_of self.now) (tables_of self.now) place
            (key_of (places_at self.now place) row.now) result.place result.row.now }
    {
        match self.child_of(place, row) {
            None => Found { place, row },
            Some(found) => self.leaf(found.place, found.row),
        }
    }

    // Of the rows that lead to the one at the top, which is at a place in key order, one that no row refers to: the
    // place of its table, and its place there.
    fn lowest(&self, top: usize, at: usize) -> Option<(usize, usize)>
        requires joined { AreJoined self.now }
        requires within { top ≤ length self.now.children.items }
        ensures { (key : List OneValue) → IsKeyAt (map.entries (kept_at (tables_of self.now) top)) key at →
            MatchOption result (IsChildless (layers_of self.now) (tables_of self.now) top key)
            (λ spot. CanGo (layers_of self.now) (tables_of self.now) top key spot.0 spot.1) }
    {
        let _held = self.len(top);
        match self.row(top, at) {
            None => None,
            Some(row) => match self.child_of(top, row) {
                None => None,
                Some(found) => {
                    let leaf = self.leaf(found.place, found.row);
                    match self.spot_of(leaf.place, leaf.row) {
                        None => None,
                        Some(spot) => Some((leaf.place, spot)),
                    }
                }
            },
        }
    }

    // Puts a row into the table at a place where its key has none there, as the newest of the root's. It takes no
    // memory.
    pub(crate) fn put(&mut self, place: usize, row: Row)
        requires within { place ≤ length self.old.children.items }
        requires room { 0 < least_spare self.old }
        ensures tables { tables_of self.new ≡
            change_at place (λ t. put_in t (key_of (places_at self.old place) row) row) (tables_of self.old) }
        ensures same { KeepsTree self.old self.new }
        ensures keys { self.new.roots.keys ≡ (if nat_eq place 0 then entered_last self.old.roots.table
            (key_of self.old.roots.places row) self.old.roots.keys else self.old.roots.keys) }
        ensures spare { least_spare self.old ≤ least_spare self.new + 1 }
    {
        if place == 0 {
            self.roots.insert_reserved(row);
        } else {
            let _ = self.children[place - 1].rows.insert_reserved(row);
        }
    }

    // Puts a row over the one that its key has in the table at a place. It takes no memory.
    pub(crate) fn replace(&mut self, place: usize, row: Row)
        requires within { place ≤ length self.old.children.items }
        requires room { 0 < least_spare self.old }
        ensures tables { tables_of self.new ≡
            change_at place (λ t. put_over t (key_of (places_at self.old place) row) row) (tables_of self.old) }
        ensures same { KeepsTree self.old self.new }
        ensures keys { self.new.roots.keys ≡ self.old.roots.keys }
        ensures spare { least_spare self.old ≤ least_spare self.new + 1 }
    {
        if place == 0 {
            self.roots.replace_reserved(row);
        } else {
            self.children[place - 1].rows.replace_reserved(row);
        }
    }

    // Takes out the row that has another row's key in the table at a place. It takes no memory.
    pub(crate) fn take(&mut self, place: usize, row: &Row)
        requires { place ≤ length self.old.children.items }
        ensures tables { tables_of self.new ≡
            change_at place (λ t. map.remove t (key_of (places_at self.old place) row.now)) (tables_of self.old) }
        ensures same { KeepsTree self.old self.new }
        ensures keys { self.new.roots.keys ≡
            (if nat_eq place 0 then keys_without is_same (key_of self.old.roots.places row.now) self.old.roots.keys
            else self.old.roots.keys) }
        ensures spare { least_spare self.old ≤ least_spare self.new }
    {
        if place == 0 {
            self.roots.remove_for(row);
        } else {
            self.children[place - 1].rows.remove_for(row);
        }
    }

    // Makes room for so many more rows in each table.
    //
    // It fails for want of memory alone.
    pub(crate) fn reserve(&mut self, alloc: Global, more: usize) -> Result<(), AllocError>
        ensures tables { tables_of self.new ≡ tables_of self.old }
        ensures same { KeepsTree self.old self.new }
        ensures keys { self.new.roots.keys ≡ self.old.roots.keys }
        ensures ok { OnOk result (more ≤ least_spare self.new) }
        ensures spare { least_spare self.old ≤ least_spare self.new }
    {
        self.roots.reserve(alloc, more)?;
        for place in 0..self.children.len() {
            self.children[place].rows.reserve(alloc, more)?;
        }
        Ok(())
    }

    // Takes out all rows. It takes no memory.
    pub(crate) fn clear(&mut self, alloc: Global)
        ensures tables { tables_of self.new ≡ all_empty (tables_of self.old) }
        ensures same { KeepsTree self.old self.new }
        ensures keys { self.new.roots.keys ≡ [] }
    {
        self.roots.clear(alloc);
        for place in 0..self.children.len() {
            self.children[place].rows.clear(alloc);
        }
    }

    // Takes out the row at a place in key order of a child table. It takes no memory.
    fn take_child(&mut self, place: usize, spot: usize)
        requires child { 0 < place }
        requires within { place ≤ length self.old.children.items }
        requires there { spot < map.len (kept_at (tables_of self.old) place) }
        ensures { TakesChild self.old self.new place spot }
    {
        let _ = self.children[place - 1].rows.remove_at(spot);
    }

    // Takes out the row of a key in the table at a place. It takes no memory.
    fn take_key(&mut self, place: usize, key: &[Value]) -> Option<Row>
        requires { place ≤ length self.old.children.items }
        ensures row { place ≡ 0 → result ≡ map.get self.old.roots.table key.now }
        ensures tables { tables_of self.new ≡ change_at place (λ t. map.remove t key.now) (tables_of self.old) }
        ensures same { KeepsTree self.old self.new }
        ensures keys { self.new.roots.keys ≡
            (if nat_eq place 0 then keys_without is_same key.now self.old.roots.keys else self.old.roots.keys) }
        ensures spare { least_spare self.old ≤ least_spare self.new }
    {
        if place == 0 {
            self.roots.remove(key)
        } else {
            self.children[place - 1].rows.remove(key)
        }
    }

    // Takes out all rows that lead to the one at a place in key order of the table at the top, and not that row. It
    // takes no memory.
    fn bare_at(&mut self, top: usize, at: usize)
        requires joined { AreJoined self.old }
        requires within { top ≤ length self.old.children.items }
        requires there { at < map.len (kept_at (tables_of self.old) top) }
        ensures same { LeavesChildren self.old self.new }
        ensures bared { (key : List OneValue) → IsKeyAt (map.entries (kept_at (tables_of self.old) top)) key at →
            IsBared self.old self.new top key }
    {
        while let Some((place, spot)) = self.lowest(top, at) {
            self.take_child(place, spot);
        }
    }

    // Takes out all rows that lead to the row of a key in the table at the top, and not that row. It takes no memory.
    pub(crate) fn bare(&mut self, top: usize, key: &[Value])
        requires joined { AreJoined self.old }
        requires within { top ≤ length self.old.children.items }
        ensures same { LeavesChildren self.old self.new }
        ensures bared { IsBared self.old self.new top key.now }
    {
        match self.spot_at(top, key) {
            None => {}
            Some(at) => self.bare_at(top, at),
        }
    }

    // Takes out the root row at a place in key order, and all rows that lead to it. It takes no memory.
    pub(crate) fn cut_at(&mut self, at: usize) -> Option<Row>
        requires joined { AreJoined self.old }
        requires there { at < map.len self.old.roots.table }
        ensures cut { (key : List OneValue) → IsKeyAt (map.entries self.old.roots.table) key at →
            CutsRoot self.old self.new key result }
        ensures same { KeepsTree self.old self.new }
        ensures spare { least_spare self.old ≤ least_spare self.new }
    {
        self.bare_at(0, at);
        self.roots.remove_at(at)
    }

    // Takes out the row of a key in the table at a place, and all rows that lead to it. It takes no memory.
    pub(crate) fn cut(&mut self, top: usize, key: &[Value]) -> Option<Row>
        requires joined { AreJoined self.old }
        requires within { top ≤ length self.old.children.items }
        ensures row { top ≡ 0 → result ≡ map.get self.old.roots.table key.now }
        ensures tables { tables_of self.new ≡ cut_from (layers_of self.old) (tables_of self.old) top key.now }
        ensures same { KeepsTree self.old self.new }
        ensures keys { self.new.roots.keys ≡ (if nat_eq top 0 then keys_without is_same key.now self.old.roots.keys else
            self.old.roots.keys) }
        ensures spare { least_spare self.old ≤ least_spare self.new }
    {
        self.bare(top, key);
        self.take_key(top, key)
    }
}
