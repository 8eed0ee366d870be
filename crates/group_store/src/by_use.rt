//! Instances in the order of last use, known by the place of their root row in key order. No key is copied.

ghost use Rattle.std.specs.Prelude.{◌≡◌, ◌≤◌, ◌<◌, ◌+◌, List, None, slice_get};
ghost use Rattle.std.specs.FinMap as map;
ghost use Rattle.cache_store.specs.recency.specs.Rings.{next_key};
ghost use Rattle.slot_rows.specs.indexed_rows.specs.Places.{IsKeyAt};
ghost use Rattle.slot_rows.specs.indexed_rows.specs.Rows.{is_same};
ghost use Rattle.slot_rows.specs.row_types.specs.declared.value.Value.{Value as OneValue};
ghost use Rattle.cache_store.specs.instances.specs.Views.{kept_at};
ghost use Rattle.group_store.specs.Recent.{StandsAt};
ghost use Rattle.group_store.specs.ByUse.{HidesInstance, TakesInstance};

use crate::store::Store;
use slot_rows::SlotRows;
use slot_rows::row_types::Row;

impl Store {
    /// The place in key order of the root row that was not used for longest. It takes no memory.
    pub fn oldest_at(&self) -> Option<usize>
        ensures { StandsAt (kept_at self.now.tables 0) (slice_get self.now.keys 0) result }
    {
        self.rows.roots.oldest_at()
    }

    /// The place in key order of the root row whose key is behind another's in the order of last use, where the other's
    /// row is at a place in key order. It takes no memory.
    pub fn newer_at(&self, at: usize) -> Option<usize>
        ensures next { (key : List OneValue) → IsKeyAt (map.entries (kept_at self.now.tables 0)) key at →
            StandsAt (kept_at self.now.tables 0) (next_key is_same key self.now.keys) result }
        ensures none { map.len (kept_at self.now.tables 0) ≤ at → result ≡ None }
    {
        if at >= self.rows.roots.len() {
            return None;
        }
        self.rows.roots.newer_at(at)
    }

    /// Takes out the instance whose root row is at a place in key order, as `take_instance` does for its key, and gives
    /// its root row. Where no row is there nothing changes. It takes no memory.
    pub fn take_at(&mut self, at: usize) -> Option<Row>
        ensures taken { (root : List OneValue) → IsKeyAt (map.entries (kept_at self.old.tables 0)) root at →
            TakesInstance self.old self.new root result }
        ensures none { map.len (kept_at self.old.tables 0) ≤ at → result ≡ None }
        ensures same { map.len (kept_at self.old.tables 0) ≤ at → self.new ≡ self.old }
        ensures spare { self.old.spare ≤ self.new.spare }
    {
        if at >= self.rows.roots.len() {
            return None;
        }
        self.rows.cut_at(at)
    }

    /// Hides the instance whose root row is at a place in key order, as `hide` does for its key. Where no row is there
    /// nothing changes. It takes no memory.
    pub fn hide_at(&mut self, at: usize, hidden: &mut SlotRows)
        requires key { hidden.old.places ≡ self.old.key }
        requires room { 0 < hidden.old.spare }
        ensures hides { (root : List OneValue) → IsKeyAt (map.entries (kept_at self.old.tables 0)) root at →
            HidesInstance self.old self.new root hidden.old.table hidden.new.table }
        ensures same { map.len (kept_at self.old.tables 0) ≤ at → self.new ≡ self.old }
        ensures same_hidden { map.len (kept_at self.old.tables 0) ≤ at → hidden.new ≡ hidden.old }
        ensures spare { self.old.spare ≤ self.new.spare }
        ensures hidden_key { hidden.new.places ≡ hidden.old.places }
        ensures hidden_room { hidden.old.spare ≤ hidden.new.spare + 1 }
    {
        let _held = self.len(0);
        match self.take_at(at) {
            None => {}
            Some(row) => {
                let _ = hidden.insert_reserved(row);
            }
        }
    }
}
