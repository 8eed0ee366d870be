//! Whether an instance has a row whose key is held.

ghost use Rattle.std.specs.Prelude.{◌≡◌, ◌≤◌, ◌<◌, ◌++◌, List, [], ◌∷◌, Bool, Some, false, length};
ghost use Rattle.std.specs.FinMap as map;
ghost use Rattle.slot_rows.specs.indexed_rows.specs.Places.{IsKeyAt};
ghost use Rattle.slot_rows.specs.indexed_rows.specs.Rows.{key_of};
ghost use Rattle.slot_rows.specs.row_types.specs.declared.value.Value.{Value as OneValue};
ghost use Rattle.slot_rows.specs.tier_base.specs.declared.number.TableId.{TableId as OneTable};
ghost use Rattle.cache_store.specs.instances.specs.Views.{kept_at};
ghost use Rattle.slot_rows.specs.Orders.{place_from};
ghost use Rattle.group_store.specs.Held.{held_at, id_at, is_instance_held};
ghost use Rattle.group_store.specs.Joined.{AreJoined, layers_of, places_at, tables_of};
ghost use Rattle.group_store.specs.Passing.{TellsBy, TellsPassing};

use crate::store::Store;
use crate::tree_rows::{ChildRows, TreeRows};
use slot_rows::row_types::Row;
use slot_rows::tier_base::TableId;

/// Tells which keys are held, as by open transactions. It takes no memory.
pub trait Holds {
    ghost held: { Self → OneTable → List OneValue → Bool };

    /// Whether the key that a row of a table has at these columns is held.
    fn holds(&self, table: TableId, key: &[usize], row: &Row) -> bool
        ensures { result ≡ held self.now table (key_of key.now row.now) };
}

// The first place in key order, from a place on, of a row of this table that refers to the key of another row.
fn next_of(child: &ChildRows, columns: &[usize], row: &Row, from: usize) -> Option<usize>
    requires orders { child.now.rows.orders ≡ (child.now.foreign ++ child.now.rows.places) ∷ [] }
    requires some { 0 < length child.now.foreign }
    requires long { length child.now.foreign ≡ length columns.now }
    ensures { result ≡ place_from child.now.rows.table child.now.foreign (key_of columns.now row.now) from }
{
    child.rows.next_for(0, columns, row, from)
}

impl TreeRows {
    // The id of the table at a place, where the root's is this.
    fn id(&self, root: TableId, place: usize) -> TableId
        requires { place ≤ length self.now.children.items }
        ensures { result ≡ id_at root (layers_of self.now) place }
    {
        if place == 0 {
            return root;
        }
        self.children[place - 1].table
    }

    // Whether the row at a place in key order of the table at a place is held, or one that leads to it. The depth is
    // that of the tree.
    #[cycle(held)]
    fn is_held<H: Holds>(&self, root: TableId, place: usize, spot: usize, holds: &H) -> bool
        requires joined { AreJoined self.now }
        requires within { place ≤ length self.now.children.items }
        ensures { (key : List OneValue) → IsKeyAt (map.entries (kept_at (tables_of self.now) place)) key spot →
            TellsPassing (held_at (H.held holds.now) root (layers_of self.now)) self.now place key result }
    {
        let _held = self.len(place);
        match self.row(place, spot) {
            None => false,
            Some(row) => {
                if holds.holds(self.id(root, place), self.places(place), row) {
                    return true;
                }
                for at in place..self.children.len() {
                    if self.is_held_by(root, place, row, at, holds) {
                        return true;
                    }
                }
                false
            }
        }
    }

    // Whether a row of a child table that refers to this row is held, or one that leads to such a row.
    #[cycle(held)]
    fn is_held_by<H: Holds>(
        &self,
        root: TableId,
        place: usize,
        row: &Row,
        at: usize,
        holds: &H,
    ) -> bool
        requires joined { AreJoined self.now }
        requires within { at < length self.now.children.items }
        requires here { place ≤ at }
        requires found { map.get (kept_at (tables_of self.now) place)
            (key_of (places_at self.now place) row.now) ≡ Some row.now }
        ensures { TellsBy (held_at (H.held holds.now) root (layers_of self.now)) self.now place
            (key_of (places_at self.now place) row.now) at result }
    {
        let child = &self.children[at];
        if child.parent != place {
            return false;
        }
        let columns = self.places(place);
        let _held = child.rows.len();
        let mut from: usize = 0;
        while let Some(spot) = next_of(child, columns, row, from) {
            if self.is_held(root, at + 1, spot, holds) {
                return true;
            }
            from = spot + 1;
        }
        false
    }
}

impl Store {
    /// Whether a row of the instance is held whose root row is at a place in key order. It looks at rows of that
    /// instance alone, at O(log n) comparisons each, and takes no memory.
    pub fn is_held<H: Holds>(&self, at: usize, holds: &H) -> bool
        ensures held { (root : List OneValue) → IsKeyAt (map.entries (kept_at self.now.tables 0)) root at →
            result ≡ is_instance_held (H.held holds.now) self.now root }
        ensures none { map.len (kept_at self.now.tables 0) ≤ at → result ≡ false }
    {
        if at >= self.rows.roots.len() {
            return false;
        }
        self.rows.is_held(self.table, 0, at, holds)
    }
}
