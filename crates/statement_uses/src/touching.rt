//! What becomes of the order of last use.

ghost use Rattle.std.specs.Prelude.{◌≡◌, [], option_copied, unwrap_or};
ghost use Rattle.statement_uses.specs.Touching.{HaveRows, HaveRowsIn, newest_by, newest_stores, roomless, roomless_all, touched_by, touched_stores};

use group_store::Store;
use row_types::Key;
use tier_base::Seq;

/// The root keys that are used of each store become its newest, one after another, where they are there. Uses stand at
/// the places of their stores. It takes no memory.
pub fn touch_stores(stores: &mut Vec<Store>, uses: &[Seq<Key>])
    ensures touched { roomless_all stores.new.items ≡ touched_stores uses.now (roomless_all stores.old.items) }
    ensures newest { HaveRowsIn uses.now stores.old.items
        → roomless_all stores.new.items ≡ newest_stores uses.now (roomless_all stores.old.items) }
{
    for place in 0..stores.len() {
        touch_some(&mut stores[place], uses.get(place));
    }
}

fn touch_some(store: &mut Store, roots: Option<&Seq<Key>>)
    ensures touched { roomless store.new
        ≡ touched_by (unwrap_or (option_copied roots.entry) []) (roomless store.old) }
    ensures newest { HaveRows (unwrap_or (option_copied roots.entry) []) store.old
        → roomless store.new ≡ newest_by (unwrap_or (option_copied roots.entry) []) (roomless store.old) }
{
    match roots {
        None => {}
        Some(roots) => touch_all(store, roots.as_slice()),
    }
}

fn touch_all(store: &mut Store, roots: &[Key])
    ensures touched { roomless store.new ≡ touched_by roots.now (roomless store.old) }
    ensures newest { HaveRows roots.now store.old → roomless store.new ≡ newest_by roots.now (roomless store.old) }
{
    for root in roots {
        store.touch(root);
    }
}
