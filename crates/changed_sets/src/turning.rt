//! What a refresh by the changed instances does to a store.

ghost use Rattle.std.specs.Prelude.{◌≡◌, ◌≤◌, ◌+◌, Some, length};
ghost use Rattle.group_store.specs.Stores.{HasRootKeys, SameButSpare, count_all};
ghost use Rattle.changed_sets.specs.Turning.{AreUnder, FitTurns, FitsTurn, IsCutUnder, IsOneUnder, count_cuts, count_shown, count_turns, cut_all, cut_by, put_back, put_shown, turned};

use crate::turns::{Cut, Turn};
use group_store::Store;
use row_types::{Key, Row};
use tier_base::Seq;

/// Instances that were told are cut down, those that are shown then to their root rows, which keep their places in the
/// order of last use; and then these have all their rows. It takes no memory.
pub(crate) fn turn(store: &mut Store, cuts: Seq<Cut>, turns: Seq<Turn>)
    requires fits { FitTurns (length store.old.layers + 1) turns }
    requires under { AreUnder store.old.key cuts }
    requires room { count_cuts cuts + count_turns turns ≤ store.old.spare }
    ensures turned { SameButSpare (turned cuts turns store.old) store.new }
    ensures keyed { HasRootKeys store.new }
{
    cut_down(store, cuts);
    put_back(store, turns);
    store.keys_law();
}

fn cut_down(store: &mut Store, cuts: Seq<Cut>)
    requires under { AreUnder store.old.key cuts }
    requires room { count_cuts cuts ≤ store.old.spare }
    ensures cut { SameButSpare (cut_all cuts store.old) store.new }
    ensures spare { store.old.spare ≤ store.new.spare + count_cuts cuts }
{
    for cut in cuts.into_vec() {
        cut_one(store, cut);
    }
}

fn cut_one(store: &mut Store, cut: Cut)
    requires under { IsCutUnder store.old.key cut }
    requires room { count_shown cut.bare ≤ store.old.spare }
    ensures cut { SameButSpare (cut_by cut.bare cut.root store.old) store.new }
    ensures spare { store.old.spare ≤ store.new.spare + count_shown cut.bare }
{
    let (root, bare) = cut.into_parts();
    match bare {
        None => store.drop_instance(&root),
        Some(bare) => cut_to(store, &root, bare),
    }
}

// The instance becomes its root row, where it is there.
fn cut_to(store: &mut Store, root: &Key, bare: Seq<Seq<Row>>)
    requires under { IsOneUnder store.old.key root.now bare }
    requires room { count_all bare ≤ store.old.spare }
    ensures cut { SameButSpare (cut_by (Some bare) root.now store.old) store.new }
    ensures spare { store.old.spare ≤ store.new.spare + count_all bare }
{
    if store.get(0, root).is_some() {
        store.renew_instance(root, bare);
    } else {
        store.drop_instance(root);
    }
}

fn put_back(store: &mut Store, turns: Seq<Turn>)
    requires fits { FitTurns (length store.old.layers + 1) turns }
    requires room { count_turns turns ≤ store.old.spare }
    ensures { SameButSpare (put_back turns store.old) store.new }
{
    for turn in turns.into_vec() {
        put_one(store, turn);
    }
}

fn put_one(store: &mut Store, turn: Turn)
    requires fits { FitsTurn (length store.old.layers + 1) turn }
    requires room { count_shown turn.rows ≤ store.old.spare }
    ensures put { SameButSpare (put_shown turn.rows store.old) store.new }
    ensures spare { store.old.spare ≤ store.new.spare + count_shown turn.rows }
{
    match turn.into_rows() {
        None => {}
        Some(rows) => store.put_instance(rows),
    }
}
