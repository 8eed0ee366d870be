//! The next row that refers to a key, where own rows lie over those of a table.

ghost use Rattle.std.specs.Prelude.{◌≡◌, ◌||◌, ◌<◌, ◌^◌, List, Some, drop, slice_get};
ghost use Rattle.std.specs.FinMap as map;
ghost use Rattle.std.specs.Ordering.{is_lt};
ghost use Rattle.table_state.specs.row_types.specs.declared.value.Value.{Value};
ghost use Rattle.table_state.specs.row_types.specs.Order.{key_order};
ghost use Rattle.table_state.specs.table_defs.specs.Declarations.{foreign_places};
ghost use Rattle.table_state.specs.indexed_rows.specs.Rows.{first_from, key_of};
ghost use Rattle.table_state.specs.Children.{refers_to};
ghost use Rattle.table_state.specs.Tables.{table_at};
ghost use Rattle.table_state.specs.Keyed.{IsUnderKeys};
ghost use Rattle.own_rows.specs.Next.{stays_and};
ghost use Rattle.own_rows.specs.Ranks.{rank};
ghost use Rattle.own_rows.specs.Overlays.{AgreesWith, left_over};
ghost use Rattle.own_rows.specs.Starts.{StartsAt};

use crate::own::OwnRows;
use crate::search::{has_same_key, order_to_row, rank_of_key, rank_of_row};
use crate::seeking::{Stand, seek};
use crate::table_rows::len_in;
use std::cmp::Ordering;
use table_state::Scan;
use table_state::row_types::{Key, Row};
use table_state::table_defs::{ForeignKey, TableDef};
use table_state::tier_base::TableId;

/// The first place, from a place on, of a row that refers to the key by its table's foreign key.
pub(crate) fn child_in<S: Scan>(
    under: &S,
    table: TableId,
    own: &OwnRows,
    def: &TableDef,
    key: &Key,
    from: usize,
) -> Option<usize>
    requires agrees { AgreesWith own.now (table_at (S.state under.now) table) }
    requires keyed { IsUnderKeys def.now.primary_key (table_at (S.state under.now) table) }
    requires small { map.len (table_at (S.state under.now) table) < 2 ^ 63 }
    requires def { slice_get (S.state under.now).schema table.0 ≡ Some def.now }
    ensures { result ≡ first_from (refers_to key.now (Some def.now)) from
        (drop from (map.values (left_over own.now (table_at (S.state under.now) table)))) }
{
    if from >= len_in(under, table, own) {
        return None;
    }
    let places = def.primary_key.as_slice();
    match seek(under, table, own, places, from) {
        Stand::Under(at) => match under.row(table, at) {
            None => None,
            Some(row) => {
                let live = rank_of_row(own.live.rows(), places, row);
                child_of_both(under, table, own, def, key, from, at, live)
            }
        },
        Stand::Fresh(at) => {
            let (first, _) = own.fresh.entry_at(at);
            let live = rank_of_key(own.live.rows(), first);
            let place = rank_under(under, table, places, first);
            child_of_both(under, table, own, def, key, from, place, live)
        }
    }
}

// The next child from these places on: of the own rows and those of the table the one with the lower key.
fn child_of_both<S: Scan>(
    under: &S,
    table: TableId,
    own: &OwnRows,
    def: &TableDef,
    key: &Key,
    from: usize,
    at: usize,
    live: usize,
) -> Option<usize>
    requires agrees { AgreesWith own.now (table_at (S.state under.now) table) }
    requires keyed { IsUnderKeys def.now.primary_key (table_at (S.state under.now) table) }
    requires small { map.len (table_at (S.state under.now) table) < 2 ^ 63 }
    requires def { slice_get (S.state under.now).schema table.0 ≡ Some def.now }
    requires starts { StartsAt own.now (table_at (S.state under.now) table) from at live }
    ensures { result ≡ first_from (refers_to key.now (Some def.now)) from
        (drop from (map.values (left_over own.now (table_at (S.state under.now) table)))) }
{
    let places = def.primary_key.as_slice();
    let below = next_under(under, table, own, places, key, at);
    let own_next = own.live.child(foreign_places(&def.foreign_key), key, live);
    match below {
        None => match own_next {
            None => None,
            Some(j) => Some(place_of_own(under, table, own, places, j)),
        },
        Some(i) => match own_next {
            None => Some(place_of_under(under, table, own, places, i)),
            Some(j) => {
                if is_before(under, table, own, places, j, i) {
                    Some(place_of_own(under, table, own, places, j))
                } else {
                    Some(place_of_under(under, table, own, places, i))
                }
            }
        },
    }
}

fn foreign_places(foreign_key: &Option<ForeignKey>) -> &[usize]
    ensures { result.now ≡ foreign_places foreign_key.now }
{
    match foreign_key {
        None => &[],
        Some(foreign) => foreign.columns.as_slice(),
    }
}

// Whether the key of a row is that of an own row or of one that was taken out.
fn is_own(own: &OwnRows, places: &[usize], row: &Row) -> bool
    ensures { result ≡ (map.contains_key own.now.live (key_of places.now row.now)
        || map.contains_key own.now.gone (key_of places.now row.now)) }
{
    has_same_key(own.live.rows(), places, row) || has_same_key(&own.gone, places, row)
}

// The first place in the table, from a place on, of a row that refers to the key and is as it was.
fn next_under<S: Scan>(
    under: &S,
    table: TableId,
    own: &OwnRows,
    places: &[usize],
    key: &Key,
    from: usize,
) -> Option<usize>
    requires { IsUnderKeys places.now (table_at (S.state under.now) table) }
    ensures { result ≡ first_from
        (stays_and (refers_to key.now (slice_get (S.state under.now).schema table.0)) own.now.live own.now.gone) from
        (drop from (map.entries (table_at (S.state under.now) table))) }
{
    let count = under.len(table);
    let mut at = from;
    while at < count {
        match under.child(table, key, at) {
            None => return None,
            Some(place) => match under.row(table, place) {
                None => return None,
                Some(row) => {
                    if is_own(own, places, row) {
                        at = place + 1;
                    } else {
                        return Some(place);
                    }
                }
            },
        }
    }
    None
}

// How many keys of the table are below a key.
fn rank_under<S: Scan>(under: &S, table: TableId, places: &[usize], key: &Key) -> usize
    requires { IsUnderKeys places.now (table_at (S.state under.now) table) }
    ensures { result ≡ rank (table_at (S.state under.now) table) key.now }
{
    let mut low: usize = 0;
    let mut high = under.len(table);
    while low < high {
        let mid = low + (high - low) / 2;
        match under.row(table, mid) {
            None => return mid,
            Some(row) => match order_to_row(key, places, row) {
                Ordering::Greater => low = mid + 1,
                _ => high = mid,
            },
        }
    }
    low
}

// The place among what is left of a row of the table that is as it was.
fn place_of_under<S: Scan>(
    under: &S,
    table: TableId,
    own: &OwnRows,
    places: &[usize],
    at: usize,
) -> usize
    requires agrees { AgreesWith own.now (table_at (S.state under.now) table) }
    requires keyed { IsUnderKeys places.now (table_at (S.state under.now) table) }
    requires small { map.len (table_at (S.state under.now) table) < 2 ^ 63 }
    ensures { (entry : List Value × List Value)
        → slice_get (map.entries (table_at (S.state under.now) table)) at ≡ Some entry
        → result ≡ rank (left_over own.now (table_at (S.state under.now) table)) entry.0 }
{
    match under.row(table, at) {
        None => 0,
        Some(row) => {
            let fresh = rank_of_row(&own.fresh, places, row);
            let gone = rank_of_row(&own.gone, places, row);
            at + fresh - gone
        }
    }
}

// The place among what is left of an own row.
fn place_of_own<S: Scan>(
    under: &S,
    table: TableId,
    own: &OwnRows,
    places: &[usize],
    at: usize,
) -> usize
    requires agrees { AgreesWith own.now (table_at (S.state under.now) table) }
    requires keyed { IsUnderKeys places.now (table_at (S.state under.now) table) }
    requires small { map.len (table_at (S.state under.now) table) < 2 ^ 63 }
    requires within { at < map.len own.now.live }
    ensures { (entry : List Value × List Value) → slice_get (map.entries own.now.live) at ≡ Some entry
        → result ≡ rank (left_over own.now (table_at (S.state under.now) table)) entry.0 }
{
    let (key, _) = own.live.rows().entry_at(at);
    let fresh = rank_of_key(&own.fresh, key);
    let gone = rank_of_key(&own.gone, key);
    rank_under(under, table, places, key) + fresh - gone
}

// Whether the key of an own row is below that of a row of the table.
fn is_before<S: Scan>(
    under: &S,
    table: TableId,
    own: &OwnRows,
    places: &[usize],
    live: usize,
    at: usize,
) -> bool
    requires keyed { IsUnderKeys places.now (table_at (S.state under.now) table) }
    requires within { live < map.len own.now.live }
    ensures { (a b : List Value × List Value) → slice_get (map.entries own.now.live) live ≡ Some a
        → slice_get (map.entries (table_at (S.state under.now) table)) at ≡ Some b
        → result ≡ is_lt (key_order a.0 b.0) }
{
    let (key, _) = own.live.rows().entry_at(live);
    match under.row(table, at) {
        None => false,
        Some(row) => match order_to_row(key, places, row) {
            Ordering::Less => true,
            _ => false,
        },
    }
}
