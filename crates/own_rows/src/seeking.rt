//! Where the row at a place stands, where own rows lie over those of a table.

ghost use Rattle.std.specs.Prelude.{◌≡◌, ℕ, ◌+◌, ◌-◌, ◌<◌, ◌≤◌, ◌^◌, ◌⊎◌, List, Some, slice_get};
ghost use Rattle.table_state.specs.row_types.specs.declared.value.Value.{Value};
ghost use Rattle.std.specs.FinMap as map;
ghost use Rattle.table_state.specs.indexed_rows.specs.Rows.{Table, key_of};
ghost use Rattle.table_state.specs.Tables.{table_at};
ghost use Rattle.table_state.specs.Keyed.{IsUnderKeys};
ghost use Rattle.own_rows.specs.Ranks.{rank};
ghost use Rattle.own_rows.specs.Overlays.{AgreesWith, left_over};
ghost use Rattle.own_rows.specs.Stands.{IsSide, IsStand};

use crate::own::OwnRows;
use crate::search::{has_same_key, rank_of_row};
use std::cmp::Ordering;
use table_state::Scan;
use table_state::row_types::Row;
use table_state::tier_base::TableId;

// How often a guess is tried before halving. Own rows are mostly few, so that the first or second guess is right.
const GUESSES: u32 = 3;

/// Where a row stands that is left.
#[derive(Clone, Copy)]
pub enum Stand {
    /// Its key is at this place of the table below.
    Under(usize),
    /// Its key is at this place of the fresh ones.
    Fresh(usize),
}

// The place among what is left of the row at place `at` of the table below, or where it would be.
fn place_left(own: &OwnRows, places: &[usize], row: &Row, at: usize) -> usize
    requires small { at < 2 ^ 63 }
    requires left { rank own.now.gone (key_of places.now row.now) ≤ at }
    ensures { result ≡ at + rank own.now.fresh (key_of places.now row.now)
        - rank own.now.gone (key_of places.now row.now) }
{
    let fresh = rank_of_row(&own.fresh, places, row);
    let gone = rank_of_row(&own.gone, places, row);
    at + fresh - gone
}

// Whether a row of the table below, which is or would be at place `here` of what is left, is before a place of it,
// behind it or there.
fn side(own: &OwnRows, places: &[usize], row: &Row, here: usize, place: usize) -> Ordering
    ensures { (base : Table) (at : ℕ) → AgreesWith own.now base
        → slice_get (map.entries base) at ≡ Some (key_of places.now row.now, row.now)
        → here ≡ at + rank own.now.fresh (key_of places.now row.now) - rank own.now.gone (key_of places.now row.now)
        → IsSide own.now base place (key_of places.now row.now) result }
{
    if here < place {
        return Ordering::Less;
    }
    if here > place {
        return Ordering::Greater;
    }
    if has_same_key(&own.gone, places, row) {
        Ordering::Less
    } else {
        Ordering::Equal
    }
}

// Where to look next: the first few times at the guess, then halfway.
fn middle(low: usize, high: usize, guess: usize, step: u32) -> usize
    requires { low < high }
    ensures above { low ≤ result }
    ensures below { result < high }
{
    if step < GUESSES && low <= guess && guess < high {
        guess
    } else {
        low + (high - low) / 2
    }
}

// How many keys that were taken out are below the one at a place of the table.
fn gone_before<S: Scan>(
    under: &S,
    table: TableId,
    own: &OwnRows,
    places: &[usize],
    at: usize,
) -> usize
    requires { IsUnderKeys places.now (table_at (S.state under.now) table) }
    ensures there { (entry : List Value × List Value)
        → slice_get (map.entries (table_at (S.state under.now) table)) at ≡ Some entry
        → result ≡ rank own.now.gone entry.0 }
    ensures past { map.len (table_at (S.state under.now) table) ≤ at → result ≡ map.len own.now.gone }
    ensures bound { result ≤ map.len own.now.gone }
{
    match under.row(table, at) {
        None => own.gone.len(),
        Some(row) => rank_of_row(&own.gone, places, row),
    }
}

fn least(a: usize, b: usize) -> usize
    ensures one { (result ≡ a) ⊎ (result ≡ b) }
    ensures bound { result ≤ a }
{
    if a < b { a } else { b }
}

// How much is left, 0 where less is there than is taken.
fn less_by(all: usize, taken: usize) -> usize
    ensures { result ≡ all - taken }
{
    if all < taken { 0 } else { all - taken }
}

/// Where the row at a place stands.
pub(crate) fn seek<S: Scan>(
    under: &S,
    table: TableId,
    own: &OwnRows,
    places: &[usize],
    place: usize,
) -> Stand
    requires agrees { AgreesWith own.now (table_at (S.state under.now) table) }
    requires keyed { IsUnderKeys places.now (table_at (S.state under.now) table) }
    requires small { map.len (table_at (S.state under.now) table) < 2 ^ 63 }
    requires within { place < map.len (left_over own.now (table_at (S.state under.now) table)) }
    ensures { IsStand own.now (table_at (S.state under.now) table) place result }
{
    let count = under.len(table);
    let mut low = less_by(place, own.fresh.len());
    let mut high = least(count, place + own.gone.len() + 1);
    let mut guess = place;
    let mut step: u32 = 0;
    while low < high {
        let mid = middle(low, high, guess, step);
        match under.row(table, mid) {
            None => return Stand::Under(mid),
            Some(row) => {
                let here = place_left(own, places, row, mid);
                guess = mid.wrapping_add(place).wrapping_sub(here);
                step = step.saturating_add(1);
                match side(own, places, row, here, place) {
                    Ordering::Less => low = mid + 1,
                    Ordering::Greater => high = mid,
                    Ordering::Equal => return Stand::Under(mid),
                }
            }
        }
    }
    let gone = gone_before(under, table, own, places, low);
    Stand::Fresh(place + gone - low)
}
