//! The rows of one table, where own rows lie over those of a table.

ghost use Rattle.std.specs.Prelude.{◌≡◌, ◌<◌, ◌^◌, option_copied, slice_get, unwrap_or};
ghost use Rattle.std.specs.FinMap as map;
ghost use Rattle.table_state.specs.indexed_rows.specs.Rows.{key_of};
ghost use Rattle.table_state.specs.Tables.{table_at};
ghost use Rattle.table_state.specs.Keyed.{IsUnderKeys};
ghost use Rattle.own_rows.specs.Overlays.{AgreesWith, left_over};

use crate::own::OwnRows;
use crate::search::row_of_same_key;
use crate::seeking::{Stand, seek};
use table_state::Scan;
use table_state::row_types::{Key, Row};
use table_state::tier_base::TableId;

/// How many rows there are.
pub(crate) fn len_in<S: Scan>(under: &S, table: TableId, own: &OwnRows) -> usize
    requires agrees { AgreesWith own.now (table_at (S.state under.now) table) }
    requires small { map.len (table_at (S.state under.now) table) < 2 ^ 63 }
    ensures { result ≡ map.len (left_over own.now (table_at (S.state under.now) table)) }
{
    under.len(table) + own.fresh.len() - own.gone.len()
}

/// The row of a key.
pub(crate) fn find_in<'a, S: Scan>(
    under: &'a S,
    table: TableId,
    own: &'a OwnRows,
    key: &Key,
) -> Option<&'a Row>
    ensures { option_copied result ≡ map.get (left_over own.now (table_at (S.state under.now) table)) key.now }
{
    match own.live.rows().get(key) {
        Some(row) => Some(row),
        None => {
            if own.gone.contains_key(key) {
                None
            } else {
                under.find(table, key)
            }
        }
    }
}

/// The row at a place in key order.
pub(crate) fn row_in<'a, S: Scan>(
    under: &'a S,
    table: TableId,
    own: &'a OwnRows,
    places: &[usize],
    place: usize,
) -> Option<&'a Row>
    requires agrees { AgreesWith own.now (table_at (S.state under.now) table) }
    requires keyed { IsUnderKeys places.now (table_at (S.state under.now) table) }
    requires small { map.len (table_at (S.state under.now) table) < 2 ^ 63 }
    ensures { option_copied result
        ≡ slice_get (map.values (left_over own.now (table_at (S.state under.now) table))) place }
{
    if place >= len_in(under, table, own) {
        return None;
    }
    match seek(under, table, own, places, place) {
        Stand::Under(at) => match under.row(table, at) {
            None => None,
            Some(row) => Some(newest(own, places, row)),
        },
        Stand::Fresh(at) => {
            let (key, _) = own.fresh.entry_at(at);
            own.live.rows().get(key)
        }
    }
}

// The own row under the key of a row of the table, where there is one, else that row.
fn newest<'a>(own: &'a OwnRows, places: &[usize], row: &'a Row) -> &'a Row
    ensures { result.now ≡ unwrap_or (map.get own.now.live (key_of places.now row.now)) row.now }
{
    match row_of_same_key(own.live.rows(), places, row) {
        Some(changed) => changed,
        None => row,
    }
}
