//! What lends the rows of tables.

ghost use Rattle.std.specs.Prelude.{◌≡◌, option_copied, slice_get};
ghost use Rattle.std.specs.FinMap as map;
ghost use Rattle.table_state.specs.Tables.{TableState, table_at};
ghost use Rattle.table_state.specs.ScanChildren.{child_from};

use crate::Tables;
use indexed_rows::Rows;
use table_defs::BackingSchema;
use table_defs::row_types::{Key, Row};
use table_defs::tier_base::TableId;

/// What lends the rows of tables. Clauses see a table state. Nothing is copied, and no call takes memory.
pub trait Scan {
    ghost state: { Self → TableState };

    /// The definitions of the tables.
    fn schema(&self) -> &BackingSchema
        ensures { result.now ≡ (state self.now).schema };

    /// How many rows a table has; 0 where there is no such table.
    fn len(&self, table: TableId) -> usize
        ensures { result ≡ map.len (table_at (state self.now) table) };

    /// The row at a place in key order, from 0.
    fn row(&self, table: TableId, place: usize) -> Option<&Row>
        ensures { option_copied result ≡ slice_get (map.values (table_at (state self.now) table)) place };

    /// The row of a key.
    fn find(&self, table: TableId, key: &Key) -> Option<&Row>
        ensures { option_copied result ≡ map.get (table_at (state self.now) table) key.now };

    /// The first place, from a place on, of a row that refers to the key by its table's foreign key. It is to cost no
    /// more than a look-up.
    fn child(&self, table: TableId, key: &Key, from: usize) -> Option<usize>
        ensures { result ≡ child_from (state self.now) table key.now from };
}

impl Scan for Tables {
    ghost state = { λ tables. tables };

    fn schema(&self) -> &BackingSchema {
        Tables::schema(self)
    }

    fn len(&self, table: TableId) -> usize {
        match self.table(table) {
            None => 0,
            Some(rows) => rows.len(),
        }
    }

    fn row(&self, table: TableId, place: usize) -> Option<&Row> {
        match self.table(table) {
            None => None,
            Some(rows) => row_at(rows, place),
        }
    }

    fn find(&self, table: TableId, key: &Key) -> Option<&Row> {
        match self.table(table) {
            None => None,
            Some(rows) => rows.get(key),
        }
    }

    fn child(&self, table: TableId, key: &Key, from: usize) -> Option<usize> {
        Tables::child(self, table, key, from)
    }
}

fn row_at(rows: &Rows, place: usize) -> Option<&Row>
    ensures { option_copied result ≡ slice_get (map.values rows.now) place }
{
    if place < rows.len() {
        Some(rows.row_at(place))
    } else {
        None
    }
}
