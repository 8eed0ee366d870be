//! Changes of one row, and how they are taken back.

ghost use Rattle.std.specs.Prelude.{◌≡◌, ◌+◌, ◌<◌, ◌^◌, OnErr, OnOk};
ghost use Rattle.std.specs.FinMap as map;
ghost use Rattle.indexed_rows.specs.Rows.{put_in, put_over};
ghost use Rattle.table_state.specs.Changes.{HasRoom, taken_back, with_table};
ghost use Rattle.table_state.specs.Tables.{table_at};

use crate::tables::Tables;
use indexed_rows::Spare;
use std::alloc::{AllocError, Global};
use table_defs::row_types::{Key, Row};
use table_defs::tier_base::TableId;

/// How a change of one row is taken back.
#[derive(Drop)]
pub(crate) enum Undo {
    /// The key had no row.
    Inserted(TableId, Key),
    /// The key had this row.
    Changed(TableId, Key, Row),
    /// This row left.
    Deleted(TableId, Spare),
}

impl Tables {
    /// Puts in a row where its key has none.
    pub(crate) fn put_new(
        &mut self,
        alloc: Global,
        table: TableId,
        key: &Key,
        row: Row,
    ) -> Result<(), AllocError>
        ensures ok { OnOk result (self.new ≡ with_table self.old table (put_in (table_at self.old table) key.now row)) }
        ensures err { OnErr result (self.new ≡ self.old) }
    {
        let place = table.0 as usize;
        if place >= self.rows.len() {
            return Ok(());
        }
        self.rows[place].insert(alloc, key, row)
    }

    /// Puts a row over the one that the key has. It doesn't fail.
    pub(crate) fn put_over(&mut self, alloc: Global, table: TableId, key: Key, row: Row)
        ensures { self.new ≡ with_table self.old table (put_over (table_at self.old table) key row) }
    {
        let place = table.0 as usize;
        if place < self.rows.len() {
            self.rows[place].replace(alloc, key, row);
        }
    }

    /// Takes out the row of a key. It doesn't fail.
    pub(crate) fn take_out(&mut self, alloc: Global, table: TableId, key: &Key)
        ensures { self.new ≡ with_table self.old table (map.remove (table_at self.old table) key.now) }
    {
        let place = table.0 as usize;
        if place < self.rows.len() {
            self.rows[place].remove(alloc, key);
        }
    }

    /// Puts back a row that left where its key has none. It doesn't fail.
    fn put_back(&mut self, alloc: Global, table: TableId, left: Spare)
        requires { map.len (table_at self.old table) + 1 < 2 ^ 63 }
        ensures { self.new ≡ with_table self.old table (put_in (table_at self.old table) left.0 left.1) }
    {
        let place = table.0 as usize;
        if place < self.rows.len() {
            self.rows[place].put_back(alloc, left);
        }
    }

    /// Takes a change back. It doesn't fail.
    pub(crate) fn take_back(&mut self, alloc: Global, undo: Undo)
        requires { HasRoom undo self.old }
        ensures { self.new ≡ taken_back undo self.old }
    {
        match undo {
            Undo::Inserted(table, key) => self.take_out(alloc, table, &key),
            Undo::Changed(table, key, row) => self.put_over(alloc, table, key, row),
            Undo::Deleted(table, left) => self.put_back(alloc, table, left),
        }
    }
}
