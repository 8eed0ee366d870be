//! What a session's open operations leave of a table.

ghost use Rattle.std.specs.Prelude.{◌≡◌, ◌+◌, ◌<◌, ◌^◌, [], option_copied, slice_get};
ghost use Rattle.std.specs.FinMap as map;
ghost use Rattle.own_rows.specs.Laying.{HasRoom, with_changed, with_new, without};

use std::alloc::Global;
use table_state::indexed_rows::{IndexedRows, Rows, Spare};
use table_state::tier_base::TableId;

/// The own rows of a table.
pub(crate) fn own_of(own: &[OwnRows], table: TableId) -> Option<&OwnRows>
    ensures { option_copied result ≡ slice_get own.now table.0 }
{
    own.get(table.0 as usize)
}

/// What a session's open operations leave of one table.
pub struct OwnRows {
    /// The rows that the operations left, by key and by parent.
    pub(crate) live: IndexedRows,
    /// The keys of those that the table below hasn't.
    pub(crate) fresh: Rows,
    /// The keys of the table below that were taken out.
    pub(crate) gone: Rows,
}

impl Drop for OwnRows {
    fn drop(self) {
        let Self {
            live: _,
            fresh: _,
            gone: _,
        } = self;
    }
}

impl OwnRows {
    /// A row goes in. It doesn't fail: its room and that of its mark were taken before.
    pub(crate) fn put_new(&mut self, alloc: Global, row: Spare, mark: Spare)
        requires room { HasRoom self.old }
        requires key { mark.0 ≡ row.0 }
        requires bare { mark.1 ≡ [] }
        ensures { self.new ≡ with_new row.0 row.1 self.old }
    {
        if self.gone.contains_key(row.key()) {
            let _ = self.gone.remove(row.key());
        } else {
            self.fresh.put_back(mark);
        }
        put_over(&mut self.live, alloc, row);
    }

    /// A row gets other values. It doesn't fail.
    pub(crate) fn put_changed(&mut self, alloc: Global, row: Spare)
        requires room { HasRoom self.old }
        ensures { self.new ≡ with_changed row.0 row.1 self.old }
    {
        put_over(&mut self.live, alloc, row);
    }

    /// The row of the mark's key leaves. It doesn't fail.
    pub(crate) fn take_out(&mut self, alloc: Global, mark: Spare)
        requires room { HasRoom self.old }
        requires bare { mark.1 ≡ [] }
        ensures { self.new ≡ without mark.0 self.old }
    {
        self.live.remove(alloc, mark.key());
        if self.fresh.contains_key(mark.key()) {
            let _ = self.fresh.remove(mark.key());
        } else {
            self.gone.put_back(mark);
        }
    }
}

// The row stands under its key, over the one that was there.
fn put_over(rows: &mut IndexedRows, alloc: Global, row: Spare)
    requires { map.len rows.old + 1 < 2 ^ 63 }
    ensures { rows.new ≡ map.insert rows.old row.0 row.1 }
{
    rows.remove(alloc, row.key());
    rows.put_back(alloc, row);
}
