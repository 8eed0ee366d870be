//! Entries of the log.

use table_state::row_types::{Key, Row};
use table_state::tier_base::{Seq, TableId};

/// A change of one row.
pub struct RowChange {
    /// The table.
    pub table: TableId,
    /// The primary key of the row, which stays.
    pub key: Key,
    /// The row before, none where there was none.
    pub old: Option<Row>,
    /// The row after, none where there is none.
    pub new: Option<Row>,
}

impl Drop for RowChange {
    fn drop(self) {
        let Self {
            table: _,
            key: _,
            old: _,
            new: _,
        } = self;
    }
}

/// Changes in the order in which they came.
pub type Log = Seq<RowChange>;
