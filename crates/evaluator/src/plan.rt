//! Queries with places in place of names.

use expressions::row_types::Row;
use expressions::tier_base::{Seq, TableId};
use expressions::{Cond, Expr};

/// A query with places in place of names. A place is one in the rows of the FROM tables side by side.
pub struct Plan {
    /// The tables in FROM, at most four.
    pub tables: Seq<TableId>,
    /// The WHERE condition.
    pub filter: Option<Cond>,
    /// The select list.
    pub listed: Seq<Expr>,
    /// The places in ORDER BY.
    pub order: Seq<usize>,
    /// Which of them are descending.
    pub descending: Seq<bool>,
}

impl Drop for Plan {
    fn drop(self) {
        let Self {
            tables: _,
            filter: _,
            listed: _,
            order: _,
            descending: _,
        } = self;
    }
}

/// What a selected combination of rows gives.
#[derive(Drop)]
pub struct Found {
    /// The values to order by.
    pub order: Row,
    /// The values of the select list.
    pub listed: Row,
}
