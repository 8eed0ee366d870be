//! Writes with places in place of names.

ghost use Rattle.std.specs.Prelude.{◌≡◌, option_copied};
ghost use Rattle.evaluator.specs.Writes.{filter_of};

use expressions::tier_base::{Seq, TableId};
use expressions::{Cond, Expr};

/// A write of one table, with places in place of names.
pub struct Change {
    /// The table.
    pub table: TableId,
    /// What is done to its rows.
    pub action: Action,
}

impl Drop for Change {
    fn drop(self) {
        let Self {
            table: _,
            action: _,
        } = self;
    }
}

/// What a write does to the rows of its table.
pub enum Action {
    /// One new row: an expression for each column, read on no columns.
    Insert(Seq<Expr>),
    /// Each selected row becomes another: an expression for each column, read on the old row.
    Update(Seq<Expr>, Option<Cond>),
    /// Each selected row leaves, behind the rows that refer to it by a foreign key with ON DELETE CASCADE.
    Delete(Option<Cond>),
}

impl Drop for Action {
    fn drop(self) {
        match self {
            Self::Insert(_) => {}
            Self::Update(_, _) => {}
            Self::Delete(_) => {}
        }
    }
}

impl Action {
    /// Its WHERE condition.
    pub fn filter(&self) -> Option<&Cond>
        ensures { option_copied result ≡ filter_of self.now }
    {
        match self {
            Action::Insert(_) => None,
            Action::Update(_, filter) => filter.as_ref(),
            Action::Delete(filter) => filter.as_ref(),
        }
    }
}
