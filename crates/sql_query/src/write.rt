//! Statements that write rows.

use crate::condition::Condition;
use crate::expression::Expression;
use expressions::tier_base::{Name, Seq};

/// A statement that writes rows.
pub enum Write {
    /// INSERT
    Insert(Insert),
    /// UPDATE
    Update(Update),
    /// DELETE
    Delete(Delete),
}

impl Drop for Write {
    fn drop(self) {
        match self {
            Self::Insert(_) => {}
            Self::Update(_) => {}
            Self::Delete(_) => {}
        }
    }
}

/// `INSERT INTO table [(column, ..)] VALUES (expression, ..)`
pub struct Insert {
    /// The table.
    pub table: Name,
    /// The columns that get the values; all columns of the table where there is no list.
    pub columns: Option<Seq<Name>>,
    /// The values, in the order of the columns.
    pub values: Seq<Expression>,
}

impl Drop for Insert {
    fn drop(self) {
        let Self {
            table: _,
            columns: _,
            values: _,
        } = self;
    }
}

/// `UPDATE table SET column = expression, .. [WHERE condition]`
pub struct Update {
    /// The table.
    pub table: Name,
    /// What is set.
    pub assignments: Seq<Assignment>,
    /// Which rows; all where there is none.
    pub filter: Option<Condition>,
}

impl Drop for Update {
    fn drop(self) {
        let Self {
            table: _,
            assignments: _,
            filter: _,
        } = self;
    }
}

/// `column = expression` behind SET.
pub struct Assignment {
    /// The column, one identifier.
    pub column: Name,
    /// Its new value.
    pub value: Expression,
}

impl Drop for Assignment {
    fn drop(self) {
        let Self {
            column: _,
            value: _,
        } = self;
    }
}

/// `DELETE FROM table [WHERE condition]`
pub struct Delete {
    /// The table.
    pub table: Name,
    /// Which rows; all where there is none.
    pub filter: Option<Condition>,
}

impl Drop for Delete {
    fn drop(self) {
        let Self {
            table: _,
            filter: _,
        } = self;
    }
}
