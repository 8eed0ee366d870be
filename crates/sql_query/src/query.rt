//! Queries.

use crate::condition::Condition;
use crate::expression::Expression;
use expressions::tier_base::{Name, Seq};

/// `SELECT list FROM table [alias], .. [WHERE condition] [GROUP BY column, ..] [ORDER BY column [ASC|DESC], ..]`
pub struct Query {
    /// The select list.
    pub selected: SelectList,
    /// The tables, in the order of the text.
    pub tables: Seq<FromTable>,
    /// The condition behind WHERE.
    pub filter: Option<Condition>,
    /// What the rows are grouped by: columns, with or without the name of a table and a dot before them.
    pub groups: Seq<Name>,
    /// What the rows are ordered by.
    pub order: Seq<OrderItem>,
}

impl Drop for Query {
    fn drop(self) {
        let Self {
            selected: _,
            tables: _,
            filter: _,
            groups: _,
            order: _,
        } = self;
    }
}

/// A table in FROM.
pub struct FromTable {
    /// Its name.
    pub table: Name,
    /// Its alias. It hides the table's name in its statement.
    pub alias: Option<Name>,
}

impl Drop for FromTable {
    fn drop(self) {
        let Self { table: _, alias: _ } = self;
    }
}

/// A select list.
pub enum SelectList {
    /// `*`: all columns of the tables, in the order of the tables.
    Everything,
    /// Expressions.
    Expressions(Seq<Expression>),
    /// Aggregates.
    Aggregates(Seq<Aggregate>),
    /// Expressions and aggregates, at least one of each. Such a list stands before GROUP BY alone.
    Mixed(Seq<SelectItem>),
}

impl Drop for SelectList {
    fn drop(self) {
        match self {
            Self::Everything => {}
            Self::Expressions(_) => {}
            Self::Aggregates(_) => {}
            Self::Mixed(_) => {}
        }
    }
}

/// An item of a select list.
pub enum SelectItem {
    /// An expression.
    Expression(Expression),
    /// An aggregate.
    Aggregate(Aggregate),
}

impl SelectItem {
    ghost use Rattle.std.specs.Prelude.{◌≡◌};
    ghost use Rattle.sql_query.specs.Items.{aggregate_in, expression_in};

    /// The expression, where the item is one.
    pub fn into_expression(self) -> Option<Expression>
        ensures { result ≡ expression_in self }
    {
        match self {
            Self::Expression(expression) => Some(expression),
            Self::Aggregate(_) => None,
        }
    }

    /// The aggregate, where the item is one.
    pub fn into_aggregate(self) -> Option<Aggregate>
        ensures { result ≡ aggregate_in self }
    {
        match self {
            Self::Expression(_) => None,
            Self::Aggregate(aggregate) => Some(aggregate),
        }
    }
}

impl Drop for SelectItem {
    fn drop(self) {
        match self {
            Self::Expression(_) => {}
            Self::Aggregate(_) => {}
        }
    }
}

/// An aggregate.
pub enum Aggregate {
    /// `COUNT(*)`
    Rows,
    /// `COUNT(expression)`
    Count(Expression),
    /// `SUM(expression)`
    Sum(Expression),
    /// `MIN(expression)`
    Least(Expression),
    /// `MAX(expression)`
    Greatest(Expression),
}

impl Drop for Aggregate {
    fn drop(self) {
        match self {
            Self::Rows => {}
            Self::Count(_) => {}
            Self::Sum(_) => {}
            Self::Least(_) => {}
            Self::Greatest(_) => {}
        }
    }
}

/// A column in ORDER BY.
pub struct OrderItem {
    /// The column, with or without the name of a table and a dot before it.
    pub column: Name,
    /// Whether DESC stands behind it.
    pub descending: bool,
}

impl Drop for OrderItem {
    fn drop(self) {
        let Self {
            column: _,
            descending: _,
        } = self;
    }
}
