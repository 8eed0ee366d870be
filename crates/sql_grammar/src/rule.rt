//! The rules of the grammar that are called by name.

/// A rule of the grammar.
#[derive(Clone, Copy)]
pub enum Rule {
    /// name
    Named,
    /// identifiers with commas between
    Idents,
    /// a literal
    Literal,
    /// an expression
    Expr,
    /// a predicate
    Pred,
    /// a condition
    Cond,
    /// what follows a select list
    After,
    /// the rest of a list of expressions
    Exprs,
    /// the rest of a list of aggregates
    Aggs,
    /// the rest of a mixed list
    Mixed,
    /// behind SELECT
    Select,
    /// behind INSERT
    Insert,
    /// behind UPDATE
    Update,
    /// behind DELETE
    Delete,
    /// `;` and the writes behind it
    Writes,
    /// the rest of a table behind a column
    Columns,
    /// the rest of a cache table behind a column
    CachedColumns,
    /// a cache table
    CachedTable,
    /// behind AGING
    Aging,
    /// behind the kind of a group
    Group,
    /// behind CREATE
    Create,
    /// which instances
    Chosen,
    /// behind CALL
    Called,
    /// a statement of a session
    Statement,
}
