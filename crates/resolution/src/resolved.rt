//! Queries with places in place of names.

use evaluator::row_types::Rule;
use evaluator::tier_base::Seq;
use evaluator::{Aggregate, Plan};

/// What is judged of a write whose names are known: the write, or the rule that it breaks.
pub(crate) type Judged<T> = Result<T, Rule>;

/// A query with places in place of names.
pub enum ResolvedQuery {
    /// A query whose answer is rows.
    Rows(Plan),
    /// A query whose answer is one row of totals. The select list of the plan has an operand for each; that of
    /// `COUNT(*)` is NULL.
    Totals(Seq<Aggregate>, Plan),
}

impl Drop for ResolvedQuery {
    fn drop(self) {
        match self {
            Self::Rows(_) => {}
            Self::Totals(_, _) => {}
        }
    }
}
