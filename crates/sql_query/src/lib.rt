//! Queries and writes as a reader writes them: with the names of tables and columns, and literals as they are spelt.
#![tactic(auto)]

pub mod condition;
pub mod expression;
pub mod literal;
pub mod query;
pub mod write;

pub use condition::{Condition, ConditionNode};
pub use expression::{Expression, ExpressionNode, Link};
pub use expressions;
pub use expressions::{numbers, row_types, tier_base};
pub use literal::{Literal, NumberLiteral};
pub use query::{Aggregate, FromTable, OrderItem, Query, SelectItem, SelectList};
pub use write::{Assignment, Delete, Insert, Update, Write};
