//! The phrases of SQL statements, read off the tokens of a line.
#![tactic(auto)]

pub mod conditions;
pub mod expression;
pub mod queries;
pub mod reader;
pub mod reading;
pub mod tables;
pub mod writes;

pub use sql_grammar;
pub use sql_grammar::sql_tokens;
pub use sql_query;
pub use sql_query::{expressions, numbers, row_types, tier_base};
