//! The SQL of request lines: statements as types, read off the tokens of a line.
#![tactic(auto)]

mod groups;
pub mod line;
pub mod request;
mod statements;
pub mod stmt;

pub use sql_phrases::{numbers, row_types, sql_query, tier_base};
