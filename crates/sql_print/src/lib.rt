//! Statements as text, in their normal form.
#![tactic(auto)]

mod group;
pub mod law;
pub mod print;
mod query;
mod statement;
mod write;

pub use sql_subset;
pub use sql_subset::{numbers, row_types, sql_query, tier_base};
