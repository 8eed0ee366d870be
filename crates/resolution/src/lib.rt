//! What the names of a statement stand for: queries and writes with places in place of names.
#![tactic(auto)]

mod assigning;
mod building;
pub mod filter;
mod listing;
mod placing;
pub mod query;
mod refusing;
pub mod resolved;
pub mod scope;
pub mod write;

pub use evaluator;
pub use evaluator::{expressions, table_defs};
pub use filter::{ResolvedFilter, resolve_filter};
pub use placing::family_of_literal;
pub use query::resolve_query;
pub use resolved::ResolvedQuery;
pub use sql_query::numbers;
pub use write::{resolve_write, resolve_writes};
