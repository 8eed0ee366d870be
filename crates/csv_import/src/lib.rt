//! The INSERTs that the records of a CSV file stand for.
#![tactic(auto)]

pub mod fields;
pub mod inserts;
pub mod records;

pub use evaluator;
pub use evaluator::{row_types, table_defs, tier_base};
pub use inserts::read_inserts;
