//! Laws of what is printed: it is read back.
#![tactic(auto)]

pub mod law;

pub use sql_print::{numbers, row_types, sql_subset, tier_base};
