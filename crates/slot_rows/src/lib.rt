//! The rows of a table in slots: no key is copied, and a row goes in without memory where room was made for it.
#![tactic(auto)]

mod compare;
mod lead;
mod order;
mod orders;
mod rows;

pub use indexed_rows;
pub use indexed_rows::{row_types, tier_base};
pub use rows::SlotRows;
