//! The rows of a table by key, beside an index by parent, and the keys of rows.
#![tactic(auto)]

mod copy;
mod indexed;
mod keys;
mod parents;
mod rows;
mod spare;
mod values;

pub use indexed::IndexedRows;
pub use keys::key_at;
pub use long_list;
pub use row_types;
pub use row_types::tier_base;
pub use rows::Rows;
pub use spare::Spare;
pub use values::{first_change, is_same_row, is_same_values};
