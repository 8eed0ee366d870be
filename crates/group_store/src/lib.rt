//! What a cache group keeps: the rows of its tree of tables, and its root keys in the order of last use.
#![tactic(auto)]

mod by_use;
mod columns;
mod directory;
mod held;
pub mod laws;
mod recent;
mod shown;
mod store;
mod tree_rows;

pub use cache_store::{instances, table_defs, table_state};
pub use directory::{Directory, Home};
pub use held::Holds;
pub use recent::RecentRows;
pub use shown::Shown;
pub use slot_rows;
pub use slot_rows::{indexed_rows, row_types, tier_base};
pub use store::Store;
