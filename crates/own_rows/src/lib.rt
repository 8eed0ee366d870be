//! What open operations leave of tables, and the tables with that over them.
#![tactic(auto)]

mod children;
mod overlay;
mod own;
mod search;
mod seeking;
mod steps;
mod table_rows;
mod tables;
mod widening;

pub use overlay::Overlay;
pub use own::OwnRows;
pub use search::has_same_key;
pub use steps::{Step, Steps, steps_of};
pub use table_state;
pub use table_state::{indexed_rows, row_types, table_defs, tier_base};
pub use tables::OwnTables;
