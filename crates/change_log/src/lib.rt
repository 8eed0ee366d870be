//! The log of changed rows: what changed between two states, and the net of a log.
#![tactic(auto)]

pub mod changing;
pub mod laws;
pub mod log;
pub mod logging;
pub mod netting;
mod tags;

pub use changing::changed;
pub use laws::net_law;
pub use log::{Log, RowChange};
pub use logging::logged;
pub use netting::net;
pub use table_state;
pub use table_state::{indexed_rows, numbers, row_types, table_defs, tier_base};
