//! Who wrote a key last, of the transactions that wait for their receipt.
#![tactic(auto)]

mod pending;
mod writers;
mod writes;

pub use pending::PendingWrites;
pub use table_state;
pub use table_state::{indexed_rows, row_types, table_defs, tier_base};
pub use writers::{Writer, Writers};
