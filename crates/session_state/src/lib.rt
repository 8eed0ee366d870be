//! Sessions with their open operations: the rows that a session sees, and the row locks that its operations hold.
#![tactic(auto)]

mod held;
pub mod laws;
mod locks;
mod mark;
mod putting;
mod session;

pub use locks::{holder, keeper_of_key};
pub use own_rows;
pub use own_rows::{indexed_rows, row_types, table_defs, table_state, tier_base};
pub use session::Session;
