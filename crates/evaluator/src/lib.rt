//! What queries answer and what writes do, over any tables that can be scanned.
#![tactic(auto)]

pub mod accumulator;
pub mod aggregate;
pub mod beside;
pub mod building;
pub mod capped;
pub mod cascade;
pub mod change;
pub mod key_path;
pub mod looking;
pub mod ordering;
pub mod plan;
pub mod refusing;
pub mod selecting;
pub mod summing;
pub mod tallies;
pub mod walking;
pub mod writing;

pub use aggregate::Aggregate;
pub use capped::Capped;
pub use change::{Action, Change};
pub use expressions;
pub use expressions::{numbers, row_types, tier_base};
pub use plan::{Found, Plan};
pub use selecting::select;
pub use summing::summarize;
pub use table_state;
pub use table_state::{indexed_rows, table_defs};
pub use writing::effects;
