//! The backing database in memory, which tells everything, and whose calls fail as planned.
#![tactic(auto)]

pub mod bank;
mod calling;
mod crashing;
mod difference;
mod disk_calls;
mod disk_steps;
mod ledger;
pub mod mark;
pub mod memory_site;
mod own_steps;
pub mod plan;
mod reaching;
mod touching;
pub mod visit;
mod visits;

pub use bank::MemoryBank;
pub use memory_site::MemorySite;
pub use plan::{CallKind, When};
pub use visit::Side;
