//! The commit journal.
#![tactic(auto)]

pub mod adopting;
pub mod appending;
pub mod fault;
pub mod head;
mod heading;
pub mod journal;
pub mod laws;
pub mod looked;
pub mod looking;
pub mod opening;
mod placing;
mod reading;
pub mod rotation;
pub mod scan;
mod scanning;
pub mod state;
pub mod tail;

pub use adopting::reads_first;
pub use fault::{OpenError, ReserveError, RotateError};
pub use head::Head;
pub use journal::Journal;
pub use looked::Looked;
pub use looking::look;
pub use opening::{Opened, open};
