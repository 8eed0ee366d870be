//! The open sessions, and the row locks between them.
#![tactic(auto)]

pub mod laws;
mod sessions;

pub use session_state;
pub use sessions::{OpenError, Sessions};
