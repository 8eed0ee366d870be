//! Laws of recovery and of crashes, over lists: what a journal's entries and a backing history make together. A law
//! is the contract of a function that does nothing.
#![tactic(auto)]

mod laws;

pub use laws::{crash_law, recovery_law, rotation_law};
pub use order_laws::tier_base;
