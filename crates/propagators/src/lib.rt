//! Rounds of propagation.
#![tactic(auto)]

pub mod laws;
pub mod rounds;

pub use rounds::{RoundFault, round};
