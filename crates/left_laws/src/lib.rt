//! What the engine says of a world between two lines is what the laws of a run ask. A law is the contract of a function
//! that does nothing.
#![tactic(auto)]

mod laws;

pub use laws::left_law;
