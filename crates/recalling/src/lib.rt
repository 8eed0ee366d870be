//! What the entries of a commit journal leave of a tier that is opened again: its catalog of groups, the next ticket
//! and the asynchronous commits; or the first entry that doesn't fit.
#![tactic(auto)]

mod fitting;
mod folding;
pub mod laws;
mod naming;
pub mod recalled;

pub use recalled::{RecallError, Recalled, recall};
