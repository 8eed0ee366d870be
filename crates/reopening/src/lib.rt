//! A tier that is opened again over what its journal's entries leave.
#![tactic(auto)]

mod building;
mod holding;
mod opening;
mod reloading;
mod settling;
pub mod start;

pub use opening::reopen;
