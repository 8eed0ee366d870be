//! Aging: instances that weren't used for long, or whose time has passed, leave the cache by themselves; and whether
//! sessions may still read and write over stored rows of which some left, and to which others came.
#![tactic(auto)]

mod busy;
mod by_time;
mod by_use;
pub mod confirming;
mod due;
pub mod fitting;
pub mod laws;
mod leaving;
mod running;

pub use running::age;
