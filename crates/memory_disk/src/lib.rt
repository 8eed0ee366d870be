//! A disk in memory, which tells everything.
#![tactic(auto)]

pub mod call;
mod disk;
pub mod failure;
mod images;
pub mod memory_disk;
pub mod pick;
mod slots;

pub use call::DiskCall;
pub use failure::{Failure, When};
pub use memory_disk::MemoryDisk;
pub use pick::Pick;
