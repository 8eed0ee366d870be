//! The journal's disk as two files.
#![tactic(auto)]

mod bytes;
pub mod file_disk;
#[cfg(test)]
mod tests;

pub use file_disk::FileDisk;
