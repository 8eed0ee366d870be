//! Entries of the commit journal, and their bytes.
#![tactic(auto)]

pub mod bodies;
pub mod entry;
pub mod fault;
mod fields;
mod reading;
pub mod size;
pub mod standing;
pub mod vectors;
pub mod writing;

pub use bodies::{read_body, read_entry};
pub use entry::{Bytes, Entry, GroupState, Op};
pub use fault::ReadError;
pub use row_types::tier_base;
pub use size::{entries_size, entry_size};
pub use standing::{Ending, Standing};
