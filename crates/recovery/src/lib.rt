//! What a journal's entries leave of a tier that is opened again.
#![tactic(auto)]

mod laws;

pub use laws::{crash_leaves_law, journalled_law, recalled_law, way_law};
