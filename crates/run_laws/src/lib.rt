//! What a whole line, and a list of lines, keep of a commit journal: it stays the tier's. A law is the contract of a
//! function that does nothing.
#![tactic(auto)]

mod laws;

pub use laws::{flush_law, line_law, reopened_law, run_law};
