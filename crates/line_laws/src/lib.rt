//! What each part of a line keeps of a commit journal: it stays the tier's. A law is the contract of a function that
//! does nothing.
#![tactic(auto)]

mod laws;

pub use laws::{
    commit_line_law, console_line_law, due_line_law, end_line_law, group_line_law, query_line_law,
    quiet_line_law, round_line_law,
};
