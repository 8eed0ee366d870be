//! That a run leaves a site over which the next one may be opened. A law is the contract of a function that does
//! nothing.
#![tactic(auto)]

mod laws;

pub use laws::{
    answered_law, crash_law, import_law, program_law, run_leaves_law, site_law, slots_law,
    within_law,
};
