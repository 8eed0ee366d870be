//! The generated script of a number: a large valid input for the program.
#![tactic(auto)]

mod drawing;
mod fixed;
pub mod lines;
pub mod making;
mod wording;

pub use lines::ScriptLines;
pub use making::{MakeError, write_script};
