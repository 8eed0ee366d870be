//! Several writes as one transaction: all of them, or none.
#![tactic(auto)]

mod children;
pub mod judging;
pub mod laws;
pub mod writing;
pub mod written;

pub use evaluator;
pub use judging::{judge_delete, judge_insert, judge_update};
pub use writing::write_all;
pub use written::Written;
