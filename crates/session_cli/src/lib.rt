//! A session of the program: it cuts its input into request lines, lets the tier answer them, and writes the replies.
//! Beside it stand the commands `make` and `bench`: the generated script of a number, and what its run on a new site in
//! memory comes to.
#![tactic(auto)]

pub mod answering;
pub mod benching;
pub mod checker;
pub mod checking;
pub mod commands;
pub mod counts;
pub mod fixed_clock;
pub mod importing;
pub mod laws;
pub mod line;
pub mod program;
pub mod progress;
mod running;
pub mod serving;
pub mod session;
pub mod summary;
pub mod timing;
pub mod unopened;

pub use answering::{Stop, respond};
pub use benching::bench;
pub use checker::{CheckFault, Checker, check_law, check_line};
pub use checking::check;
pub use commands::{End, make, tell_bench};
pub use counts::Counts;
pub use fixed_clock::FixedClock;
pub use importing::import;
pub use laws::caused_law;
pub use line::LineBuffer;
pub use program::top;
pub use progress::{Progress, Silent};
pub use serving::{Status, serve};
pub use session::Session;
pub use summary::Summary;
pub use timing::line_base;
