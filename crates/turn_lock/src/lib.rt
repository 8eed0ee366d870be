//! A lock over a value that stores a list.
#![tactic(auto)]

mod held;
mod lock;
mod plays;
#[cfg(test)]
mod tests;
mod view;

pub use held::{Held, Pass, Seen};
pub use lock::TurnLock;
pub use view::Grows;
