//! The bytes of replies, written without taking memory, on their way to a sink.
#![tactic(auto)]

pub mod output;
pub mod replies;
pub mod values;

pub use output::Output;
pub use replies::{write_numbered, write_reply};
pub use values::{write_key, write_number};
