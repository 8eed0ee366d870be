//! Decimal numbers with a scale: exact arithmetic, rounding, order and texts.
#![tactic(auto)]

pub mod arithmetic;
pub mod laws;
pub mod number;
pub mod printing;
pub mod reading;
pub mod rounding;

pub use number::Number;
