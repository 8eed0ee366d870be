//! The tokens of a line.
#![tactic(auto)]

pub mod head;
pub mod kind;
pub mod lexer;
pub mod token;
pub mod word;
