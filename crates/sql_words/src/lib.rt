//! The words of names, literals, expressions, conditions and tables, put behind what is printed so far.
#![tactic(auto)]

pub mod condition;
pub mod expression;
pub mod literal;
pub mod table;
pub mod word;
