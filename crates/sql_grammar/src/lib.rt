//! The grammar of SQL as data, and the one engine that reads tokens by it.
#![tactic(auto)]

pub mod engine;
mod groups;
mod loading;
mod queries;
pub mod rule;
pub mod sql;
pub mod start;
mod statements;
pub mod syntax;
mod tables;
pub mod test;
mod writes;

pub use sql_tokens;
