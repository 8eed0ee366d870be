//! The tier as it is stored, line by line: what is due, the question for the schema, and the statement.
#![tactic(auto)]

pub mod beginning;
pub mod calling;
pub mod console;
pub mod create;
mod define;
pub mod due;
pub mod due_sets;
pub mod due_work;
pub mod early;
pub mod engine;
pub mod finishing;
pub mod growing;
pub mod importing;
pub mod opening;
pub mod request;
pub mod schema;
pub mod serving;
pub mod statement;
pub mod undone;
