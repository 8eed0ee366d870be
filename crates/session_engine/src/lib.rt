//! The statements of sessions on rows: queries, writes, and the ends of transactions.
#![tactic(auto)]

pub mod at_once;
pub mod commit;
mod copied_rows;
pub mod doubt;
mod drafting;
pub mod holding;
pub mod inserting;
pub mod noting;
pub mod passed_query;
pub mod passed_write;
pub mod preparing;
pub mod query;
mod recording;
pub mod resting;
pub mod selecting;
pub mod settling;
mod using;
pub mod wanting;
pub mod writing;
