//! The backing database over a SQLite file, and a site of it and a disk. It tells nothing of what it holds.
#![tactic(auto)]

mod applying;
pub mod bank;
mod catalog;
mod changing;
mod closure;
mod defining;
mod draft;
mod fault;
mod foreign;
mod judging;
mod loading;
mod passing;
mod reaching;
mod reading;
pub mod real_site;
mod schema_rows;
mod shelf;
mod store;
mod texts;
mod values;
mod writing;

pub use bank::SqliteBank;
pub use fault::OpenError;
pub use real_site::RealSite;
