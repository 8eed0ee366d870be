//! The statements of sessions on cache groups.
#![tactic(auto)]

pub mod aiming;
pub mod altering;
pub mod bringing;
pub mod defining;
pub mod dropping;
pub mod fresh;
mod gaining;
pub mod grouping;
pub mod loading;
mod loading_dynamic;
pub mod loading_whole;
pub mod loading_written;
mod ready;
mod readying;
mod touching;
mod unload_hidden;
mod unload_kept;
mod unload_listed;
pub mod unload_locks;
mod unload_named;
pub mod unloading;

pub use changed_sets::{age, are_fit, confirm, kept_rows_law};
