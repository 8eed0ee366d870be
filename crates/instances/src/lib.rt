//! The view of a cache group: which rows of the backing tables it covers, in which instances.
#![tactic(auto)]

mod collecting;
mod following;
pub mod laws;
pub mod rooting;
pub mod tree;
pub mod viewing;

pub use collecting::{foreign_places, selects};
pub use laws::instance_law;
pub use rooting::root_of;
pub use table_state;
pub use table_state::table_defs;
pub use tree::{Child, Root, Tree};
pub use viewing::{instance, view};
