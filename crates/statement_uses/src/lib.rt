//! Which instances statements want and use, over any tables that can be scanned.
#![tactic(auto)]

pub mod changing;
pub mod entering;
pub mod loading;
pub mod querying;
mod rooting;
pub mod selecting;
pub mod touching;
mod using;
pub mod wanting;

pub use changing::used_by_ops;
pub use entering::entered_by_ops;
pub use loading::loading_place;
pub use querying::used_by_query;
pub use rooting::root_of;
pub use touching::touch_stores;
pub use wanting::{Want, wanted_by_query, wanted_by_write};
