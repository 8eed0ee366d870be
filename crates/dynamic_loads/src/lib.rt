//! What a statement of a session wants of an instance that isn't shown is brought in first.
#![tactic(auto)]

pub mod bringing;
mod bringing_whole;
pub mod bringing_written;
pub mod loading;
pub mod querying;
mod taking;
pub mod writing;

pub use group_engine::age;
pub use group_engine::altering::alter_group;
pub use group_engine::defining::create_group;
pub use group_engine::dropping::drop_group;
pub use group_engine::fresh::refresh_members;
pub use group_engine::loading::{load_group, refresh_group};
pub use group_engine::unloading::unload_group;
