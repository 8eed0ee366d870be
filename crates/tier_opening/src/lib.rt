//! A tier is opened over the journal and the backing database that a site holds.
#![tactic(auto)]

pub mod laws;
pub mod opening;

pub use laws::new_site_law;
pub use opening::{OpenError, OpenedTier, open_tier};
