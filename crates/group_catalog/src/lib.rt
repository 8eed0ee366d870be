//! The catalog of cache groups: what defines one, what it keeps of each, and what statements on groups name.
#![tactic(auto)]

pub mod call;
pub mod catalog;
pub mod clauses;
pub mod defining;
pub mod kept;
pub mod laws;
pub mod naming;
pub mod placing;
mod refusing;
pub mod tables;
pub mod texts;
pub mod which;

pub use call::resolve_call;
pub use catalog::Catalog;
pub use defining::{define, define_read_back};
pub use kept::KeptGroup;
pub use which::{ResolvedWhich, resolve_which};
