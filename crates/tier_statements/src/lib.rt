//! A session's statements over the parts of a tier: what a query answers, and what a write makes in the cache.
#![tactic(auto)]

mod answering;
mod catalog;
mod judging;
mod keys;
mod locks;
mod naming;
mod preparing;
mod reply;
mod routing;

pub use answering::answer_query;
pub use cache_tier::reply::{faulty, only};
pub use catalog::Catalog;
pub use judging::{apply_fault, are_small, judge_ops};
pub use keys::{has_key, taken};
pub use locks::lock_fault;
pub use naming::{name_query, name_write};
pub use preparing::{prepare_write, session_effects};
pub use reply::{bank_fault, done, refuse, refuses};
pub use routing::{Route, RoutedWrite, route_query, route_write};
