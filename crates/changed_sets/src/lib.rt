//! A refresh of READONLY groups at the cost of what changed at the backing database.
#![tactic(auto)]

mod copies;
mod fitting;
pub mod laws;
mod preparing;
pub mod reading;
mod room;
pub mod showing;
pub mod since;
mod turning;
mod turns;

pub use aging_cycles::age;
pub use aging_cycles::confirming::confirm;
pub use aging_cycles::fitting::are_fit;
pub use aging_cycles::laws::kept_rows_law;
