//! Table definitions: what CREATE TABLE declares, judged against a schema.
#![tactic(auto)]

mod check;
mod definition;
mod faults;
mod names;
mod types;

pub use check::{key_places, refuse_types};
pub use definition::{BackingSchema, ForeignKey, TableDef, copied_places, copied_schema};
pub use faults::{has_one_key, wrong_name};
pub use names::find_table;
pub use row_types;
pub use row_types::{numbers, tier_base};
pub use types::has_type;
