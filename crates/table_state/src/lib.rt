//! Table states, operations on them, the backing history and footprints.
#![tactic(auto)]

mod change;
mod copy;
mod fitting;
pub mod footprint;
pub mod history;
mod judging;
pub mod laws;
pub mod lookup;
mod operating;
pub mod operation;
pub mod refusal;
pub mod scan;
pub mod scan_laws;
pub mod tables;
mod transaction;
mod undo_log;

pub use fitting::{check_key_stays, check_row};
pub use footprint::{Footprint, RowKey, conflicts};
pub use history::{Entry, History, Sealed};
pub use indexed_rows;
pub use indexed_rows::long_list;
pub use lookup::key_of_row;
pub use operation::{Op, Ops, copied_ops, same_ops};
pub use refusal::ApplyError;
pub use scan::Scan;
pub use table_defs;
pub use table_defs::{numbers, row_types, tier_base};
pub use tables::Tables;
pub use undo_log::UndoLog;
