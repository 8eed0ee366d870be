//! The tier's journal: the entries of the abstract tier over the commit journal; and that journal beside a tier, with
//! entries that are made ready, noted and flushed in the tier's worlds, and rotations.
#![tactic(auto)]

pub mod batch;
pub mod draft;
mod flushing;
pub mod journal;
pub mod keeping;
pub mod laws;
mod making;
mod naming;
mod noting;
pub mod opening;
mod pushing;
mod reading;
pub mod record;
mod rotating;
mod testing;
pub mod turning;
pub mod way;
mod writing;

pub use batch::Batch;
pub use commit_journal::{OpenError, ReserveError, RotateError};
pub use draft::Draft;
pub use journal::TierJournal;
pub use keeping::{flush_draft, flush_tail, record_draft};
pub use opening::{Found, open};
pub use record::Record;
pub use turning::{is_long, rotate_journal};
pub use way::way_law;
