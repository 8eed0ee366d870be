//! Transactions of others that are planned.

use evaluator::Change;
use tier_base::Seq;

/// Before a call's own step, or behind it.
#[derive(Clone, Copy, Debug, PartialEq, Eq)]
pub enum Side {
    /// Before it.
    Before,
    /// Behind it.
    Behind,
}

/// That a transaction of others comes in the bank call of this number, from 0.
pub struct Visit {
    /// The number of the call.
    pub number: u64,
    /// On which side of the call's own step it comes.
    pub side: Side,
    /// Its writes.
    pub changes: Seq<Change>,
}

impl Drop for Visit {
    fn drop(self) {
        let Self {
            number: _,
            side: _,
            changes: _,
        } = self;
    }
}
