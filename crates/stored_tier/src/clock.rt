//! The tier's clock, and when what is due was done last.

use crate::moments::SetMoment;

/// The settings of the program that say when work is done.
#[derive(Clone, Copy)]
pub struct Pace {
    /// After how many milliseconds a round is due; 0 where none ever is.
    pub propagate_ms: u64,
    /// A round begins the journal's other slot anew where the live one is longer than so many bytes.
    pub rotate_bytes: u64,
    /// An aging cycle by last use takes instances of a group that has more than so many,
    pub lru_high: u64,
    /// until so many are left.
    pub lru_low: u64,
    /// After how many milliseconds the next such cycle is due.
    pub lru_cycle_ms: u64,
}

/// The tier's clock, and when what is due was done last. Moments are in milliseconds since 1970.
pub struct TierClock {
    /// The tier's moment.
    pub now: u64,
    /// The sum of the console's additions.
    pub added: u64,
    /// The moment of the last round tried, or of the opening.
    pub round: u64,
    /// The last refresh of each set of READONLY groups that was refreshed.
    pub sets: Vec<SetMoment>,
    /// When work is done.
    pub pace: Pace,
}

impl Drop for TierClock {
    fn drop(self) {
        let Self {
            now: _,
            added: _,
            round: _,
            sets: _,
            pace: _,
        } = self;
    }
}
