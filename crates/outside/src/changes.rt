//! What changed since a position of the backing history.

use crate::site::Instance;
use change_log::Log;
use tier_base::{Position, Seq};

/// An instance that changed, or that a want names.
pub struct Touched {
    /// The instance as it is now. Its tables have no rows where its root row is gone, or isn't in the view.
    pub instance: Instance,
    /// Whether a want names a row of it.
    pub wanted: bool,
}

impl Drop for Touched {
    fn drop(self) {
        let Self {
            instance: _,
            wanted: _,
        } = self;
    }
}

/// What changed since a position of the backing history.
pub struct Changes {
    /// The position now: how many entries the history has.
    pub position: Position,
    /// What changed in the tables of the trees: one entry for each key whose row differs.
    pub log: Log,
    /// For each tree the instances of which a row changed, came or left, and those that a want names, each once.
    pub touched: Seq<Seq<Touched>>,
}

impl Drop for Changes {
    fn drop(self) {
        let Self {
            position: _,
            log: _,
            touched: _,
        } = self;
    }
}
