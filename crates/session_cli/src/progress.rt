//! What is told of how far a long command has come.

/// Hears how far a run has come.
pub trait Progress {
    /// So many lines with a reply are answered.
    fn tell(&mut self, answered: u64);
}

/// Hears nothing.
#[derive(Clone, Copy, Drop)]
pub struct Silent;

impl Progress for Silent {
    fn tell(&mut self, _answered: u64) {}
}
