//! What a whole text may be.

/// What a whole text is to be read as.
#[derive(Clone, Copy)]
pub enum Start {
    /// a statement without a label
    Statement,
    /// a line of a session behind its label
    Session,
    /// a line of the console behind its label
    Console,
    /// a line of the clock behind its label
    Clock,
}
