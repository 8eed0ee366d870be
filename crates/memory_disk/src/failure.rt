//! Calls of a disk that are planned to fail.

/// When a call fails.
#[derive(Clone, Copy, Debug, PartialEq, Eq)]
pub enum When {
    /// Before its effect, which doesn't come.
    Before,
    /// After its effect, which stands.
    After,
}

/// That the call of this number fails.
#[derive(Clone, Copy, Debug, PartialEq, Eq)]
pub struct Failure {
    /// The number, from 0, of all calls together.
    pub call: u64,
    /// When it fails.
    pub when: When,
}
