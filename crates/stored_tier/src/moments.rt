//! When READONLY groups were refreshed last.

/// When the set of an interval was refreshed last, tried or done.
#[derive(Clone, Copy, Debug, PartialEq, Eq)]
pub struct SetMoment {
    /// The interval, in milliseconds.
    pub interval: u64,
    /// The moment, in milliseconds since 1970.
    pub refreshed: u64,
}
