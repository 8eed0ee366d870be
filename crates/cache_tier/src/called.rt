//! What a CALL asks for.

/// What a CALL asks for.
#[derive(Clone, Copy, Debug, PartialEq, Eq)]
pub enum Called {
    /// ttDrain
    Drain,
    /// ttCacheAutorefresh: the set of this interval in milliseconds
    RefreshSet(u64),
    /// ttOptSetFlag: the passthrough level of this transaction, from 0 to 3
    SetLevel(u8),
}
