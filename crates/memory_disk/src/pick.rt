//! What a crash leaves in the ranges that aren't certain.

/// Which of the images that are possible a crash leaves: what stands in the ranges of writes that aren't synced.
#[derive(Clone, Copy, Debug, PartialEq, Eq)]
pub enum Pick {
    /// The bytes before the writes; cuts that aren't synced didn't come.
    Old,
    /// The bytes that were written; all cuts came.
    New,
    /// The byte FF; all cuts came.
    Ones,
    /// In each range the bytes of a generator begun with this number; all cuts came.
    Drawn(u64),
}
