//! Calls of a disk that change something.

use outside::Slot;
use tier_base::Seq;

/// A call that was done.
pub enum DiskCall {
    /// These bytes were written from the place on.
    Write(Slot, u64, Seq<u8>),
    /// The slot was cut to so many bytes.
    Cut(Slot, u64),
    /// The slot was synced.
    Sync(Slot),
}

// By hand, so that what lets a call go has one call, and not all its forms.
impl Drop for DiskCall {
    fn drop(self) {
        match self {
            Self::Write(_, _, _) => {}
            Self::Cut(_, _) => {}
            Self::Sync(_) => {}
        }
    }
}
