//! What a look at the slots finds.

use crate::journal::Journal;
use journal_entries::Bytes;
use outside::Slot;

/// What a look at the slots finds.
pub enum Looked {
    /// A slot is live: the journal, and the bodies of its batches, in order.
    Live(Journal, Vec<Bytes>),
    /// No slot is live.
    Blank,
    /// This is the first place that doesn't read: the slot, and the byte in it.
    Damaged(Slot, u64),
}

// By hand, so that what lets it go has one call, and not all its forms.
impl Drop for Looked {
    fn drop(self) {
        match self {
            Self::Live(_, _) => {}
            Self::Blank => {}
            Self::Damaged(_, _) => {}
        }
    }
}
