//! An entry that is made ready for the journal.

ghost use Rattle.std.specs.Prelude.{◌≡◌, ℕ, IfOk};
ghost use Rattle.tier_journal.specs.Drafts.{FillsIn, HasKept, is_full_draft};

use crate::{Batch, ReserveError, TierJournal};
use std::alloc::AllocError;

/// An entry that is made ready for the journal.
pub enum Draft {
    /// The tier keeps no journal.
    Unkept,
    /// Its bytes, for which there is room.
    Fits(Batch),
    /// The journal has no room for it, which is 119.
    Full,
}

// By hand, so that what lets a draft go has one call, and not all its forms.
impl Drop for Draft {
    fn drop(self) {
        match self {
            Self::Unkept => {}
            Self::Fits(_) => {}
            Self::Full => {}
        }
    }
}

impl Draft {
    /// Whether the journal has no room for the entry.
    pub fn is_full(&self) -> bool
        ensures { result ≡ is_full_draft self.now }
    {
        match self {
            Self::Unkept => false,
            Self::Fits(_) => false,
            Self::Full => true,
        }
    }
}

/// The batch with room made for it, where there is some. It fails for want of memory alone.
pub(crate) fn placed(journal: &mut TierJournal, batch: Batch) -> Result<Draft, AllocError>
    ensures draft { IfOk result (λ draft. FillsIn journal.old journal.new batch draft) }
    ensures kept { HasKept journal.old journal.new }
{
    match journal.room_for(&batch) {
        Ok(()) => Ok(Draft::Fits(batch)),
        Err(ReserveError::Limit) => Ok(Draft::Full),
        Err(ReserveError::Memory) => Err(AllocError),
    }
}
