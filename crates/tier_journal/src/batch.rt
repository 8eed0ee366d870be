//! Entries on their way to the journal.

ghost use Rattle.std.specs.Prelude.{◌≡◌};
ghost use Rattle.journal_entries.specs.Bodies.{beginning};
ghost use Rattle.tier_journal.specs.Batches.{IsEmpty, batch_size};
ghost use Rattle.tier_journal.specs.Keeping.{standing_in};

use crate::journal::TierJournal;
use journal_entries::Standing;
use std::alloc::Global;

/// Entries on their way to the journal, as their bytes: they are noted or flushed together, or begin a new slot.
pub struct Batch {
    /// Where the first of them stands.
    pub(crate) begins: Standing,
    /// Behind the last of them.
    pub(crate) standing: Standing,
    /// The bytes.
    pub(crate) bytes: Vec<u8>,
}

// By hand, so that what lets a batch go has one call.
impl Drop for Batch {
    fn drop(self) {
        let Self {
            begins: _,
            standing: _,
            bytes: _,
        } = self;
    }
}

impl Batch {
    /// No entry yet; the first is to stand behind the journal's. It takes no memory.
    pub fn behind(alloc: Global, journal: &TierJournal) -> Batch
        ensures { IsEmpty result (standing_in journal.now) }
    {
        Batch {
            begins: journal.journal.standing(),
            standing: journal.journal.standing(),
            bytes: Vec::new(alloc),
        }
    }

    /// No entry yet; the first is to begin a slot. It takes no memory.
    pub fn of_a_slot(alloc: Global) -> Batch
        ensures { IsEmpty result beginning }
    {
        Batch {
            begins: Standing::beginning(),
            standing: Standing::beginning(),
            bytes: Vec::new(alloc),
        }
    }

    /// How many bytes the entries take.
    pub fn size(&self) -> usize
        ensures { result ≡ batch_size self.now }
    {
        self.bytes.len()
    }
}
