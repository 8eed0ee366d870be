//! What a journal tells of itself.

ghost use Rattle.std.specs.Prelude.{◌≡◌};

use crate::journal::Journal;
use journal_entries::Standing;
use outside::Slot;

impl Journal {
    /// The live slot.
    pub fn slot(&self) -> Slot
        ensures { result ≡ self.now.slot }
    {
        self.slot
    }

    /// The version of the live slot: 1 or 2. A rotation makes it 2.
    pub fn version(&self) -> u8
        ensures { result ≡ self.now.version }
    {
        self.version
    }

    /// The generation of the live slot.
    pub fn generation(&self) -> u64
        ensures { result ≡ self.now.generation }
    {
        self.generation
    }

    /// What may stand behind the last entry, flushed or not.
    pub fn standing(&self) -> Standing
        ensures { result ≡ self.now.standing }
    {
        self.standing
    }

    /// The place of the closed gate, in bytes from the slot's beginning.
    pub fn gate(&self) -> u64
        ensures { result ≡ self.now.gate }
    {
        self.gate
    }
}
