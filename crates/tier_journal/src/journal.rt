//! The tier's journal, and what it tells of itself.

ghost use Rattle.std.specs.Prelude.{◌≡◌, ◌↔◌, ◌<◌, List, nat_lt};
ghost use Rattle.table_defs.specs.declared.definition.TableDef.{TableDef as OneTable};
ghost use Rattle.outside.specs.Holding.{Slots};
ghost use Rattle.cache_tier.specs.Journals.{Journal as OneJournal};
ghost use Rattle.tier_journal.specs.Keeping.{Keeps, generation_in, slot_in, slot_size, tail_size, version_in};

use commit_journal::Journal;
use outside::Slot;

/// The tier's journal: the commit journal, of which clauses see how long its tail and its slot are, the slot's
/// generation and version, and what may stand behind its last entry.
pub struct TierJournal {
    pub(crate) journal: Journal,
}

// By hand, so that what lets it go has one call.
impl Drop for TierJournal {
    fn drop(self) {
        let Self { journal: _ } = self;
    }
}

impl TierJournal {
    /// Whether the live slot is longer than so many bytes.
    pub fn is_long(&self, rotate_bytes: u64) -> bool
        ensures size { result ≡ nat_lt rotate_bytes (slot_size self.now) }
        ensures kept { (schema : List OneTable) (slots : Slots) (j : OneJournal) → Keeps schema self.now slots j
            → result ≡ nat_lt rotate_bytes j.written }
    {
        rotate_bytes <= self.journal.gate()
    }

    /// The slot that counts.
    pub fn slot(&self) -> Slot
        ensures { result ≡ slot_in self.now }
    {
        self.journal.slot()
    }

    /// The generation of the live slot.
    pub fn generation(&self) -> u64
        ensures { result ≡ generation_in self.now }
    {
        self.journal.generation()
    }

    /// The version of the live slot: 1 or 2. A rotation makes it 2.
    pub fn version(&self) -> u8
        ensures { result ≡ version_in self.now }
    {
        self.journal.version()
    }
}
