//! Room for entries, and entries in the tail.

ghost use Rattle.std.specs.Prelude.{◌≡◌, ◌↔◌, ℕ, List, true, Err, OnOk};
ghost use Rattle.table_defs.specs.declared.definition.TableDef.{TableDef};
ghost use Rattle.outside.specs.Holding.{Slots};
ghost use Rattle.commit_journal.specs.declared.fault.ReserveError.TheVariants.{Limit};
ghost use Rattle.cache_tier.specs.Journals.{Journal, JournalEntry, is_full};
ghost use Rattle.cache_tier.specs.JournalSteps.{name_size};
ghost use Rattle.tier_journal.specs.Batches.{Holds};
ghost use Rattle.tier_journal.specs.Keeping.{HasRoomFor, HasSame, IsBehind, IsTooMuch, Keeps, standing_in, version_in, with_tail};

use crate::batch::Batch;
use crate::journal::TierJournal;
use commit_journal::ReserveError;

impl TierJournal {
    /// Makes room for the batch behind the tail.
    ///
    /// `Limit` exactly where its entries don't fit the journal. `Memory` for want of memory. In both the journal stays.
    pub fn room_for(&mut self, batch: &Batch) -> Result<(), ReserveError>
        ensures room { OnOk result (HasRoomFor self.new batch.now) }
        ensures limit { (result ≡ Err Limit) ↔ IsTooMuch self.old batch.now }
        ensures full { (schema : List TableDef) (slots : Slots) (j : Journal) (version : ℕ)
            (entries : List JournalEntry) → Keeps schema self.old slots j → Holds version schema batch.now entries
            → ((result ≡ Err Limit) ↔ (is_full (name_size schema) j entries ≡ true)) }
        ensures kept { (schema : List TableDef) (slots : Slots) (j : Journal) → Keeps schema self.old slots j
            → Keeps schema self.new slots j }
        ensures same { HasSame self.old self.new }
    {
        self.journal.reserve(batch.bytes.len())
    }

    /// Puts the batch's entries behind the tail. Room was made for them. It takes no memory.
    pub fn note(&mut self, batch: &Batch)
        requires room { HasRoomFor self.old batch.now }
        requires place { IsBehind self.old batch.now }
        ensures noted { (schema : List TableDef) (slots : Slots) (j : Journal) (entries : List JournalEntry)
            → Keeps schema self.old slots j → Holds (version_in self.old) schema batch.now entries
            → Keeps schema self.new slots (with_tail entries j) }
        ensures standing { standing_in self.new ≡ batch.now.standing }
        ensures version { version_in self.new ≡ version_in self.old }
    {
        self.journal.note_spelled(&batch.bytes, batch.standing);
    }
}
