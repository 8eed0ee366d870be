//! Flushing the tail.

ghost use Rattle.std.specs.Prelude.{◌≡◌, ◌≤◌, List, [], OnOk};
ghost use Rattle.table_defs.specs.declared.definition.TableDef.{TableDef};
ghost use Rattle.outside.specs.Calls.{Certain, Leaves};
ghost use Rattle.outside.specs.Faults.{DiskHasCause};
ghost use Rattle.outside.specs.Holding.{Held};
ghost use Rattle.commit_journal.specs.Telling.{StillTells};
ghost use Rattle.cache_tier.specs.Journals.{Journal, JournalEntry, flushed_with};
ghost use Rattle.cache_tier.specs.JournalSteps.{name_size};
ghost use Rattle.tier_journal.specs.Batches.{Holds};
ghost use Rattle.tier_journal.specs.Keeping.{HasRoomFor, IsBehind, Keeps, KeepsOn, standing_in, version_in};
ghost use Rattle.tier_journal.specs.Leaving.{LeftByFlush};

use crate::batch::Batch;
use crate::journal::TierJournal;
use outside::{Disk, DiskFault};

impl TierJournal {
    /// Puts the tail on the disk as one batch; where it is empty nothing is written. It takes no memory. After a fault
    /// the journal isn't to be used.
    pub fn flush<D: Disk>(&mut self, d: &mut D) -> Result<(), DiskFault>
        ensures crash { (schema : List TableDef) (o : Held) (j : Journal) → Certain D.state D.possible d.old o
            → Keeps schema self.old o.slots j
            → Leaves D.state D.possible d.old d.new (LeftByFlush schema o j []) }
        ensures flushed { OnOk result ((schema : List TableDef) (o : Held) (j : Journal)
            → Certain D.state D.possible d.old o → Keeps schema self.old o.slots j
            → KeepsOn D.state D.possible d.new schema self.new o (flushed_with (name_size schema) [] j)) }
        ensures standing { standing_in self.new ≡ standing_in self.old }
        ensures version { OnOk result (version_in self.new ≡ version_in self.old) }
        ensures tells { StillTells (D.state d.old) (D.state d.new) }
        ensures moment { (D.state d.old).moment ≤ (D.state d.new).moment }
        ensures cause { DiskHasCause (D.state d.old) (D.state d.new) result }
    {
        self.journal.flush(d)?;
        Ok(())
    }

    /// Puts the tail and the batch's entries on the disk as one batch. Room was made for them. It takes no memory.
    /// After a fault the journal isn't to be used.
    pub fn flush_with<D: Disk>(&mut self, d: &mut D, batch: &Batch) -> Result<(), DiskFault>
        requires room { HasRoomFor self.old batch.now }
        requires place { IsBehind self.old batch.now }
        ensures crash { (schema : List TableDef) (o : Held) (j : Journal) (entries : List JournalEntry)
            → Certain D.state D.possible d.old o → Keeps schema self.old o.slots j
            → Holds (version_in self.old) schema batch.now entries
            → Leaves D.state D.possible d.old d.new (LeftByFlush schema o j entries) }
        ensures flushed { OnOk result ((schema : List TableDef) (o : Held) (j : Journal) (entries : List JournalEntry)
            → Certain D.state D.possible d.old o → Keeps schema self.old o.slots j
            → Holds (version_in self.old) schema batch.now entries
            → KeepsOn D.state D.possible d.new schema self.new o (flushed_with (name_size schema) entries j)) }
        ensures standing { standing_in self.new ≡ batch.now.standing }
        ensures version { OnOk result (version_in self.new ≡ version_in self.old) }
        ensures tells { StillTells (D.state d.old) (D.state d.new) }
        ensures moment { (D.state d.old).moment ≤ (D.state d.new).moment }
        ensures cause { DiskHasCause (D.state d.old) (D.state d.new) result }
    {
        self.note(batch);
        self.flush(d)?;
        Ok(())
    }
}
