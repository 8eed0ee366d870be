//! Beginning the other slot anew.

ghost use Rattle.std.specs.Prelude.{◌≡◌, ◌≤◌, ◌↔◌, ◌⊎◌, List, Err, OnOk};
ghost use Rattle.table_defs.specs.declared.definition.TableDef.{TableDef};
ghost use Rattle.outside.specs.Calls.{Certain, Leaves};
ghost use Rattle.outside.specs.Holding.{Held};
ghost use Rattle.journal_entries.specs.Bodies.{beginning};
ghost use Rattle.commit_journal.specs.Causes.{RotateHasCause};
ghost use Rattle.commit_journal.specs.Telling.{StillTells};
ghost use Rattle.commit_journal.specs.declared.fault.RotateError.TheVariants.{Limit, Memory};
ghost use Rattle.cache_tier.specs.Journals.{Journal, JournalEntry, rotated};
ghost use Rattle.cache_tier.specs.JournalSteps.{name_size};
ghost use Rattle.tier_journal.specs.Batches.{Holds, batch_size};
ghost use Rattle.tier_journal.specs.Keeping.{IsPastSlot, Keeps, KeepsOn, standing_in, version_in};
ghost use Rattle.tier_journal.specs.Leaving.{LeftByRotation};

use crate::batch::Batch;
use crate::journal::TierJournal;
use commit_journal::RotateError;
use outside::Disk;
use std::alloc::Global;

impl TierJournal {
    /// Begins the other slot anew with the batch's entries, in version 2 and with the next generation.
    ///
    /// `Limit` exactly where the entries take more than 2^24 bytes, or no generation is left. `Memory` for want of
    /// memory. In both the journal and the disk stay. `Disk` where a disk call failed; then the journal isn't to be
    /// used.
    pub fn rotate<D: Disk>(
        &mut self,
        alloc: Global,
        d: &mut D,
        batch: &Batch,
    ) -> Result<(), RotateError>
        requires { batch.now.begins ≡ beginning }
        ensures crash { (schema : List TableDef) (o : Held) (j : Journal) (entries : List JournalEntry)
            → Certain D.state D.possible d.old o → Keeps schema self.old o.slots j → Holds 2 schema batch.now entries
            → Leaves D.state D.possible d.old d.new (LeftByRotation schema o j entries) }
        ensures rotated { OnOk result ((schema : List TableDef) (o : Held) (j : Journal) (entries : List JournalEntry)
            → Certain D.state D.possible d.old o → Keeps schema self.old o.slots j → Holds 2 schema batch.now entries
            → KeepsOn D.state D.possible d.new schema self.new o (rotated (name_size schema) entries j)) }
        ensures standing { OnOk result (standing_in self.new ≡ batch.now.standing) }
        ensures version { OnOk result (version_in self.new ≡ 2) }
        ensures stays { (result ≡ Err Limit) ⊎ (result ≡ Err Memory) → (self.new ≡ self.old) × (d.new ≡ d.old) }
        ensures limit { (result ≡ Err Limit) ↔ IsPastSlot self.old batch.now }
        ensures tells { StillTells (D.state d.old) (D.state d.new) }
        ensures moment { (D.state d.old).moment ≤ (D.state d.new).moment }
        ensures cause { RotateHasCause (D.state d.old) (D.state d.new) result }
    {
        self.journal.renew(alloc, d, &batch.bytes, batch.standing)?;
        Ok(())
    }
}
