//! Rotation: moving on to the other slot.

ghost use Rattle.std.specs.Prelude.{◌≡◌, ◌↔◌, ◌+◌, ◌^◌, ◌<◌, ◌≤◌, ◌⊎◌, ℕ, List, [], length, Err, IfOk, OnOk};
ghost use Rattle.std.specs.List.{AllByRecursion, flat_map};
ghost use Rattle.outside.specs.Calls.{Certain, Leaves};
ghost use Rattle.outside.specs.Faults.{DiskHasCause};
ghost use Rattle.outside.specs.Holding.{Held};
ghost use Rattle.journal_entries.specs.declared.entry.Entry.{Entry as OneEntry};
ghost use Rattle.journal_entries.specs.declared.standing.Ending.TheVariants.{Whole};
ghost use Rattle.journal_entries.specs.Bodies.{AllFollow, Body, beginning};
ghost use Rattle.journal_entries.specs.Spelling.{entry_bytes, IsEntry};
ghost use Rattle.commit_journal.specs.Causes.{RotateHasCause};
ghost use Rattle.commit_journal.specs.declared.fault.RotateError.TheVariants.{Limit, Memory};
ghost use Rattle.commit_journal.specs.Layout.{Placed, entries_of};
ghost use Rattle.commit_journal.specs.Resting.{AtRest, Rested, Spells};
ghost use Rattle.commit_journal.specs.Telling.{StillTells};
ghost use Rattle.commit_journal.specs.Turning.{HasRenewed, IsPastRenewal, IsPastRotation, MidRotation, slot_bytes};

use crate::adopting::slot_image;
use crate::fault::RotateError;
use crate::journal::Journal;
use crate::placing::{other, turn_over};
use journal_entries::writing::put_entries;
use journal_entries::{Entry, Standing, entries_size};
use outside::{Disk, DiskFault};
use std::alloc::{AllocError, Global};

/// The bytes of the entries.
fn spelled(alloc: Global, entries: &[Entry]) -> Result<Vec<u8>, AllocError>
    requires small { length (flat_map entry_bytes entries.now) ≤ 2 ^ 24 }
    requires entries { AllByRecursion (IsEntry 2) entries.now }
    ensures { IfOk result (λ bytes. bytes.items ≡ flat_map entry_bytes entries.now) }
{
    let mut bytes = Vec::with_capacity(alloc, entries_size(entries) as usize)?;
    put_entries(&mut bytes, entries);
    Ok(bytes)
}

impl Journal {
    /// Moves on to the other slot, with these entries as its only batch, in version 2 and with the next generation. A
    /// mark may be the first of them.
    ///
    /// `Limit` exactly where the entries take more than 2^24 bytes, or the generation is 2^64 - 1. `Memory` for want of
    /// memory. In both the disk isn't called.
    pub fn rotate<D: Disk>(
        &mut self,
        alloc: Global,
        d: &mut D,
        entries: &[Entry],
    ) -> Result<(), RotateError>
        requires entries { AllByRecursion (IsEntry 2) entries.now }
        requires order { AllFollow beginning entries.now }
        ensures crash { (o : Held) (flushed tail : List OneEntry) → Certain D.state D.possible d.old o
            → AtRest self.old o.slots flushed tail
            → Leaves D.state D.possible d.old d.new (MidRotation o flushed entries.now) }
        ensures moved { OnOk result ((o : Held) (flushed tail : List OneEntry) → Certain D.state D.possible d.old o
            → AtRest self.old o.slots flushed tail → Rested D.state D.possible d.new self.new o entries.now []) }
        ensures limit { (result ≡ Err Limit) ↔ IsPastRotation self.old entries.now }
        ensures tells { StillTells (D.state d.old) (D.state d.new) }
        ensures moment { (D.state d.old).moment ≤ (D.state d.new).moment }
        ensures cause { RotateHasCause (D.state d.old) (D.state d.new) result }
    {
        if self.generation == u64::MAX {
            return Err(RotateError::Limit);
        }
        if entries_size(entries) > 16_777_216 {
            return Err(RotateError::Limit);
        }
        let generation = self.generation + 1;
        let standing = Standing::beginning().behind_all(entries);
        let body = spelled(alloc, entries)?;
        let bytes = slot_image(alloc, generation, &body)?;
        self.move_on(d, generation, standing, &bytes)?;
        Ok(())
    }

    /// Moves on to the other slot, with the entries that these bytes spell as its only batch, in version 2 and with the
    /// next generation. The standing is the one behind them. A mark may be the first of them.
    ///
    /// `Limit` exactly where the bytes are more than 2^24, or the generation is 2^64 - 1. `Memory` for want of memory.
    /// In both the disk isn't called, and the journal stays.
    pub fn renew<D: Disk>(
        &mut self,
        alloc: Global,
        d: &mut D,
        bytes: &[u8],
        standing: Standing,
    ) -> Result<(), RotateError>
        ensures crash { (o : Held) (flushed tail entries : List OneEntry) → Certain D.state D.possible d.old o
            → AtRest self.old o.slots flushed tail → Spells 2 beginning bytes.now standing entries
            → Leaves D.state D.possible d.old d.new (MidRotation o flushed entries) }
        ensures moved { OnOk result ((o : Held) (flushed tail entries : List OneEntry)
            → Certain D.state D.possible d.old o → AtRest self.old o.slots flushed tail
            → Spells 2 beginning bytes.now standing entries → Rested D.state D.possible d.new self.new o entries []) }
        ensures place { OnOk result (HasRenewed self.old self.new (length bytes.now)) }
        ensures standing { OnOk result (self.new.standing ≡ standing) }
        ensures stays { (result ≡ Err Limit) ⊎ (result ≡ Err Memory) → (self.new ≡ self.old) × (d.new ≡ d.old) }
        ensures limit { (result ≡ Err Limit) ↔ IsPastRenewal self.old (length bytes.now) }
        ensures tells { StillTells (D.state d.old) (D.state d.new) }
        ensures moment { (D.state d.old).moment ≤ (D.state d.new).moment }
        ensures cause { RotateHasCause (D.state d.old) (D.state d.new) result }
    {
        if self.generation == u64::MAX {
            return Err(RotateError::Limit);
        }
        if bytes.len() > 16_777_216 {
            return Err(RotateError::Limit);
        }
        let generation = self.generation + 1;
        let image = slot_image(alloc, generation, bytes)?;
        self.move_on(d, generation, standing, &image)?;
        Ok(())
    }

    /// Moves on to the other slot, with these bytes behind its first: a header, a batch and a closed gate. The
    /// standing is that behind the batch.
    pub(crate) fn move_on<D: Disk>(
        &mut self,
        d: &mut D,
        generation: u64,
        standing: Standing,
        bytes: &[u8],
    ) -> Result<(), DiskFault>
        ensures crash { (o : Held) (flushed tail : List OneEntry) (body : List ℕ) (placed : List Placed)
            → Certain D.state D.possible d.old o → AtRest self.old o.slots flushed tail
            → self.old.generation < generation → bytes.now ≡ slot_bytes generation body → length body ≤ 2 ^ 24
            → Body 2 beginning 15 body placed (Whole standing)
            → Leaves D.state D.possible d.old d.new (MidRotation o flushed (entries_of placed)) }
        ensures moved { OnOk result ((o : Held) (flushed tail : List OneEntry) (body : List ℕ) (placed : List Placed)
            → Certain D.state D.possible d.old o → AtRest self.old o.slots flushed tail
            → self.old.generation < generation → bytes.now ≡ slot_bytes generation body → length body ≤ 2 ^ 24
            → Body 2 beginning 15 body placed (Whole standing)
            → Rested D.state D.possible d.new self.new o (entries_of placed) []) }
        ensures generation { OnOk result (self.new.generation ≡ generation) }
        ensures version { OnOk result (self.new.version ≡ 2) }
        ensures gate { OnOk result (self.new.gate ≡ length bytes.now) }
        ensures standing { OnOk result (self.new.standing ≡ standing) }
        ensures tells { StillTells (D.state d.old) (D.state d.new) }
        ensures moment { (D.state d.old).moment ≤ (D.state d.new).moment }
        ensures cause { DiskHasCause (D.state d.old) (D.state d.new) result }
    {
        let target = other(self.slot);
        turn_over(d, target, bytes)?;
        self.slot = target;
        self.version = 2;
        self.generation = generation;
        self.gate = bytes.len() as u64;
        self.standing = standing;
        self.staged.truncate(4);
        Ok(())
    }
}
