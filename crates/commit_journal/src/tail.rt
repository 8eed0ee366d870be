//! The tail: entries that are noted, and flushed as one batch.

ghost use Rattle.std.specs.Prelude.{◌≡◌, ◌↔◌, ◌+◌, ◌-◌, ◌*◌, ◌^◌, ◌<◌, ◌≤◌, ◌⊎◌, ℕ, List, [], ◌∷◌, ◌++◌, true, length, drop, Ok, Err, OnOk, OnErr, vec_len, vec_capacity};
ghost use Rattle.std.specs.Int.{w32, to_be_bytes};
ghost use Rattle.outside.specs.Calls.{Certain, Leaves};
ghost use Rattle.outside.specs.Faults.{DiskHasCause};
ghost use Rattle.outside.specs.Holding.{Held, Slots};
ghost use Rattle.journal_entries.specs.declared.entry.Entry.{Entry as OneEntry};
ghost use Rattle.journal_entries.specs.Spelling.{entry_bytes, IsEntry};
ghost use Rattle.journal_entries.specs.Bodies.{behind, follows};
ghost use Rattle.commit_journal.specs.Telling.{StillTells};
ghost use Rattle.commit_journal.specs.Resting.{AtRest, HasFlushed, HasRoom, HasSameEntries, IsPastLimit, IsSameSlot, MidFlush, Rested, Spells};

use crate::fault::ReserveError;
use crate::journal::Journal;
use crate::placing::write_batch;
use journal_entries::writing::{put_bytes, put_entry};
use journal_entries::{Entry, Standing};
use outside::{Disk, DiskFault};

/// The bytes of a batch behind its gate: the length in the place for it, the body, and the next gate, closed.
fn seal(staged: &mut Vec<u8>)
    requires least { 4 ≤ length staged.old.items }
    requires room { length staged.old.items < vec_capacity staged.old }
    requires small { length staged.old.items ≤ 2 ^ 30 }
    ensures items { staged.new.items
        ≡ to_be_bytes w32 (length staged.old.items - 4) ++ (drop 4 staged.old.items ++ 0 ∷ []) }
    ensures capacity { vec_capacity staged.old ≤ vec_capacity staged.new }
{
    let [a, b, c, d] = ((staged.len() - 4) as u32).to_be_bytes();
    staged[0] = a;
    staged[1] = b;
    staged[2] = c;
    staged[3] = d;
    staged.push_reserved(0);
}

impl Journal {
    /// Makes room for an entry of so many bytes behind the tail.
    ///
    /// `Limit` where the batch's body would pass 2^24 bytes, or the slot 2^30.
    pub fn reserve(&mut self, bytes: usize) -> Result<(), ReserveError>
        ensures room { OnOk result (HasRoom self.new bytes) }
        ensures rest { (slots : Slots) (flushed tail : List OneEntry) → AtRest self.old slots flushed tail
            → AtRest self.new slots flushed tail }
        ensures limit { (result ≡ Err ReserveError.Limit) ↔ IsPastLimit self.old bytes }
        ensures same { HasSameEntries self.old self.new }
    {
        let len = self.staged.len();
        if len > 16_777_220 || bytes > 16_777_220 - len {
            return Err(ReserveError::Limit);
        }
        if self.gate > 1_073_741_822 || (len + bytes) as u64 > 1_073_741_822 - self.gate {
            return Err(ReserveError::Limit);
        }
        match self.staged.reserve(bytes + 1) {
            Ok(()) => Ok(()),
            Err(_) => Err(ReserveError::Memory),
        }
    }

    /// Puts the entry behind the tail. It takes no memory.
    pub fn note(&mut self, entry: Entry)
        requires room { HasRoom self.old (length (entry_bytes entry)) }
        requires entry { IsEntry 2 entry }
        requires order { follows self.old.standing entry ≡ true }
        ensures rest { (slots : Slots) (flushed tail : List OneEntry) → IsEntry self.old.version entry
            → AtRest self.old slots flushed tail → AtRest self.new slots flushed (tail ++ entry ∷ []) }
        ensures room { (more : ℕ) → HasRoom self.old (length (entry_bytes entry) + more) → HasRoom self.new more }
        ensures standing { self.new.standing ≡ behind self.old.standing entry }
        ensures same { IsSameSlot self.old self.new }
    {
        put_entry(&mut self.staged, &entry);
        self.standing = self.standing.behind(&entry);
    }

    /// Puts entries behind the tail that these bytes spell. The standing is the one behind them. It takes no memory.
    pub fn note_spelled(&mut self, bytes: &[u8], standing: Standing)
        requires room { HasRoom self.old (length bytes.now) }
        ensures rest { (slots : Slots) (flushed tail entries : List OneEntry)
            → Spells self.old.version self.old.standing bytes.now standing entries
            → AtRest self.old slots flushed tail → AtRest self.new slots flushed (tail ++ entries) }
        ensures room { (more : ℕ) → HasRoom self.old (length bytes.now + more) → HasRoom self.new more }
        ensures standing { self.new.standing ≡ standing }
        ensures same { IsSameSlot self.old self.new }
    {
        put_bytes(&mut self.staged, bytes);
        self.standing = standing;
    }

    /// Puts the tail on the disk as one batch; where it is empty nothing is written. It takes no memory.
    pub fn flush<D: Disk>(&mut self, d: &mut D) -> Result<(), DiskFault>
        ensures crash { (o : Held) (flushed tail : List OneEntry) → Certain D.state D.possible d.old o
            → AtRest self.old o.slots flushed tail → Leaves D.state D.possible d.old d.new (MidFlush o flushed tail) }
        ensures flushed { OnOk result ((o : Held) (flushed tail : List OneEntry) → Certain D.state D.possible d.old o
            → AtRest self.old o.slots flushed tail → Rested D.state D.possible d.new self.new o (flushed ++ tail) []) }
        ensures standing { self.new.standing ≡ self.old.standing }
        ensures place { OnOk result (HasFlushed self.old self.new) }
        ensures tells { StillTells (D.state d.old) (D.state d.new) }
        ensures moment { (D.state d.old).moment ≤ (D.state d.new).moment }
        ensures cause { DiskHasCause (D.state d.old) (D.state d.new) result }
    {
        if self.staged.len() == 4 {
            return Ok(());
        }
        self.write_tail(d)?;
        Ok(())
    }

    /// Puts the tail on the disk as one batch, also where it is empty.
    pub(crate) fn write_tail<D: Disk>(&mut self, d: &mut D) -> Result<(), DiskFault>
        requires within { self.old.gate + length self.old.staged.items + 2 ≤ 2 ^ 30 }
        ensures crash { (o : Held) (flushed tail : List OneEntry) → Certain D.state D.possible d.old o
            → AtRest self.old o.slots flushed tail → Leaves D.state D.possible d.old d.new (MidFlush o flushed tail) }
        ensures flushed { OnOk result ((o : Held) (flushed tail : List OneEntry) → Certain D.state D.possible d.old o
            → AtRest self.old o.slots flushed tail → Rested D.state D.possible d.new self.new o (flushed ++ tail) []) }
        ensures standing { self.new.standing ≡ self.old.standing }
        ensures gate { OnOk result (self.new.gate ≡ self.old.gate + length self.old.staged.items + 1) }
        ensures slot { self.new.slot ≡ self.old.slot }
        ensures version { self.new.version ≡ self.old.version }
        ensures generation { self.new.generation ≡ self.old.generation }
        ensures tells { StillTells (D.state d.old) (D.state d.new) }
        ensures moment { (D.state d.old).moment ≤ (D.state d.new).moment }
        ensures cause { DiskHasCause (D.state d.old) (D.state d.new) result }
    {
        seal(&mut self.staged);
        let outcome = write_batch(d, self.slot, self.gate, &self.staged);
        let size = self.staged.len() as u64;
        self.staged.truncate(4);
        outcome?;
        self.gate += size;
        Ok(())
    }
}
