//! Taking over a body as the next batch.

ghost use Rattle.std.specs.Prelude.{◌≡◌, ◌↔◌, ◌+◌, ◌^◌, ◌<◌, ◌≤◌, ℕ, List, [], ◌++◌, length, Err, OnOk};
ghost use Rattle.outside.specs.Calls.{Certain, Leaves};
ghost use Rattle.outside.specs.Holding.{Held};
ghost use Rattle.journal_entries.specs.declared.entry.Entry.{Entry as OneEntry};
ghost use Rattle.journal_entries.specs.declared.standing.Standing.{Standing as OneStanding};
ghost use Rattle.journal_entries.specs.declared.standing.Ending.TheVariants.{Whole};
ghost use Rattle.journal_entries.specs.Bodies.{Body};
ghost use Rattle.commit_journal.specs.Layout.{Placed, entries_of};
ghost use Rattle.commit_journal.specs.Resting.{AtRest, IsPastLimit, MidFlush, Rested};
ghost use Rattle.commit_journal.specs.Scanning.{IsWholeBody};
ghost use Rattle.commit_journal.specs.Causes.{RotateHasCause};
ghost use Rattle.commit_journal.specs.declared.fault.RotateError.TheVariants.{Limit};

use crate::adopting::standing_behind;
use crate::fault::RotateError;
use crate::journal::Journal;
use journal_entries::writing::put_bytes;
use outside::Disk;
use std::alloc::Global;

impl Journal {
    /// Puts this body behind the entries so far as one batch, on the disk. The tail is empty, and the body reads behind
    /// the entries in the slot's version; `readable` tells whether it does. A batch without entries is written, too.
    ///
    /// `Limit` exactly where the body is longer than 2^24 bytes, or the slot would pass 2^30. `Memory` for want of
    /// memory. In both the disk isn't called, and the journal has what it had.
    pub fn append<D: Disk>(
        &mut self,
        alloc: Global,
        d: &mut D,
        body: &[u8],
    ) -> Result<(), RotateError>
        requires reads { IsWholeBody self.old.version self.old.standing (self.old.gate + 5) body.now }
        ensures crash { (o : Held) (flushed : List OneEntry) (placed : List Placed) (t : OneStanding)
            → Certain D.state D.possible d.old o → AtRest self.old o.slots flushed []
            → Body self.old.version self.old.standing (self.old.gate + 5) body.now placed (Whole t)
            → Leaves D.state D.possible d.old d.new (MidFlush o flushed (entries_of placed)) }
        ensures appended { OnOk result ((o : Held) (flushed : List OneEntry) (placed : List Placed) (t : OneStanding)
            → Certain D.state D.possible d.old o → AtRest self.old o.slots flushed []
            → Body self.old.version self.old.standing (self.old.gate + 5) body.now placed (Whole t)
            → Rested D.state D.possible d.new self.new o (flushed ++ entries_of placed) []) }
        ensures limit { (result ≡ Err Limit) ↔ IsPastLimit self.old (length body.now) }
        ensures cause { RotateHasCause (D.state d.old) (D.state d.new) result }
    {
        self.reserve(body.len())?;
        let standing = standing_behind(alloc, self.version, self.standing, self.gate + 5, body)?;
        put_bytes(&mut self.staged, body);
        self.standing = standing;
        self.write_tail(d)?;
        Ok(())
    }
}
