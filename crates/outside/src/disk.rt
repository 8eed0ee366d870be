//! The journal's disk.

ghost use Rattle.outside.specs.Calls.{Durable, GoesOn, HasLength, MayCut, MayWrite, ReadsFrom, Same, Stays, Told, WasCut, Wrote};
ghost use Rattle.outside.specs.Faults.{DiskHasCause};
ghost use Rattle.outside.specs.Holding.{Held};
ghost use Rattle.outside.specs.Sites.{SiteState};
ghost use Rattle.std.specs.Prelude.{◌≡◌, ℕ, Some};

use crate::fault::DiskFault;

/// One of the two slots of the journal's disk.
#[derive(Clone, Copy, Debug, PartialEq, Eq)]
pub enum Slot {
    /// Slot 0.
    First,
    /// Slot 1.
    Second,
}

/// Two slots of bytes, and what is kept beside them. A crash at some moment leaves one of the pairs of slots and rest
/// that are possible then. (This project's model of a disk: a write reaches it for certain with the next sync of its
/// slot; until then a crash may leave any bytes in the written range.)
///
/// Each call answers `DiskFault` only where the count of faults rose in this call, or stands at its last value. After a
/// fault of a write or a cut what a read gives of the slots isn't told, but it is one of the images that are possible.
/// No call changes the count of the bank's faults, or which tables others change.
///
/// What is read and written counts within the slot: of a write past its end, and of a cut to more than its length,
/// nothing is said.
pub trait Disk {
    ghost use Rattle.std.specs.Prelude.{ℕ};

    /// What is known of the site. It tells what a read gives of the slots, and what is kept beside them, or doesn't.
    ghost state: { Self → SiteState };

    /// What a crash at this moment might have left of the slots, with what was kept beside them.
    ghost possible: { Self → ℕ → Held → Type 0 };

    /// How many bytes the slot has.
    fn len(&mut self, slot: Slot) -> Result<u64, DiskFault>
        ensures told { Told (state self.old).held (state self.new).held (HasLength slot result) }
        ensures crash { GoesOn state possible self.old self.new Stays }
        ensures cause { DiskHasCause (state self.old) (state self.new) result };

    /// Reads from the place on, and tells how many bytes: as many as the slot has there and the buffer takes. What
    /// stands in the buffer behind them isn't said.
    fn read_at(&mut self, slot: Slot, at: u64, buf: &mut [u8]) -> Result<usize, DiskFault>
        ensures told { Told (state self.old).held (state self.new).held (ReadsFrom slot at buf.new result) }
        ensures crash { GoesOn state possible self.old self.new Stays }
        ensures cause { DiskHasCause (state self.old) (state self.new) result };

    /// Writes the bytes from the place on. The slot is longer then, where they end behind its end.
    fn write_at(&mut self, slot: Slot, at: u64, bytes: &[u8]) -> Result<(), DiskFault>
        ensures told { Told (state self.old).held (state self.new).held (Wrote slot at bytes.now result) }
        ensures crash { GoesOn state possible self.old self.new (MayWrite (state self.old).held slot at bytes.now) }
        ensures cause { DiskHasCause (state self.old) (state self.new) result };

    /// Cuts the slot to its first bytes, as many as `len` says.
    fn cut(&mut self, slot: Slot, len: u64) -> Result<(), DiskFault>
        ensures told { Told (state self.old).held (state self.new).held (WasCut slot len result) }
        ensures crash { GoesOn state possible self.old self.new (MayCut (state self.old).held slot len) }
        ensures cause { DiskHasCause (state self.old) (state self.new) result };

    /// Makes the slot certain: from now on a crash leaves what a read gives of it.
    fn sync(&mut self, slot: Slot) -> Result<(), DiskFault>
        ensures told { Told (state self.old).held (state self.new).held Same }
        ensures crash { GoesOn state possible self.old self.new Stays }
        ensures durable { Durable (state self.old).held slot result (possible self.new (state self.new).moment) }
        ensures cause { DiskHasCause (state self.old) (state self.new) result };

    /// What is kept beside the slots is certain at the present moment.
    ghost certain: { (d : Self) (o p : Held) → (state d).held ≡ Some o → possible d (state d).moment p
        → p.history ≡ o.history };

    /// What a read gives is one of the images that are possible now.
    ghost read_possible: { (d : Self) (o : Held) → (state d).held ≡ Some o → possible d (state d).moment o };
}
