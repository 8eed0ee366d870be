//! How the site in memory is a disk.

ghost use Rattle.std.specs.Prelude.{◌≡◌};
ghost use Rattle.std.specs.Result.{IsErr};
ghost use Rattle.outside.specs.Calls.{Durable, GoesOn, HasLength, MayCut, MayWrite, ReadsFrom, Same, Stays, Told, WasCut, Wrote};
ghost use Rattle.outside.specs.Faults.{DiskHasCause};
ghost use Rattle.memory_disk.specs.Possible.{IsUnplanned};
ghost use Rattle.backing_gate.specs.Heeding.{HeedsPlan, IsPlanned, IsSynced, IsUndone, KeepsBank, WasCutAll, WroteAll};
ghost use Rattle.backing_gate.specs.Memory.{moment_of, possible_of, site_state, told_of};
ghost use Rattle.backing_gate.specs.Plans.{after_call};
ghost use Rattle.backing_gate.specs.SiteLaws.{certain_law, possible_law};

use crate::memory_site::MemorySite;
use crate::plan::CallKind;
use outside::{Disk, DiskFault, Slot};

impl Disk for MemorySite {
    ghost state = { site_state };

    ghost possible = { possible_of };

    fn len(&mut self, slot: Slot) -> Result<u64, DiskFault>
        ensures told { Told (told_of self.old) (told_of self.new) (HasLength slot result) }
        ensures crash { GoesOn site_state possible_of self.old self.new Stays }
        ensures cause { DiskHasCause (site_state self.old) (site_state self.new) result }
        ensures planned { IsPlanned CallKind.Len self.old → IsErr result }
        ensures answers { IsUnplanned self.old.disk → IsErr result → IsPlanned CallKind.Len self.old }
        ensures undone { IsUndone self.old self.new }
        ensures counted { self.new.planned ≡ after_call CallKind.Len self.old.planned }
        ensures beside { KeepsBank self.old self.new }
    {
        let outcome = self.begin_disk(CallKind::Len);
        let answer = self.len_as(outcome, slot);
        self.end_disk(answer.is_err());
        answer
    }

    fn read_at(&mut self, slot: Slot, at: u64, buf: &mut [u8]) -> Result<usize, DiskFault>
        ensures told { Told (told_of self.old) (told_of self.new) (ReadsFrom slot at buf.new result) }
        ensures crash { GoesOn site_state possible_of self.old self.new Stays }
        ensures cause { DiskHasCause (site_state self.old) (site_state self.new) result }
        ensures planned { IsPlanned CallKind.ReadAt self.old → IsErr result }
        ensures answers { IsUnplanned self.old.disk → IsErr result → IsPlanned CallKind.ReadAt self.old }
        ensures undone { IsUndone self.old self.new }
        ensures counted { self.new.planned ≡ after_call CallKind.ReadAt self.old.planned }
        ensures beside { KeepsBank self.old self.new }
    {
        let outcome = self.begin_disk(CallKind::ReadAt);
        let answer = self.read_as(outcome, slot, at, buf);
        self.end_disk(answer.is_err());
        answer
    }

    /// It fails, with nothing written, where the place is behind the slot's end, and for want of memory.
    fn write_at(&mut self, slot: Slot, at: u64, bytes: &[u8]) -> Result<(), DiskFault>
        ensures told { Told (told_of self.old) (told_of self.new) (Wrote slot at bytes.now result) }
        ensures crash { GoesOn site_state possible_of self.old self.new
            (MayWrite (told_of self.old) slot at bytes.now) }
        ensures cause { DiskHasCause (site_state self.old) (site_state self.new) result }
        ensures planned { HeedsPlan CallKind.WriteAt self.old self.new result (WroteAll slot at bytes.now) }
        ensures counted { self.new.planned ≡ after_call CallKind.WriteAt self.old.planned }
        ensures beside { KeepsBank self.old self.new }
    {
        let outcome = self.begin_disk(CallKind::WriteAt);
        let done = self.write_as(outcome, slot, at, bytes);
        self.end_disk(done.is_err());
        done
    }

    /// It fails, with nothing cut, where the slot is shorter, and for want of memory.
    fn cut(&mut self, slot: Slot, len: u64) -> Result<(), DiskFault>
        ensures told { Told (told_of self.old) (told_of self.new) (WasCut slot len result) }
        ensures crash { GoesOn site_state possible_of self.old self.new (MayCut (told_of self.old) slot len) }
        ensures cause { DiskHasCause (site_state self.old) (site_state self.new) result }
        ensures planned { HeedsPlan CallKind.Cut self.old self.new result (WasCutAll slot len) }
        ensures counted { self.new.planned ≡ after_call CallKind.Cut self.old.planned }
        ensures beside { KeepsBank self.old self.new }
    {
        let outcome = self.begin_disk(CallKind::Cut);
        let done = self.cut_as(outcome, slot, len);
        self.end_disk(done.is_err());
        done
    }

    /// It fails for want of memory, too.
    fn sync(&mut self, slot: Slot) -> Result<(), DiskFault>
        ensures told { Told (told_of self.old) (told_of self.new) Same }
        ensures crash { GoesOn site_state possible_of self.old self.new Stays }
        ensures durable { Durable (told_of self.old) slot result (possible_of self.new (moment_of self.new)) }
        ensures cause { DiskHasCause (site_state self.old) (site_state self.new) result }
        ensures planned { HeedsPlan CallKind.Sync self.old self.new result (IsSynced slot) }
        ensures counted { self.new.planned ≡ after_call CallKind.Sync self.old.planned }
        ensures beside { KeepsBank self.old self.new }
    {
        let outcome = self.begin_disk(CallKind::Sync);
        let done = self.sync_as(outcome, slot);
        self.end_disk(done.is_err());
        done
    }

    ghost certain = { certain_law };

    ghost read_possible = { possible_law };
}
