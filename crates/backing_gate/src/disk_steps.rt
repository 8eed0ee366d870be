//! The calls of the disk, as they are planned.

ghost use Rattle.std.specs.Prelude.{◌≡◌, ◌≤◌, ◌∷◌, ◌++◌, [], true, None, IfSome, IsSome};
ghost use Rattle.std.specs.Result.{IsErr};
ghost use Rattle.outside.specs.Calls.{Durable, GoesOn, HasLength, MayCut, MayWrite, ReadsFrom, Same, Stays, Told, WasCut, Wrote};
ghost use Rattle.outside.specs.Faults.{Rose};
ghost use Rattle.memory_disk.specs.Possible.{IsIdle, IsUnplanned, told_of as disk_told};
ghost use Rattle.backing_gate.specs.Calling.{Closes};
ghost use Rattle.backing_gate.specs.Heeding.{HeedsOnDisk, IsSynced, IsUndone, WasCutAll, WroteAll};
ghost use Rattle.backing_gate.specs.Memory.{DiskGoesOn, moment_of, now_of, now_possible, possible_of, site_state, told_of};
ghost use Rattle.backing_gate.specs.Plans.{after_call, planned_next};

use crate::mark::Mark;
use crate::memory_site::MemorySite;
use crate::plan::{CallKind, Outcome, When};
use outside::{Disk, DiskFault, Slot};

impl MemorySite {
    /// Begins a call of the disk: counts it, and tells what is planned of it.
    pub(crate) fn begin_disk(&mut self, kind: CallKind) -> Option<Outcome>
        ensures outcome { result ≡ planned_next kind self.old.planned }
        ensures counted { self.new ≡ record self.old { planned = after_call kind self.old.planned } }
    {
        self.plans.next(kind)
    }

    /// Ends it: counts a failed one.
    pub(crate) fn end_disk(&mut self, failed: bool)
        ensures later { self.old.disk_faults ≤ self.new.disk_faults }
        ensures rose { failed ≡ true → Rose self.old.disk_faults self.new.disk_faults }
        ensures kept { self.new ≡ record self.old { disk_faults = self.new.disk_faults } }
    {
        if failed {
            self.disk_faults = self.disk_faults.saturating_add(1);
        }
    }

    // Marks the moment before a call of the disk; none where memory is wanting for the mark.
    fn open_moment(&mut self) -> Option<Mark>
        ensures none { result ≡ None → self.new ≡ self.old }
        ensures is { IfSome result (λ mark. mark ≡ now_of self.old) }
        ensures some { IfSome result (λ mark. self.new ≡ record self.old { past = self.old.past ++ mark ∷ [] }) }
    {
        let mark = self.mark();
        match self.past.push(mark) {
            Ok(()) => return Some(mark),
            Err(_) => return None,
        }
    }

    // Takes the mark back where the call changed nothing on the disk.
    fn close_moment(&mut self, mark: Mark)
        ensures past { Closes mark self.old self.new }
        ensures kept { self.new ≡ record self.old { past = self.new.past } }
    {
        if self.disk.moments() == mark.calls {
            let _ = self.past.pop();
        }
    }

    /// Tells the slot's length, as is planned of the call.
    pub(crate) fn len_as(&mut self, outcome: Option<Outcome>, slot: Slot) -> Result<u64, DiskFault>
        ensures told { Told (told_of self.old) (told_of self.new) (HasLength slot result) }
        ensures fails { IsSome outcome → IsErr result }
        ensures answers { IsUnplanned self.old.disk → IsErr result → IsSome outcome }
        ensures undone { IsUndone self.old self.new }
        ensures kept { self.new ≡ record self.old { disk = self.new.disk } }
    {
        if outcome.is_some() {
            return Err(DiskFault);
        }
        self.len_disk(slot)
    }

    // The disk's own call.
    fn len_disk(&mut self, slot: Slot) -> Result<u64, DiskFault>
        ensures told { Told (disk_told self.old.disk) (disk_told self.new.disk) (HasLength slot result) }
        ensures answers { IsUnplanned self.old.disk → IsErr result → ⊥ }
        ensures same { IsIdle self.old.disk self.new.disk }
        ensures kept { self.new ≡ record self.old { disk = self.new.disk } }
    {
        self.disk.len(slot)
    }

    /// Reads from the place on, as is planned of the call.
    pub(crate) fn read_as(
        &mut self,
        outcome: Option<Outcome>,
        slot: Slot,
        at: u64,
        buf: &mut [u8],
    ) -> Result<usize, DiskFault>
        ensures told { Told (told_of self.old) (told_of self.new) (ReadsFrom slot at buf.new result) }
        ensures fails { IsSome outcome → IsErr result }
        ensures answers { IsUnplanned self.old.disk → IsErr result → IsSome outcome }
        ensures undone { IsUndone self.old self.new }
        ensures kept { self.new ≡ record self.old { disk = self.new.disk } }
    {
        if outcome.is_some() {
            return Err(DiskFault);
        }
        self.read_disk(slot, at, buf)
    }

    // The disk's own call.
    fn read_disk(&mut self, slot: Slot, at: u64, buf: &mut [u8]) -> Result<usize, DiskFault>
        ensures told { Told (disk_told self.old.disk) (disk_told self.new.disk) (ReadsFrom slot at buf.new result) }
        ensures answers { IsUnplanned self.old.disk → IsErr result → ⊥ }
        ensures same { IsIdle self.old.disk self.new.disk }
        ensures kept { self.new ≡ record self.old { disk = self.new.disk } }
    {
        self.disk.read_at(slot, at, buf)
    }

    /// Writes the bytes from the place on, as is planned of the call.
    pub(crate) fn write_as(
        &mut self,
        outcome: Option<Outcome>,
        slot: Slot,
        at: u64,
        bytes: &[u8],
    ) -> Result<(), DiskFault>
        ensures told { Told (told_of self.old) (told_of self.new) (Wrote slot at bytes.now result) }
        ensures crash { GoesOn site_state possible_of self.old self.new
            (MayWrite (told_of self.old) slot at bytes.now) }
        ensures heeds { HeedsOnDisk outcome self.old self.new result (WroteAll slot at bytes.now self.old self.new) }
        ensures kept { self.new ≡ record self.old { disk = self.new.disk; past = self.new.past } }
    {
        match outcome {
            Some(Outcome::Refused) => Err(DiskFault),
            Some(Outcome::Failed(When::Before)) => Err(DiskFault),
            Some(Outcome::Failed(When::After)) => {
                let _ = self.write_now(slot, at, bytes);
                Err(DiskFault)
            }
            None => self.write_now(slot, at, bytes),
        }
    }

    // The same without a plan, as a moment where it changes something.
    fn write_now(&mut self, slot: Slot, at: u64, bytes: &[u8]) -> Result<(), DiskFault>
        ensures told { Told (told_of self.old) (told_of self.new) (Wrote slot at bytes.now result) }
        ensures crash { GoesOn site_state possible_of self.old self.new
            (MayWrite (told_of self.old) slot at bytes.now) }
        ensures undone { IsUnplanned self.old.disk → IsErr result → IsUndone self.old self.new }
        ensures kept { self.new ≡ record self.old { disk = self.new.disk; past = self.new.past } }
    {
        match self.open_moment() {
            None => Err(DiskFault),
            Some(mark) => {
                let done = self.write_disk(slot, at, bytes);
                self.close_moment(mark);
                done
            }
        }
    }

    // The disk's own call.
    fn write_disk(&mut self, slot: Slot, at: u64, bytes: &[u8]) -> Result<(), DiskFault>
        ensures told { Told (disk_told self.old.disk) (disk_told self.new.disk) (Wrote slot at bytes.now result) }
        ensures crash { DiskGoesOn self.old.disk self.new.disk (MayWrite (disk_told self.old.disk) slot at bytes.now) }
        ensures undone { IsUnplanned self.old.disk → IsErr result → IsIdle self.old.disk self.new.disk }
        ensures kept { self.new ≡ record self.old { disk = self.new.disk } }
    {
        self.disk.write_at(slot, at, bytes)
    }

    /// Cuts the slot, as is planned of the call.
    pub(crate) fn cut_as(
        &mut self,
        outcome: Option<Outcome>,
        slot: Slot,
        len: u64,
    ) -> Result<(), DiskFault>
        ensures told { Told (told_of self.old) (told_of self.new) (WasCut slot len result) }
        ensures crash { GoesOn site_state possible_of self.old self.new (MayCut (told_of self.old) slot len) }
        ensures heeds { HeedsOnDisk outcome self.old self.new result (WasCutAll slot len self.old self.new) }
        ensures kept { self.new ≡ record self.old { disk = self.new.disk; past = self.new.past } }
    {
        match outcome {
            Some(Outcome::Refused) => Err(DiskFault),
            Some(Outcome::Failed(When::Before)) => Err(DiskFault),
            Some(Outcome::Failed(When::After)) => {
                let _ = self.cut_now(slot, len);
                Err(DiskFault)
            }
            None => self.cut_now(slot, len),
        }
    }

    // The same without a plan, as a moment where it changes something.
    fn cut_now(&mut self, slot: Slot, len: u64) -> Result<(), DiskFault>
        ensures told { Told (told_of self.old) (told_of self.new) (WasCut slot len result) }
        ensures crash { GoesOn site_state possible_of self.old self.new (MayCut (told_of self.old) slot len) }
        ensures undone { IsUnplanned self.old.disk → IsErr result → IsUndone self.old self.new }
        ensures kept { self.new ≡ record self.old { disk = self.new.disk; past = self.new.past } }
    {
        match self.open_moment() {
            None => Err(DiskFault),
            Some(mark) => {
                let done = self.cut_disk(slot, len);
                self.close_moment(mark);
                done
            }
        }
    }

    // The disk's own call.
    fn cut_disk(&mut self, slot: Slot, len: u64) -> Result<(), DiskFault>
        ensures told { Told (disk_told self.old.disk) (disk_told self.new.disk) (WasCut slot len result) }
        ensures crash { DiskGoesOn self.old.disk self.new.disk (MayCut (disk_told self.old.disk) slot len) }
        ensures undone { IsUnplanned self.old.disk → IsErr result → IsIdle self.old.disk self.new.disk }
        ensures kept { self.new ≡ record self.old { disk = self.new.disk } }
    {
        self.disk.cut(slot, len)
    }

    /// Makes the slot certain, as is planned of the call.
    pub(crate) fn sync_as(&mut self, outcome: Option<Outcome>, slot: Slot) -> Result<(), DiskFault>
        ensures told { Told (told_of self.old) (told_of self.new) Same }
        ensures crash { GoesOn site_state possible_of self.old self.new Stays }
        ensures durable { Durable (told_of self.old) slot result (possible_of self.new (moment_of self.new)) }
        ensures heeds { HeedsOnDisk outcome self.old self.new result (IsSynced slot self.old self.new) }
        ensures kept { self.new ≡ record self.old { disk = self.new.disk; past = self.new.past } }
    {
        match outcome {
            Some(Outcome::Refused) => Err(DiskFault),
            Some(Outcome::Failed(When::Before)) => Err(DiskFault),
            Some(Outcome::Failed(When::After)) => {
                let _ = self.sync_now(slot);
                Err(DiskFault)
            }
            None => self.sync_now(slot),
        }
    }

    // The same without a plan, as a moment where it changes something.
    fn sync_now(&mut self, slot: Slot) -> Result<(), DiskFault>
        ensures told { Told (told_of self.old) (told_of self.new) Same }
        ensures crash { GoesOn site_state possible_of self.old self.new Stays }
        ensures durable { Durable (told_of self.old) slot result (possible_of self.new (moment_of self.new)) }
        ensures undone { IsUnplanned self.old.disk → IsErr result → IsUndone self.old self.new }
        ensures kept { self.new ≡ record self.old { disk = self.new.disk; past = self.new.past } }
    {
        match self.open_moment() {
            None => Err(DiskFault),
            Some(mark) => {
                let done = self.sync_disk(slot);
                self.close_moment(mark);
                done
            }
        }
    }

    // The disk's own call.
    fn sync_disk(&mut self, slot: Slot) -> Result<(), DiskFault>
        ensures told { Told (disk_told self.old.disk) (disk_told self.new.disk) Same }
        ensures crash { DiskGoesOn self.old.disk self.new.disk Stays }
        ensures durable { Durable (disk_told self.old.disk) slot result (now_possible self.new.disk) }
        ensures undone { IsUnplanned self.old.disk → IsErr result → IsIdle self.old.disk self.new.disk }
        ensures kept { self.new ≡ record self.old { disk = self.new.disk } }
    {
        self.disk.sync(slot)
    }
}
