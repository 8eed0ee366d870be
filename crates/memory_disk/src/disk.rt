//! How the disk in memory is a disk.

ghost use Rattle.std.specs.Prelude.{◌≡◌, ◌+◌, ◌≤◌, [], ◌∷◌, length, true, false, IfOk, None, OnErr, OnOk, Some};
ghost use Rattle.std.specs.Result.{IsErr, IsOk};
ghost use Rattle.outside.specs.Calls.{Certain, Durable, GoesOn, HasLength, MayCut, MayWrite, ReadsFrom, Same, Stays, Told, WasCut, Wrote};
ghost use Rattle.outside.specs.Faults.{DiskHasCause, Rose};
ghost use Rattle.outside.specs.Holding.{slot_of};
ghost use Rattle.outside.specs.declared.disk.Slot.TheVariants.{First, Second};
ghost use Rattle.memory_disk.specs.declared.call.DiskCall.TheVariants as call;
ghost use Rattle.memory_disk.specs.DiskLaws.{certain_law, possible_law};
ghost use Rattle.memory_disk.specs.Possible.{IsDone, IsIdle, IsUnplanned, IsUntouched, held_of, moment_of, plans_of, possible_of, site_state, told_of, unused};

use crate::call::DiskCall;
use crate::failure::{Failure, When};
use crate::memory_disk::MemoryDisk;
use crate::slots::{overwrite, read_from};
use outside::{Disk, DiskFault, Slot};
use std::alloc::{AllocError, Global};
use tier_base::Seq;

impl MemoryDisk {
    /// Two slots that were never used, each the one byte 00. Calls fail as planned, before their effect or after it. Of
    /// two plans for one call the first counts.
    ///
    /// It fails for want of memory alone.
    pub fn new(alloc: Global, failing: Vec<Failure>) -> Result<MemoryDisk, AllocError>
        ensures held { IfOk result (λ d. told_of d ≡ Some unused) }
        ensures moment { IfOk result (λ d. moment_of d ≡ 0) }
        ensures certain { IfOk result (λ d. Certain site_state possible_of d (held_of d)) }
        ensures plans { IfOk result (λ d. plans_of d ≡ failing.items) }
    {
        let base_first = Vec::from_slice(alloc, &[0])?;
        let base_second = Vec::from_slice(alloc, &[0])?;
        let first = Vec::from_slice(alloc, &[0])?;
        let second = Vec::from_slice(alloc, &[0])?;
        Ok(MemoryDisk {
            alloc,
            base_first,
            base_second,
            calls: Vec::new(alloc),
            first,
            second,
            made: 0,
            failing,
            faults: 0,
        })
    }

    /// Plans that a call fails. Calls are numbered over the disk's life; of two plans for one call the first counts.
    ///
    /// It fails for want of memory alone, and then plans nothing.
    pub fn plan(&mut self, failure: Failure) -> Result<(), AllocError>
        ensures { IsUntouched self.old self.new }
    {
        self.failing.push(failure)?;
        Ok(())
    }

    /// The calls so far that changed something, in order.
    pub fn calls(&self) -> &[DiskCall]
        ensures { result.now ≡ self.now.calls.items }
    {
        self.calls.as_slice()
    }

    // Counts a call, and tells when it is to fail, if it is.
    fn planned(&mut self) -> Option<When>
        ensures same { IsUntouched self.old self.new }
        ensures plans { plans_of self.new ≡ plans_of self.old }
        ensures unplanned { IsUnplanned self.old → result ≡ None }
    {
        let call = self.made;
        self.made = self.made.saturating_add(1);
        if self.failing.is_empty() {
            return None;
        }
        match self.failing.iter().find(|failure| failure.call == call) {
            None => None,
            Some(failure) => Some(failure.when),
        }
    }

    // Counts a fault.
    fn fault(&mut self) -> DiskFault
        ensures same { IsIdle self.old self.new }
        ensures plans { plans_of self.new ≡ plans_of self.old }
        ensures rose { Rose self.old.faults self.new.faults }
        ensures later { self.old.faults ≤ self.new.faults }
    {
        self.faults = self.faults.saturating_add(1);
        DiskFault
    }

    // Notes that the slot was synced; no where memory is wanting.
    fn sync_slot(&mut self, slot: Slot) -> bool
        ensures done { result ≡ true → IsDone (call.Sync slot) self.old self.new }
        ensures else_same { result ≡ false → IsUntouched self.old self.new }
        ensures plans { plans_of self.new ≡ plans_of self.old }
    {
        if self.calls.reserve(1).is_err() {
            return false;
        }
        match slot {
            Slot::First => {
                self.calls.push_reserved(DiskCall::Sync(Slot::First));
                return true;
            }
            Slot::Second => {
                self.calls.push_reserved(DiskCall::Sync(Slot::Second));
                return true;
            }
        }
    }

    // Writes within slot 0. For want of memory nothing is done.
    fn write_first(&mut self, at: usize, bytes: &[u8]) -> Result<(), AllocError>
        requires { at ≤ length self.old.first.items }
        ensures done { OnOk result (IsDone (call.Write First at bytes.now) self.old self.new) }
        ensures else_same { OnErr result (IsUntouched self.old self.new) }
        ensures plans { plans_of self.new ≡ plans_of self.old }
    {
        let copy = Seq::from_vec(Vec::from_slice(self.alloc, bytes)?);
        self.calls.reserve(1)?;
        overwrite(self.alloc, &mut self.first, at, bytes)?;
        self.calls
            .push_reserved(DiskCall::Write(Slot::First, at as u64, copy));
        Ok(())
    }

    // Writes within slot 1. For want of memory nothing is done.
    fn write_second(&mut self, at: usize, bytes: &[u8]) -> Result<(), AllocError>
        requires { at ≤ length self.old.second.items }
        ensures done { OnOk result (IsDone (call.Write Second at bytes.now) self.old self.new) }
        ensures else_same { OnErr result (IsUntouched self.old self.new) }
        ensures plans { plans_of self.new ≡ plans_of self.old }
    {
        let copy = Seq::from_vec(Vec::from_slice(self.alloc, bytes)?);
        self.calls.reserve(1)?;
        overwrite(self.alloc, &mut self.second, at, bytes)?;
        self.calls
            .push_reserved(DiskCall::Write(Slot::Second, at as u64, copy));
        Ok(())
    }

    // Writes within the slot; no where the place is behind its end, or memory is wanting.
    fn write_slot(&mut self, slot: Slot, at: u64, bytes: &[u8]) -> bool
        ensures within { result ≡ true → at ≤ length (slot_of slot (held_of self.old).slots) }
        ensures done { result ≡ true → IsDone (call.Write slot at bytes.now) self.old self.new }
        ensures else_same { result ≡ false → IsUntouched self.old self.new }
        ensures plans { plans_of self.new ≡ plans_of self.old }
    {
        match slot {
            Slot::First => {
                if (self.first.len() as u64) < at {
                    return false;
                }
                self.write_first(at as usize, bytes).is_ok()
            }
            Slot::Second => {
                if (self.second.len() as u64) < at {
                    return false;
                }
                self.write_second(at as usize, bytes).is_ok()
            }
        }
    }

    // Cuts the slot; no where it is shorter, or memory is wanting.
    fn cut_slot(&mut self, slot: Slot, len: u64) -> bool
        ensures within { result ≡ true → len ≤ length (slot_of slot (held_of self.old).slots) }
        ensures done { result ≡ true → IsDone (call.Cut slot len) self.old self.new }
        ensures else_same { result ≡ false → IsUntouched self.old self.new }
        ensures plans { plans_of self.new ≡ plans_of self.old }
    {
        if self.calls.reserve(1).is_err() {
            return false;
        }
        match slot {
            Slot::First => {
                if (self.first.len() as u64) < len {
                    return false;
                }
                self.first.truncate(len as usize);
                self.calls.push_reserved(DiskCall::Cut(Slot::First, len));
                return true;
            }
            Slot::Second => {
                if (self.second.len() as u64) < len {
                    return false;
                }
                self.second.truncate(len as usize);
                self.calls.push_reserved(DiskCall::Cut(Slot::Second, len));
                return true;
            }
        }
    }
}

impl Disk for MemoryDisk {
    ghost state = { site_state };

    ghost possible = { possible_of };

    fn len(&mut self, slot: Slot) -> Result<u64, DiskFault>
        ensures told { Told (told_of self.old) (told_of self.new) (HasLength slot result) }
        ensures crash { GoesOn site_state possible_of self.old self.new Stays }
        ensures cause { DiskHasCause (site_state self.old) (site_state self.new) result }
        ensures plans { plans_of self.new ≡ plans_of self.old }
        ensures same { IsIdle self.old self.new }
        ensures answers { IsUnplanned self.old → IsOk result }
    {
        if self.planned().is_some() {
            return Err(self.fault());
        }
        match slot {
            Slot::First => Ok(self.first.len() as u64),
            Slot::Second => Ok(self.second.len() as u64),
        }
    }

    fn read_at(&mut self, slot: Slot, at: u64, buf: &mut [u8]) -> Result<usize, DiskFault>
        ensures told { Told (told_of self.old) (told_of self.new) (ReadsFrom slot at buf.new result) }
        ensures crash { GoesOn site_state possible_of self.old self.new Stays }
        ensures cause { DiskHasCause (site_state self.old) (site_state self.new) result }
        ensures plans { plans_of self.new ≡ plans_of self.old }
        ensures same { IsIdle self.old self.new }
        ensures answers { IsUnplanned self.old → IsOk result }
    {
        if self.planned().is_some() {
            return Err(self.fault());
        }
        match slot {
            Slot::First => Ok(read_from(&self.first, at, buf)),
            Slot::Second => Ok(read_from(&self.second, at, buf)),
        }
    }

    /// It fails, with nothing written, where the place is behind the slot's end, and for want of memory.
    fn write_at(&mut self, slot: Slot, at: u64, bytes: &[u8]) -> Result<(), DiskFault>
        ensures told { Told (told_of self.old) (told_of self.new) (Wrote slot at bytes.now result) }
        ensures crash { GoesOn site_state possible_of self.old self.new
            (MayWrite (told_of self.old) slot at bytes.now) }
        ensures cause { DiskHasCause (site_state self.old) (site_state self.new) result }
        ensures plans { plans_of self.new ≡ plans_of self.old }
        ensures undone { IsUnplanned self.old → IsErr result → IsIdle self.old self.new }
    {
        let planned = self.planned();
        if planned == Some(When::Before) {
            return Err(self.fault());
        }
        if !self.write_slot(slot, at, bytes) {
            return Err(self.fault());
        }
        if planned == Some(When::After) {
            return Err(self.fault());
        }
        Ok(())
    }

    /// It fails, with nothing cut, where the slot is shorter, and for want of memory.
    fn cut(&mut self, slot: Slot, len: u64) -> Result<(), DiskFault>
        ensures told { Told (told_of self.old) (told_of self.new) (WasCut slot len result) }
        ensures crash { GoesOn site_state possible_of self.old self.new (MayCut (told_of self.old) slot len) }
        ensures cause { DiskHasCause (site_state self.old) (site_state self.new) result }
        ensures plans { plans_of self.new ≡ plans_of self.old }
        ensures undone { IsUnplanned self.old → IsErr result → IsIdle self.old self.new }
    {
        let planned = self.planned();
        if planned == Some(When::Before) {
            return Err(self.fault());
        }
        if !self.cut_slot(slot, len) {
            return Err(self.fault());
        }
        if planned == Some(When::After) {
            return Err(self.fault());
        }
        Ok(())
    }

    /// It fails for want of memory, too.
    fn sync(&mut self, slot: Slot) -> Result<(), DiskFault>
        ensures told { Told (told_of self.old) (told_of self.new) Same }
        ensures crash { GoesOn site_state possible_of self.old self.new Stays }
        ensures durable { Durable (told_of self.old) slot result (possible_of self.new (moment_of self.new)) }
        ensures cause { DiskHasCause (site_state self.old) (site_state self.new) result }
        ensures plans { plans_of self.new ≡ plans_of self.old }
        ensures undone { IsUnplanned self.old → IsErr result → IsIdle self.old self.new }
    {
        let planned = self.planned();
        if planned == Some(When::Before) {
            return Err(self.fault());
        }
        if !self.sync_slot(slot) {
            return Err(self.fault());
        }
        if planned == Some(When::After) {
            return Err(self.fault());
        }
        Ok(())
    }

    ghost certain = { certain_law };

    ghost read_possible = { possible_law };
}
