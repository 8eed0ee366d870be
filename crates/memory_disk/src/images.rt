//! The images that a crash leaves.

ghost use Rattle.std.specs.Prelude.{◌≡◌, ◌≤◌, ◌+◌, ◌^◌, length, take, IfOk, OnOk};
ghost use Rattle.outside.specs.Calls.{Certain};
ghost use Rattle.outside.specs.declared.disk.Slot.TheVariants.{First, Second};
ghost use Rattle.memory_disk.specs.Picking.{certain_chosen, choose_call, choose_calls, cut_chosen, drawn, patched_within, left_at, written_left, cut_left, next_draw, write_chosen};
ghost use Rattle.memory_disk.specs.Possible.{IsUnplanned, held_of, moment_of, possible_of, site_state};

use crate::call::DiskCall;
use crate::memory_disk::MemoryDisk;
use crate::pick::Pick;
use crate::slots::overwrite;
use outside::Slot;
use std::alloc::{AllocError, Global};
use std::marker::Model;

/// What the generator draws behind this number.
fn next_draw(x: u64) -> u64
    ensures { result ≡ next_draw x }
{
    let next = (x as u128 * 6_364_136_223_846_793_005 + 1_442_695_040_888_963_407) % (1 << 64);
    next as u64
}

/// So many bytes of the generator begun with this number.
fn drawn(alloc: Global, begun: u64, count: usize) -> Result<Vec<u8>, AllocError>
    ensures { IfOk result (λ bytes. bytes.items ≡ drawn begun count) }
{
    let mut bytes = Vec::with_capacity(alloc, count)?;
    let mut x = begun;
    let mut done = 0;
    while done < count {
        x = next_draw(x);
        bytes.push_reserved((x / 8_589_934_592 % 256) as u8);
        done += 1;
    }
    Ok(bytes)
}

/// Lays the bytes over the slot, where it reaches the place.
fn lay(alloc: Global, slot: &mut Vec<u8>, at: u64, bytes: &[u8]) -> Result<(), AllocError>
    ensures { OnOk result (slot.new.items ≡ patched_within at bytes.now slot.old.items) }
{
    if slot.len() as u64 >= at {
        overwrite(alloc, slot, at as usize, bytes)?;
    }
    Ok(())
}

/// What a write leaves of a slot, of which a read gives these bytes.
fn leave_write(
    alloc: Global,
    pick: Pick,
    at: u64,
    bytes: &[u8],
    left: &mut Vec<u8>,
    seen: &[u8],
) -> Result<(), AllocError>
    ensures { OnOk result
        (left.new.items ≡ written_left pick at bytes.now (record { left = left.old.items; seen = seen.now })) }
{
    match pick {
        Pick::Old => Ok(()),
        Pick::New => {
            *left = Vec::from_slice(alloc, seen)?;
            overwrite(alloc, left, at as usize, bytes)
        }
        Pick::Ones => {
            let piece = Vec::from_elem(alloc, 0xff, bytes.len())?;
            lay(alloc, left, at, &piece)
        }
        Pick::Drawn(begun) => {
            let piece = drawn(alloc, begun, bytes.len())?;
            lay(alloc, left, at, &piece)
        }
    }
}

/// What a cut leaves of a slot, of which a read gives these bytes.
fn leave_cut(
    alloc: Global,
    pick: Pick,
    len: u64,
    left: &mut Vec<u8>,
    seen: &[u8],
) -> Result<(), AllocError>
    ensures { OnOk result
        (left.new.items ≡ cut_left pick len (record { left = left.old.items; seen = seen.now })) }
{
    match pick {
        Pick::Old => Ok(()),
        Pick::New => {
            *left = Vec::from_slice(alloc, seen)?;
            left.truncate(len as usize);
            Ok(())
        }
        Pick::Ones => {
            left.truncate(len as usize);
            Ok(())
        }
        Pick::Drawn(_) => {
            left.truncate(len as usize);
            Ok(())
        }
    }
}

/// What a crash leaves of a slot, and what a read gives.
struct Trace {
    left: Vec<u8>,
    seen: Vec<u8>,
}

impl Drop for Trace {
    fn drop(self) {
        let Self { left: _, seen: _ } = self;
    }
}

impl Model for Trace {
    ghost use Rattle.memory_disk.specs.Picking.{Chosen};

    ghost Value = { Chosen };

    ghost view = { λ t. record { left = t.left.items; seen = t.seen.items } };
}

impl Trace {
    /// Of a slot that is certain.
    fn new(alloc: Global, bytes: &[u8]) -> Result<Trace, AllocError>
        ensures { IfOk result (λ t. t ≡ certain_chosen bytes.now) }
    {
        let left = Vec::from_slice(alloc, bytes)?;
        let seen = Vec::from_slice(alloc, bytes)?;
        Ok(Trace { left, seen })
    }

    fn write(&mut self, alloc: Global, pick: Pick, at: u64, bytes: &[u8]) -> Result<(), AllocError>
        ensures { OnOk result (self.new ≡ write_chosen pick at bytes.now self.old) }
    {
        leave_write(alloc, pick, at, bytes, &mut self.left, &self.seen)?;
        overwrite(alloc, &mut self.seen, at as usize, bytes)?;
        Ok(())
    }

    fn cut(&mut self, alloc: Global, pick: Pick, len: u64) -> Result<(), AllocError>
        ensures { OnOk result (self.new ≡ cut_chosen pick len self.old) }
    {
        leave_cut(alloc, pick, len, &mut self.left, &self.seen)?;
        self.seen.truncate(len as usize);
        Ok(())
    }

    fn sync(&mut self, alloc: Global) -> Result<(), AllocError>
        ensures { OnOk result (self.new ≡ certain_chosen self.old.seen) }
    {
        self.left = Vec::from_slice(alloc, &self.seen)?;
        Ok(())
    }

    /// What a crash leaves.
    fn into_left(self) -> Vec<u8>
        ensures { result.items ≡ self.left }
    {
        let Self { left, seen: _ } = self;
        left
    }

    /// Follows a call as slot 0.
    fn follow_first(&mut self, alloc: Global, pick: Pick, call: &DiskCall) -> Result<(), AllocError>
        ensures { OnOk result (self.new ≡ choose_call First pick call.now self.old) }
    {
        match call {
            DiskCall::Write(Slot::First, at, bytes) => {
                self.write(alloc, pick, *at, bytes.as_slice())
            }
            DiskCall::Write(Slot::Second, _, _) => Ok(()),
            DiskCall::Cut(Slot::First, len) => self.cut(alloc, pick, *len),
            DiskCall::Cut(Slot::Second, _) => Ok(()),
            DiskCall::Sync(Slot::First) => self.sync(alloc),
            DiskCall::Sync(Slot::Second) => Ok(()),
        }
    }

    /// Follows a call as slot 1.
    fn follow_second(
        &mut self,
        alloc: Global,
        pick: Pick,
        call: &DiskCall,
    ) -> Result<(), AllocError>
        ensures { OnOk result (self.new ≡ choose_call Second pick call.now self.old) }
    {
        match call {
            DiskCall::Write(Slot::Second, at, bytes) => {
                self.write(alloc, pick, *at, bytes.as_slice())
            }
            DiskCall::Write(Slot::First, _, _) => Ok(()),
            DiskCall::Cut(Slot::Second, len) => self.cut(alloc, pick, *len),
            DiskCall::Cut(Slot::First, _) => Ok(()),
            DiskCall::Sync(Slot::Second) => self.sync(alloc),
            DiskCall::Sync(Slot::First) => Ok(()),
        }
    }

    /// Follows a call as this slot.
    fn follow(
        &mut self,
        alloc: Global,
        slot: Slot,
        pick: Pick,
        call: &DiskCall,
    ) -> Result<(), AllocError>
        ensures { OnOk result (self.new ≡ choose_call slot pick call.now self.old) }
    {
        match slot {
            Slot::First => self.follow_first(alloc, pick, call),
            Slot::Second => self.follow_second(alloc, pick, call),
        }
    }
}

/// What the pick leaves of a slot that was certain before these calls.
fn left_of(
    alloc: Global,
    slot: Slot,
    pick: Pick,
    base: &[u8],
    calls: &[DiskCall],
) -> Result<Vec<u8>, AllocError>
    ensures { IfOk result
        (λ left. left.items ≡ (choose_calls slot pick calls.now (certain_chosen base.now)).left) }
{
    let mut trace = Trace::new(alloc, base)?;
    for call in calls {
        trace.follow(alloc, slot, pick, call)?;
    }
    Ok(trace.into_left())
}

impl MemoryDisk {
    /// Two slots that hold these bytes for certain, with no call before. No call fails.
    ///
    /// It fails for want of memory alone.
    pub fn of(alloc: Global, first: Vec<u8>, second: Vec<u8>) -> Result<MemoryDisk, AllocError>
        ensures first { IfOk result (λ d. (held_of d).slots.first ≡ first.items) }
        ensures second { IfOk result (λ d. (held_of d).slots.second ≡ second.items) }
        ensures moment { IfOk result (λ d. moment_of d ≡ 0) }
        ensures certain { IfOk result (λ d. Certain site_state possible_of d (held_of d)) }
        ensures unplanned { IfOk result IsUnplanned }
    {
        let base_first = Vec::from_slice(alloc, &first)?;
        let base_second = Vec::from_slice(alloc, &second)?;
        Ok(MemoryDisk {
            alloc,
            base_first,
            base_second,
            calls: Vec::new(alloc),
            first,
            second,
            made: 0,
            failing: Vec::new(alloc),
            faults: 0,
        })
    }

    /// The present moment: how many calls have changed something.
    pub fn moments(&self) -> u64
        ensures { result ≡ moment_of self.now }
    {
        self.calls.len() as u64
    }

    /// The disk that a crash at this moment leaves, as picked of what is possible then. It holds its slots for certain,
    /// and no call of it fails. The moment is at most the present one.
    ///
    /// It fails for want of memory alone.
    pub fn crash(&self, moment: u64, pick: Pick) -> Result<MemoryDisk, AllocError>
        requires { moment ≤ moment_of self.now }
        ensures possible { IfOk result (λ d. possible_of self.now moment (held_of d)) }
        ensures picked { IfOk result (λ d. held_of d ≡ left_at self.now moment pick) }
        ensures certain { IfOk result (λ d. Certain site_state possible_of d (held_of d)) }
        ensures moment { IfOk result (λ d. moment_of d ≡ 0) }
        ensures unplanned { IfOk result IsUnplanned }
    {
        let calls = &self.calls[..moment as usize];
        let first = left_of(self.alloc, Slot::First, pick, &self.base_first, calls)?;
        let second = left_of(self.alloc, Slot::Second, pick, &self.base_second, calls)?;
        let left = MemoryDisk::of(self.alloc, first, second)?;
        Ok(left)
    }
}
