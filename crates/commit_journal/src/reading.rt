//! Reading a slot.

ghost use Rattle.std.specs.Prelude.{◌≡◌, ◌+◌, ◌-◌, ◌*◌, ◌^◌, ◌<◌, ◌≤◌, ℕ, List, [], ◌++◌, min, length, take, drop, Some, IfOk, OnOk};
ghost use Rattle.commit_journal.specs.Causes.{OpenHasCause};
ghost use Rattle.outside.specs.Calls.{Certain, Leaves, Rests};
ghost use Rattle.outside.specs.Faults.{DiskHasCause};
ghost use Rattle.outside.specs.Holding.{Held, slot_of};
ghost use Rattle.commit_journal.specs.Layout.{head_of};

use crate::fault::OpenError;
use crate::head::Head;
use outside::{Disk, DiskFault, Slot};
use std::alloc::Global;

/// The greatest piece that is read at once.
const PIECE_BYTES: usize = 65_536;

/// From now on both slots hold for certain what a read gives.
pub(crate) fn settle<D: Disk>(d: &mut D) -> Result<(), DiskFault>
    ensures crash { (o : Held) → (D.state d.old).held ≡ Some o
        → Leaves D.state D.possible d.old d.new (D.possible d.old (D.state d.old).moment) }
    ensures certain { OnOk result ((o : Held) → (D.state d.old).held ≡ Some o → Certain D.state D.possible d.new o) }
    ensures cause { DiskHasCause (D.state d.old) (D.state d.new) result }
{
    d.sync(Slot::First)?;
    d.sync(Slot::Second)?;
    Ok(())
}

/// How long the slot is.
pub(crate) fn slot_length<D: Disk>(d: &mut D, slot: Slot) -> Result<u64, DiskFault>
    ensures length { IfOk result (λ n. (o : Held) → Certain D.state D.possible d.old o
        → n ≡ length (slot_of slot o.slots)) }
    ensures rests { Rests D.state D.possible d.old d.new }
    ensures cause { DiskHasCause (D.state d.old) (D.state d.new) result }
{
    d.len(slot)
}

/// Fills the buffer from the place on, where the slot has so much.
fn read_piece<D: Disk>(d: &mut D, slot: Slot, at: u64, buf: &mut [u8]) -> Result<(), DiskFault>
    ensures bytes { OnOk result ((o : Held) → Certain D.state D.possible d.old o
        → at + length buf.old ≤ length (slot_of slot o.slots)
        → buf.new ≡ take (length buf.old) (drop at (slot_of slot o.slots))) }
    ensures rests { Rests D.state D.possible d.old d.new }
    ensures cause { DiskHasCause (D.state d.old) (D.state d.new) result }
{
    d.read_at(slot, at, buf)?;
    Ok(())
}

/// Puts so many bytes of the slot from the place on behind the others, where the slot has so much.
fn append_piece<D: Disk>(
    alloc: Global,
    d: &mut D,
    slot: Slot,
    at: u64,
    size: usize,
    bytes: &mut Vec<u8>,
) -> Result<(), OpenError>
    ensures bytes { OnOk result ((o : Held) → Certain D.state D.possible d.old o
        → at + size ≤ length (slot_of slot o.slots)
        → bytes.new.items ≡ bytes.old.items ++ take size (drop at (slot_of slot o.slots))) }
    ensures length { OnOk result (length bytes.new.items ≡ length bytes.old.items + size) }
    ensures rests { Rests D.state D.possible d.old d.new }
    ensures cause { OpenHasCause (D.state d.old) (D.state d.new) result }
{
    let mut piece = Vec::from_elem(alloc, 0, size)?;
    read_piece(d, slot, at, &mut piece)?;
    bytes.extend_from_slice(&piece)?;
    Ok(())
}

/// So many bytes of the slot from the place on, in pieces of at most 65,536, where the slot has so much.
pub(crate) fn read_bytes<D: Disk>(
    alloc: Global,
    d: &mut D,
    slot: Slot,
    at: u64,
    len: usize,
) -> Result<Vec<u8>, OpenError>
    requires { at + len < 2 ^ 64 }
    ensures bytes { IfOk result (λ bytes. (o : Held) → Certain D.state D.possible d.old o
        → at + len ≤ length (slot_of slot o.slots) → bytes.items ≡ take len (drop at (slot_of slot o.slots))) }
    ensures length { IfOk result (λ bytes. length bytes.items ≡ len) }
    ensures rests { Rests D.state D.possible d.old d.new }
    ensures cause { OpenHasCause (D.state d.old) (D.state d.new) result }
{
    let mut bytes = Vec::new(alloc);
    let mut done = 0;
    while done < len {
        let size = (len - done).min(PIECE_BYTES);
        append_piece(alloc, d, slot, at + done as u64, size, &mut bytes)?;
        done += size;
    }
    Ok(bytes)
}
