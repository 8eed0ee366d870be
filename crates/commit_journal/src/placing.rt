//! Bytes on the disk.

ghost use Rattle.std.specs.Prelude.{◌≡◌, ◌≤◌, ◌<◌, ◌+◌, ◌^◌, ℕ, List, ◌∷◌, ◌++◌, length, OnOk, ◌⊎◌};
ghost use Rattle.commit_journal.specs.Batching.{HasBatch, MidBatch};
ghost use Rattle.commit_journal.specs.Telling.{StillTells};
ghost use Rattle.outside.specs.Calls.{Certain, Changes, Leaves, Torn, patched};
ghost use Rattle.outside.specs.Faults.{DiskHasCause};
ghost use Rattle.outside.specs.Holding.{Held, other, slot_of, with_bytes};
ghost use Rattle.commit_journal.specs.Turning.{CanBegin, CanTurn, Filled, Filling, HasBegun, MidTurn, Turned};

use outside::{Disk, DiskFault, Slot};

/// Writes, and has it on the disk.
pub(crate) fn put<D: Disk>(d: &mut D, slot: Slot, at: u64, bytes: &[u8]) -> Result<(), DiskFault>
    ensures crash { (o : Held) → Certain D.state D.possible d.old o → at ≤ length (slot_of slot o.slots)
        → Leaves D.state D.possible d.old d.new (λ p. (p ≡ o) ⊎ Changes slot (Torn at (length bytes.now)) o p) }
    ensures certain { OnOk result ((o : Held) → Certain D.state D.possible d.old o
        → at ≤ length (slot_of slot o.slots)
        → Certain D.state D.possible d.new (with_bytes slot (patched at bytes.now (slot_of slot o.slots)) o)) }
    ensures tells { StillTells (D.state d.old) (D.state d.new) }
    ensures moment { (D.state d.old).moment ≤ (D.state d.new).moment }
    ensures cause { DiskHasCause (D.state d.old) (D.state d.new) result }
{
    d.write_at(slot, at, bytes)?;
    d.sync(slot)?;
    Ok(())
}

/// Puts the bytes behind a gate, and opens it.
pub(crate) fn write_batch<D: Disk>(
    d: &mut D,
    slot: Slot,
    gate: u64,
    bytes: &[u8],
) -> Result<(), DiskFault>
    requires { gate + 1 < 2 ^ 64 }
    ensures crash { (o : Held) (front junk : List ℕ) (g : ℕ) → Certain D.state D.possible d.old o
        → slot_of slot o.slots ≡ front ++ g ∷ junk → gate ≡ length front
        → Leaves D.state D.possible d.old d.new (MidBatch slot front g bytes.now o) }
    ensures batch { OnOk result ((o : Held) (front junk : List ℕ) (g : ℕ) → Certain D.state D.possible d.old o
        → slot_of slot o.slots ≡ front ++ g ∷ junk → gate ≡ length front
        → HasBatch D.state D.possible d.new slot front bytes.now o) }
    ensures tells { StillTells (D.state d.old) (D.state d.new) }
    ensures moment { (D.state d.old).moment ≤ (D.state d.new).moment }
    ensures cause { DiskHasCause (D.state d.old) (D.state d.new) result }
{
    put(d, slot, gate + 1, bytes)?;
    put(d, slot, gate, &[1])?;
    Ok(())
}

/// The other slot.
pub(crate) fn other(slot: Slot) -> Slot
    ensures { result ≡ other slot }
{
    match slot {
        Slot::First => Slot::Second,
        Slot::Second => Slot::First,
    }
}

/// Puts these bytes behind the first byte of a slot that isn't live, and nothing behind them.
fn fill<D: Disk>(d: &mut D, slot: Slot, bytes: &[u8]) -> Result<(), DiskFault>
    ensures crash { (o : Held) → Certain D.state D.possible d.old o → 1 ≤ length (slot_of slot o.slots)
        → Leaves D.state D.possible d.old d.new (Filling slot o) }
    ensures filled { OnOk result ((o : Held) → Certain D.state D.possible d.old o → 1 ≤ length (slot_of slot o.slots)
        → Filled D.state D.possible d.new slot bytes.now o) }
    ensures tells { StillTells (D.state d.old) (D.state d.new) }
    ensures moment { (D.state d.old).moment ≤ (D.state d.new).moment }
    ensures cause { DiskHasCause (D.state d.old) (D.state d.new) result }
{
    d.cut(slot, 1)?;
    d.write_at(slot, 1, bytes)?;
    d.sync(slot)?;
    Ok(())
}

/// Fills a slot that isn't live, and opens it.
pub(crate) fn begin<D: Disk>(d: &mut D, slot: Slot, bytes: &[u8]) -> Result<(), DiskFault>
    ensures crash { (o : Held) → Certain D.state D.possible d.old o → CanBegin slot o
        → Leaves D.state D.possible d.old d.new (MidTurn slot bytes.now o) }
    ensures begun { OnOk result ((o : Held) → Certain D.state D.possible d.old o → CanBegin slot o
        → HasBegun D.state D.possible d.new slot bytes.now o) }
    ensures tells { StillTells (D.state d.old) (D.state d.new) }
    ensures moment { (D.state d.old).moment ≤ (D.state d.new).moment }
    ensures cause { DiskHasCause (D.state d.old) (D.state d.new) result }
{
    fill(d, slot, bytes)?;
    put(d, slot, 0, &[1])?;
    Ok(())
}

/// Moves on to the target: fills it, opens it, and closes the other slot.
pub(crate) fn turn_over<D: Disk>(d: &mut D, target: Slot, bytes: &[u8]) -> Result<(), DiskFault>
    ensures crash { (o : Held) → Certain D.state D.possible d.old o → CanTurn target o
        → Leaves D.state D.possible d.old d.new (MidTurn target bytes.now o) }
    ensures turned { OnOk result ((o : Held) → Certain D.state D.possible d.old o → CanTurn target o
        → Turned D.state D.possible d.new target bytes.now o) }
    ensures tells { StillTells (D.state d.old) (D.state d.new) }
    ensures moment { (D.state d.old).moment ≤ (D.state d.new).moment }
    ensures cause { DiskHasCause (D.state d.old) (D.state d.new) result }
{
    begin(d, target, bytes)?;
    put(d, other(target), 0, &[0])?;
    Ok(())
}
