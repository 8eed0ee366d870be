//! Reading the batches of a slot.

ghost use Rattle.std.specs.Prelude.{◌≡◌, ◌+◌, ◌-◌, ◌^◌, ◌<◌, ◌≤◌, ℕ, List, ◌++◌, min, length, take, drop, IfOk, OnOk};
ghost use Rattle.commit_journal.specs.Causes.{OpenHasCause};
ghost use Rattle.outside.specs.Calls.{Certain, Rests};
ghost use Rattle.outside.specs.Holding.{Held, slot_of};
ghost use Rattle.journal_entries.specs.Bodies.{beginning};
ghost use Rattle.commit_journal.specs.Layout.{Batches, Placed};
ghost use Rattle.commit_journal.specs.Scanning.{HeadSays, IsNext, NextFits, Scanned, outcome_of};

use crate::fault::OpenError;
use crate::reading::read_bytes;
use crate::scan::{Next, Scan};
use journal_entries::{Ending, Entry, Standing, read_body};
use outside::{Disk, Slot};
use std::alloc::Global;

/// What the bytes from a gate on say of the body, as far as they are there: how long it is, where the gate is open
/// and a whole batch stands there. `left` is how many bytes the slot has from the gate on.
fn size_behind(head: &[u8], left: u64) -> Result<usize, bool>
    requires some { 1 ≤ left }
    requires head { length head.now ≡ min 5 left }
    ensures says { (bytes : List ℕ) → length bytes ≡ left → head.now ≡ take 5 bytes → HeadSays bytes result }
    ensures bound { IfOk result (λ size. size + 5 < left) }
{
    if head[0] != 1 {
        return Err(false);
    }
    if left < 5 {
        return Err(true);
    }
    let size = u32::from_be_bytes([head[1], head[2], head[3], head[4]]);
    if size > 16_777_216 || left - 5 <= size as u64 {
        return Err(true);
    }
    Ok(size as usize)
}

/// What stands from a gate on. `left` is how many bytes the slot has from there.
pub(crate) fn next_batch<D: Disk>(
    alloc: Global,
    d: &mut D,
    slot: Slot,
    place: u64,
    left: u64,
) -> Result<Next, OpenError>
    requires some { 1 ≤ left }
    requires range { place + left < 2 ^ 64 }
    ensures next { IfOk result (λ next. (o : Held) → Certain D.state D.possible d.old o
        → length (slot_of slot o.slots) ≡ place + left → IsNext (drop place (slot_of slot o.slots)) next) }
    ensures fits { IfOk result (λ next. NextFits left next) }
    ensures rests { Rests D.state D.possible d.old d.new }
    ensures cause { OpenHasCause (D.state d.old) (D.state d.new) result }
{
    let head = read_bytes(alloc, d, slot, place, left.min(5) as usize)?;
    match size_behind(&head, left) {
        Err(false) => Ok(Next::Closed),
        Err(true) => Ok(Next::Cut),
        Ok(size) => {
            let body = read_bytes(alloc, d, slot, place + 5, size)?;
            Ok(Next::Body(body))
        }
    }
}

/// Reads the batches of a slot of this length, and puts their entries behind the others.
pub(crate) fn read_batches<D: Disk>(
    alloc: Global,
    d: &mut D,
    slot: Slot,
    version: u8,
    len: u64,
    entries: &mut Vec<(u64, Entry)>,
) -> Result<Scan, OpenError>
    requires { 11 ≤ len }
    ensures scanned { IfOk result (λ scan. (o : Held) → Certain D.state D.possible d.old o
        → length (slot_of slot o.slots) ≡ len
        → Scanned version (slot_of slot o.slots) entries.old.items entries.new.items (outcome_of scan)) }
    ensures rests { Rests D.state D.possible d.old d.new }
    ensures cause { OpenHasCause (D.state d.old) (D.state d.new) result }
{
    let mut place = 10;
    let mut standing = Standing::beginning();
    while place < len {
        match next_batch(alloc, d, slot, place, len - place)? {
            Next::Closed => return Ok(Scan::Closed(place, standing)),
            Next::Cut => return Ok(Scan::Damaged(place + 1)),
            Next::Body(body) => {
                match read_body(alloc, version, standing, place + 5, &body, entries)? {
                    Ending::Stops(at) => return Ok(Scan::Damaged(at)),
                    Ending::Whole(behind) => standing = behind,
                }
                place += 5 + body.len() as u64;
            }
        }
    }
    unreachable!()
}
