//! What the slots of the journal's disk hold: as text, and changed by hand.

use crate::error::DrillError;
use crate::output::Output;
use crate::plan::Plan;
use crate::script::Script;
use backing_gate::MemorySite;
use memory_disk::MemoryDisk;
use outside::{Disk, Slot};
use std::alloc::{AllocError, Global};

/// The digits of bytes.
const DIGITS: [u8; 16] = *b"0123456789abcdef";

/// How many bytes of a slot are told.
const TOLD: usize = 4_096;

/// How many bytes stand in a line.
const WIDE: u64 = 32;

/// The first bytes of both slots.
pub fn tell_slots(
    alloc: Global,
    site: &mut MemorySite,
    out: &mut Output,
) -> Result<(), AllocError> {
    out.put("-- slot 0\n");
    tell_slot(alloc, site, Slot::First, out)?;
    out.put("-- slot 1\n");
    tell_slot(alloc, site, Slot::Second, out)
}

fn tell_slot(
    alloc: Global,
    site: &mut MemorySite,
    slot: Slot,
    out: &mut Output,
) -> Result<(), AllocError> {
    let mut buf = vec![in alloc; 0u8; TOLD]?;
    let count = site.read_at(slot, 0, buf.as_mut_slice()).unwrap_or(0);
    let mut place: u64 = 0;
    for byte in buf.iter().take(count) {
        tell_byte(*byte, out);
        place = place.saturating_add(1);
        if place % WIDE == 0 {
            out.end_line();
        }
    }
    if place % WIDE != 0 {
        out.end_line();
    }
    Ok(())
}

fn tell_byte(byte: u8, out: &mut Output) {
    let high = DIGITS[(byte / 16) as usize];
    let low = DIGITS[(byte % 16) as usize];
    out.put_bytes(&[high, low]);
}

/// The site with its slots changed as the script plans it of this run. Nothing is planned for it, and it is at its
/// first moment.
pub fn change_slots(
    alloc: Global,
    site: MemorySite,
    script: &Script<'_>,
    number: usize,
) -> Result<MemorySite, DrillError> {
    let (mut disk, bank) = site.parts();
    let first = changed(alloc, &mut disk, Slot::First, script, number)?;
    let second = changed(alloc, &mut disk, Slot::Second, script, number)?;
    let disk = MemoryDisk::of(alloc, first, second)?;
    Ok(MemorySite::of(alloc, disk, bank))
}

// The slot's bytes, changed as the script plans it of this run.
fn changed(
    alloc: Global,
    disk: &mut MemoryDisk,
    slot: Slot,
    script: &Script<'_>,
    number: usize,
) -> Result<Vec<u8>, DrillError> {
    let mut bytes = bytes_of_slot(alloc, disk, slot)?;
    for planned in &script.plans {
        if planned.run == number {
            change(alloc, planned.plan, planned.line, slot, &mut bytes)?;
        }
    }
    Ok(bytes)
}

// Changes the slot's bytes, where the plan is about this slot.
fn change(
    alloc: Global,
    plan: Plan<'_>,
    line: usize,
    slot: Slot,
    bytes: &mut Vec<u8>,
) -> Result<(), DrillError> {
    match plan {
        Plan::Slot(changed, text) => {
            if changed == slot {
                *bytes = bytes_of(alloc, text, line)?;
            }
        }
        Plan::Damage(changed, place, text) => {
            if changed == slot {
                let new = bytes_of(alloc, text, line)?;
                damage(bytes, place, new.as_slice());
            }
        }
        Plan::Shorten(changed, length) => {
            if changed == slot {
                bytes.truncate(length);
            }
        }
        _ => {}
    }
    Ok(())
}

// Puts the bytes at the place, as far as the slot goes.
fn damage(slot: &mut Vec<u8>, place: usize, bytes: &[u8]) {
    let mut at = place;
    for byte in bytes {
        if at < slot.len() {
            slot[at] = *byte;
        }
        at = at.saturating_add(1);
    }
}

fn bytes_of_slot(alloc: Global, disk: &mut MemoryDisk, slot: Slot) -> Result<Vec<u8>, AllocError> {
    let length = disk.len(slot).unwrap_or(0);
    let mut bytes = vec![in alloc; 0u8; length as usize]?;
    let _ = disk.read_at(slot, 0, bytes.as_mut_slice());
    Ok(bytes)
}

// The bytes that the digits spell, with blanks between them or without. The error names the line that they stand in.
fn bytes_of(alloc: Global, text: &str, line: usize) -> Result<Vec<u8>, DrillError> {
    let mut bytes = Vec::new(alloc);
    let mut high: Option<u8> = None;
    for byte in text.as_bytes() {
        if *byte == b' ' {
            continue;
        }
        let digit = digit_of(*byte).ok_or(DrillError::Line(line))?;
        high = match high {
            None => Some(digit),
            Some(high) => {
                bytes.push(high.wrapping_mul(16).wrapping_add(digit))?;
                None
            }
        };
    }
    match high {
        None => Ok(bytes),
        Some(_) => Err(DrillError::Line(line)),
    }
}

fn digit_of(byte: u8) -> Option<u8> {
    let place = DIGITS.iter().position(|digit| *digit == byte)?;
    Some(place as u8)
}
