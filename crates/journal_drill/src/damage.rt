//! Slots that are damaged.

use crate::error::DrillError;
use crate::tasks::disk_of;
use crate::telling::tell_opening;
use std::alloc::{AllocError, Global};

/// A live slot of version 1 with ticket 1 of a write that is passed on.
const WHOLE: [u8; 25] = [
    1, 1, 0, 0, 0, 0, 0, 0, 0, 1, 1, 0, 0, 0, 9, 3, 0, 0, 0, 0, 0, 0, 0, 1, 0,
];

/// Bytes of that slot that are changed: what is told of it, the first place, and the new bytes there.
const CHANGES: [(&str, usize, &[u8]); 13] = [
    ("nothing is changed", 0, &[1]),
    ("the slot's gate is ff", 0, &[0xff]),
    ("the batch's gate is ff", 10, &[0xff]),
    ("version 2", 1, &[2]),
    ("version 7", 1, &[7]),
    ("ticket 0", 23, &[0]),
    ("ticket 2^63", 16, &[0x80]),
    (
        "the last generation",
        2,
        &[0xff, 0xff, 0xff, 0xff, 0xff, 0xff, 0xff, 0xff],
    ),
    ("a length past 2^24", 11, &[1, 0, 0, 1]),
    ("a length of 10", 14, &[10]),
    ("a length of 8", 14, &[8]),
    ("a tag that is none", 15, &[9]),
    ("a mark past 2^63", 15, &[4, 0x80, 0, 0, 0, 0, 0, 0, 1]),
];

/// What an opening finds in damaged slots.
pub fn tell_damage(alloc: Global, out: &mut Vec<u8>) -> Result<(), DrillError> {
    out.extend_from_slice(b"-- damaged slots\n")?;
    for (name, at, bytes) in &CHANGES {
        tell_name(name, out)?;
        let slot = changed(alloc, *at, bytes)?;
        tell_disk(alloc, slot.as_slice(), &[0], out)?;
    }
    tell_cut(alloc, out)
}

fn tell_cut(alloc: Global, out: &mut Vec<u8>) -> Result<(), DrillError> {
    out.extend_from_slice(b"-- the slot cut to its first bytes\n")?;
    for len in 1..=WHOLE.len() {
        let mut slot = Vec::from_slice(alloc, &WHOLE)?;
        slot.truncate(len);
        tell_disk(alloc, slot.as_slice(), &[0], out)?;
    }
    Ok(())
}

/// A slot whose body has a byte that begins no entry behind ticket 1.
const BROKEN: [u8; 26] = [
    1, 1, 0, 0, 0, 0, 0, 0, 0, 1, 1, 0, 0, 0, 10, 3, 0, 0, 0, 0, 0, 0, 0, 1, 0x7f, 0,
];

/// The same with the gate of the batch closed.
const CLOSED: [u8; 26] = [
    1, 1, 0, 0, 0, 0, 0, 0, 0, 1, 0, 0, 0, 0, 10, 3, 0, 0, 0, 0, 0, 0, 0, 1, 0x7f, 0,
];

/// The same with the byte FF as that gate.
const TORN: [u8; 26] = [
    1, 1, 0, 0, 0, 0, 0, 0, 0, 1, 0xff, 0, 0, 0, 10, 3, 0, 0, 0, 0, 0, 0, 0, 1, 0x7f, 0,
];

/// A slot with nothing behind its head, of version 7.
const UNKNOWN: [u8; 11] = [1, 7, 0, 0, 0, 0, 0, 0, 0, 1, 0];

/// A commit with ticket 1 that inserts 12.35, of scale 2, into A: of version 1, and of version 2.
const SCALED_OLD: [u8; 41] = [
    1, 1, 0, 0, 0, 0, 0, 0, 0, 1, 1, 0, 0, 0, 25, 1, 0, 0, 0, 0, 0, 0, 0, 1, 0, 1, 1, 1, 0x41, 1,
    4, 2, 0, 0, 0, 0, 0, 0, 4, 0xd3, 0,
];

const SCALED: [u8; 41] = [
    1, 2, 0, 0, 0, 0, 0, 0, 0, 1, 1, 0, 0, 0, 25, 1, 0, 0, 0, 0, 0, 0, 0, 1, 0, 1, 1, 1, 0x41, 1,
    4, 2, 0, 0, 0, 0, 0, 0, 4, 0xd3, 0,
];

/// Both slots: what is told of them, and the bytes of each.
const PAIRS: [(&str, &[u8], &[u8]); 12] = [
    ("a byte that begins no entry", &BROKEN, &[0]),
    ("the same behind a closed gate", &CLOSED, &[0]),
    ("the same behind a gate of ff", &TORN, &[0]),
    ("11 bytes of version 7", &UNKNOWN, &[0]),
    ("a number with a scale in version 1", &SCALED_OLD, &[0]),
    ("a number with a scale in version 2", &SCALED, &[0]),
    ("slot 1 alone", &[0], &WHOLE),
    ("equal generations", &NEW, &WHOLE),
    ("a greater generation in slot 1", &WHOLE, &GREATER),
    ("a greater generation in slot 0", &GREATER, &WHOLE),
    ("both heads damaged", &[1], &[1, 7]),
    ("the other head damaged", &WHOLE, &[1, 7]),
];

/// A live slot without a batch, of generation 1.
const NEW: [u8; 11] = [1, 1, 0, 0, 0, 0, 0, 0, 0, 1, 0];

/// The same of generation 2.
const GREATER: [u8; 11] = [1, 1, 0, 0, 0, 0, 0, 0, 0, 2, 0];

/// What an opening finds in two slots.
pub fn tell_pairs(alloc: Global, out: &mut Vec<u8>) -> Result<(), DrillError> {
    out.extend_from_slice(b"-- two slots\n")?;
    for (name, first, second) in &PAIRS {
        tell_name(name, out)?;
        tell_disk(alloc, first, second, out)?;
    }
    Ok(())
}

fn changed(alloc: Global, at: usize, bytes: &[u8]) -> Result<Vec<u8>, DrillError> {
    let mut slot = Vec::from_slice(alloc, &WHOLE)?;
    let mut place = at;
    for byte in bytes {
        if place < slot.len() {
            slot[place] = *byte;
        }
        place = place.saturating_add(1);
    }
    Ok(slot)
}

fn tell_name(name: &str, out: &mut Vec<u8>) -> Result<(), AllocError> {
    out.extend_from_slice(name.as_bytes())?;
    out.extend_from_slice(b":")
}

// What an opening finds in two slots with these bytes.
fn tell_disk(
    alloc: Global,
    first: &[u8],
    second: &[u8],
    out: &mut Vec<u8>,
) -> Result<(), DrillError> {
    let mut disk = disk_of(alloc, first, second)?;
    tell_opening(alloc, &mut disk, out)?;
    out.extend_from_slice(b"\n")?;
    Ok(())
}
