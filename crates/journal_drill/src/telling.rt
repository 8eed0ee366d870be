//! What is told of slots and journals.

use crate::error::DrillError;
use commit_journal::{Opened, open};
use itoa::Buffer;
use journal_entries::Entry;
use memory_disk::MemoryDisk;
use outside::{Disk, Slot};
use std::alloc::{AllocError, Global};

/// The digits of bytes.
const DIGITS: [u8; 16] = *b"0123456789abcdef";

/// How many bytes of a slot are told.
const TOLD: usize = 64;

/// The bytes of both slots.
pub fn tell_slots(disk: &mut MemoryDisk, out: &mut Vec<u8>) -> Result<(), DrillError> {
    tell_slot(disk, Slot::First, b"slot 0:", out)?;
    tell_slot(disk, Slot::Second, b"slot 1:", out)
}

fn tell_slot(
    disk: &mut MemoryDisk,
    slot: Slot,
    name: &[u8],
    out: &mut Vec<u8>,
) -> Result<(), DrillError> {
    let mut buf = [0u8; TOLD];
    let count = disk.read_at(slot, 0, &mut buf)?;
    out.extend_from_slice(name)?;
    for byte in buf.iter().take(count) {
        tell_byte(*byte, out)?;
    }
    out.extend_from_slice(b"\n")?;
    Ok(())
}

fn tell_byte(byte: u8, out: &mut Vec<u8>) -> Result<(), AllocError> {
    let high = DIGITS[(byte / 16) as usize];
    let low = DIGITS[(byte % 16) as usize];
    out.extend_from_slice(&[b' ', high, low])
}

/// What an opening of the disk finds: the entries, or the first place that doesn't read.
pub fn tell_opening(
    alloc: Global,
    disk: &mut MemoryDisk,
    out: &mut Vec<u8>,
) -> Result<(), DrillError> {
    let opened = open(alloc, disk)?;
    tell_opened(&opened, out)?;
    Ok(())
}

fn tell_opened(opened: &Opened, out: &mut Vec<u8>) -> Result<(), AllocError> {
    if let Some((slot, place)) = opened.damaged {
        out.extend_from_slice(b" damaged")?;
        tell_number(if slot == Slot::First { 0 } else { 1 }, out)?;
        return tell_number(place, out);
    }
    if opened.entries.is_empty() {
        return out.extend_from_slice(b" none");
    }
    for (_, entry) in &opened.entries {
        tell_entry(entry, out)?;
    }
    Ok(())
}

fn tell_entry(entry: &Entry, out: &mut Vec<u8>) -> Result<(), AllocError> {
    match entry {
        Entry::Mark(ticket) => tell_ticket(b" mark", ticket.0, out),
        Entry::Passed(ticket) => tell_ticket(b" passed", ticket.0, out),
        Entry::Commit(ticket, _) => tell_ticket(b" commit", ticket.0, out),
        Entry::Prepare(ticket, _) => tell_ticket(b" prepare", ticket.0, out),
        Entry::Defined(_) => out.extend_from_slice(b" defined"),
        Entry::Dropped(_) => out.extend_from_slice(b" dropped"),
        Entry::Turned(_, _) => out.extend_from_slice(b" turned"),
        Entry::Loaded(_, _) => out.extend_from_slice(b" loaded"),
    }
}

fn tell_ticket(name: &[u8], ticket: u64, out: &mut Vec<u8>) -> Result<(), AllocError> {
    out.extend_from_slice(name)?;
    tell_number(ticket, out)
}

/// A blank, and the number.
pub fn tell_number(number: u64, out: &mut Vec<u8>) -> Result<(), AllocError> {
    let mut digits = Buffer::new();
    out.extend_from_slice(b" ")?;
    out.extend_from_slice(digits.format(number).as_bytes())
}
