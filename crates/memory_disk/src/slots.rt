//! Bytes of a slot.

ghost use Rattle.std.specs.Prelude.{◌≡◌, ◌+◌, ◌-◌, ◌≤◌, length, min, take, drop, OnErr, OnOk, vec_len, vec_capacity, ◌++◌};
ghost use Rattle.outside.specs.Calls.{patched};

use std::alloc::{AllocError, Global};

/// Reads from the place on, as many bytes as there are and the buffer takes.
pub(crate) fn read_from(bytes: &[u8], at: u64, buf: &mut [u8]) -> usize
    ensures count { result ≡ min (length buf.new) (length bytes.now - at) }
    ensures bytes { take result buf.new ≡ take result (drop at bytes.now) }
{
    if bytes.len() as u64 <= at {
        return 0;
    }
    let rest = &bytes[at as usize..];
    let count = rest.len().min(buf.len());
    buf[..count].copy_from_slice(&rest[..count]);
    count
}

/// The bytes from a place on; none where it is behind the end.
fn behind(bytes: &[u8], place: usize) -> &[u8]
    ensures { result.now ≡ drop place bytes.now }
{
    if place < bytes.len() {
        return &bytes[place..];
    }
    &[]
}

fn put(out: &mut Vec<u8>, bytes: &[u8])
    requires { vec_len out.old + length bytes.now ≤ vec_capacity out.old }
    ensures items { out.new.items ≡ out.old.items ++ bytes.now }
    ensures capacity { vec_capacity out.old ≤ vec_capacity out.new }
{
    match out.extend_from_slice(bytes) {
        Ok(()) => {}
        Err(_) => unreachable!(),
    }
}

/// Writes the bytes from a place on; from the end on, where the place is behind it. For want of memory the slot stays.
pub(crate) fn overwrite(
    alloc: Global,
    slot: &mut Vec<u8>,
    at: usize,
    bytes: &[u8],
) -> Result<(), AllocError>
    ensures ok { OnOk result (slot.new.items ≡ patched at bytes.now slot.old.items) }
    ensures err { OnErr result (slot.new.items ≡ slot.old.items) }
{
    let tail = Vec::from_slice(alloc, behind(slot, at.saturating_add(bytes.len())))?;
    slot.reserve(bytes.len())?;
    slot.truncate(at);
    put(slot, bytes);
    put(slot, &tail);
    Ok(())
}
