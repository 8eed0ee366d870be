//! Calls of the disk that fail.

use crate::error::DrillError;
use crate::stops::tell_picks;
use crate::tasks::{Task, run, stage};
use crate::telling::tell_number;
use memory_disk::{Failure, MemoryDisk, When};
use std::alloc::Global;

/// No task has more calls of the disk than this.
const MOST: u64 = 16;

/// What an opening finds, with each pick, after the task ended early at each of its calls of the disk, before the
/// call's effect or after it.
pub fn tell_faults(alloc: Global, task: Task, out: &mut Vec<u8>) -> Result<(), DrillError> {
    for call in 0..MOST {
        tell_failed(alloc, task, call, When::Before, out)?;
        tell_failed(alloc, task, call, When::After, out)?;
    }
    Ok(())
}

/// The same of one call, where the task has it.
fn tell_failed(
    alloc: Global,
    task: Task,
    call: u64,
    when: When,
    out: &mut Vec<u8>,
) -> Result<(), DrillError> {
    let name: &[u8] = match when {
        When::Before => b"fault before",
        When::After => b"fault after",
    };
    match failed(alloc, task, call, when)? {
        Some(disk) => tell_fault(alloc, &disk, name, call, out),
        None => Ok(()),
    }
}

/// The disk that the task leaves where this call fails; none where it has no such call.
fn failed(
    alloc: Global,
    task: Task,
    call: u64,
    when: When,
) -> Result<Option<MemoryDisk>, DrillError> {
    let mut disk = stage(alloc, task)?;
    disk.plan(Failure { call, when })?;
    let Err(error) = run(alloc, task, &mut disk) else {
        return Ok(None);
    };
    match &error {
        DrillError::Disk => Ok(Some(disk)),
        _ => Err(error),
    }
}

fn tell_fault(
    alloc: Global,
    disk: &MemoryDisk,
    name: &[u8],
    call: u64,
    out: &mut Vec<u8>,
) -> Result<(), DrillError> {
    out.extend_from_slice(name)?;
    tell_number(call, out)?;
    out.extend_from_slice(b":")?;
    tell_picks(alloc, disk, disk.moments(), out)?;
    out.extend_from_slice(b"\n")?;
    Ok(())
}
