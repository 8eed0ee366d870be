//! Calls of the journal.

use crate::error::DrillError;
use commit_journal::{Journal, open, reads_first};
use journal_entries::Entry;
use memory_disk::MemoryDisk;
use std::alloc::Global;
use tier_base::Ticket;

/// What is done on a disk.
#[derive(Clone, Copy)]
pub enum Task {
    /// A journal is made.
    Open,
    /// A ticket is flushed to a new journal.
    Flush,
    /// A new journal moves on to slot 1 with a mark.
    Rotate,
    /// The same, of a slot of version 1.
    Upgrade,
    /// A body, a commit, is put behind the entries of a new journal.
    Append,
    /// A body is put into slot 0 where no slot is live.
    Adopt,
}

/// A slot that was never used.
const UNUSED: &[u8] = &[0];

/// A new slot of version 2.
const NEW: &[u8] = &[1, 2, 0, 0, 0, 0, 0, 0, 0, 1, 0];

/// A new slot of version 1.
const OLD: &[u8] = &[1, 1, 0, 0, 0, 0, 0, 0, 0, 1, 0];

/// A body: ticket 1 of a write that is passed on.
const PASSED: [u8; 9] = [3, 0, 0, 0, 0, 0, 0, 0, 1];

/// A body: a commit with ticket 1 that inserts (3, 30) into A.
const COMMIT: [u8; 33] = [
    1, 0, 0, 0, 0, 0, 0, 0, 1, 0, 1, 1, 1, 0x41, 2, 1, 0, 0, 0, 0, 0, 0, 0, 3, 1, 0, 0, 0, 0, 0, 0,
    0, 30,
];

/// The disk that a task begins on.
pub fn stage(alloc: Global, task: Task) -> Result<MemoryDisk, DrillError> {
    disk_of(alloc, first_slot(task), UNUSED)
}

/// What stands in slot 0 where a task begins.
fn first_slot(task: Task) -> &'static [u8] {
    match task {
        Task::Open | Task::Adopt => UNUSED,
        Task::Upgrade => OLD,
        Task::Flush | Task::Rotate | Task::Append => NEW,
    }
}

/// A disk with these bytes in its slots.
pub fn disk_of(alloc: Global, first: &[u8], second: &[u8]) -> Result<MemoryDisk, DrillError> {
    let first = Vec::from_slice(alloc, first)?;
    let second = Vec::from_slice(alloc, second)?;
    let disk = MemoryDisk::of(alloc, first, second)?;
    Ok(disk)
}

/// Does the task.
pub fn run(alloc: Global, task: Task, disk: &mut MemoryDisk) -> Result<(), DrillError> {
    match task {
        Task::Adopt => adopt(alloc, disk),
        _ => {
            let mut opened = open(alloc, disk)?;
            run_opened(alloc, task, &mut opened.journal, disk)
        }
    }
}

// What a task does behind the opening.
fn run_opened(
    alloc: Global,
    task: Task,
    journal: &mut Journal,
    disk: &mut MemoryDisk,
) -> Result<(), DrillError> {
    match task {
        Task::Open | Task::Adopt => Ok(()),
        Task::Flush => flush(journal, disk),
        Task::Rotate | Task::Upgrade => rotate(alloc, journal, disk),
        Task::Append => append(alloc, journal, disk),
    }
}

fn flush(journal: &mut Journal, disk: &mut MemoryDisk) -> Result<(), DrillError> {
    let entry = Entry::Passed(Ticket(1));
    if !journal.standing().allows(&entry) {
        return Err(DrillError::Refused);
    }
    journal.reserve(9)?;
    journal.note(entry);
    journal.flush(disk)?;
    Ok(())
}

fn rotate(alloc: Global, journal: &mut Journal, disk: &mut MemoryDisk) -> Result<(), DrillError> {
    let mark = [Entry::Mark(Ticket(1))];
    journal.rotate(alloc, disk, &mark)?;
    Ok(())
}

fn append(alloc: Global, journal: &mut Journal, disk: &mut MemoryDisk) -> Result<(), DrillError> {
    if journal.gate() > 1 << 30 {
        return Err(DrillError::Refused);
    }
    if !journal.readable(alloc, &COMMIT, false)? {
        return Err(DrillError::Refused);
    }
    journal.append(alloc, disk, &COMMIT)?;
    Ok(())
}

fn adopt(alloc: Global, disk: &mut MemoryDisk) -> Result<(), DrillError> {
    if !reads_first(alloc, &PASSED)? {
        return Err(DrillError::Refused);
    }
    let _ = Journal::adopt_new(alloc, disk, 7, &PASSED)?;
    Ok(())
}
