//! `journal_drill`: the journal over a disk in memory, as it is written, stopped and damaged. It is for tests.
//!
//! It takes no input. It writes what stands in the slots after calls of the journal; for each call what an opening
//! finds after a stop at each moment, and after a fault of each call of the disk, with each of four picks; and what it
//! finds in slots that are damaged. Its status is 0, or 99 where memory is wanting or a call fails that shouldn't.
#![tactic(auto)]

mod damage;
mod error;
mod faults;
mod stops;
mod tasks;
mod telling;

use damage::{tell_damage, tell_pairs};
use error::DrillError;
use faults::tell_faults;
use std::alloc::{AllocError, Global};
use std::io::Write;
use std::process::ExitCode;
use stops::tell_stops;
use tasks::{Task, stage};
use telling::tell_slots;

/// The status where a call failed.
const FAILED: u8 = 99;

/// All tasks, with what is told of them.
const TASKS: [(&str, Task); 6] = [
    ("a new journal", Task::Open),
    ("a flush of a ticket", Task::Flush),
    ("a rotation with a mark", Task::Rotate),
    ("a version 1 slot, rotated with a mark", Task::Upgrade),
    ("a commit as a body behind the others", Task::Append),
    ("a body in slot 0, where no slot is live", Task::Adopt),
];

fn main(rt: HostRuntime) -> ExitCode {
    match run(&rt) {
        Ok(()) => ExitCode::SUCCESS,
        Err(error) => {
            let _ = eprintln!(rt; "journal_drill: {error}");
            ExitCode::from(FAILED)
        }
    }
}

fn run(rt: &HostRuntime) -> Result<(), DrillError> {
    let text = told(rt.alloc())?;
    rt.stdout().write_all(text.as_slice())?;
    Ok(())
}

fn told(alloc: Global) -> Result<Vec<u8>, DrillError> {
    let mut out = Vec::new(alloc);
    tell_all(alloc, &mut out)?;
    Ok(out)
}

fn tell_all(alloc: Global, out: &mut Vec<u8>) -> Result<(), DrillError> {
    for (name, task) in &TASKS {
        tell_title(name, out)?;
        tell_task(alloc, *task, out)?;
    }
    tell_damage(alloc, out)?;
    tell_pairs(alloc, out)
}

fn tell_title(name: &str, out: &mut Vec<u8>) -> Result<(), AllocError> {
    out.extend_from_slice(b"-- ")?;
    out.extend_from_slice(name.as_bytes())?;
    out.extend_from_slice(b"\n")
}

fn tell_task(alloc: Global, task: Task, out: &mut Vec<u8>) -> Result<(), DrillError> {
    let mut disk = stage(alloc, task)?;
    tasks::run(alloc, task, &mut disk)?;
    tell_slots(&mut disk, out)?;
    tell_stops(alloc, &disk, out)?;
    tell_faults(alloc, task, out)
}
