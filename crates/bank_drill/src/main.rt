//! `bank_drill`: the backing database in a file, call by call. It is for tests.
//!
//! It reads a script from standard input, as `command` lists its lines, over a new database `bank.db` and two slots in
//! the working folder. It writes each line, and behind it what the call answered. Its status is 0, or 99 where a line
//! isn't understood, memory is wanting, or the files can't be opened.
#![tactic(auto)]

mod answers;
mod asking;
mod calls;
mod command;
mod error;
mod stage;
mod telling;
mod trees;

use error::DrillError;
use stage::Stage;
use std::io::{Read, Write};
use std::process::ExitCode;
use telling::Output;

/// The status where nothing more was done.
const STOPPED: u8 = 99;

fn main(rt: HostRuntime) -> ExitCode {
    match run(&rt) {
        Ok(()) => ExitCode::SUCCESS,
        Err(error) => {
            let _ = eprintln!(rt; "bank_drill: {error}");
            ExitCode::from(STOPPED)
        }
    }
}

fn run(rt: &HostRuntime) -> Result<(), DrillError> {
    let mut bytes = Vec::new(rt.alloc());
    rt.stdin().read_to_end(&mut bytes)?;
    let out = told(rt, bytes.as_slice())?;
    rt.stdout().write_all(out.bytes())?;
    Ok(())
}

// What is told of the script.
fn told(rt: &HostRuntime, bytes: &[u8]) -> Result<Output, DrillError> {
    let mut out = Output::new(rt.alloc());
    let mut stage = Stage::open(rt)?;
    let mut number: usize = 0;
    for line in bytes.split(|byte| *byte == b'\n') {
        number = number.saturating_add(1);
        if !line.is_empty() {
            stage = stage.follow(rt, line, number, &mut out)?;
            out.check()?;
        }
    }
    Ok(out)
}
