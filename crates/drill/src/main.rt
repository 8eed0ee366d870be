//! `drill`: the program over objects in memory, with faults as a script plans them. It is for tests.
//!
//! It reads a script from standard input. Lines that begin with `!` plan what goes wrong, as `plan` lists them; the
//! other lines are the program's input. It writes the replies, then the entries of the backing history, then the rows
//! of the backing tables. Its status is the program's, or 99 where a plan isn't understood: then one line on standard
//! error says which, and nothing is told.
#![tactic(auto)]

mod backing;
mod error;
mod joined;
mod output;
mod plan;
mod program;
mod script;
mod slots;
mod stage;
mod telling;

use error::DrillError;
use output::Output;
use script::Script;
use slots::tell_slots;
use stage::Stage;
use std::alloc::Global;
use std::io::{Read, Write};
use std::process::ExitCode;
use telling::tell_all;

/// The status where nothing was run.
const NOT_RUN: u8 = 99;

fn main(rt: HostRuntime) -> ExitCode {
    ExitCode::from(status(&rt))
}

fn status(rt: &HostRuntime) -> u8 {
    match run(rt) {
        Ok(status) => status,
        Err(error) => {
            let _ = eprintln!(rt; "drill: {error}");
            NOT_RUN
        }
    }
}

fn run(rt: &HostRuntime) -> Result<u8, DrillError> {
    let mut bytes = Vec::new(rt.alloc());
    rt.stdin().read_to_end(&mut bytes)?;
    let mut out = Output::new(rt.alloc());
    let status = drilled(rt.alloc(), bytes.as_slice(), &mut out)?;
    out.check()?;
    rt.stdout().write_all(out.bytes())?;
    Ok(status)
}

// The status of the script's run, and what is told of it.
fn drilled(alloc: Global, bytes: &[u8], out: &mut Output) -> Result<u8, DrillError> {
    let script = Script::read(alloc, bytes)?;
    let mut stage = Stage::new(alloc)?;
    stage.set_up(alloc, &script)?;
    let status = stage.run_all(alloc, &script)?;
    let history = stage.site.history().as_slice();
    tell_all(alloc, stage.replies.as_slice(), history, out)?;
    if stage.slots {
        tell_slots(alloc, &mut stage.site, out)?;
    }
    Ok(status)
}
