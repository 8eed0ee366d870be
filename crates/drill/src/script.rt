//! A script, taken apart.

use crate::error::DrillError;
use crate::plan::Plan;
use memory_disk::Pick;
use std::alloc::{AllocError, Global};

/// A plan, with the number of its line, from 1, and of the run that it stands in, from 0.
pub struct Planned<'a> {
    /// The number of the line.
    pub line: usize,
    /// The number of the run.
    pub run: usize,
    /// What it plans.
    pub plan: Plan<'a>,
}

impl Drop for Planned<'_> {
    fn drop(self) {
        let Self {
            line: _,
            run: _,
            plan: _,
        } = self;
    }
}

/// How a run ends that doesn't end by itself.
#[derive(Clone, Copy)]
pub struct Crash {
    /// The moment of the run at which it ends.
    pub moment: u64,
    /// What is left in ranges that aren't certain then.
    pub pick: Pick,
    /// The number of the line that plans it.
    pub line: usize,
}

/// One run of the program.
pub struct Run {
    /// Its input.
    pub input: Vec<u8>,
    /// How it ends, if it doesn't end by itself.
    pub crash: Option<Crash>,
    /// Whether a slot is changed before it.
    pub changed: bool,
}

impl Drop for Run {
    fn drop(self) {
        let Self {
            input: _,
            crash: _,
            changed: _,
        } = self;
    }
}

/// A script: what it plans, and the program's runs.
pub struct Script<'a> {
    /// The plans, in their order.
    pub plans: Vec<Planned<'a>>,
    /// The runs before the last one, in their order.
    pub runs: Vec<Run>,
    /// The last run.
    pub last: Run,
}

impl Drop for Script<'_> {
    fn drop(self) {
        let Self {
            plans: _,
            runs: _,
            last: _,
        } = self;
    }
}

impl<'a> Script<'a> {
    /// Takes the script apart. The error is want of memory, or the first plan that isn't understood.
    pub fn read(alloc: Global, bytes: &'a [u8]) -> Result<Script<'a>, DrillError> {
        let mut script = Script {
            plans: Vec::new(alloc),
            runs: Vec::new(alloc),
            last: Run::new(alloc),
        };
        let mut number: usize = 0;
        for line in bytes.split_inclusive(is_line_feed) {
            number = number.saturating_add(1);
            script.add(alloc, line, number)?;
        }
        Ok(script)
    }

    fn add(&mut self, alloc: Global, line: &'a [u8], number: usize) -> Result<(), DrillError> {
        if !line.starts_with(b"!") {
            self.last.input.extend_from_slice(line)?;
            return Ok(());
        }
        match parse_plan(line) {
            None => Err(DrillError::Line(number)),
            Some(plan) => {
                self.add_plan(alloc, plan, number)?;
                Ok(())
            }
        }
    }

    fn add_plan(&mut self, alloc: Global, plan: Plan<'a>, line: usize) -> Result<(), AllocError> {
        match plan {
            Plan::Restart => return self.end_run(alloc),
            Plan::Crash(moment, pick) => self.last.crash = Some(Crash { moment, pick, line }),
            Plan::Slot(_, _) | Plan::Damage(_, _, _) | Plan::Shorten(_, _) => {
                self.last.changed = true;
            }
            _ => {}
        }
        let run = self.runs.len();
        self.plans.push(Planned { line, run, plan })?;
        Ok(())
    }

    // What comes is that of a new run.
    fn end_run(&mut self, alloc: Global) -> Result<(), AllocError> {
        let ended = Run {
            input: Vec::from_slice(alloc, self.last.input.as_slice())?,
            crash: self.last.crash,
            changed: self.last.changed,
        };
        self.runs.push(ended)?;
        self.last = Run::new(alloc);
        Ok(())
    }

    /// The run with this number, from 0; the last one, where there are fewer before it.
    pub fn run(&self, number: usize) -> &Run {
        self.runs.get(number).unwrap_or(&self.last)
    }

    /// Whether calls are counted anew from this run on: in the first one, in one before which a slot is changed, in one
    /// that ends in a crash, and behind such a one.
    pub fn begins(&self, number: usize) -> bool {
        let run = self.run(number);
        match number.checked_sub(1) {
            None => true,
            Some(before) => {
                run.changed || run.crash.is_some() || self.run(before).crash.is_some()
            }
        }
    }

    /// The run from which on the calls of this one are counted.
    pub fn counted_from(&self, number: usize) -> usize {
        let mut from: usize = 0;
        for run in 0..=number {
            if self.begins(run) {
                from = run;
            }
        }
        from
    }
}

impl Run {
    fn new(alloc: Global) -> Run {
        Run {
            input: Vec::new(alloc),
            crash: None,
            changed: false,
        }
    }
}

fn is_line_feed(byte: &u8) -> bool {
    *byte == b'\n'
}

fn parse_plan(line: &[u8]) -> Option<Plan<'_>> {
    let text = str::from_utf8(line).ok()?;
    Plan::parse(text.strip_prefix("!")?.trim())
}
