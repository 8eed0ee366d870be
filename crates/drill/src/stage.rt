//! The objects that the program runs over, set up as a script plans them.

use crate::backing::{asked_behind_label, changes_of, defined};
use crate::error::DrillError;
use crate::joined::joined_tables;
use crate::plan::Plan;
use crate::program::{Ending, Program};
use crate::script::{Crash, Planned, Run, Script};
use crate::slots::change_slots;
use backing_gate::MemorySite;
use memory_disk::Pick;
use outside::{Done, Site};
use sql_subset::request::ConsoleRequest;
use std::alloc::{AllocError, Global};
use table_defs::{BackingSchema, TableDef};
use tier_base::Seq;

/// The objects.
pub struct Stage<'a> {
    /// The backing database.
    pub site: MemorySite,
    // The tables that the site has, and then those that the script defines.
    schema: BackingSchema,
    program: Program<'a>,
    /// The replies of all runs.
    pub replies: Vec<u8>,
    /// Whether the journal's slots are told at the end.
    pub slots: bool,
}

impl Drop for Stage<'_> {
    fn drop(self) {
        let Self {
            site: _,
            schema: _,
            program: _,
            replies: _,
            slots: _,
        } = self;
    }
}

impl<'a> Stage<'a> {
    /// Objects with which nothing goes wrong.
    pub fn new(alloc: Global) -> Result<Stage<'a>, AllocError> {
        let site = MemorySite::new(alloc)?;
        Ok(Stage {
            site,
            schema: Seq::new(alloc),
            program: Program::new(alloc),
            replies: Vec::new(alloc),
            slots: false,
        })
    }

    /// Does what stands before the runs, and sets up what holds for all of them.
    pub fn set_up(&mut self, alloc: Global, script: &Script<'a>) -> Result<(), DrillError> {
        for planned in &script.plans {
            self.do_before(alloc, planned)?;
        }
        for run in &script.runs {
            self.foresee(alloc, run.input.as_slice())?;
        }
        self.foresee(alloc, script.last.input.as_slice())?;
        for planned in &script.plans {
            self.set(planned.plan)?;
        }
        Ok(())
    }

    fn do_before(&mut self, alloc: Global, planned: &Planned<'a>) -> Result<(), DrillError> {
        match planned.plan {
            Plan::Before(text) => self.play_before(alloc, text, planned.line),
            Plan::Joined => {
                for def in joined_tables(alloc)? {
                    self.define(def, planned.line)?;
                }
                Ok(())
            }
            _ => Ok(()),
        }
    }

    // Makes the table, or does the writes, that the text asks for.
    fn play_before(&mut self, alloc: Global, text: &str, line: usize) -> Result<(), DrillError> {
        match asked_behind_label(alloc, text)? {
            Some(ConsoleRequest::CreateTable(table)) => {
                match TableDef::check(alloc, &table, &self.schema) {
                    Ok(def) => self.define(def, line),
                    Err(_) => Err(DrillError::Line(line)),
                }
            }
            _ => self.write(alloc, text, line),
        }
    }

    fn define(&mut self, def: TableDef, line: usize) -> Result<(), DrillError> {
        if self.site.define(&def).is_err() {
            return Err(DrillError::Line(line));
        }
        self.know(def)?;
        Ok(())
    }

    fn know(&mut self, def: TableDef) -> Result<(), AllocError> {
        self.schema.push(def)?;
        Ok(())
    }

    fn write(&mut self, alloc: Global, text: &str, line: usize) -> Result<(), DrillError> {
        let changes = changes_of(alloc, &self.schema, text, line)?;
        match self.site.foreign(changes.as_slice()) {
            Ok(Done::Rows(_)) => Ok(()),
            _ => Err(DrillError::Line(line)),
        }
    }

    // The tables that the script defines, so that the writes of others can name them.
    fn foresee(&mut self, alloc: Global, input: &[u8]) -> Result<(), AllocError> {
        for line in input.split(|byte| *byte == b'\n') {
            if let Some(def) = defined(alloc, &self.schema, line) {
                self.know(def)?;
            }
        }
        Ok(())
    }

    // Sets up what holds for all runs.
    fn set(&mut self, plan: Plan<'a>) -> Result<(), AllocError> {
        match plan {
            Plan::Slots => self.slots = true,
            Plan::Pieces(piece) => self.program.piece = piece,
            Plan::Source(call) => self.program.source_fails.push(call)?,
            Plan::Sink(call) => self.program.sink_fails.push(call)?,
            Plan::Words(text) => self.program.words = text,
            Plan::Settings(text) => {
                self.program.settings.push_str(text)?;
                self.program.settings.push_str("\n")?;
            }
            _ => {}
        }
        Ok(())
    }

    /// Does the runs of the script, one after the other, over the same site. The status is the last one's, 0 where that
    /// ends in a crash.
    pub fn run_all(&mut self, alloc: Global, script: &Script<'a>) -> Result<u8, DrillError> {
        for number in 0..script.runs.len() {
            let _ = self.run(alloc, script, number)?;
        }
        self.run(alloc, script, script.runs.len())
    }

    fn run(&mut self, alloc: Global, script: &Script<'a>, number: usize) -> Result<u8, DrillError> {
        let run = script.run(number);
        if script.begins(number) {
            let start = self.start(alloc, script, number)?;
            if let Some(crash) = run.crash {
                self.run_into(alloc, script, number, crash, &start)?;
                return Ok(0);
            }
            self.site = self.planned(alloc, script, number, &start)?;
        }
        let input = run.input.as_slice();
        let (status, sink) = self
            .program
            .play(alloc, input, Ending::Whole, &mut self.site)?;
        self.tell(sink.bytes(), "")?;
        Ok(status)
    }

    // The site as it is when the run begins, with its slots changed as the script says, and nothing planned for it.
    fn start(
        &self,
        alloc: Global,
        script: &Script<'a>,
        number: usize,
    ) -> Result<MemorySite, DrillError> {
        let site = copy(&self.site)?;
        change_slots(alloc, site, script, number)
    }

    // A copy of the site for which is planned what the script plans of the runs that are counted from this one.
    fn planned(
        &self,
        alloc: Global,
        script: &Script<'a>,
        number: usize,
        start: &MemorySite,
    ) -> Result<MemorySite, DrillError> {
        let mut site = copy(start)?;
        for planned in &script.plans {
            if script.counted_from(planned.run) == number {
                self.plan(alloc, planned, &mut site)?;
            }
        }
        Ok(site)
    }

    fn plan(
        &self,
        alloc: Global,
        planned: &Planned<'a>,
        site: &mut MemorySite,
    ) -> Result<(), DrillError> {
        match planned.plan {
            Plan::Fail(kind, call, when) => site.fail(kind, call, when)?,
            Plan::Refuse(kind, call) => site.refuse(kind, call)?,
            Plan::Foreign(call, side, text) => {
                let changes = changes_of(alloc, &self.schema, text, planned.line)?;
                site.foreign_at(call, side, changes)?;
            }
            _ => {}
        }
        Ok(())
    }

    // A run that ends in a crash.
    fn run_into(
        &mut self,
        alloc: Global,
        script: &Script<'a>,
        number: usize,
        crash: Crash,
        start: &MemorySite,
    ) -> Result<(), DrillError> {
        let run = script.run(number);
        let mut site = self.planned(alloc, script, number, start)?;
        let _ = self
            .program
            .play(alloc, run.input.as_slice(), Ending::Whole, &mut site)?;
        if crash.moment > site.moments() {
            return Err(DrillError::Line(crash.line));
        }
        let left = site.crash(crash.moment, crash.pick)?;
        let replies = self.answered(alloc, script, number, crash, start)?;
        self.site = left;
        self.tell(replies.as_slice(), "<crash>\n")?;
        Ok(())
    }

    // The replies that the run wrote before the crash, where its input comes line by line: those of the lines behind
    // which the moment isn't past that of the crash. So the run is begun again with more and more of its lines.
    fn answered(
        &self,
        alloc: Global,
        script: &Script<'a>,
        number: usize,
        crash: Crash,
        start: &MemorySite,
    ) -> Result<Vec<u8>, DrillError> {
        let mut replies = Vec::new(alloc);
        for lines in fronts(alloc, script.run(number))? {
            let mut site = self.planned(alloc, script, number, start)?;
            let (_, sink) = self
                .program
                .play(alloc, lines.as_slice(), Ending::Broken, &mut site)?;
            if site.moments() > crash.moment {
                break;
            }
            replies = Vec::from_slice(alloc, sink.bytes())?;
        }
        Ok(replies)
    }

    // Puts the replies of a run behind the others: a mark stands where the last one is cut off, and then another one.
    fn tell(&mut self, replies: &[u8], mark: &str) -> Result<(), AllocError> {
        self.replies.extend_from_slice(replies)?;
        if !replies.is_empty() && !replies.ends_with(b"\n") {
            self.replies.extend_from_slice(b"<cut>\n")?;
        }
        self.replies.extend_from_slice(mark.as_bytes())
    }
}

// The site as it is, without its past and what is planned for it.
fn copy(site: &MemorySite) -> Result<MemorySite, AllocError> {
    site.crash(site.moments(), Pick::New)
}

// The run's first lines: none, one, two and so on up to all.
fn fronts(alloc: Global, run: &Run) -> Result<Vec<Vec<u8>>, AllocError> {
    let mut fronts = vec![in alloc; Vec::new(alloc)]?;
    let mut front = Vec::new(alloc);
    for line in run.input.split_inclusive(|byte| *byte == b'\n') {
        front.extend_from_slice(line)?;
        fronts.push(Vec::from_slice(alloc, front.as_slice())?)?;
    }
    Ok(fronts)
}
