//! How far a long command has come, in one line on standard error that is written over.

use outside::{Failed, Source};
use session_cli::Progress;

/// Behind so many bytes of the input the line is written again.
const STEP_BYTES: u64 = 1_048_576;

/// Behind so many lines of a script the line is written again.
const STEP_LINES: u64 = 10_000;

/// A line that counts on standard error, and is written over.
pub struct CountLine {
    // none where nothing is to be told
    told_by: Option<HostRuntime>,
    unit: &'static str,
    step: u64,
    told: u64,
}

impl Drop for CountLine {
    fn drop(self) {
        let Self {
            told_by: _,
            unit: _,
            step: _,
            told: _,
        } = self;
    }
}

impl CountLine {
    // The line of a count that goes by such steps.
    fn new(told_by: Option<HostRuntime>, unit: &'static str, step: u64) -> Self {
        CountLine {
            told_by,
            unit,
            step,
            told: 0,
        }
    }

    // Writes the count, where a step has passed since it was written.
    fn tell_count(&mut self, count: u64) {
        if let Some(rt) = self.told_by
            && count.saturating_sub(self.told) >= self.step
        {
            let _ = eprint!(rt; "\rttcache: {count} {}", self.unit);
            self.told = count;
        }
    }

    // Ends the line with the count, where one was written.
    fn end(&self, count: u64) {
        if let Some(rt) = self.told_by
            && self.told > 0
        {
            let _ = eprintln!(rt; "\rttcache: {count} {}", self.unit);
        }
    }
}

/// A source that tells how many bytes were taken of it. It gives what the source within gives.
pub struct ToldSource<S> {
    source: S,
    line: CountLine,
    taken: u64,
}

impl<S: Drop> Drop for ToldSource<S> {
    fn drop(self) {
        let Self {
            source: _,
            line: _,
            taken: _,
        } = self;
    }
}

impl<S> ToldSource<S> {
    /// Tells of this source by a runtime, or nothing.
    pub fn new(source: S, told_by: Option<HostRuntime>) -> Self {
        ToldSource {
            source,
            line: CountLine::new(told_by, "bytes read", STEP_BYTES),
            taken: 0,
        }
    }

    /// Ends the line with the whole count, where one was written.
    pub fn end(&self) {
        self.line.end(self.taken);
    }
}

impl<S: Source> Source for ToldSource<S> {
    ghost left = { λ told. S.left told.source };

    ghost faults = { λ told. S.faults told.source };

    fn take(&mut self, buf: &mut [u8]) -> Result<usize, Failed> {
        let Ok(count) = self.source.take(buf) else {
            return Err(Failed);
        };
        self.taken = self.taken.saturating_add(count as u64);
        self.line.tell_count(self.taken);
        Ok(count)
    }
}

/// Tells how many lines of a script are answered.
pub struct ToldLines {
    line: CountLine,
    answered: u64,
}

impl Drop for ToldLines {
    fn drop(self) {
        let Self {
            line: _,
            answered: _,
        } = self;
    }
}

impl ToldLines {
    /// Tells by a runtime, or nothing.
    pub fn new(told_by: Option<HostRuntime>) -> Self {
        ToldLines {
            line: CountLine::new(told_by, "lines answered", STEP_LINES),
            answered: 0,
        }
    }

    /// Ends the line with the whole count, where one was written.
    pub fn end(&self) {
        self.line.end(self.answered);
    }
}

impl Progress for ToldLines {
    fn tell(&mut self, answered: u64) {
        self.answered = answered;
        self.line.tell_count(answered);
    }
}
