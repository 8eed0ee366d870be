//! The program over objects in memory.

use backing_gate::MemorySite;
use outside::{Clock, MemorySink, MemorySource, ScriptClock, Sink, Site, Source};
use session_cli::{Silent, top};
use std::alloc::{AllocError, Global};

/// At most so many bytes are taken of a source at once.
const TAKEN: usize = 65_536;

/// How the input of a run ends.
#[derive(Clone, Copy, Debug, PartialEq, Eq)]
pub enum Ending {
    /// It is read to its end.
    Whole,
    /// The call of the source behind it fails: all its lines are answered, and nothing comes behind them.
    Broken,
}

/// What the program is called with in each run, besides its input and the site.
pub struct Program<'a> {
    /// The words behind its name.
    pub words: &'a str,
    /// The settings.
    pub settings: String,
    /// How many bytes source and sink move at once.
    pub piece: usize,
    /// Which calls of the source fail.
    pub source_fails: Vec<u64>,
    /// Which calls of the sink fail.
    pub sink_fails: Vec<u64>,
}

impl Drop for Program<'_> {
    fn drop(self) {
        let Self {
            words: _,
            settings: _,
            piece: _,
            source_fails: _,
            sink_fails: _,
        } = self;
    }
}

impl<'a> Program<'a> {
    /// The command `run`, without settings, over source and sink that don't fail.
    pub fn new(alloc: Global) -> Program<'a> {
        Program {
            words: "run",
            settings: String::new(alloc),
            piece: TAKEN,
            source_fails: Vec::new(alloc),
            sink_fails: Vec::new(alloc),
        }
    }

    /// One run over the site: its status, and the sink with its replies.
    pub fn play(
        &self,
        alloc: Global,
        input: &[u8],
        ending: Ending,
        site: &mut MemorySite,
    ) -> Result<(u8, MemorySink), AllocError> {
        let mut source = self.source(alloc, input, ending)?;
        let sink_fails = Vec::from_slice(alloc, self.sink_fails.as_slice())?;
        let mut sink = MemorySink::new(alloc, self.piece, sink_fails);
        let mut clock = ScriptClock::new(Vec::new(alloc));
        let words = words_of(alloc, self.words)?;
        let status = call(
            alloc,
            words.as_slice(),
            self.settings.as_bytes(),
            &mut source,
            &mut sink,
            site,
            &mut clock,
        );
        Ok((status, sink))
    }

    fn source(
        &self,
        alloc: Global,
        input: &[u8],
        ending: Ending,
    ) -> Result<MemorySource, AllocError> {
        let mut fails = Vec::from_slice(alloc, self.source_fails.as_slice())?;
        let bytes = Vec::from_slice(alloc, input)?;
        match ending {
            Ending::Whole => Ok(MemorySource::new(bytes, self.piece.max(1), fails)),
            Ending::Broken => {
                fails.push(takes(input.len()))?;
                Ok(MemorySource::new(bytes, TAKEN, fails))
            }
        }
    }
}

// Calls the program over any objects. Its contract is long, and this passes none of it on: so the caller, which has
// objects of known types, is proved without it.
fn call<'a, S: Source, K: Sink, P: Site, C: Clock>(
    alloc: Global,
    words: &'a [&'a str],
    settings: &[u8],
    source: &mut S,
    sink: &mut K,
    site: &mut P,
    clock: &mut C,
) -> u8 {
    top(
        alloc,
        words,
        settings,
        source,
        sink,
        site,
        clock,
        &mut Silent,
    )
}

// How many calls take an input of this length.
fn takes(length: usize) -> u64 {
    let whole = (length / TAKEN) as u64;
    if length % TAKEN == 0 {
        return whole;
    }
    whole.saturating_add(1)
}

// The program's name, and the words behind it.
fn words_of(alloc: Global, text: &str) -> Result<Vec<&str>, AllocError> {
    let mut words = vec![in alloc; "ttcache"]?;
    for word in text.split_ascii_whitespace() {
        words.push(word)?;
    }
    Ok(words)
}
