//! `ttcache`: a relational cache in front of a backing database.
//!
//! `ttcache run` reads request lines from standard input and writes replies to standard output; `ttcache check` says of
//! each line whether it is spelt right. `ttcache make N` writes the generated script of a number, and `ttcache bench N`
//! runs that script on a new site in memory and writes what its run comes to.
//!
//! `run` works on files in the working folder: the journal's slots `ttcache.j0` and `ttcache.j1`, and the backing
//! database
//! `ttcache.db`. It ends with the status that `session_cli::top` answers, or with 11 where a file can't be opened or
//! the settings can't be read. Of each status other than 0 it says on standard error in one line what happened. As
//! `import` reads and as `bench` runs, a line there counts bytes or lines, where standard error is a terminal.
#![tactic(auto)]

mod files;
mod progress;
mod streams;
mod system_clock;

use backing_gate::MemorySite;
use files::{SiteError, open_site};
use outside::{Clock, Sink, Site, Source};
use progress::{ToldLines, ToldSource};
use session_cli::{Progress, top};
use std::alloc::{AllocError, Global};
use std::io::{ErrorKind, IsTerminal};
use std::process::ExitCode;
use std::{env, fs};
use streams::{ReaderSource, WriterSink};
use system_clock::SystemClock;

/// The settings, in the working folder.
const SETTINGS: &str = "ttcache.toml";

/// The status where the words aren't taken.
const WRONG_WORDS: u8 = 1;

/// The status where memory is wanting.
const NO_MEMORY: u8 = 7;

/// The status where the settings can't be read.
const CANNOT_OPEN: u8 = 11;

fn main(rt: HostRuntime) -> ExitCode {
    ExitCode::from(status(&rt))
}

fn status(rt: &HostRuntime) -> u8 {
    let end = match settings(rt) {
        Some(settings) => run(rt, settings.as_slice()),
        None => Err(SETTINGS),
    };
    match end {
        Err(name) => {
            let _ = eprintln!(rt; "ttcache: cannot open {name}");
            CANNOT_OPEN
        }
        Ok(status) => {
            if let Some(meaning) = meaning(status) {
                let _ = eprintln!(rt; "{meaning}");
            }
            status
        }
    }
}

// What a status other than 0 says.
fn meaning(status: u8) -> Option<&'static str> {
    match status {
        0 => None,
        WRONG_WORDS => Some("usage: ttcache run | check | import TABLE | make N | bench N"),
        2 => Some("ttcache: ttcache.toml has an unknown key, a wrong type or a value out of range"),
        3 => Some("ttcache: standard input failed"),
        4 => Some("ttcache: standard output failed"),
        5 => Some("ttcache: the journal's disk failed"),
        6 => Some("ttcache: the backing database failed as the tier was opened"),
        NO_MEMORY => Some("ttcache: memory is wanting"),
        8 => Some("ttcache: the journal is damaged"),
        9 => Some("ttcache: a row of the backing database isn't as the journal says"),
        10 => Some("ttcache: standard input is longer than 4294967296 bytes"),
        _ => Some("ttcache: unknown status"),
    }
}

// The bytes of the settings file, none where there is no file.
fn settings(rt: &HostRuntime) -> Option<Vec<u8>> {
    match fs::read(rt, SETTINGS) {
        Ok(bytes) => Some(bytes),
        Err(error) => {
            if error.kind() == ErrorKind::NotFound {
                return Some(Vec::new(rt.alloc()));
            }
            None
        }
    }
}

// Calls the program with the words that it was called with, over the site that they want. The error is the name of a
// file that can't be opened.
fn run(rt: &HostRuntime, settings: &[u8]) -> Result<u8, &'static str> {
    let args = match env::args(rt) {
        Ok(args) => args,
        Err(error) => {
            if error.kind() == ErrorKind::OutOfMemory {
                return Ok(NO_MEMORY);
            }
            return Ok(WRONG_WORDS);
        }
    };
    let Ok(args) = args.collect::<Vec<String>>(rt.alloc()) else {
        return Ok(NO_MEMORY);
    };
    let Ok(words) = words_of(rt.alloc(), args.as_slice()) else {
        return Ok(NO_MEMORY);
    };
    let words = words.as_slice();
    if wants_files(words) {
        return match open_site(rt) {
            Ok(mut site) => Ok(call(rt, words, settings, &mut site)),
            Err(SiteError::Memory) => Ok(NO_MEMORY),
            Err(SiteError::Unopened(name)) => Err(name),
        };
    }
    match MemorySite::new(rt.alloc()) {
        Ok(mut site) => Ok(call(rt, words, settings, &mut site)),
        Err(_) => Ok(NO_MEMORY),
    }
}

// Whether these words are those of a command that works on files.
fn wants_files(words: &[&str]) -> bool {
    match words.get(1) {
        Some(word) => *word == "run" || *word == "import",
        None => false,
    }
}

// Calls the program with the real streams and the real clock, over this site.
fn call<P: Site>(rt: &HostRuntime, words: &[&str], settings: &[u8], site: &mut P) -> u8 {
    let input = ReaderSource::new(rt.stdin());
    let mut source = ToldSource::new(input, told_by(rt, words, "import"));
    let mut lines = ToldLines::new(told_by(rt, words, "bench"));
    let mut sink = WriterSink::new(rt.stdout());
    let mut clock = SystemClock::new(*rt);
    let status = call_over(
        rt.alloc(),
        words,
        settings,
        &mut source,
        &mut sink,
        site,
        &mut clock,
        &mut lines,
    );
    source.end();
    lines.end();
    status
}

// Calls the program over any objects. Its contract is long, and this passes none of it on: so the caller, which has
// streams of known types, is proved without it.
fn call_over<'a, S: Source, K: Sink, P: Site, C: Clock, G: Progress>(
    alloc: Global,
    words: &'a [&'a str],
    settings: &[u8],
    source: &mut S,
    sink: &mut K,
    site: &mut P,
    clock: &mut C,
    progress: &mut G,
) -> u8 {
    top(alloc, words, settings, source, sink, site, clock, progress)
}

// What tells how far this command has come: the runtime, where the words name it and standard error is a terminal.
fn told_by(rt: &HostRuntime, words: &[&str], command: &str) -> Option<HostRuntime> {
    match words.get(1) {
        Some(word) => {
            if *word == command && rt.stderr().is_terminal() {
                Some(*rt)
            } else {
                None
            }
        }
        None => None,
    }
}

fn words_of(alloc: Global, args: &[String]) -> Result<Vec<&str>, AllocError> {
    let mut words = Vec::with_capacity(alloc, args.len())?;
    for arg in args {
        words.push(arg.as_str())?;
    }
    Ok(words)
}
