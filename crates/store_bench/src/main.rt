//! `store_bench`: what calls of `slot_rows` and `group_store` cost beside those of `indexed_rows`, in one run, and a
//! look-up through a session's own writes beside one in the rows alone.
//!
//! Its first word is a number of rows, 1,000 to 10,000,000. Standard output has what the calls found, and standard
//! error the nanoseconds of a call. A second word measures one of them alone, so that the memory of the process is its
//! own: `keys` or
//! `slots` rows by key, `index` or `order` child rows with their order by parent, `overlay` a session's look-ups. Its
//! status is 0, or 1 where the words are others, memory is wanting or the system has no clock.
#![tactic(auto)]

mod error;
mod groups;
mod overlay;
mod parents;
mod rows;
mod stock;
mod watch;
mod writing;

use error::BenchError;
use groups::measure_instances;
use overlay::measure_overlay;
use parents::{measure_indexed, measure_ordered};
use rows::{measure_keyed, measure_slots};
use std::env;
use std::process::ExitCode;
use watch::tell;

/// The fewest rows that are measured.
const LEAST: usize = 1_000;

/// The most rows that are measured.
const MOST: usize = 10_000_000;

fn main(rt: HostRuntime) -> ExitCode {
    match run(&rt) {
        Ok(()) => ExitCode::SUCCESS,
        Err(error) => {
            let _ = eprintln!(rt; "store_bench: {error}");
            ExitCode::FAILURE
        }
    }
}

fn run(rt: &HostRuntime) -> Result<(), BenchError> {
    let words = env::args(rt)?.collect::<Vec<String>>(rt.alloc())?;
    let rows = rows_asked(words.as_slice())?;
    match words.get(2) {
        None => measure_all(rt, rows),
        Some(word) => measure_one(rt, rows, word.as_str()),
    }
}

fn measure_all(rt: &HostRuntime, rows: usize) -> Result<(), BenchError> {
    measure_one(rt, rows, "keys")?;
    measure_one(rt, rows, "slots")?;
    measure_one(rt, rows, "index")?;
    measure_one(rt, rows, "order")?;
    tell(rt, "instances left", measure_instances(rt, rows)?)?;
    measure_one(rt, rows, "overlay")
}

fn measure_one(rt: &HostRuntime, rows: usize, word: &str) -> Result<(), BenchError> {
    match word {
        "keys" => tell(rt, "rows by key found", measure_keyed(rt, rows)?),
        "slots" => tell(rt, "rows in slots found", measure_slots(rt, rows)?),
        "index" => tell(rt, "children by index found", measure_indexed(rt, rows)?),
        "order" => tell(rt, "children by order found", measure_ordered(rt, rows)?),
        "overlay" => measure_overlay(rt, rows),
        _ => Err(BenchError::Word),
    }
}

// The number that the first word is, behind the program's own name.
fn rows_asked(words: &[String]) -> Result<usize, BenchError> {
    match words.get(1).and_then(|word| word.parse::<usize>().ok()) {
        Some(rows) if rows >= LEAST && rows <= MOST => Ok(rows),
        _ => Err(BenchError::Word),
    }
}
