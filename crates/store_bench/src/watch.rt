//! How long calls take, and what they found.

use crate::error::BenchError;
use std::io::Write;
use std::time::Instant;

/// Writes to standard error how many nanoseconds each of so many calls took since a moment.
pub fn tell_calls(
    rt: &HostRuntime,
    what: &str,
    calls: usize,
    since: Instant,
) -> Result<(), BenchError> {
    let spent = since.elapsed(rt)?;
    let each = if calls == 0 {
        0
    } else {
        spent.as_nanos() / calls as u128
    };
    eprintln!(rt; "{what}: {each} ns")?;
    Ok(())
}

/// Writes to standard output how many of something there are.
pub fn tell(rt: &HostRuntime, what: &str, count: usize) -> Result<(), BenchError> {
    println!(rt; "{what}: {count}")?;
    Ok(())
}

/// A number below `rows` for each place, those of places one behind another far from each other, and each of them once.
pub fn mixed(place: usize, rows: usize) -> usize {
    if rows == 0 {
        return 0;
    }
    place.wrapping_mul(611_953) % rows
}
