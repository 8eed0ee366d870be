//! The script of a number, run on a new site in memory.

ghost use Rattle.std.specs.Prelude.{IfOk};
ghost use Rattle.session_cli.specs.Running.{IsSummaryOf};

use crate::progress::Progress;
use crate::running::run_script;
use crate::summary::{Summary, greatest_ticket};
use backing_gate::MemorySite;
use cache_engine::beginning::begin;
use std::alloc::{AllocError, Global};
use stored_tier::clock::Pace;
use tier_base::Moment;

// When work is done, by default settings.
const DEFAULT_PACE: Pace = Pace {
    propagate_ms: 0,
    rotate_bytes: 16_777_216,
    lru_high: 10_000,
    lru_low: 9_000,
    lru_cycle_ms: 60_000,
};

/// Opens a tier over a new site in memory, with default settings, lets it answer each line of the script of a number,
/// and tells what the run comes to. How far it has come is told on the way.
///
/// The error is want of memory outside a request, or a failed call of the site at the opening.
pub fn bench<G: Progress>(
    alloc: Global,
    number: u32,
    progress: &mut G,
) -> Result<Summary, AllocError>
    ensures { IfOk result (IsSummaryOf number) }
{
    let mut site = MemorySite::new(alloc)?;
    let Ok(mut engine) = begin(alloc, &mut site, Moment(0), DEFAULT_PACE) else {
        return Err(AllocError);
    };
    let counts = run_script(alloc, &mut engine, &mut site, number, progress)?;
    let history = site.history().as_slice();
    Ok(Summary {
        counts,
        ticket: greatest_ticket(history),
        entries: history.len() as u64,
    })
}
