//! The lines of a script, answered and counted.

ghost use Rattle.std.specs.Prelude.{◌≡◌, ◌<◌, [], IfOk, length, true};
ghost use Rattle.cache_tier.specs.Worlds.{World};
ghost use Rattle.cache_engine.specs.Engines.{IsInOrder, IsLeftIn};
ghost use Rattle.stored_tier.specs.Sites.{IsAt};
ghost use Rattle.script_maker.specs.Script.{script_lines};
ghost use Rattle.session_cli.specs.Running.{Answers, Ends};
ghost use Rattle.session_cli.specs.Summaries.{HasRoom};

use crate::counts::Counts;
use crate::progress::Progress;
use cache_engine::engine::Engine;
use cache_engine::request::request;
use outside::Site;
use script_maker::ScriptLines;
use std::alloc::{AllocError, Global};
use tier_base::Moment;

/// Lets the engine answer each line of the script of a number, with moments that are counted from 0, and counts the
/// replies, which is told after each line. Others change no table.
///
/// The error is want of memory for a line of the script.
pub(crate) fn run_script<P: Site, G: Progress>(
    alloc: Global,
    engine: &mut Engine,
    site: &mut P,
    number: u32,
    progress: &mut G,
) -> Result<Counts, AllocError>
    requires order { IsInOrder engine.old }
    requires unshared { (P.Disk.state site.old).shared ≡ [] }
    ensures { IfOk result (λ counts. (w : World) → IsAt (P.Disk.state site.old) w → IsLeftIn engine.old w
        → Ends w (script_lines number) counts (P.Disk.state site.new)) }
{
    let mut lines = ScriptLines::new(number);
    let mut line = Vec::new(alloc);
    let mut counts = Counts::none();
    'lines: loop {
        let more = answer_next(alloc, engine, site, &mut lines, &mut line, &mut counts)?;
        if !more {
            return Ok(counts);
        }
        progress.tell(counts.requests);
    }
}

// Lets the engine answer the next line, and counts its reply. False where no line is left.
fn answer_next<P: Site>(
    alloc: Global,
    engine: &mut Engine,
    site: &mut P,
    lines: &mut ScriptLines,
    line: &mut Vec<u8>,
    counts: &mut Counts,
) -> Result<bool, AllocError>
    requires order { IsInOrder engine.old }
    requires unshared { (P.Disk.state site.old).shared ≡ [] }
    requires clear { line.old.items ≡ [] }
    requires room { HasRoom counts.old (length lines.old) }
    ensures answers { IfOk result (λ more. (w : World) → IsAt (P.Disk.state site.old) w → IsLeftIn engine.old w
        → Answers w lines.old lines.new counts.old counts.new engine.new (P.Disk.state site.new) more) }
    ensures fewer { IfOk result (λ more. more ≡ true → length lines.new < length lines.old) }
    ensures order { IfOk result (λ more. IsInOrder engine.new) }
    ensures unshared { IfOk result (λ more. (P.Disk.state site.new).shared ≡ []) }
    ensures clear { IfOk result (λ more. line.new.items ≡ []) }
    ensures room { IfOk result (λ more. HasRoom counts.new (length lines.new)) }
{
    let more = lines.put_next(line)?;
    if !more {
        return Ok(false);
    }
    let reply = request(engine, alloc, site, Moment(0), line.as_slice());
    *counts = counts.with(&reply);
    line.clear();
    Ok(true)
}
