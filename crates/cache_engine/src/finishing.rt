//! The end of the input.

ghost use Rattle.cache_engine.specs.Engines.{IsInOrder};
ghost use Rattle.cache_engine.specs.Finishing.{FinishesOver};
ghost use Rattle.tier_journal.specs.KeptOver.{DiskIsCaused, stop_of};

use crate::engine::Engine;
use cache_tier::reply::Reply;
use outside::Site;
use std::alloc::Global;
use tier_journal::flush_tail;

/// Flushes what waits in the journal's tail, where a journal is kept, at the end of the input. It takes no memory, and
/// a commit may be in doubt.
///
/// The error is the reply `fault 202`: a call of the disk failed, only where the count of its faults rose. The engine
/// isn't to be used any more. (The journal is this project's.)
pub fn finish<P: Site>(engine: &mut Engine, alloc: Global, site: &mut P) -> Result<(), Reply>
    ensures finishes { FinishesOver P.Disk.state P.Disk.possible engine.old.journal engine.new.journal
        site.old site.new (stop_of result) }
    ensures order { IsInOrder engine.old → IsInOrder engine.new }
    ensures cause { DiskIsCaused engine.old.journal
        (P.Disk.state site.old)
        (P.Disk.state site.new)
        (stop_of result) }
{
    flush_tail(alloc, site, &mut engine.journal)
}
