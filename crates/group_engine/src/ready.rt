//! What a statement on a group writes to the journal: made ready before anything changes, and flushed last.

ghost use Rattle.std.specs.Prelude.{◌≡◌, IfOk, false};
ghost use Rattle.tier_base.specs.declared.limit.Limit.TheVariants as limit;
ghost use Rattle.cache_tier.specs.declared.reply.Last.TheVariants.{No};
ghost use Rattle.cache_tier.specs.Rules.{past};
ghost use Rattle.cache_tier.specs.Worlds.{only};
ghost use Rattle.tier_journal.specs.Drafts.{HasKept};
ghost use Rattle.tier_journal.specs.KeptOver.{DiskIsCaused, stop_of};
ghost use Rattle.stored_tier.specs.Performing.{IsCalm, IsCausedOver};
ghost use Rattle.group_engine.specs.Ready.{AnswersBehind, FillsAll, IsPlacedReady, WritesReady, is_full_ready};

use cache_tier::reply::{Last, Reply};
use outside::{Disk, Site};
use row_types::{Detail, Rule};
use std::alloc::{AllocError, Global};
use tier_base::{Code, Limit};
use tier_journal::{Batch, Draft, ReserveError, TierJournal, flush_draft};
use tier_statements::{faulty, only};

/// Entries that are made ready for the journal.
pub(crate) enum Ready {
    // The tier keeps no journal, or there is nothing to write.
    Nothing,
    // One entry.
    One(Draft),
    // The bytes of two entries, for which there is room.
    Both(Batch),
    // The journal has no room for the two, which is 119.
    Full,
}

// By hand, so that what lets it go has one call, and not all its forms.
impl Drop for Ready {
    fn drop(self) {
        match self {
            Self::Nothing => {}
            Self::One(_) => {}
            Self::Both(_) => {}
            Self::Full => {}
        }
    }
}

impl Ready {
    /// Whether the journal has no room for the entries.
    pub(crate) fn is_full(&self) -> bool
        ensures { result ≡ is_full_ready self.now }
    {
        match self {
            Self::Nothing => false,
            Self::One(draft) => draft.is_full(),
            Self::Both(_) => false,
            Self::Full => true,
        }
    }
}

// The batch with room made for it, where there is some. It fails for want of memory alone.
pub(crate) fn room_made(journal: &mut TierJournal, batch: Batch) -> Result<Ready, AllocError>
    ensures ready { IfOk result (λ ready. FillsAll journal.old journal.new batch ready) }
    ensures kept { HasKept journal.old journal.new }
{
    match journal.room_for(&batch) {
        Ok(()) => Ok(Ready::Both(batch)),
        Err(ReserveError::Limit) => Ok(Ready::Full),
        Err(ReserveError::Memory) => Err(AllocError),
    }
}

/// 119 of the journal.
pub(crate) fn slot_is_full(alloc: Global) -> Reply
    ensures told { result ≡ only (No (past limit.JournalSlot)) }
    ensures calm { IsCalm result }
{
    let rule = Rule {
        code: Code::Limit,
        detail: Detail::Limit(Limit::JournalSlot),
    };
    only(alloc, Last::No(rule))
}

/// What was made ready is flushed with the tail before it, and the line is answered so. The reply is `fault 202` where
/// a call of the disk failed; the run is to end then. It takes no memory.
pub(crate) fn answer_behind<P: Site>(
    alloc: Global,
    site: &mut P,
    journal: &mut Option<TierJournal>,
    ready: &Ready,
    reply: Reply,
) -> Reply
    requires placed { IsPlacedReady journal.old ready.now }
    requires fits { is_full_ready ready.now ≡ false }
    requires calm { IsCalm reply }
    ensures answers { AnswersBehind P.Disk.state P.Disk.possible journal.old journal.new site.old site.new
        ready.now reply result }
    ensures cause { IsCausedOver journal.old (P.Disk.state site.old) (P.Disk.state site.new) result }
{
    match flush_ready(alloc, site, journal, ready) {
        Ok(()) => reply,
        Err(fault) => fault,
    }
}

/// What was made ready is flushed with the tail before it.
pub(crate) fn flush_ready<D: Disk>(
    alloc: Global,
    disk: &mut D,
    journal: &mut Option<TierJournal>,
    ready: &Ready,
) -> Result<(), Reply>
    requires placed { IsPlacedReady journal.old ready.now }
    requires fits { is_full_ready ready.now ≡ false }
    ensures flushes { WritesReady D.state D.possible journal.old journal.new disk.old disk.new ready.now
        (stop_of result) }
    ensures cause { DiskIsCaused journal.old (D.state disk.old) (D.state disk.new) (stop_of result) }
{
    match ready {
        Ready::Nothing => Ok(()),
        Ready::Full => Ok(()),
        Ready::One(draft) => flush_draft(alloc, disk, journal, draft),
        Ready::Both(batch) => match journal {
            None => Ok(()),
            Some(journal) => match journal.flush_with(disk, batch) {
                Ok(()) => Ok(()),
                Err(_) => Err(faulty(alloc, Code::JournalFault)),
            },
        },
    }
}
