//! Noting and flushing, where a tier keeps a journal.

ghost use Rattle.std.specs.Prelude.{◌≡◌, ◌∷◌, [], None, false};
ghost use Rattle.tier_base.specs.declared.limit.Limit.TheVariants as limit;
ghost use Rattle.cache_tier.specs.declared.reply.Last.TheVariants.{No};
ghost use Rattle.cache_tier.specs.Rules.{past};
ghost use Rattle.cache_tier.specs.Worlds.{only};
ghost use Rattle.cache_tier.specs.JournalSteps.{Flushes, FlushesFitting, Records};
ghost use Rattle.cache_tier.specs.Journals.{JournalEntry};
ghost use Rattle.tier_journal.specs.Drafts.{IsPlaced, is_full_draft};
ghost use Rattle.tier_journal.specs.KeptOver.{DiskIsCaused, WritesDraft, WritesOver, stop_of};

use crate::TierJournal;
use crate::draft::Draft;
use cache_tier::reply::{Last, Reply, faulty, only};
use outside::Disk;
use row_types::{Detail, Rule};
use std::alloc::Global;
use tier_base::{Code, Limit};

/// Flushes the tail, where a journal is kept. The reply is `fault 202`: a call of the disk failed, and the run is to
/// end.
pub fn flush_tail<D: Disk>(
    alloc: Global,
    disk: &mut D,
    journal: &mut Option<TierJournal>,
) -> Result<(), Reply>
    ensures flushes { WritesOver D.state D.possible journal.old journal.new disk.old disk.new (stop_of result)
        (Flushes []) }
    ensures none { journal.old ≡ None → journal.new ≡ None }
    ensures cause { DiskIsCaused journal.old (D.state disk.old) (D.state disk.new) (stop_of result) }
{
    match journal {
        None => Ok(()),
        Some(journal) => match journal.flush(disk) {
            Ok(()) => Ok(()),
            Err(_) => Err(faulty(alloc, Code::JournalFault)),
        },
    }
}

/// Flushes the entry that was made ready, with the tail before it, where a journal is kept. The reply is 119 where it
/// has no room, and `fault 202` where a call of the disk failed, and the run is to end. It takes no memory.
pub fn flush_draft<D: Disk>(
    alloc: Global,
    disk: &mut D,
    journal: &mut Option<TierJournal>,
    draft: &Draft,
) -> Result<(), Reply>
    requires { IsPlaced journal.old draft.now }
    ensures flushes { (e : JournalEntry) → WritesDraft D.state D.possible journal.old journal.new disk.old disk.new
        draft.now e (stop_of result) (FlushesFitting (e ∷ [])) }
    ensures cause { DiskIsCaused journal.old (D.state disk.old) (D.state disk.new) (stop_of result) }
{
    match draft {
        Draft::Unkept => Ok(()),
        Draft::Full => Err(slot_is_full(alloc)),
        Draft::Fits(batch) => match journal {
            None => Ok(()),
            Some(journal) => match journal.flush_with(disk, batch) {
                Ok(()) => Ok(()),
                Err(_) => Err(faulty(alloc, Code::JournalFault)),
            },
        },
    }
}

/// Notes the entry that was made ready, or flushes it with the tail before it where it is to be durable, where a
/// journal is kept. The reply is `fault 202` where a call of the disk failed, and the run is to end. It takes no
/// memory.
pub fn record_draft<D: Disk>(
    alloc: Global,
    disk: &mut D,
    journal: &mut Option<TierJournal>,
    draft: &Draft,
    durable: bool,
) -> Result<(), Reply>
    requires placed { IsPlaced journal.old draft.now }
    requires fits { is_full_draft draft.now ≡ false }
    ensures records { (e : JournalEntry) → WritesDraft D.state D.possible journal.old journal.new disk.old disk.new
        draft.now e (stop_of result) (Records durable e) }
    ensures cause { DiskIsCaused journal.old (D.state disk.old) (D.state disk.new) (stop_of result) }
{
    match draft {
        Draft::Unkept => Ok(()),
        Draft::Full => Ok(()),
        Draft::Fits(batch) => match journal {
            None => Ok(()),
            Some(journal) => {
                if !durable {
                    journal.note(batch);
                    return Ok(());
                }
                match journal.flush_with(disk, batch) {
                    Ok(()) => Ok(()),
                    Err(_) => Err(faulty(alloc, Code::JournalFault)),
                }
            }
        },
    }
}

// 119 of the journal.
fn slot_is_full(alloc: Global) -> Reply
    ensures { result ≡ only (No (past limit.JournalSlot)) }
{
    let rule = Rule {
        code: Code::Limit,
        detail: Detail::Limit(Limit::JournalSlot),
    };
    only(alloc, Last::No(rule))
}
