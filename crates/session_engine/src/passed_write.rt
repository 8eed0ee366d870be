//! INSERT, UPDATE and DELETE at the backing database.

ghost use Rattle.std.specs.Prelude.{◌≡◌, ◌+◌, ◌≤◌, None, Ok, false};
ghost use Rattle.cache_tier.specs.Journals.{Numbers};
ghost use Rattle.cache_tier.specs.PassedSteps.{passed_reply};
ghost use Rattle.tier_journal.specs.Drafts.{IsDraftOf, is_full_draft};
ghost use Rattle.session_engine.specs.Doubting.{IsReady};
ghost use Rattle.session_engine.specs.Passing.{EndsPassed, doubt_of};
ghost use Rattle.stored_tier.specs.Performing.{IsCausedOver, reply_of};
ghost use Rattle.stored_tier.specs.Stored.{IsSound};

use crate::commit::past;
use crate::doubt::{Doubt, Doubted};
use crate::drafting::draft_number;
use cache_tier::reply::Reply;
use evaluator::Change;
use outside::{BankError, Done, Site};
use row_types::Refused;
use std::alloc::Global;
use stored_tier::tier::Tier;
use tier_base::{Code, Limit, Seq, SessionId, Ticket};
use tier_journal::{Draft, TierJournal, flush_draft};
use tier_statements::{done, faulty, refuses};

/// A write that is passed on: its ticket's number is flushed to the journal, where the tier keeps one; the ticket is
/// drawn; and then the write commits by itself at the backing database, with that ticket. The session's own writes and
/// its transaction stay as they are.
///
/// The refusal is 119 where no ticket is left, then where the journal has no room; or memory was wanting. All then
/// stays. The reply is 202 where a call of the journal's disk failed, and the run is to end. It tells how many rows of
/// the named table were written, or the first rule that the write breaks at the backing database, or 299 where memory
/// was wanting there. It is 201 where that call failed, and the ticket is in doubt then. A ticket that was drawn isn't
/// used again. (TimesTen Cache User's Guide, "Setting a passthrough level"; tickets and the journal are this
/// project's.)
pub fn pass_write<P: Site>(
    tier: &mut Tier,
    alloc: Global,
    site: &mut P,
    journal: &mut Option<TierJournal>,
    id: SessionId,
    change: &Change,
    doubt: &mut Option<Doubt>,
) -> Result<Reply, Refused>
    requires sound { IsSound tier.old }
    requires free { doubt.old ≡ None }
    ensures passes { EndsPassed P.Disk.state P.Disk.possible tier.old tier.new doubt.new journal.old journal.new
        site.old site.new id change.now result }
    ensures sound { IsSound tier.new }
    ensures ready { IsReady tier.new doubt.new }
    ensures cause { IsCausedOver journal.old
        (P.Disk.state site.old)
        (P.Disk.state site.new)
        (reply_of result) }
{
    match draft_number(tier, alloc, journal) {
        Err(refused) => Err(refused),
        Ok(draft) => {
            if draft.is_full() {
                return Err(past(Limit::JournalSlot));
            }
            Ok(pass_numbered(tier, alloc, site, journal, id, change, doubt, &draft))
        }
    }
}

// The same with the number that is made ready, and for which the journal has room.
fn pass_numbered<P: Site>(
    tier: &mut Tier,
    alloc: Global,
    site: &mut P,
    journal: &mut Option<TierJournal>,
    id: SessionId,
    change: &Change,
    doubt: &mut Option<Doubt>,
    draft: &Draft,
) -> Reply
    requires sound { IsSound tier.old }
    requires free { doubt.old ≡ None }
    requires left { tier.old.next ≤ 9223372036854775807 }
    requires draft { IsDraftOf tier.old.schema journal.old draft.now (Numbers tier.old.next) }
    requires fits { is_full_draft draft.now ≡ false }
    ensures passes { EndsPassed P.Disk.state P.Disk.possible tier.old tier.new doubt.new journal.old journal.new
        site.old site.new id change.now (Ok result) }
    ensures sound { IsSound tier.new }
    ensures ready { IsReady tier.new doubt.new }
    ensures cause { IsCausedOver journal.old
        (P.Disk.state site.old)
        (P.Disk.state site.new)
        result }
{
    match flush_draft(alloc, site, journal, draft) {
        Err(fault) => fault,
        Ok(()) => {
            let ticket = draw_number(tier);
            let end = site.passed(Ticket(ticket), change);
            conclude_passed(alloc, id, ticket, end, doubt)
        }
    }
}

// The next ticket, which isn't used again.
fn draw_number(tier: &mut Tier) -> u64
    requires sound { IsSound tier.old }
    requires left { tier.old.next ≤ 9223372036854775807 }
    ensures is { result ≡ tier.old.next }
    ensures drawn { tier.new ≡ record tier.old { next = tier.old.next + 1 } }
    ensures sound { IsSound tier.new }
{
    let ticket = tier.next;
    tier.next = ticket + 1;
    ticket
}

// What is replied to the bank's answer. Of a failed call the ticket is in doubt.
fn conclude_passed(
    alloc: Global,
    id: SessionId,
    ticket: u64,
    end: Result<Done, BankError>,
    doubt: &mut Option<Doubt>,
) -> Reply
    requires { doubt.old ≡ None }
    ensures reply { result ≡ passed_reply end }
    ensures doubt { doubt.new ≡ doubt_of id ticket end }
{
    match end {
        Ok(Done::Rows(rows)) => done(alloc, rows),
        Ok(Done::Broken(rule)) => refuses(alloc, rule),
        Err(BankError::Memory) => faulty(alloc, Code::Memory),
        Err(BankError::Failed) => {
            *doubt = Some(Doubt {
                ticket,
                session: id,
                of: Doubted::PassedWrite,
                entered: Seq::new(alloc),
            });
            faulty(alloc, Code::BackingFault)
        }
    }
}
