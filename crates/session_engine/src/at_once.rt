//! COMMIT of a transaction whose groups are SYNCHRONOUS WRITETHROUGH.

ghost use Rattle.std.specs.Prelude.{◌≡◌, [], IfErr, IfOk, IsTrue, None, OnErr, false, length, true};
ghost use Rattle.sql_subset.specs.declared.stmt.Stmt.TheVariants as statement;
ghost use Rattle.table_defs.specs.Declarations.{IsRefusedBy};
ghost use Rattle.outside.specs.Bank.{WaitsForOne};
ghost use Rattle.open_sessions.specs.Lookups.{open_ops};
ghost use Rattle.open_sessions.specs.Opening.{seen_all};
ghost use Rattle.group_catalog.specs.Catalogs.{groups_in};
ghost use Rattle.cache_tier.specs.Groups.{is_synchronous};
ghost use Rattle.cache_tier.specs.PassedSteps.{ticket_fault};
ghost use Rattle.cache_tier.specs.Worlds.{only};
ghost use Rattle.cache_tier.specs.declared.reply.Last.TheVariants.{Done};
ghost use Rattle.cache_tier.specs.TierStates.{Tier as AbstractTier};
ghost use Rattle.cache_tier.specs.Journals.{Prepares};
ghost use Rattle.tier_journal.specs.Drafts.{IsDraftOf, is_full_draft};
ghost use Rattle.stored_tier.specs.Performing.{Executes, IsCausedOver, reply_of};
ghost use Rattle.stored_tier.specs.Stored.{IsSound, IsStoredAs, are_on};
ghost use Rattle.session_engine.specs.AtOnce.{Concludes, Draws, Finishes, Rooms};
ghost use Rattle.statement_uses.specs.Touching.{HaveEntered};
ghost use Rattle.session_engine.specs.Committing.{HaveRoomFor, SparesHidden, bare_all, sealed_next};
ghost use Rattle.session_engine.specs.Doubting.{EndsInOver, IsReady, IsReadyCommit};

use crate::commit::{commit_ops, past, reserve_all, spares_hidden};
use crate::doubt::{Doubt, Doubted};
use crate::drafting::draft_prepare;
use crate::noting::{is_verified_for, note_verified};
use crate::resting::commit_session;
use cache_tier::reply::Reply;
use cache_tier::{commit_shown_law, others_shown_law, round_shown_law};
use group_catalog::Catalog;
use open_sessions::laws::label_law;
use order_laws::flow_skip_law;
use outside::{Applied, BankError, Site};
use row_types::{Key, Refused};
use statement_uses::entered_by_ops;
use std::alloc::{AllocError, Global};
use stored_tier::tier::Tier;
use table_state::{Op, Ops, Sealed, copied_ops};
use tier_base::{Code, Limit, Seq, SessionId, Ticket};
use tier_journal::{Draft, TierJournal, flush_draft};
use tier_statements::{done, faulty};

/// A transaction that is ready for the backing database, and its operations for the stores.
#[derive(Drop)]
pub(crate) struct Ready {
    /// The transaction.
    pub sealed: Sealed,
    /// The operations.
    pub ops: Ops,
    /// For each group the root keys that they enter.
    pub entered: Seq<Seq<Key>>,
}

/// COMMIT: of writes on tables of synchronous groups at the backing database, as `commit_at_once`; else as
/// `commit_session`.
pub fn commit_transaction<P: Site>(
    tier: &mut Tier,
    alloc: Global,
    site: &mut P,
    journal: &mut Option<TierJournal>,
    id: SessionId,
    doubt: &mut Option<Doubt>,
) -> Result<Reply, Refused>
    requires sound { IsSound tier.old }
    requires free { doubt.old ≡ None }
    ensures performs { EndsInOver P.Disk.state P.Disk.possible tier.old tier.new doubt.new journal.old journal.new
        site.old site.new id (Executes statement.Commit) result }
    ensures sound { IsSound tier.new }
    ensures ready { IsReady tier.new doubt.new }
    ensures cause { IsCausedOver journal.old
        (P.Disk.state site.old)
        (P.Disk.state site.new)
        (reply_of result) }
{
    if has_written(tier, id) && are_at_once(&tier.catalog, tier.sessions.ops(id)) {
        return commit_at_once(tier, alloc, site, journal, id, doubt);
    }
    commit_session(tier, alloc, site, journal, id)
}

// Whether a session has written.
fn has_written(tier: &Tier, id: SessionId) -> bool
    ensures { IsTrue result → open_ops id (seen_all tier.now.sessions) ≡ [] → ⊥ }
{
    !tier.sessions.ops(id).is_empty()
}

// Whether each operation is on a table of a SYNCHRONOUS WRITETHROUGH group.
fn are_at_once(catalog: &Catalog, ops: &[Op]) -> bool
    ensures { result ≡ are_on is_synchronous (groups_in catalog.now) ops.now }
{
    ops.iter().all(|op| catalog.is_synchronous(op.table()))
}

/// COMMIT of an open session that has written tables of SYNCHRONOUS WRITETHROUGH groups: its entry is flushed to the
/// journal, where the tier keeps one; then the transaction is applied at the backing database, with the next ticket;
/// and then the stores do it, and it ends. The memory for that is taken before the flush.
///
/// The refusal is 119 where no ticket is left, then where the journal has no room; or memory was wanting. All then
/// stays. The reply is 202 where a call of the journal's disk failed, and the run is to end. It is 210 with the table
/// and the key of a row that isn't as the transaction says, and 299 where memory was wanting; the transaction then
/// stays open. It is 201 where the call of the bank failed: the ticket is in doubt then, with what the session has
/// written, and all else stays. A ticket that was drawn isn't used again. (TimesTen Cache User's Guide, "Synchronous
/// writethrough"; tickets and the journal are this project's.)
pub(crate) fn commit_at_once<P: Site>(
    tier: &mut Tier,
    alloc: Global,
    site: &mut P,
    journal: &mut Option<TierJournal>,
    id: SessionId,
    doubt: &mut Option<Doubt>,
) -> Result<Reply, Refused>
    requires sound { IsSound tier.old }
    requires free { doubt.old ≡ None }
    requires some { open_ops id (seen_all tier.old.sessions) ≡ [] → ⊥ }
    requires on { are_on is_synchronous (groups_in tier.old.catalog) (open_ops id (seen_all tier.old.sessions))
        ≡ true }
    ensures performs { EndsInOver P.Disk.state P.Disk.possible tier.old tier.new doubt.new journal.old journal.new
        site.old site.new id (Executes statement.Commit) result }
    ensures sound { IsSound tier.new }
    ensures ready { IsReady tier.new doubt.new }
    ensures cause { IsCausedOver journal.old
        (P.Disk.state site.old)
        (P.Disk.state site.new)
        (reply_of result) }
{
    label_law();
    match draft_prepare(tier, alloc, journal, id) {
        Err(refused) => Err(refused),
        Ok(draft) => {
            if draft.is_full() {
                return Err(past(Limit::JournalSlot));
            }
            apply_prepared(tier, alloc, site, journal, id, doubt, &draft)
        }
    }
}

// The same with the entry that is made ready, and for which the journal has room.
fn apply_prepared<P: Site>(
    tier: &mut Tier,
    alloc: Global,
    site: &mut P,
    journal: &mut Option<TierJournal>,
    id: SessionId,
    doubt: &mut Option<Doubt>,
    draft: &Draft,
) -> Result<Reply, Refused>
    requires sound { IsSound tier.old }
    requires free { doubt.old ≡ None }
    requires some { open_ops id (seen_all tier.old.sessions) ≡ [] → ⊥ }
    requires on { are_on is_synchronous (groups_in tier.old.catalog) (open_ops id (seen_all tier.old.sessions))
        ≡ true }
    requires draft { IsDraftOf tier.old.schema journal.old draft.now (Prepares (sealed_next tier.old id)) }
    requires fits { is_full_draft draft.now ≡ false }
    ensures performs { EndsInOver P.Disk.state P.Disk.possible tier.old tier.new doubt.new journal.old journal.new
        site.old site.new id (Executes statement.Commit) result }
    ensures sound { IsSound tier.new }
    ensures ready { IsReady tier.new doubt.new }
    ensures cause { IsCausedOver journal.old
        (P.Disk.state site.old)
        (P.Disk.state site.new)
        (reply_of result) }
{
    label_law();
    commit_shown_law();
    others_shown_law();
    round_shown_law();
    flow_skip_law();
    match draw(tier, alloc, id) {
        Err(refused) => Err(refused),
        Ok(ready) => match flush_draft(alloc, site, journal, draft) {
            Err(fault) => Ok(fault),
            Ok(()) => {
                let applied = site.apply_once(&ready.sealed, &[]);
                Ok(conclude(tier, alloc, id, ready, applied, doubt))
            }
        },
    }
}

// Seals a session's writes with the next ticket, which isn't used again, and makes room for them in the stores.
fn draw(tier: &mut Tier, alloc: Global, id: SessionId) -> Result<Ready, Refused>
    requires { IsSound tier.old }
    ensures ok { IfOk result (λ ready. Draws tier.old tier.new id ready) }
    ensures err { OnErr result (Rooms tier.old tier.new) }
    ensures told { IfErr result (λ refused. (a : AbstractTier) → IsStoredAs tier.old a
        → IsRefusedBy (ticket_fault a) refused) }
    ensures sound { IsSound tier.new }
{
    if tier.next > 9_223_372_036_854_775_807 {
        return Err(past(Limit::Tickets));
    }
    match make_ready(tier, alloc, id) {
        Err(_) => Err(Refused::Memory),
        Ok(ready) => {
            tier.next += 1;
            Ok(ready)
        }
    }
}

// The same with a ticket that is there to be drawn. It fails for want of memory alone.
fn make_ready(tier: &mut Tier, alloc: Global, id: SessionId) -> Result<Ready, AllocError>
    requires { IsSound tier.old }
    ensures rooms { Rooms tier.old tier.new }
    ensures ops { IfOk result (λ ready. ready.ops ≡ open_ops id (seen_all tier.old.sessions)) }
    ensures entered { IfOk result (λ ready. HaveEntered (groups_in tier.old.catalog) (bare_all tier.old.stores.items)
        ready.ops ready.entered) }
    ensures spared { IfOk result (λ ready. SparesHidden (groups_in tier.old.catalog) ready.ops) }
    ensures sealed { IfOk result (λ ready. ready.sealed
        ≡ record { ticket = record { 0 = tier.old.next }; ops = open_ops id (seen_all tier.old.sessions) }) }
    ensures room { IfOk result (λ ready. HaveRoomFor (length ready.ops) tier.new.stores.items) }
    ensures sound { IsSound tier.new }
{
    if !spares_hidden(&tier.catalog, tier.sessions.ops(id)) {
        return Err(AllocError);
    }
    let sealed = tier.sessions.seal(alloc, id, Ticket(tier.next))?;
    let ops = copied_ops(alloc, tier.sessions.ops(id))?;
    let entered = entered_by_ops(alloc, &tier.catalog, tier.stores.as_slice(), &ops)?;
    reserve_all(alloc, &mut tier.stores, ops.len())?;
    Ok(Ready {
        sealed,
        ops,
        entered,
    })
}

// What the bank's answer makes of the tier, and what is replied.
fn conclude(
    tier: &mut Tier,
    alloc: Global,
    id: SessionId,
    ready: Ready,
    applied: Result<Applied, BankError>,
    doubt: &mut Option<Doubt>,
) -> Reply
    requires sound { IsSound tier.old }
    requires waits { WaitsForOne [] applied }
    requires free { doubt.old ≡ None }
    requires ready { IsReadyCommit ready.ops ready.entered id tier.old }
    ensures concludes { Concludes ready.entered tier.old tier.new doubt.new id ready.sealed.ticket.0 applied result }
    ensures sound { IsSound tier.new }
    ensures ready { IsReady tier.new doubt.new }
{
    let ticket = ready.sealed.ticket.0;
    match applied {
        Ok(Applied::Now(_)) => finish(tier, alloc, id, ready),
        Ok(Applied::Before(_)) => finish(tier, alloc, id, ready),
        Ok(Applied::NotReady(_)) => unreachable!(),
        Ok(Applied::Differs(table, key, _)) => tier.reply_to_difference(alloc, table, &key),
        Err(BankError::Memory) => faulty(alloc, Code::Memory),
        Err(BankError::Failed) => {
            *doubt = Some(Doubt {
                ticket,
                session: id,
                of: Doubted::Commit(ready.ops),
                entered: ready.entered,
            });
            faulty(alloc, Code::BackingFault)
        }
    }
}

// The transaction is in the cache, too.
fn finish(tier: &mut Tier, alloc: Global, id: SessionId, ready: Ready) -> Reply
    requires sound { IsSound tier.old }
    requires ready { IsReadyCommit ready.ops ready.entered id tier.old }
    ensures finishes { Finishes tier.old tier.new id }
    ensures reply { result ≡ only (Done ready.sealed.ticket.0) }
    ensures sound { IsSound tier.new }
{
    let Ready {
        sealed,
        ops,
        entered,
    } = ready;
    end_transaction(tier, id, ops, entered.as_slice());
    done(alloc, sealed.ticket.0)
}

/// The stores do a session's writes, and its transaction ends. It takes no memory.
pub(crate) fn end_transaction(tier: &mut Tier, id: SessionId, ops: Ops, entered: &[Seq<Key>])
    requires sound { IsSound tier.old }
    requires ready { IsReadyCommit ops entered.now id tier.old }
    ensures finishes { Finishes tier.old tier.new id }
    ensures sound { IsSound tier.new }
{
    label_law();
    let known = is_verified_for(tier, ops.as_slice());
    tier.verified = false;
    commit_ops(&mut tier.stores, &tier.directory, ops, entered);
    tier.sessions.rest(id);
    note_verified(tier, known);
}
