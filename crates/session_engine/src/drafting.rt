//! The entry of a COMMIT, or of a write that is passed on, made ready for the journal where the tier keeps one.

ghost use Rattle.std.specs.Prelude.{◌≡◌, ◌≤◌, IfOk, OnOk};
ghost use Rattle.table_defs.specs.Declarations.{Tells};
ghost use Rattle.cache_tier.specs.Journals.{Commits, Numbers, Prepares};
ghost use Rattle.cache_tier.specs.PassedSteps.{ticket_fault};
ghost use Rattle.cache_tier.specs.TierStates.{Session as OneSession, Tier as AbstractTier};
ghost use Rattle.tier_journal.specs.Drafts.{IsDraftOf, StaysKept};
ghost use Rattle.session_engine.specs.Committing.{commit_fault, sealed_next};
ghost use Rattle.stored_tier.specs.Stored.{HasSession, IsSound, IsStoredAs};

use crate::commit::{judge_commit, past};
use open_sessions::laws::label_law;
use row_types::Refused;
use std::alloc::{AllocError, Global};
use stored_tier::tier::Tier;
use tier_base::{Limit, SessionId, Ticket};
use tier_journal::{Draft, TierJournal};

/// The entry of a COMMIT of asynchronous writes, made ready for the journal. Only room comes to the journal.
///
/// The refusal is 119 where 4,096 transactions wait, then 119 where no ticket is left; or memory was wanting. A journal
/// that has no room for the entry is told by the draft.
pub(crate) fn draft_commit(
    tier: &Tier,
    alloc: Global,
    journal: &mut Option<TierJournal>,
    id: SessionId,
) -> Result<Draft, Refused>
    ensures draft { IfOk result (λ draft. IsDraftOf tier.now.schema journal.new draft
        (Commits (sealed_next tier.now id))) }
    ensures told { (a : AbstractTier) (s : OneSession) → IsStoredAs tier.now a → Tells result (commit_fault s a) }
    ensures kept { StaysKept journal.old journal.new }
{
    match judge_commit(tier) {
        Err(refused) => Err(refused),
        Ok(()) => match commit_entry(tier, alloc, journal, id) {
            Err(_) => Err(Refused::Memory),
            Ok(draft) => Ok(draft),
        },
    }
}

/// The entry of a COMMIT of synchronous writes, which is to be in the journal before they are applied at the backing
/// database. Only room comes to the journal.
///
/// The refusal is 119 where no ticket is left; or memory was wanting. A journal that has no room for the entry is told
/// by the draft.
pub(crate) fn draft_prepare(
    tier: &Tier,
    alloc: Global,
    journal: &mut Option<TierJournal>,
    id: SessionId,
) -> Result<Draft, Refused>
    ensures draft { IfOk result (λ draft. IsDraftOf tier.now.schema journal.new draft
        (Prepares (sealed_next tier.now id))) }
    ensures told { (a : AbstractTier) → IsStoredAs tier.now a → Tells result (ticket_fault a) }
    ensures kept { StaysKept journal.old journal.new }
{
    if tier.next > 9_223_372_036_854_775_807 {
        return Err(past(Limit::Tickets));
    }
    match prepare_entry(tier, alloc, journal, id) {
        Err(_) => Err(Refused::Memory),
        Ok(draft) => Ok(draft),
    }
}

/// The number of a write that is passed on, the next ticket, which is to be in the journal before the bank is called.
/// Only room comes to the journal.
///
/// The refusal is 119 where no ticket is left; or memory was wanting. A journal that has no room for the number is told
/// by the draft.
pub(crate) fn draft_number(
    tier: &Tier,
    alloc: Global,
    journal: &mut Option<TierJournal>,
) -> Result<Draft, Refused>
    ensures draft { IfOk result (λ draft. IsDraftOf tier.now.schema journal.new draft (Numbers tier.now.next)) }
    ensures told { (a : AbstractTier) → IsStoredAs tier.now a → Tells result (ticket_fault a) }
    ensures left { OnOk result (tier.now.next ≤ 9223372036854775807) }
    ensures kept { StaysKept journal.old journal.new }
{
    if tier.next > 9_223_372_036_854_775_807 {
        return Err(past(Limit::Tickets));
    }
    match number_entry(tier, alloc, journal) {
        Err(_) => Err(Refused::Memory),
        Ok(draft) => Ok(draft),
    }
}

// The number, with the next ticket. It fails for want of memory alone.
fn number_entry(
    tier: &Tier,
    alloc: Global,
    journal: &mut Option<TierJournal>,
) -> Result<Draft, AllocError>
    ensures draft { IfOk result (λ draft. IsDraftOf tier.now.schema journal.new draft (Numbers tier.now.next)) }
    ensures kept { StaysKept journal.old journal.new }
{
    Draft::of_number(alloc, journal, Ticket(tier.next))
}

// The entry of asynchronous writes, with the next ticket. It fails for want of memory alone.
fn commit_entry(
    tier: &Tier,
    alloc: Global,
    journal: &mut Option<TierJournal>,
    id: SessionId,
) -> Result<Draft, AllocError>
    ensures draft { IfOk result (λ draft. IsDraftOf tier.now.schema journal.new draft
        (Commits (sealed_next tier.now id))) }
    ensures kept { StaysKept journal.old journal.new }
{
    let sealed = tier.sessions.seal(alloc, id, Ticket(tier.next))?;
    Draft::of_commit(alloc, journal, tier.schema.as_slice(), &sealed)
}

// The entry of synchronous writes, with the next ticket. It fails for want of memory alone.
fn prepare_entry(
    tier: &Tier,
    alloc: Global,
    journal: &mut Option<TierJournal>,
    id: SessionId,
) -> Result<Draft, AllocError>
    ensures draft { IfOk result (λ draft. IsDraftOf tier.now.schema journal.new draft
        (Prepares (sealed_next tier.now id))) }
    ensures kept { StaysKept journal.old journal.new }
{
    let sealed = tier.sessions.seal(alloc, id, Ticket(tier.next))?;
    Draft::of_prepare(alloc, journal, tier.schema.as_slice(), &sealed)
}

/// Whether a session's commits are to be durable before they are answered.
pub(crate) fn is_durable(tier: &Tier, id: SessionId) -> bool
    requires { IsSound tier.now }
    ensures { (s : OneSession) → HasSession tier.now id s → result ≡ s.durable }
{
    label_law();
    match tier.sessions.get(id) {
        None => false,
        Some(session) => session.durable,
    }
}
