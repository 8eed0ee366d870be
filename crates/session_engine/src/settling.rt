//! A ticket in doubt: the backing database is asked whether it stands there.

ghost use Rattle.std.specs.Prelude.{◌≡◌, None, OnOk, Some};
ghost use Rattle.cache_tier.specs.DueWork.{DueDoubt};
ghost use Rattle.propagators.specs.Certainty.{KeepsCertain};
ghost use Rattle.stored_tier.specs.Stored.{IsSound};
ghost use Rattle.session_engine.specs.Doubting.{IsReady, IsReadyCommit, Leads};
ghost use Rattle.session_engine.specs.declared.doubt.Doubted.TheVariants.{Commit};
ghost use Rattle.session_engine.specs.Settling.{Forgets, IsAsked, KeepsRest, Settles, end_of, note_for, note_of, told_of};

use crate::at_once::end_transaction;
use crate::doubt::{Doubt, Doubted};
use cache_tier::reply::Note;
use cache_tier::{commit_shown_law, others_shown_law, round_shown_law, session_law};
use open_sessions::laws::label_law;
use order_laws::flow_skip_law;
use outside::{BankError, Site};
use row_types::Key;
use stored_tier::tier::Tier;
use table_state::Ops;
use tier_base::{Seq, SessionId, Ticket};

/// Settles a doubt, where there is one. Where a commit stands at the backing database (131) the stores do it, and where
/// it doesn't (132) what the session has written is forgotten; its transaction ends in both cases. Behind a write that
/// was passed on the tier stays as it is, and so do the session's own writes. A question that failed, or for which
/// memory was wanting at the backing database, changes nothing, and the doubt stays.
///
/// It takes no memory of its own: the room was made when the ticket was drawn. (TimesTen Cache User's Guide,
/// "Synchronous writethrough"; the question is this project's rule.)
pub fn settle_doubt<P: Site>(
    tier: &mut Tier,
    site: &mut P,
    doubt: &mut Option<Doubt>,
) -> Result<Option<Note>, BankError>
    requires sound { IsSound tier.old }
    requires ready { IsReady tier.old doubt.old }
    ensures performs { Leads tier.old doubt.old tier.new doubt.new
        (P.Disk.state site.old)
        (P.Disk.state site.new)
        (λ w w'. DueDoubt w w' (told_of result) (end_of result)) }
    ensures settled { OnOk result (doubt.new ≡ None) }
    ensures keeps { KeepsRest tier.old tier.new }
    ensures sound { IsSound tier.new }
    ensures ready { IsReady tier.new doubt.new }
    ensures cause { IsAsked
        (P.Disk.state site.old)
        (P.Disk.state site.new)
        result }
    ensures certain { KeepsCertain P.Disk.state P.Disk.possible site.old site.new }
{
    label_law();
    session_law();
    commit_shown_law();
    others_shown_law();
    round_shown_law();
    flow_skip_law();
    let Some(asked) = doubt.take() else {
        return Ok(None);
    };
    match site.recorded(Ticket(asked.ticket)) {
        Err(error) => {
            *doubt = Some(asked);
            Err(error)
        }
        Ok(stands) => Ok(Some(settle(tier, asked, stands))),
    }
}

// A commit is done in the cache, too, or is forgotten; behind a write that was passed on the tier stays. It is told
// whether the ticket stands there.
fn settle(tier: &mut Tier, asked: Doubt, stands: bool) -> Note
    requires sound { IsSound tier.old }
    requires ready { IsReady tier.old (Some asked) }
    ensures settles { Settles asked.of tier.old tier.new asked.session stands }
    ensures told { result ≡ note_of asked stands }
    ensures sound { IsSound tier.new }
{
    let Doubt {
        ticket,
        session,
        of,
        entered,
    } = asked;
    match of {
        Doubted::Commit(ops) => settle_commit(tier, session, ops, entered.as_slice(), stands),
        Doubted::PassedWrite => {}
    }
    note_of(ticket, stands)
}

// What the session has written is done in the stores, or forgotten.
fn settle_commit(tier: &mut Tier, id: SessionId, ops: Ops, entered: &[Seq<Key>], stands: bool)
    requires sound { IsSound tier.old }
    requires ready { IsReadyCommit ops entered.now id tier.old }
    ensures settles { Settles (Commit ops) tier.old tier.new id stands }
    ensures sound { IsSound tier.new }
{
    if stands {
        end_transaction(tier, id, ops, entered);
    } else {
        forget(tier, id);
    }
}

// 131, or 132.
fn note_of(ticket: u64, stands: bool) -> Note
    ensures { result ≡ note_for ticket stands }
{
    if stands {
        Note::Committed(Ticket(ticket))
    } else {
        Note::RolledBack(Ticket(ticket))
    }
}

// A session's transaction ends, and what it has written is forgotten. It takes no memory.
fn forget(tier: &mut Tier, id: SessionId)
    requires { IsSound tier.old }
    ensures forgets { Forgets tier.old tier.new id }
    ensures sound { IsSound tier.new }
{
    label_law();
    tier.sessions.rest(id);
}
