//! COMMIT of asynchronous writes where the tier may keep a journal.

ghost use Rattle.std.specs.Prelude.{◌≡◌, [], true};
ghost use Rattle.sql_subset.specs.declared.stmt.Stmt.TheVariants as statement;
ghost use Rattle.group_catalog.specs.Catalogs.{groups_in};
ghost use Rattle.open_sessions.specs.Lookups.{open_ops};
ghost use Rattle.open_sessions.specs.Opening.{seen_all};
ghost use Rattle.session_engine.specs.Committing.{are_deferred};
ghost use Rattle.stored_tier.specs.Performing.{Executes, IsCausedOver, PerformsInOver, reply_of};
ghost use Rattle.stored_tier.specs.Stored.{IsSound};

use crate::commit::{commit_writes, past};
use crate::drafting::{draft_commit, is_durable};
use cache_tier::commit_shown_law;
use cache_tier::reply::Reply;
use open_sessions::laws::label_law;
use outside::Site;
use row_types::Refused;
use std::alloc::Global;
use stored_tier::tier::Tier;
use tier_base::{Limit, SessionId};
use tier_journal::{TierJournal, record_draft};

/// COMMIT of an open session that has written tables of ASYNCHRONOUS WRITETHROUGH groups, as `commit_writes`. Where the
/// tier keeps a journal, the entry of the commit waits in its tail; or, of a durable session, is flushed with the tail
/// before the answer.
///
/// The refusal is 119 where 4,096 transactions wait, where no ticket is left, then where the journal has no room; or
/// memory was wanting. All then stays. The reply is 202 where a call of the journal's disk failed, and the run is to
/// end. (TimesTen Cache User's Guide: asynchronous writethrough cache groups; TimesTen Operations Guide, durable
/// commits; the journal is this project's.)
pub(crate) fn commit_recorded<P: Site>(
    tier: &mut Tier,
    alloc: Global,
    site: &mut P,
    journal: &mut Option<TierJournal>,
    id: SessionId,
) -> Result<Reply, Refused>
    requires sound { IsSound tier.old }
    requires some { open_ops id (seen_all tier.old.sessions) ≡ [] → ⊥ }
    requires deferred { are_deferred (groups_in tier.old.catalog) (open_ops id (seen_all tier.old.sessions)) ≡ true }
    ensures performs { PerformsInOver P.Disk.state P.Disk.possible tier.old tier.new journal.old journal.new
        site.old site.new id (Executes statement.Commit) result }
    ensures sound { IsSound tier.new }
    ensures cause { IsCausedOver journal.old
        (P.Disk.state site.old)
        (P.Disk.state site.new)
        (reply_of result) }
{
    label_law();
    commit_shown_law();
    match draft_commit(tier, alloc, journal, id) {
        Err(refused) => Err(refused),
        Ok(draft) => {
            if draft.is_full() {
                return Err(past(Limit::JournalSlot));
            }
            let durable = is_durable(tier, id);
            match commit_writes(tier, alloc, id) {
                Err(refused) => Err(refused),
                Ok(reply) => match record_draft(alloc, site, journal, &draft, durable) {
                    Ok(()) => Ok(reply),
                    Err(fault) => Ok(fault),
                },
            }
        }
    }
}
