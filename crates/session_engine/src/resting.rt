//! OPEN and CLOSE, COMMIT, ROLLBACK and FLUSH of a session.

ghost use Rattle.std.specs.Prelude.{Some, slice_get};
ghost use Rattle.std.specs.Option.{option_or};
ghost use Rattle.tier_base.specs.declared.code.Code.TheVariants as code;
ghost use Rattle.table_defs.specs.Declarations.{IsRefusedBy};
ghost use Rattle.sql_subset.specs.declared.stmt.Stmt.TheVariants as statement;
ghost use Rattle.cache_tier.specs.Conditions.{which_names};
ghost use Rattle.cache_tier.specs.Rules.{named};
ghost use Rattle.cache_tier.specs.Worlds.{Tries};
ghost use Rattle.stored_tier.specs.Performing.{ClosesSession, Executes, IsCalm, IsCausedOver, OpensSession, Performs, PerformsIn, PerformsInOver, reply_of};
ghost use Rattle.outside.specs.Sites.{SiteState};
ghost use Rattle.stored_tier.specs.Stored.{IsSound};

use crate::commit::may_wait;
use crate::recording::commit_recorded;
use cache_tier::reply::Reply;
use cache_tier::session_law;
use group_catalog::{KeptGroup, resolve_which};
use open_sessions::laws::label_law;
use outside::Site;
use row_types::{Detail, Refused, Rule};
use sql_subset::request::OpenOptions;
use sql_subset::stmt::{OfGroup, Which};
use std::alloc::Global;
use stored_tier::naming::refuse_name;
use stored_tier::tier::Tier;
use tier_base::{Code, Label, Name, SessionId};
use tier_journal::TierJournal;

/// OPEN, as `open`.
pub fn open_session(
    tier: &mut Tier,
    alloc: Global,
    label: &Label,
    options: OpenOptions,
) -> Result<Reply, Refused>
    requires { IsSound tier.old }
    ensures performs { (site : SiteState) → Performs tier.old tier.new site site
        (λ w w'. Tries (OpensSession label.now options) w w' (reply_of result)) }
    ensures sound { IsSound tier.new }
    ensures calm { IsCalm (reply_of result) }
{
    session_law();
    tier.open(alloc, label, options)
}

/// CLOSE, as `close`.
pub fn close_session(tier: &mut Tier, alloc: Global, id: SessionId) -> Result<Reply, Refused>
    requires { IsSound tier.old }
    ensures performs { (site : SiteState) → PerformsIn tier.old tier.new site site id
        (λ s. Tries (ClosesSession s)) result }
    ensures sound { IsSound tier.new }
    ensures calm { IsCalm (reply_of result) }
{
    session_law();
    Ok(tier.close(alloc, id))
}

/// COMMIT of a session that has written tables of ASYNCHRONOUS WRITETHROUGH groups alone: without writes as `rollback`,
/// else as `commit_recorded`. Where it has written another table memory is said to be wanting.
pub fn commit_session<P: Site>(
    tier: &mut Tier,
    alloc: Global,
    site: &mut P,
    journal: &mut Option<TierJournal>,
    id: SessionId,
) -> Result<Reply, Refused>
    requires { IsSound tier.old }
    ensures performs { PerformsInOver P.Disk.state P.Disk.possible tier.old tier.new journal.old journal.new
        site.old site.new id (Executes statement.Commit) result }
    ensures sound { IsSound tier.new }
    ensures cause { IsCausedOver journal.old
        (P.Disk.state site.old)
        (P.Disk.state site.new)
        (reply_of result) }
{
    session_law();
    label_law();
    if tier.sessions.ops(id).len() == 0 {
        return Ok(tier.rollback(alloc, id));
    }
    if !may_wait(tier, id) {
        return Err(Refused::Memory);
    }
    commit_recorded(tier, alloc, site, journal, id)
}

/// ROLLBACK, as `rollback`.
pub fn roll_back(tier: &mut Tier, alloc: Global, id: SessionId) -> Result<Reply, Refused>
    requires { IsSound tier.old }
    ensures performs { (site : SiteState) → PerformsIn tier.old tier.new site site id
        (Executes statement.Rollback) result }
    ensures sound { IsSound tier.new }
    ensures calm { IsCalm (reply_of result) }
{
    session_law();
    Ok(tier.rollback(alloc, id))
}

/// FLUSH CACHE GROUP: it is refused for every kind of group that there is, with 112, 103 or 115.
pub fn flush_group(
    tier: &mut Tier,
    alloc: Global,
    id: SessionId,
    flush: &OfGroup,
) -> Result<Reply, Refused>
    requires { IsSound tier.old }
    ensures performs { (site : SiteState) → PerformsIn tier.old tier.new site site id
        (Executes (statement.Flush flush.now)) result }
    ensures sound { IsSound tier.new }
    ensures calm { IsCalm (reply_of result) }
{
    let _ = id;
    match tier.catalog.named(&flush.group) {
        None => Err(refuse_name(alloc, Code::UnknownGroup, &flush.group)),
        Some(group) => Err(refuse_flush(tier, alloc, group, &flush.which)),
    }
}

// What FLUSH of a group is refused with: 103 of a name in its condition, or 115; or memory was wanting.
fn refuse_flush(tier: &Tier, alloc: Global, group: &KeptGroup, which: &Which) -> Refused
    ensures { IsRefusedBy
        (option_or
        (which_names (slice_get tier.now.schema group.now.def.tree.root.table.0) which.now)
        (Some (named code.WrongState group.now.def.name))) result }
{
    match tier.schema.get(group.def.tree.root.table.0 as usize) {
        None => Refused::Memory,
        Some(def) => match resolve_which(alloc, def, which) {
            Err(refused) => refused,
            Ok(_) => refuse_name(alloc, Code::WrongState, &group.def.name),
        },
    }
}
