//! CREATE CACHE GROUP.

ghost use Rattle.std.specs.Prelude.{◌≡◌, IfOk, OnErr, OnOk, is_none};
ghost use Rattle.sql_subset.specs.declared.stmt.Stmt.TheVariants as statement;
ghost use Rattle.table_defs.specs.Declarations.{Tells};
ghost use Rattle.cache_tier.specs.Order.{refusal};
ghost use Rattle.cache_tier.specs.TierStates.{Session as OneSession, Tier as AbstractTier};
ghost use Rattle.cache_tier.specs.StandingBetween.{foreign_key_in};
ghost use Rattle.group_engine.specs.Defining.{HasNewGroup, IsDefinition, IsReadyToCreate, IsUnrefused, is_done, is_free};
ghost use Rattle.stored_tier.specs.Grouping.{KeepsGroups};
ghost use Rattle.stored_tier.specs.Performing.{Executes, IsCausedOver, PerformsInOver, reply_of};
ghost use Rattle.cache_tier.specs.Definitions.{text_of};
ghost use Rattle.group_engine.specs.Ready.{IsPlacedReady};
ghost use Rattle.stored_tier.specs.Stored.{HasSession, IsSound, IsStoredAs};

use crate::grouping::{bare_store, keep_group};
use crate::ready::{Ready, answer_behind, slot_is_full};
use crate::readying::ready_definition;
use cache_tier::group::GroupDef;
use cache_tier::group_shown_law;
use cache_tier::reply::Reply;
use group_catalog::laws::definition_law;
use group_catalog::{KeptGroup, define};
use open_sessions::laws::label_law;
use outside::Site;
use row_types::Refused;
use sql_subset::stmt::{CreateGroup, GroupKind};
use std::alloc::{AllocError, Global};
use stored_tier::filling::none_hidden;
use stored_tier::tier::Tier;
use table_defs::TableDef;
use tier_base::{Moment, SessionId, TableId, Ticket};
use tier_journal::TierJournal;
use tier_statements::done;

/// CREATE CACHE GROUP: the group is there, without rows. Its definition is flushed, by its text, where a journal is
/// kept.
///
/// The refusal is the first broken rule, as `group_catalog::define` tells it: 102, 103, 113; 122; 104, 105; 114 by
/// letter; 119 of the groups; then 119 where the journal has no room; or memory was wanting. All then stays. It is 202
/// where a call of the journal's disk failed; the run is to end then. User-managed groups are refused before by the
/// reader's lines that aren't done yet; here memory is said to be wanting for one. (TimesTen SQL Reference, "CREATE
/// CACHE GROUP".)
pub fn create_group<P: Site>(
    tier: &mut Tier,
    alloc: Global,
    site: &mut P,
    journal: &mut Option<TierJournal>,
    id: SessionId,
    declared: CreateGroup,
    text: &[u8],
) -> Result<Reply, Refused>
    requires sound { IsSound tier.old }
    requires text { text.now ≡ text_of declared }
    ensures performs { PerformsInOver P.Disk.state P.Disk.possible tier.old tier.new journal.old journal.new
        site.old site.new id (Executes (statement.CreateGroup declared)) result }
    ensures sound { IsSound tier.new }
    ensures cause { IsCausedOver journal.old (P.Disk.state site.old) (P.Disk.state site.new) (reply_of result) }
{
    match judge_definition(tier, alloc, id, declared) {
        Err(refused) => Err(refused),
        Ok(def) => match ready_definition(alloc, journal, text) {
            Err(AllocError) => Err(Refused::Memory),
            Ok(ready) => create_ready(tier, alloc, site, journal, id, def, &ready),
        },
    }
}

// The group of a definition comes, and its definition, which was made ready, is flushed; or 119.
fn create_ready<P: Site>(
    tier: &mut Tier,
    alloc: Global,
    site: &mut P,
    journal: &mut Option<TierJournal>,
    id: SessionId,
    def: GroupDef,
    ready: &Ready,
) -> Result<Reply, Refused>
    requires sound { IsSound tier.old }
    requires made { IsDefinition tier.old def.declared def }
    requires free { IsUnrefused tier.old id def.declared }
    requires ready { IsReadyToCreate journal.old def.declared ready.now }
    requires placed { IsPlacedReady journal.old ready.now }
    ensures performs { PerformsInOver P.Disk.state P.Disk.possible tier.old tier.new journal.old journal.new
        site.old site.new id (Executes (statement.CreateGroup def.declared)) result }
    ensures sound { IsSound tier.new }
    ensures cause { IsCausedOver journal.old (P.Disk.state site.old) (P.Disk.state site.new) (reply_of result) }
{
    definition_law();
    group_shown_law();
    if ready.is_full() {
        return Ok(slot_is_full(alloc));
    }
    match add_group(tier, alloc, def) {
        Err(AllocError) => Err(Refused::Memory),
        Ok(()) => Ok(answer_behind(alloc, site, journal, ready, done(alloc, 0))),
    }
}

// What the statement defines, where nothing refuses it.
fn judge_definition(
    tier: &Tier,
    alloc: Global,
    id: SessionId,
    declared: CreateGroup,
) -> Result<GroupDef, Refused>
    requires { IsSound tier.now }
    ensures told { (a : AbstractTier) (s : OneSession) → IsStoredAs tier.now a → HasSession tier.now id s
        → Tells result (refusal a s (statement.CreateGroup declared)) }
    ensures made { IfOk result (IsDefinition tier.now declared) }
{
    label_law();
    let has_writes = !tier.sessions.ops(id).is_empty();
    match define(alloc, &tier.schema, &tier.catalog, declared, has_writes) {
        Err(refused) => Err(refused),
        Ok(def) => {
            if tier.stale || !is_done(&def) || !is_free(tier.schema.as_slice(), &def) {
                return Err(Refused::Memory);
            }
            Ok(def)
        }
    }
}

// The group of a definition comes, with a store without rows. It fails for want of memory; all then stays.
fn add_group(tier: &mut Tier, alloc: Global, def: GroupDef) -> Result<(), AllocError>
    requires { IsDefinition tier.old def.declared def }
    ensures ok { OnOk result (HasNewGroup tier.old tier.new def.declared def) }
    ensures err { OnErr result (KeepsGroups tier.old tier.new) }
{
    let store = bare_store(alloc, tier.schema.as_slice(), &def.tree)?;
    let group = KeptGroup::new(def, Ticket(tier.next), Moment(tier.clock.now));
    let hidden = none_hidden(alloc, &tier.schema, &group, 0)?;
    keep_group(tier, alloc, group, store, hidden)?;
    tier.verified = false;
    Ok(())
}

// Whether the tier does groups of this definition.
fn is_done(def: &GroupDef) -> bool
    ensures { result ≡ is_done def.now }
{
    match def.kind {
        GroupKind::UserManaged => false,
        _ => true,
    }
}

// Whether the root table of a writethrough group refers to no table. The letters of 114 see to it.
fn is_free(schema: &[TableDef], def: &GroupDef) -> bool
    ensures { result ≡ is_free schema.now def.now }
{
    match def.kind {
        GroupKind::ReadOnly => true,
        _ => refers_to_none(schema, def.tree.root.table),
    }
}

fn refers_to_none(schema: &[TableDef], table: TableId) -> bool
    ensures { result ≡ is_none (foreign_key_in schema.now table) }
{
    match schema.get(table.0 as usize) {
        None => true,
        Some(def) => def.foreign_key.is_none(),
    }
}
