//! SELECT.

ghost use Rattle.std.specs.Prelude.{◌≡◌, [], true};
ghost use Rattle.std.specs.List.{list_all, list_any};
ghost use Rattle.resolution.specs.Queries.{query_seen};
ghost use Rattle.tier_statements.specs.Answering.{IsAnswerTo};
ghost use Rattle.group_catalog.specs.Catalogs.{groups_in};
ghost use Rattle.cache_tier.specs.Groups.{definitions_of, is_defined_on};
ghost use Rattle.cache_tier.specs.Routes.{is_cached, visible};
ghost use Rattle.cache_tier.specs.Shown.{seen_by};
ghost use Rattle.cache_tier.specs.TierStates.{Session as OneSession, Tier as AbstractTier, level_of};
ghost use Rattle.cache_tier.specs.Worlds.{World};
ghost use Rattle.session_engine.specs.Selecting.{RoutesQuery};
ghost use Rattle.stored_tier.specs.Performing.{IsCalm, reply_of};
ghost use Rattle.stored_tier.specs.Stored.{HasSession, IsSound, IsStoredAs, ShowsRows};

use cache_tier::laws::tier_law;
use cache_tier::reply::Reply;
use group_catalog::Catalog;
use group_store::Shown;
use open_sessions::laws::label_law;
use resolution::{ResolvedQuery, resolve_query};
use row_types::Refused;
use sql_query::Query;
use std::alloc::Global;
use stored_tier::tier::Tier;
use table_defs::BackingSchema;
use table_state::scan_laws::keyed_law;
use tier_base::{SessionId, TableId};
use tier_statements::answer_query;

/// A query with its names found, and where it is answered.
#[derive(Drop)]
pub enum Routed {
    /// In the cache, over what the session sees.
    Cached(ResolvedQuery),
    /// At the backing database, whole.
    PassedOn(ResolvedQuery),
}

/// Finds the names of a query of an open session, and where it is answered: at the backing database at level 3 and
/// where a table isn't cached, else in the cache.
///
/// The refusal is the first broken rule of its names over the tables that the session's level lets it see; or memory
/// was wanting. (TimesTen SQL Reference, "SELECT"; TimesTen Cache User's Guide, "Setting a passthrough level".)
pub fn route_query(
    tier: &Tier,
    alloc: Global,
    id: SessionId,
    query: &Query,
) -> Result<Routed, Refused>
    requires sound { IsSound tier.now }
    requires simple { query.now.groups ≡ [] }
    ensures { (a : AbstractTier) (s : OneSession) → IsStoredAs tier.now a → HasSession tier.now id s
        → RoutesQuery a s query.now result }
{
    let level = level(tier, id);
    let resolved = resolve_query(alloc, names(tier, level), query)?;
    if level < 3 && has_all(tier, tables_of(&resolved)) {
        Ok(Routed::Cached(resolved))
    } else {
        Ok(Routed::PassedOn(resolved))
    }
}

// The level of passthrough that counts for a session now; 0 where no session has the number.
pub(crate) fn level(tier: &Tier, id: SessionId) -> u8
    requires { IsSound tier.now }
    ensures { (s : OneSession) → HasSession tier.now id s → result ≡ level_of s }
{
    label_law();
    match tier.sessions.level(id) {
        Some(level) => level,
        None => 0,
    }
}

// The tables as a session of this level sees them.
pub(crate) fn names(tier: &Tier, level: u8) -> &BackingSchema
    requires { IsSound tier.now }
    ensures { (a : AbstractTier) → IsStoredAs tier.now a → result.now ≡ visible level a }
{
    if level == 0 {
        &tier.visible
    } else {
        &tier.schema
    }
}

// Whether each of these tables is cached.
fn has_all(tier: &Tier, tables: &[TableId]) -> bool
    ensures { (a : AbstractTier) → IsStoredAs tier.now a → result ≡ list_all (is_cached a) tables.now }
{
    have_all(&tier.catalog, tables)
}

/// The answer to a query over what a session sees.
pub(crate) fn answer(
    tier: &Tier,
    alloc: Global,
    id: SessionId,
    query: &ResolvedQuery,
) -> Result<Reply, Refused>
    requires sound { IsSound tier.now }
    requires verified { tier.now.verified ≡ true }
    ensures calm { IsCalm (reply_of result) }
    ensures answers { (w : World) (s : OneSession) → ShowsRows tier.now w → HasSession tier.now id s
        → IsAnswerTo query.now (seen_by s w.history w.tier) result }
{
    keyed_law();
    label_law();
    tier_law();
    let shown = Shown::new(&tier.schema, tier.stores.as_slice(), &tier.directory);
    let seen = tier.sessions.overlay(id, &shown);
    answer_query(alloc, &seen, query)
}

// Whether a group has each of these tables.
fn have_all(catalog: &Catalog, tables: &[TableId]) -> bool
    ensures { result ≡ list_all (λ table. list_any (is_defined_on table) (definitions_of (groups_in catalog.now)))
        tables.now }
{
    tables.iter().all(|table| catalog.has_table(*table))
}

/// The tables of a query.
pub(crate) fn tables_of(query: &ResolvedQuery) -> &[TableId]
    ensures { result.now ≡ (query_seen query.now).tables }
{
    match query {
        ResolvedQuery::Rows(plan) => plan.tables.as_slice(),
        ResolvedQuery::Totals(_, plan) => plan.tables.as_slice(),
    }
}
