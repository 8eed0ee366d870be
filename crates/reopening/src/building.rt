//! The tier as it is built from what entries leave, without rows.

ghost use Rattle.std.specs.Prelude.{◌≡◌, ◌≤◌, ◌++◌, ◌∷◌, [], IfOk, OnOk, map, true};
ghost use Rattle.std.specs.List.{list_all};
ghost use Rattle.cache_tier.specs.TierStates.{cut};
ghost use Rattle.group_catalog.specs.Catalogs.{groups_in};
ghost use Rattle.group_catalog.specs.Kept.{group_seen};
ghost use Rattle.stored_tier.specs.Moments.{set_seen};
ghost use Rattle.stored_tier.specs.Stored.{IsSound};
ghost use Rattle.group_catalog.specs.Catalogs.{HaveOwnNames, is_plain};
ghost use Rattle.reopening.specs.Building.{AreBare, HideNone, HoldsNothing, IsBegunClock, IsBuilt, sets_from};

use group_catalog::{Catalog, KeptGroup};
use group_engine::grouping::bare_store;
use group_store::Store;
use open_sessions::Sessions;
use pending_writes::PendingWrites;
use slot_rows::SlotRows;
use std::alloc::{AllocError, Global};
use std::collections::VecDeque;
use stored_tier::clock::{Pace, TierClock};
use stored_tier::filling::none_hidden;
use stored_tier::moments::SetMoment;
use stored_tier::naming::name_tables;
use stored_tier::refreshing::is_read_only;
use stored_tier::tier::Tier;
use table_defs::{BackingSchema, TableDef};
use tier_base::{Limit, Moment};

// The tier with this schema and these groups, in which nothing is unsettled, no session is open, and no row is kept.
// Its sets count from this moment. It fails for want of memory alone.
pub(crate) fn built_tier(
    alloc: Global,
    schema: BackingSchema,
    catalog: Catalog,
    next: u64,
    now: Moment,
    pace: Pace,
) -> Result<Tier, AllocError>
    requires plain { list_all is_plain (groups_in catalog) ≡ true }
    requires named { HaveOwnNames (groups_in catalog) }
    requires first { 1 ≤ next }
    ensures built { IfOk result (λ tier. IsBuilt tier schema (groups_in catalog) next now.0 pace) }
    ensures sound { IfOk result IsSound }
    ensures bare { IfOk result HoldsNothing }
{
    let stores = bare_stores(alloc, schema.as_slice(), &catalog)?;
    let hidden = bare_hidden(alloc, &schema, &catalog)?;
    let (visible, directory) = name_tables(alloc, &catalog, stores.as_slice(), schema.as_slice())?;
    let clock = begun_clock(alloc, &catalog, now, pace)?;
    Ok(Tier {
        schema,
        visible,
        stale: false,
        catalog,
        stores,
        hidden,
        directory,
        sessions: Sessions::new(alloc),
        unsettled: VecDeque::new(alloc),
        writers: PendingWrites::new(alloc),
        next,
        clock,
        verified: false,
    })
}

// A store for each group, without rows.
fn bare_stores(
    alloc: Global,
    schema: &[TableDef],
    catalog: &Catalog,
) -> Result<Vec<Store>, AllocError>
    ensures { IfOk result (λ stores. AreBare schema.now (groups_in catalog.now) stores.items) }
{
    let mut stores = Vec::new(alloc);
    for place in 0..catalog.len() {
        let Some(group) = catalog.get(place) else {
            return Err(AllocError);
        };
        let store = bare_store(alloc, schema, &group.def.tree)?;
        stores.push(store)?;
    }
    Ok(stores)
}

// No hidden root rows of each group.
fn bare_hidden(
    alloc: Global,
    schema: &BackingSchema,
    catalog: &Catalog,
) -> Result<Vec<SlotRows>, AllocError>
    ensures { IfOk result (λ hidden. HideNone schema.now (groups_in catalog.now) hidden.items) }
{
    let mut hidden = Vec::new(alloc);
    for place in 0..catalog.len() {
        let Some(group) = catalog.get(place) else {
            return Err(AllocError);
        };
        let rows = none_hidden(alloc, schema, group, 0)?;
        hidden.push(rows)?;
    }
    Ok(hidden)
}

// The clock of a tier that is opened at a moment.
fn begun_clock(
    alloc: Global,
    catalog: &Catalog,
    now: Moment,
    pace: Pace,
) -> Result<TierClock, AllocError>
    ensures { IfOk result (λ clock. IsBegunClock clock (groups_in catalog.now) now.0 pace) }
{
    let now = now.0.min(Limit::Clock.number());
    Ok(TierClock {
        now,
        added: 0,
        round: now,
        sets: begun_sets(alloc, catalog, now)?,
        pace,
    })
}

// The set of each READONLY group counts from this moment on.
fn begun_sets(alloc: Global, catalog: &Catalog, opened: u64) -> Result<Vec<SetMoment>, AllocError>
    ensures { IfOk result (λ sets. map set_seen sets.items ≡ sets_from opened (groups_in catalog.now)) }
{
    let mut sets = Vec::new(alloc);
    for place in 0..catalog.len() {
        let Some(group) = catalog.get(place) else {
            return Err(AllocError);
        };
        add_set(&mut sets, group, opened)?;
    }
    Ok(sets)
}

// The set of a READONLY group comes behind the others.
fn add_set(sets: &mut Vec<SetMoment>, group: &KeptGroup, opened: u64) -> Result<(), AllocError>
    ensures { OnOk result (map set_seen sets.new.items
        ≡ map set_seen sets.old.items ++ sets_from opened (group_seen group.now ∷ [])) }
{
    if !is_read_only(group) {
        return Ok(());
    }
    sets.push(SetMoment {
        interval: group.def.interval,
        refreshed: opened,
    })?;
    Ok(())
}
