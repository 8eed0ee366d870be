//! Where a write is done: in the cache, or at the backing database.

ghost use Rattle.std.specs.Prelude.{◌≡◌, ◌&&◌, ◌||◌, List, IfOk, Ok, None, Some, not, option_copied, slice_get, true, if◌then◌else◌};
ghost use Rattle.std.specs.List.{list_all, list_any};
ghost use Rattle.std.specs.Option.{option_or};
ghost use Rattle.table_defs.specs.Declarations.{Tells};
ghost use Rattle.table_state.specs.Operations.{table_of};
ghost use Rattle.table_state.specs.declared.operation.Op.{Op as OneOp};
ghost use Rattle.tier_base.specs.declared.code.Code.TheVariants as code;
ghost use Rattle.resolution.specs.Writes.{PlacedChange};
ghost use Rattle.table_defs.specs.declared.definition.TableDef.{TableDef as Def};
ghost use Rattle.cache_tier.specs.Routes as OneRoute;
ghost use Rattle.cache_tier.specs.Groups.{is_synchronous, is_table_of};
ghost use Rattle.cache_tier.specs.Order.{change_broken, is_of_other_kind, mixes_kinds};
ghost use Rattle.cache_tier.specs.Routes.{query_route, table_name, write_route};
ghost use Rattle.cache_tier.specs.Rules.{named};
ghost use Rattle.cache_tier.specs.TierStates.{Session as OneSession, Tier, level_of};
ghost use Rattle.resolution.specs.Results.{Gives, IsRefusal};
ghost use Rattle.tier_statements.specs.Routing.{Routes, route_seen};
ghost use Rattle.tier_statements.specs.Seen.{HasGroups};

use crate::catalog::Catalog;
use crate::naming::name_write;
use evaluator::Change;
use row_types::{Detail, Refused, Rule};
use sql_query::Write;
use std::alloc::{AllocError, Global};
use table_defs::{BackingSchema, TableDef};
use table_state::Op;
use tier_base::{Code, TableId};

/// Where a statement is done.
#[derive(Clone, Copy, Debug, PartialEq, Eq)]
pub enum Route {
    /// In the cache.
    Cached,
    /// At the backing database, whole.
    PassedOn,
}

/// A write with its names found, and where it is done.
pub struct RoutedWrite {
    /// The write.
    pub change: Change,
    /// Where it is done.
    pub route: Route,
}

impl Drop for RoutedWrite {
    fn drop(self) {
        let Self {
            change: _,
            route: _,
        } = self;
    }
}

/// A write with its names found over the tables that the session sees, and where it is done.
///
/// The refusal is the first broken rule: those of its names and types, as `name_write` tells them; 121 of
/// a writethrough table at level 3; 110 of a table that is only read below level 2; 117 where the transaction has
/// written tables of the other kind of writethrough group; or memory was wanting. Nothing is changed in any case.
/// (TimesTen Cache User's Guide, "Setting a passthrough level"; the order is this project's rule.)
pub fn route_write<C: Catalog>(
    alloc: Global,
    catalog: &C,
    schema: &BackingSchema,
    level: u8,
    own: &[Op],
    write: &Write,
) -> Result<RoutedWrite, Refused>
    ensures { (t : Tier) (s : OneSession) → HasGroups schema.now (C.groups catalog.now) t
        → level_of s ≡ level → s.own ≡ own.now → Routes t s write.now result }
{
    match name_write(alloc, catalog, schema, level, write) {
        Err(refused) => Err(refused),
        Ok(change) => match route_of(alloc, catalog, schema, level, own, change.table) {
            Err(refused) => Err(refused),
            Ok(route) => Ok(RoutedWrite { change, route }),
        },
    }
}

/// Where a query on tables that there are is answered: in the cache below level 3, where each of them is cached.
/// (TimesTen Cache User's Guide, "Setting a passthrough level".)
pub fn route_query<C: Catalog>(catalog: &C, level: u8, tables: &[TableId]) -> Route
    ensures { (t : Tier) (schema : List Def) → HasGroups schema (C.groups catalog.now) t
        → route_seen result ≡ query_route level t tables.now }
{
    route_where(level < 3, are_cached(catalog, tables))
}

fn route_where(low: bool, cached: bool) -> Route
    ensures { route_seen result ≡ (if low && cached then OneRoute.Cached else OneRoute.PassedOn) }
{
    if low && cached {
        Route::Cached
    } else {
        Route::PassedOn
    }
}

fn are_cached<C: Catalog>(catalog: &C, tables: &[TableId]) -> bool
    ensures { result ≡ list_all (is_table_of (λ g. true) (C.groups catalog.now)) tables.now }
{
    tables.iter().all(|table| catalog.is_cached(*table))
}

// Where a write on a table is done, or 121, 110, 117.
fn route_of<C: Catalog>(
    alloc: Global,
    catalog: &C,
    schema: &BackingSchema,
    level: u8,
    own: &[Op],
    table: TableId,
) -> Result<Route, Refused>
    ensures told { (t : Tier) (s : OneSession) (c : PlacedChange) → HasGroups schema.now (C.groups catalog.now) t
        → level_of s ≡ level → s.own ≡ own.now → c.table ≡ table → Tells result (change_broken t s c) }
    ensures way { IfOk result (λ route. (t : Tier) → HasGroups schema.now (C.groups catalog.now) t
        → write_route level t table ≡ Ok (route_seen route)) }
{
    match way_of(alloc, catalog, schema, level, table) {
        Err(refused) => Err(refused),
        Ok(route) => {
            if mixes_kinds(catalog, own, table) {
                Err(Refused::Rule(Rule {
                    code: Code::MixedWrites,
                    detail: Detail::Nothing,
                }))
            } else {
                Ok(route)
            }
        }
    }
}

// Where a write on a table is done, or 121 and 110.
fn way_of<C: Catalog>(
    alloc: Global,
    catalog: &C,
    schema: &BackingSchema,
    level: u8,
    table: TableId,
) -> Result<Route, Refused>
    ensures { (t : Tier) → HasGroups schema.now (C.groups catalog.now) t
        → Gives route_seen (write_route level t table) result }
{
    if catalog.is_written_through(table) {
        if level < 3 {
            return Ok(Route::Cached);
        }
        return Err(refused_table(alloc, schema, table, Code::WritethroughTable));
    }
    if level < 2 && catalog.is_only_read(table) {
        return Err(refused_table(alloc, schema, table, Code::ReadOnly));
    }
    Ok(Route::PassedOn)
}

// The refusal with the name of a table; want of memory where there is no such table.
fn refused_table(alloc: Global, schema: &BackingSchema, table: TableId, code: Code) -> Refused
    ensures { (t : Tier) → t.schema ≡ schema.now → IsRefusal (named code (table_name t table)) result }
{
    match schema.get(table.0 as usize) {
        None => Refused::Memory,
        Some(def) => match def.name.copied(alloc) {
            Err(_) => Refused::Memory,
            Ok(name) => Refused::Rule(Rule {
                code,
                detail: Detail::Name(name),
            }),
        },
    }
}

// Whether own operations are on a writethrough table of the other kind.
fn mixes_kinds<C: Catalog>(catalog: &C, own: &[Op], table: TableId) -> bool
    ensures { (t : Tier) (s : OneSession) (schema : List Def) → HasGroups schema (C.groups catalog.now) t
        → s.own ≡ own.now → result ≡ mixes_kinds t s table }
{
    if !catalog.is_written_through(table) {
        return false;
    }
    are_of_other_kind(catalog, catalog.is_synchronous(table), own)
}

// Whether an operation is on a table of the other kind than this.
fn are_of_other_kind<C: Catalog>(catalog: &C, synchronous: bool, own: &[Op]) -> bool
    ensures { result ≡ list_any (λ op.
        synchronous && not (is_table_of is_synchronous (C.groups catalog.now) (table_of op))
        || not synchronous && is_table_of is_synchronous (C.groups catalog.now) (table_of op)) own.now }
{
    own.iter().any(|op| differ(synchronous, catalog.is_synchronous(op.table())))
}

fn differ(a: bool, b: bool) -> bool
    ensures { result ≡ (a && not b || not a && b) }
{
    a != b
}
