//! Statements with their names found over the tables that a session sees.

ghost use Rattle.std.specs.Prelude.{◌≡◌, ◌&&◌, ◌<◌, ◌==◌, ◌^◌, [], Some, IfSome, false, length, slice_get, true};
ghost use Rattle.table_defs.specs.declared.definition.TableDef.{TableDef as Def};
ghost use Rattle.table_defs.specs.Names.{place_of_table, same_name};
ghost use Rattle.resolution.specs.Queries.{query_seen, resolved_query};
ghost use Rattle.resolution.specs.Results.{Gives, IsRefusal};
ghost use Rattle.resolution.specs.Writes.{change_seen, resolved_write, table_of};
ghost use Rattle.evaluator.specs.Rules.{about};
ghost use Rattle.tier_base.specs.declared.code.Code.TheVariants as code;
ghost use Rattle.cache_tier.specs.Groups.{is_table_of};
ghost use Rattle.cache_tier.specs.Routes.{visible};
ghost use Rattle.cache_tier.specs.TierStates.{Tier};
ghost use Rattle.tier_statements.specs.Seen.{HasGroups};
ghost use Rattle.tier_statements.specs.Sights.{FindsTable, FindsTables, cached_alone};

use crate::catalog::Catalog;
use evaluator::Change;
use resolution::{ResolvedQuery, resolve_query, resolve_write};
use row_types::{Detail, Refused, Rule};
use sql_query::{FromTable, Query, Write};
use std::alloc::Global;
use table_defs::{BackingSchema, find_table};
use tier_base::{Code, Name, TableId};

/// The query with places in place of names, over the tables that a session at this level sees: at level 0 those alone
/// that some group has. It has no GROUP BY, which isn't done yet. No definition is copied.
///
/// The refusal is that of `resolution::resolve_query`, and 102 at level 0 of a table that no group has; or memory was
/// wanting, as it is said to be where a cached table has the name of an earlier one. (TimesTen Cache User's Guide,
/// "Setting a passthrough level".)
pub fn name_query<C: Catalog>(
    alloc: Global,
    catalog: &C,
    schema: &BackingSchema,
    level: u8,
    query: &Query,
) -> Result<ResolvedQuery, Refused>
    requires { query.now.groups ≡ [] }
    ensures { (t : Tier) → HasGroups schema.now (C.groups catalog.now) t
        → Gives query_seen (resolved_query (visible level t) query.now) result }
{
    if level == 0 {
        name_cached_query(alloc, catalog, schema, query)
    } else {
        resolve_query(alloc, schema, query)
    }
}

/// The write with places in place of names, over the tables that a session at this level sees.
///
/// The refusal is that of `resolution::resolve_write`, and 102 at level 0 of a table that no group has; or memory was
/// wanting, as it is said to be where a cached table has the name of an earlier one.
pub fn name_write<C: Catalog>(
    alloc: Global,
    catalog: &C,
    schema: &BackingSchema,
    level: u8,
    write: &Write,
) -> Result<Change, Refused>
    ensures { (t : Tier) → HasGroups schema.now (C.groups catalog.now) t
        → Gives change_seen (resolved_write (visible level t) write.now) result }
{
    if level == 0 {
        name_cached_write(alloc, catalog, schema, write)
    } else {
        resolve_write(alloc, schema, write)
    }
}

fn name_cached_query<C: Catalog>(
    alloc: Global,
    catalog: &C,
    schema: &BackingSchema,
    query: &Query,
) -> Result<ResolvedQuery, Refused>
    requires { query.now.groups ≡ [] }
    ensures { Gives query_seen (resolved_query (cached_alone (C.groups catalog.now) schema.now) query.now) result }
{
    match find_all(alloc, catalog, schema, query.tables.as_slice()) {
        Err(refused) => Err(refused),
        Ok(()) => resolve_query(alloc, schema, query),
    }
}

fn name_cached_write<C: Catalog>(
    alloc: Global,
    catalog: &C,
    schema: &BackingSchema,
    write: &Write,
) -> Result<Change, Refused>
    ensures { Gives change_seen (resolved_write (cached_alone (C.groups catalog.now) schema.now) write.now) result }
{
    match find(alloc, catalog, schema, table_of(write)) {
        Err(refused) => Err(refused),
        Ok(()) => resolve_write(alloc, schema, write),
    }
}

// The table that is written.
fn table_of(write: &Write) -> &Name
    ensures { result.now ≡ table_of write.now }
{
    match write {
        Write::Insert(insert) => &insert.table,
        Write::Update(update) => &update.table,
        Write::Delete(delete) => &delete.table,
    }
}

// Whether the names of the tables in FROM stand for cached tables.
fn find_all<C: Catalog>(
    alloc: Global,
    catalog: &C,
    schema: &BackingSchema,
    tables: &[FromTable],
) -> Result<(), Refused>
    ensures { FindsTables (cached_alone (C.groups catalog.now) schema.now) schema.now tables.now result }
{
    for from in tables {
        match find(alloc, catalog, schema, &from.table) {
            Ok(()) => {}
            Err(refused) => return Err(refused),
        }
    }
    Ok(())
}

// Whether the name stands for a cached table. No name is without bytes.
fn find<C: Catalog>(
    alloc: Global,
    catalog: &C,
    schema: &BackingSchema,
    name: &Name,
) -> Result<(), Refused>
    ensures { FindsTable (cached_alone (C.groups catalog.now) schema.now) schema.now name.now result }
{
    if name.as_bytes().is_empty() || schema.len() >= 4_294_967_296 {
        return Err(Refused::Memory);
    }
    match first_cached(catalog, schema, name) {
        None => Err(unknown(alloc, name)),
        Some(cached) => match find_table(schema, name) {
            None => Err(Refused::Memory),
            Some(first) => {
                if first.0 == cached.0 {
                    Ok(())
                } else {
                    Err(Refused::Memory)
                }
            }
        },
    }
}

// 102 of the name.
fn unknown(alloc: Global, name: &Name) -> Refused
    ensures { IsRefusal (about code.UnknownTable name.now) result }
{
    match name.copied(alloc) {
        Err(_) => Refused::Memory,
        Ok(name) => Refused::Rule(Rule {
            code: Code::UnknownTable,
            detail: Detail::Name(name),
        }),
    }
}

// The first cached table of this name.
fn first_cached<C: Catalog>(catalog: &C, schema: &BackingSchema, name: &Name) -> Option<TableId>
    requires named { (length name.now == 0) ≡ false }
    requires few { length schema.now < 2 ^ 32 }
    ensures table { result ≡ place_of_table (cached_alone (C.groups catalog.now) schema.now) name.now }
    ensures cached { IfSome result (λ table. is_table_of (λ g. true) (C.groups catalog.now) table ≡ true) }
{
    for place in 0..schema.len() {
        if is_cached_at(catalog, schema, name, place) {
            return Some(TableId(place as u32));
        }
    }
    None
}

// Whether the table at a place has this name and is cached.
fn is_cached_at<C: Catalog>(catalog: &C, schema: &BackingSchema, name: &Name, place: usize) -> bool
    requires within { place < length schema.now }
    requires few { length schema.now < 2 ^ 32 }
    ensures { (def : Def) → slice_get schema.now place ≡ Some def → result ≡ (same_name def.name name.now
        && is_table_of (λ g. true) (C.groups catalog.now) (record { 0 = place })) }
{
    let def = &schema.as_slice()[place];
    is_same_name(&def.name, name) && catalog.is_cached(TableId(place as u32))
}

fn is_same_name(a: &Name, b: &Name) -> bool
    ensures { result ≡ same_name a.now b.now }
{
    a.same(b)
}
