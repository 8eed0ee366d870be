//! The clauses of a definition, and the foreign keys round a writethrough group.

ghost use Rattle.std.specs.Prelude.{◌≡◌, ◌||◌, nat_eq, option_copied};
ghost use Rattle.std.specs.List.{list_any};
ghost use Rattle.table_defs.specs.Declarations.{Tells};
ghost use Rattle.cache_tier.specs.Definitions.{clauses_fault, has_filter, has_use_aging, has_wrong_aging, has_wrong_interval, has_wrong_time, has_wrong_times, is_by_use, is_inside, is_joined_outside, is_outside, is_read_only_kind, is_referred_to, is_required_time, refers_inside, refers_out};
ghost use Rattle.group_catalog.specs.Placed.{table_seen, tables_seen};

use crate::naming::{aging_column, column_named};
use crate::placing::PlacedTable;
use crate::refusing::lettered;
use crate::tables::is_root;
use row_types::{Column, Letter, Refused, Ty};
use sql_subset::stmt::{AgingClause, AgingRule, Autorefresh, CreateGroup, GroupKind};
use table_defs::{ForeignKey, TableDef};

/// The greatest interval, in milliseconds: 24 hours.
const GREATEST_INTERVAL: u64 = 86_400_000;

/// The greatest lifetime and cycle, in seconds.
const GREATEST_SPAN: u64 = 1_000_000_000;

/// What refuses the clauses with 114: f, WHERE on a writethrough table; g, AUTOREFRESH on writethrough; h, LRU on an
/// explicit READONLY group; i, an aging column that isn't a NOT NULL TIMESTAMP, or aging on a child; j, a
/// writethrough table with a foreign key to, or from, a table outside the group; k, an interval that isn't from 1
/// millisecond to 24 hours, or a lifetime or cycle that isn't from 1 to 10^9 seconds. (TimesTen SQL Reference,
/// "CREATE CACHE GROUP"; the letters, their order and the ranges are this project's.)
#[tactic(auto, using(crate::proofs::ListLaws::any_map))]
pub(crate) fn judge_clauses(
    schema: &[TableDef],
    declared: &CreateGroup,
    tables: &[PlacedTable<'_>],
) -> Result<(), Refused>
    ensures { Tells result (clauses_fault schema.now declared.now (tables_seen tables.now)) }
{
    let read_only = is_read_only(declared.kind);
    if !read_only && any_filter(tables) {
        return Err(lettered(Letter::F));
    }
    if !read_only && declared.autorefresh.is_some() {
        return Err(lettered(Letter::G));
    }
    if read_only && !declared.dynamic && any_use_aging(tables) {
        return Err(lettered(Letter::H));
    }
    if any_wrong_aging(tables) {
        return Err(lettered(Letter::I));
    }
    if !read_only && is_joined_outside(schema, tables) {
        return Err(lettered(Letter::J));
    }
    if has_wrong_interval(&declared.autorefresh) || any_wrong_times(tables) {
        return Err(lettered(Letter::K));
    }
    Ok(())
}

pub(crate) fn is_read_only(kind: GroupKind) -> bool
    ensures { result ≡ is_read_only_kind kind }
{
    match kind {
        GroupKind::ReadOnly => true,
        GroupKind::AsynchronousWritethrough => false,
        GroupKind::SynchronousWritethrough => false,
        GroupKind::UserManaged => false,
    }
}

fn any_filter(tables: &[PlacedTable<'_>]) -> bool
    ensures { result ≡ list_any (λ t. has_filter (table_seen t)) tables.now }
{
    tables.iter().any(|table| has_filter(table))
}

fn any_use_aging(tables: &[PlacedTable<'_>]) -> bool
    ensures { result ≡ list_any (λ t. has_use_aging (table_seen t)) tables.now }
{
    tables.iter().any(|table| has_use_aging(table))
}

fn any_wrong_aging(tables: &[PlacedTable<'_>]) -> bool
    ensures { result ≡ list_any (λ t. has_wrong_aging (table_seen t)) tables.now }
{
    tables.iter().any(|table| has_wrong_aging(table))
}

fn any_wrong_times(tables: &[PlacedTable<'_>]) -> bool
    ensures { result ≡ list_any (λ t. has_wrong_times (table_seen t)) tables.now }
{
    tables.iter().any(|table| has_wrong_times(table))
}

// f: a condition.
fn has_filter(table: &PlacedTable<'_>) -> bool
    ensures { result ≡ has_filter (table_seen table.now) }
{
    table.it.filter.is_some()
}

// h: LRU, be it ON or OFF.
fn has_use_aging(table: &PlacedTable<'_>) -> bool
    ensures { result ≡ has_use_aging (table_seen table.now) }
{
    match &table.it.aging {
        None => false,
        Some(clause) => match &clause.rule {
            AgingRule::LastUse => true,
            AgingRule::Time(_) => false,
        },
    }
}

// i: the aging column isn't a NOT NULL TIMESTAMP, or a child has an aging clause.
fn has_wrong_aging(table: &PlacedTable<'_>) -> bool
    ensures { result ≡ has_wrong_aging (table_seen table.now) }
{
    if table.it.aging.is_some() && !is_root(table) {
        return true;
    }
    match aging_column(&table.it.aging) {
        None => false,
        Some(name) => {
            let columns = table.def.columns.as_slice();
            match column_named(columns, name) {
                None => true,
                Some(place) => !is_required_time(columns.get(place)),
            }
        }
    }
}

fn is_required_time(column: Option<&Column>) -> bool
    ensures { result ≡ is_required_time (option_copied column.entry) }
{
    match column {
        None => false,
        Some(column) => {
            column.not_null
                && match column.ty {
                    Ty::TtInteger => false,
                    Ty::TtBigint => false,
                    Ty::Number(_, _) => false,
                    Ty::Varchar2(_) => false,
                    Ty::Timestamp => true,
                }
        }
    }
}

// j: a foreign key to a table outside of these, or from one.
#[tactic(auto, using(crate::proofs::ListLaws::any_map))]
fn is_joined_outside(schema: &[TableDef], tables: &[PlacedTable<'_>]) -> bool
    ensures { result ≡ is_joined_outside schema.now (tables_seen tables.now) }
{
    any_refers_out(tables) || is_referred_to(tables, schema)
}

fn any_refers_out(tables: &[PlacedTable<'_>]) -> bool
    ensures { result ≡ list_any (λ t. refers_out (tables_seen tables.now) (table_seen t)) tables.now }
{
    tables.iter().any(|table| refers_out(tables, table))
}

fn refers_out(tables: &[PlacedTable<'_>], table: &PlacedTable<'_>) -> bool
    ensures { result ≡ refers_out (tables_seen tables.now) (table_seen table.now) }
{
    table.def.foreign_key.is_some() && !refers_inside(tables, &table.def.foreign_key)
}

fn refers_inside(tables: &[PlacedTable<'_>], foreign: &Option<ForeignKey>) -> bool
    ensures { result ≡ refers_inside (tables_seen tables.now) foreign.now }
{
    match foreign {
        None => false,
        Some(foreign) => is_inside(tables, foreign.parent.0 as usize),
    }
}

fn is_inside(tables: &[PlacedTable<'_>], place: usize) -> bool
    ensures { result ≡ is_inside (tables_seen tables.now) (record { 0 = place }) }
{
    has_number(tables, place)
}

fn has_number(tables: &[PlacedTable<'_>], place: usize) -> bool
    ensures { result ≡ list_any (λ t. nat_eq t.id.0 place) tables.now }
{
    tables.iter().any(|table| table.id.0 as usize == place)
}

fn is_referred_to(tables: &[PlacedTable<'_>], schema: &[TableDef]) -> bool
    ensures { result ≡ is_referred_to (tables_seen tables.now) 0 schema.now }
{
    for (place, def) in schema.iter().enumerate() {
        if refers_inside(tables, &def.foreign_key) && !is_inside(tables, place) {
            return true;
        }
    }
    false
}

// k: an interval that isn't from 1 millisecond to 24 hours.
fn has_wrong_interval(refresh: &Option<Autorefresh>) -> bool
    ensures { result ≡ has_wrong_interval refresh.now }
{
    match refresh {
        None => false,
        Some(refresh) => is_outside(1, GREATEST_INTERVAL, refresh.interval),
    }
}

// A lifetime or cycle that isn't from 1 to 10^9 seconds.
fn has_wrong_times(table: &PlacedTable<'_>) -> bool
    ensures { result ≡ has_wrong_times (table_seen table.now) }
{
    has_wrong_time(&table.it.aging)
}

fn has_wrong_time(aging: &Option<AgingClause>) -> bool
    ensures { result ≡ has_wrong_time aging.now }
{
    match aging {
        None => false,
        Some(clause) => match &clause.rule {
            AgingRule::LastUse => false,
            AgingRule::Time(time) => {
                is_outside(1, GREATEST_SPAN, time.lifetime)
                    || is_outside(1, GREATEST_SPAN, time.cycle)
            }
        },
    }
}

fn is_outside(low: u64, high: u64, n: u64) -> bool
    ensures { result ≡ is_outside low high n }
{
    n < low || n > high
}
