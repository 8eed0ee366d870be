//! Cache groups, read off the tokens of a line.
ghost use Rattle.std.specs.Prelude.{◌≡◌, IfOk};
ghost use Rattle.sql_subset.specs.Groups.{aged, aging_of, aging_rule_of, attribute_of, claused, cycle_of, default_refresh, filtered, group_of, group_table_of, group_tables_of, interval_of, kind_of, long_of, milliseconds_of, mode_of, refresh_of, seconds_of, span_of, state_of, switched, time_rule_of, unwritten, with_interval, with_mode, with_state};
ghost use Rattle.sql_phrases.specs.Conditions.{filter_of};

use crate::stmt::{
    AgingClause, AgingRule, Autorefresh, CreateGroup, GroupKind, GroupTable, RefreshMode,
    RefreshState, TimeAging,
};
use sql_phrases::conditions::read_filter;
use sql_phrases::reader::Reader;
use sql_phrases::reading::{number_of, read_identifier, read_name};
use sql_phrases::sql_tokens::kind::Kind;
use sql_phrases::sql_tokens::token::is_kind;
use sql_phrases::tables::{CacheTable, TableAttribute, past_word, read_table};
use sql_phrases::tier_base::Seq;
use std::alloc::AllocError;

fn milliseconds_of(unit: Kind) -> u64
    ensures { result ≡ milliseconds_of unit }
{
    if is_kind(unit, Kind::Millisecond) {
        return 1;
    }
    if is_kind(unit, Kind::Second) {
        return 1_000;
    }
    60_000
}

fn interval_of(digits: &[u8], unit: Kind) -> u64
    ensures { result ≡ interval_of digits.now unit }
{
    number_of(digits).saturating_mul(milliseconds_of(unit))
}

fn default_refresh() -> Autorefresh
    ensures { result ≡ default_refresh }
{
    Autorefresh {
        mode: RefreshMode::Incremental,
        interval: 300_000,
        state: RefreshState::Paused,
    }
}

fn mode_of(kind: Kind) -> RefreshMode
    ensures { result ≡ mode_of kind }
{
    if is_kind(kind, Kind::Full) {
        return RefreshMode::Full;
    }
    RefreshMode::Incremental
}

/// The state of a word.
pub fn state_of(kind: Kind) -> RefreshState
    ensures { result ≡ state_of kind }
{
    if is_kind(kind, Kind::On) {
        return RefreshState::On;
    }
    if is_kind(kind, Kind::Off) {
        return RefreshState::Off;
    }
    RefreshState::Paused
}

fn read_mode(refresh: Autorefresh, r: Reader<'_>) -> (Autorefresh, Reader<'_>)
    ensures { with_mode (refresh, r.entry) ≡ (result.0, result.1) }
{
    if r.begins(Kind::Mode) {
        let value = r.skip(1);
        let mode = mode_of(value.first_kind());
        let refresh = Autorefresh {
            mode,
            interval: refresh.interval,
            state: refresh.state,
        };
        return (refresh, value.skip(1));
    }
    (refresh, r)
}

fn read_interval(refresh: Autorefresh, r: Reader<'_>) -> (Autorefresh, Reader<'_>)
    ensures { with_interval (refresh, r.entry) ≡ (result.0, result.1) }
{
    if r.begins(Kind::Interval) {
        let count = r.skip(1);
        let digits = count.text();
        let unit = count.skip(1);
        let interval = interval_of(digits, unit.first_kind());
        let refresh = Autorefresh {
            mode: refresh.mode,
            interval,
            state: refresh.state,
        };
        return (refresh, unit.skip(1));
    }
    (refresh, r)
}

fn read_state(refresh: Autorefresh, r: Reader<'_>) -> (Autorefresh, Reader<'_>)
    ensures { with_state (refresh, r.entry) ≡ (result.0, result.1) }
{
    if r.begins(Kind::State) {
        let value = r.skip(1);
        let state = state_of(value.first_kind());
        let refresh = Autorefresh {
            mode: refresh.mode,
            interval: refresh.interval,
            state,
        };
        return (refresh, value.skip(1));
    }
    (refresh, r)
}

fn unwritten(kind: GroupKind) -> Option<Autorefresh>
    ensures { result ≡ unwritten kind }
{
    match kind {
        GroupKind::ReadOnly => Some(default_refresh()),
        GroupKind::AsynchronousWritethrough => None,
        GroupKind::SynchronousWritethrough => None,
        GroupKind::UserManaged => None,
    }
}

fn read_refresh(kind: GroupKind, r: Reader<'_>) -> (Option<Autorefresh>, Reader<'_>)
    ensures { refresh_of kind r.entry ≡ (result.0, result.1) }
{
    if r.begins(Kind::Autorefresh) {
        let (refresh, rest) = read_mode(default_refresh(), r.skip(1));
        let (refresh, rest) = read_interval(refresh, rest);
        let (refresh, rest) = read_state(refresh, rest);
        return (Some(refresh), rest);
    }
    (unwritten(kind), r)
}

fn read_kind(r: Reader<'_>) -> (GroupKind, Reader<'_>)
    ensures { kind_of r.entry ≡ (result.0, result.1) }
{
    if r.begins(Kind::Readonly) {
        return (GroupKind::ReadOnly, r.skip(1));
    }
    if r.begins(Kind::Usermanaged) {
        return (GroupKind::UserManaged, r.skip(1));
    }
    if r.begins(Kind::Asynchronous) {
        return (GroupKind::AsynchronousWritethrough, r.skip(2));
    }
    (GroupKind::SynchronousWritethrough, r.skip(2))
}

fn seconds_of(unit: Kind) -> u64
    ensures { result ≡ seconds_of unit }
{
    if is_kind(unit, Kind::Second) {
        return 1;
    }
    if is_kind(unit, Kind::Minute) {
        return 60;
    }
    if is_kind(unit, Kind::Hour) {
        return 3_600;
    }
    86_400
}

fn span_of(digits: &[u8], unit: Kind) -> u64
    ensures { result ≡ span_of digits.now unit }
{
    number_of(digits).saturating_mul(seconds_of(unit))
}

#[tactic(auto, unfolding(crate::specs::Groups::long_of))]
fn read_long(r: Reader<'_>) -> (u64, Reader<'_>)
    ensures { long_of r.entry ≡ (result.0, result.1) }
{
    let digits = r.text();
    let unit = r.skip(1);
    let seconds = span_of(digits, unit.first_kind());
    (seconds, unit.skip(1))
}

#[tactic(auto, unfolding(crate::specs::Groups::cycle_of))]
fn read_cycle(r: Reader<'_>) -> (u64, Reader<'_>)
    ensures { cycle_of r.entry ≡ (result.0, result.1) }
{
    if r.begins(Kind::Cycle) {
        return read_long(r.skip(1));
    }
    (300, r)
}

// Reads what stands behind USE.
fn read_time_rule(r: Reader<'_>) -> Result<(AgingRule, Reader<'_>), AllocError>
    ensures { IfOk result (λ x. time_rule_of r.entry ≡ (x.0, x.1)) }
{
    let (column, rest) = read_identifier(r)?;
    let (lifetime, rest) = read_long(rest.skip(1));
    let (cycle, rest) = read_cycle(rest);
    let rule = AgingRule::Time(TimeAging {
        column,
        lifetime,
        cycle,
    });
    Ok((rule, rest))
}

fn read_aging_rule(r: Reader<'_>) -> Result<(AgingRule, Reader<'_>), AllocError>
    ensures { IfOk result (λ x. aging_rule_of r.entry ≡ (x.0, x.1)) }
{
    if r.begins(Kind::Lru) {
        return Ok((AgingRule::LastUse, r.skip(1)));
    }
    read_time_rule(r.skip(1))
}

fn read_switch(rule: AgingRule, r: Reader<'_>) -> (AgingClause, Reader<'_>)
    ensures { switched (rule, r.entry) ≡ (result.0, result.1) }
{
    if r.begins(Kind::On) {
        return (AgingClause { rule, on: true }, r.skip(1));
    }
    if r.begins(Kind::Off) {
        return (AgingClause { rule, on: false }, r.skip(1));
    }
    (AgingClause { rule, on: true }, r)
}

#[tactic(auto, unfolding(crate::specs::Groups::aging_of))]
fn read_aging(r: Reader<'_>) -> Result<(Option<AgingClause>, Reader<'_>), AllocError>
    ensures { IfOk result (λ x. aging_of r.entry ≡ (x.0, x.1)) }
{
    if r.begins(Kind::Aging) {
        let (rule, rest) = read_aging_rule(r.skip(1))?;
        let (clause, rest) = read_switch(rule, rest);
        return Ok((Some(clause), rest));
    }
    Ok((None, r))
}

fn attribute_of(kind: GroupKind, written: Option<TableAttribute>) -> Option<TableAttribute>
    ensures { result ≡ attribute_of kind written }
{
    match (kind, written) {
        (GroupKind::UserManaged, None) => Some(TableAttribute::NotPropagate),
        (_, written) => written,
    }
}

fn read_aged(
    kind: GroupKind,
    cached: CacheTable,
    r: Reader<'_>,
) -> Result<(GroupTable, Reader<'_>), AllocError>
    ensures { IfOk result (λ x. aged kind cached (aging_of r.entry) ≡ (x.0, x.1)) }
{
    let (aging, rest) = read_aging(r)?;
    let (filter, rest) = read_filter(rest)?;
    let CacheTable { table, attribute } = cached;
    Ok((
        GroupTable {
            table,
            attribute: attribute_of(kind, attribute),
            filter,
            aging,
        },
        rest,
    ))
}

fn read_filtered(
    kind: GroupKind,
    cached: CacheTable,
    r: Reader<'_>,
) -> Result<(GroupTable, Reader<'_>), AllocError>
    ensures { IfOk result (λ x. filtered kind cached (filter_of r.entry) ≡ (x.0, x.1)) }
{
    let (filter, rest) = read_filter(r)?;
    let (aging, rest) = read_aging(rest)?;
    let CacheTable { table, attribute } = cached;
    Ok((
        GroupTable {
            table,
            attribute: attribute_of(kind, attribute),
            filter,
            aging,
        },
        rest,
    ))
}

#[tactic(auto, unfolding(crate::specs::Groups::claused))]
fn read_group_table(kind: GroupKind, r: Reader<'_>) -> Result<(GroupTable, Reader<'_>), AllocError>
    ensures { IfOk result (λ x. group_table_of kind r.entry ≡ (x.0, x.1)) }
{
    let (cached, rest) = read_table(r)?;
    if rest.begins(Kind::Aging) {
        return read_aged(kind, cached, rest);
    }
    read_filtered(kind, cached, rest)
}

fn read_group_tables(
    kind: GroupKind,
    r: Reader<'_>,
) -> Result<(Seq<GroupTable>, Reader<'_>), AllocError>
    ensures { IfOk result (λ x. group_tables_of kind r.entry ≡ (x.0, x.1)) }
{
    let mut tables = Vec::new(r.alloc());
    let (first, mut rest) = read_group_table(kind, r)?;
    tables.push(first)?;
    while rest.begins(Kind::Comma) {
        let (table, behind) = read_group_table(kind, rest.skip(1))?;
        tables.push(table)?;
        rest = behind;
    }
    Ok((Seq::from_vec(tables), rest))
}

/// Reads what stands behind CREATE: a cache group.
#[tactic(auto, unfolding(crate::specs::Groups::group_of))]
pub fn read_group(r: Reader<'_>) -> Result<(CreateGroup, Reader<'_>), AllocError>
    ensures { IfOk result (λ x. group_of r.entry ≡ (x.0, x.1)) }
{
    let dynamic = r.begins(Kind::Dynamic);
    let (kind, rest) = read_kind(past_word(r, Kind::Dynamic));
    let (name, rest) = read_name(rest.skip(2))?;
    let (autorefresh, rest) = read_refresh(kind, rest);
    let (tables, rest) = read_group_tables(kind, rest.skip(1))?;
    Ok((
        CreateGroup {
            name,
            kind,
            dynamic,
            autorefresh,
            tables,
        },
        rest,
    ))
}
