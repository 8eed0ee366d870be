//! Cache groups behind what is printed so far, in their normal form.
ghost use Rattle.std.specs.Prelude.{◌≡◌, ◌++◌, ◌∷◌, [], OnOk, Some, codes, false};
ghost use Rattle.sql_print.specs.Groups.{aging_words, group_table_words, group_words, head_words, interval_words, kind_words, mode_word, refresh_words, rule_words, span_words, state_word, switch_word};
ghost use Rattle.sql_print.specs.Normal.{normal_aging, normal_group, normal_group_table, normal_group_tables};
ghost use Rattle.sql_words.specs.Words.{listed, more, spaced, where_so};

use sql_subset::stmt::{
    AgingClause, AgingRule, Autorefresh, CreateGroup, GroupKind, GroupTable, RefreshMode,
    RefreshState,
};
use sql_words::condition::put_filter;
use sql_words::table::put_table;
use sql_words::word::{put, put_name, put_number};
use std::alloc::{AllocError, Global};

fn mode_word(mode: RefreshMode) -> &'static [u8]
    ensures { result.now ≡ mode_word mode }
{
    match mode {
        RefreshMode::Incremental => b"INCREMENTAL",
        RefreshMode::Full => b"FULL",
    }
}

/// The word of a state.
pub fn state_word(state: RefreshState) -> &'static [u8]
    ensures { result.now ≡ state_word state }
{
    match state {
        RefreshState::On => b"ON",
        RefreshState::Off => b"OFF",
        RefreshState::Paused => b"PAUSED",
    }
}

fn put_interval(out: &mut Vec<u8>, interval: u64) -> Result<(), AllocError>
    ensures { OnOk result (out.new.items ≡ out.old.items ++ spaced (interval_words interval)) }
{
    put(out, b"INTERVAL")?;
    put_number(out, interval)?;
    put(out, b"MILLISECONDS")
}

/// Puts the AUTOREFRESH clause, with each of its parts.
fn put_clause(out: &mut Vec<u8>, refresh: Autorefresh) -> Result<(), AllocError>
    ensures { OnOk result (out.new.items ≡ out.old.items ++ spaced (refresh_words (Some refresh))) }
{
    put(out, b"AUTOREFRESH MODE")?;
    put(out, mode_word(refresh.mode))?;
    put_interval(out, refresh.interval)?;
    put(out, b"STATE")?;
    put(out, state_word(refresh.state))
}

fn put_refresh(out: &mut Vec<u8>, refresh: Option<Autorefresh>) -> Result<(), AllocError>
    ensures { OnOk result (out.new.items ≡ out.old.items ++ spaced (refresh_words refresh)) }
{
    match refresh {
        None => Ok(()),
        Some(refresh) => put_clause(out, refresh),
    }
}

fn put_kind(out: &mut Vec<u8>, kind: GroupKind) -> Result<(), AllocError>
    ensures { OnOk result (out.new.items ≡ out.old.items ++ spaced (kind_words kind)) }
{
    match kind {
        GroupKind::ReadOnly => put(out, b"READONLY"),
        GroupKind::AsynchronousWritethrough => put(out, b"ASYNCHRONOUS WRITETHROUGH"),
        GroupKind::SynchronousWritethrough => put(out, b"SYNCHRONOUS WRITETHROUGH"),
        GroupKind::UserManaged => put(out, b"USERMANAGED"),
    }
}

fn put_span(out: &mut Vec<u8>, seconds: u64) -> Result<(), AllocError>
    ensures { OnOk result (out.new.items ≡ out.old.items ++ spaced (span_words seconds)) }
{
    put_number(out, seconds)?;
    put(out, b"SECONDS")
}

/// Puts the lifetime and the cycle.
fn put_spans(out: &mut Vec<u8>, lifetime: u64, cycle: u64) -> Result<(), AllocError>
    ensures { OnOk result (out.new.items ≡ out.old.items
        ++ spaced (codes "LIFETIME" ∷ span_words lifetime ++ codes "CYCLE" ∷ span_words cycle)) }
{
    put(out, b"LIFETIME")?;
    put_span(out, lifetime)?;
    put(out, b"CYCLE")?;
    put_span(out, cycle)
}

fn put_rule(out: &mut Vec<u8>, rule: &AgingRule) -> Result<(), AllocError>
    ensures { OnOk result (out.new.items ≡ out.old.items ++ spaced (rule_words rule.now)) }
{
    match rule {
        AgingRule::LastUse => put(out, b"LRU"),
        AgingRule::Time(aging) => {
            put(out, b"USE")?;
            put(out, aging.column.as_bytes())?;
            put_spans(out, aging.lifetime, aging.cycle)
        }
    }
}

fn put_switch(out: &mut Vec<u8>, on: bool) -> Result<(), AllocError>
    ensures { OnOk result (out.new.items ≡ out.old.items ++ 32 ∷ switch_word on) }
{
    if on {
        return put(out, b"ON");
    }
    put(out, b"OFF")
}

/// Puts the AGING clause of a table, which is a dynamic group's root or not.
fn put_aging(
    out: &mut Vec<u8>,
    dynamic: bool,
    aging: &Option<AgingClause>,
) -> Result<(), AllocError>
    ensures { OnOk result (out.new.items ≡ out.old.items ++ spaced (aging_words (normal_aging dynamic aging.now))) }
{
    match aging {
        None => {
            if dynamic {
                return put(out, b"AGING LRU ON");
            }
            Ok(())
        }
        Some(aging) => {
            put(out, b"AGING")?;
            put_rule(out, &aging.rule)?;
            put_switch(out, aging.on)
        }
    }
}

/// Puts a table of a group, which is a dynamic group's root or not.
fn put_group_table(
    alloc: Global,
    out: &mut Vec<u8>,
    dynamic: bool,
    table: &GroupTable,
) -> Result<(), AllocError>
    ensures { OnOk result (out.new.items ≡ out.old.items
        ++ spaced (group_table_words (normal_group_table dynamic table.now))) }
{
    put_table(alloc, out, &table.table, table.attribute)?;
    put_aging(out, dynamic, &table.aging)?;
    put_filter(out, &table.filter)
}

/// Puts a comma and a table for each.
fn put_children(alloc: Global, out: &mut Vec<u8>, tables: &[GroupTable]) -> Result<(), AllocError>
    ensures { OnOk result (out.new.items ≡ out.old.items
        ++ spaced (more (λ t. group_table_words (normal_group_table false t)) tables.now)) }
{
    for table in tables {
        put(out, b",")?;
        put_group_table(alloc, out, false, table)?;
    }
    Ok(())
}

/// Puts the root and the other tables of a group, which is dynamic or not.
fn put_family(
    alloc: Global,
    out: &mut Vec<u8>,
    dynamic: bool,
    root: &GroupTable,
    children: &[GroupTable],
) -> Result<(), AllocError>
    ensures { OnOk result (out.new.items ≡ out.old.items
        ++ spaced (group_table_words (normal_group_table dynamic root.now)
        ++ more (λ t. group_table_words (normal_group_table false t)) children.now)) }
{
    put_group_table(alloc, out, dynamic, root)?;
    put_children(alloc, out, children)
}

/// Puts the tables of a group, which is dynamic or not.
#[tactic(auto, using(crate::proofs::Members::family_is))]
fn put_group_tables(
    alloc: Global,
    out: &mut Vec<u8>,
    dynamic: bool,
    tables: &[GroupTable],
) -> Result<(), AllocError>
    ensures { OnOk result (out.new.items ≡ out.old.items
        ++ spaced (listed group_table_words (normal_group_tables dynamic tables.now))) }
{
    match tables.split_first() {
        None => Ok(()),
        Some((root, children)) => put_family(alloc, out, dynamic, root, children),
    }
}

fn put_dynamic(out: &mut Vec<u8>, dynamic: bool) -> Result<(), AllocError>
    ensures { OnOk result (out.new.items ≡ out.old.items ++ spaced (where_so dynamic (codes "DYNAMIC" ∷ []))) }
{
    if dynamic {
        return put(out, b"DYNAMIC");
    }
    Ok(())
}

/// Puts what stands before FROM.
fn put_head(out: &mut Vec<u8>, group: &CreateGroup) -> Result<(), AllocError>
    ensures { OnOk result (out.new.items ≡ out.old.items ++ spaced (head_words group.now)) }
{
    put_dynamic(out, group.dynamic)?;
    put_kind(out, group.kind)?;
    put(out, b"CACHE GROUP")?;
    put_name(out, &group.name)?;
    put_refresh(out, group.autorefresh)
}

/// Puts a cache group in its normal form.
pub fn put_group(alloc: Global, out: &mut Vec<u8>, group: &CreateGroup) -> Result<(), AllocError>
    ensures { OnOk result (out.new.items ≡ out.old.items ++ spaced (group_words (normal_group group.now))) }
{
    put_head(out, group)?;
    put(out, b"FROM")?;
    put_group_tables(alloc, out, group.dynamic, group.tables.as_slice())
}
