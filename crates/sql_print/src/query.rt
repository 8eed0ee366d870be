//! Queries behind what is printed so far.
ghost use Rattle.std.specs.Prelude.{◌≡◌, ◌++◌, ◌∷◌, OnOk};
ghost use Rattle.sql_print.specs.Queries.{aggregate_words, alias_words, direction_word, grouping_words, item_words, order_item_words, order_words, query_words, selected_words, source_words};
ghost use Rattle.sql_words.specs.Trees.{expression_words};
ghost use Rattle.sql_words.specs.Words.{column_name_words, enclosed, listed, more, spaced};

use sql_subset::sql_query::{
    Aggregate, Expression, FromTable, OrderItem, Query, SelectItem, SelectList,
};
use sql_subset::tier_base::Name;
use sql_words::condition::put_filter;
use sql_words::expression::{put_expression, put_listed};
use sql_words::word::{put, put_column_name, put_name};
use std::alloc::AllocError;

fn put_operand(out: &mut Vec<u8>, expression: &Expression) -> Result<(), AllocError>
    ensures { OnOk result (out.new.items ≡ out.old.items ++ spaced (enclosed (expression_words expression.now))) }
{
    put(out, b"(")?;
    put_expression(out, expression)?;
    put(out, b")")
}

fn put_aggregate(out: &mut Vec<u8>, aggregate: &Aggregate) -> Result<(), AllocError>
    ensures { OnOk result (out.new.items ≡ out.old.items ++ spaced (aggregate_words aggregate.now)) }
{
    match aggregate {
        Aggregate::Rows => put(out, b"COUNT ( * )"),
        Aggregate::Count(expression) => {
            put(out, b"COUNT")?;
            put_operand(out, expression)
        }
        Aggregate::Sum(expression) => {
            put(out, b"SUM")?;
            put_operand(out, expression)
        }
        Aggregate::Least(expression) => {
            put(out, b"MIN")?;
            put_operand(out, expression)
        }
        Aggregate::Greatest(expression) => {
            put(out, b"MAX")?;
            put_operand(out, expression)
        }
    }
}

/// Puts a comma and an aggregate for each.
fn put_more_aggregates(out: &mut Vec<u8>, aggregates: &[Aggregate]) -> Result<(), AllocError>
    ensures { OnOk result (out.new.items ≡ out.old.items ++ spaced (more aggregate_words aggregates.now)) }
{
    for aggregate in aggregates {
        put(out, b",")?;
        put_aggregate(out, aggregate)?;
    }
    Ok(())
}

fn put_aggregates(out: &mut Vec<u8>, aggregates: &[Aggregate]) -> Result<(), AllocError>
    ensures { OnOk result (out.new.items ≡ out.old.items ++ spaced (listed aggregate_words aggregates.now)) }
{
    match aggregates.split_first() {
        None => Ok(()),
        Some((first, rest)) => {
            put_aggregate(out, first)?;
            put_more_aggregates(out, rest)
        }
    }
}

fn put_item(out: &mut Vec<u8>, item: &SelectItem) -> Result<(), AllocError>
    ensures { OnOk result (out.new.items ≡ out.old.items ++ spaced (item_words item.now)) }
{
    match item {
        SelectItem::Expression(expression) => put_expression(out, expression),
        SelectItem::Aggregate(aggregate) => put_aggregate(out, aggregate),
    }
}

/// Puts a comma and an item for each.
fn put_more_items(out: &mut Vec<u8>, items: &[SelectItem]) -> Result<(), AllocError>
    ensures { OnOk result (out.new.items ≡ out.old.items ++ spaced (more item_words items.now)) }
{
    for item in items {
        put(out, b",")?;
        put_item(out, item)?;
    }
    Ok(())
}

fn put_items(out: &mut Vec<u8>, items: &[SelectItem]) -> Result<(), AllocError>
    ensures { OnOk result (out.new.items ≡ out.old.items ++ spaced (listed item_words items.now)) }
{
    match items.split_first() {
        None => Ok(()),
        Some((first, rest)) => {
            put_item(out, first)?;
            put_more_items(out, rest)
        }
    }
}

fn put_selected(out: &mut Vec<u8>, selected: &SelectList) -> Result<(), AllocError>
    ensures { OnOk result (out.new.items ≡ out.old.items ++ spaced (selected_words selected.now)) }
{
    match selected {
        SelectList::Everything => put(out, b"*"),
        SelectList::Expressions(list) => put_listed(out, list.as_slice()),
        SelectList::Aggregates(list) => put_aggregates(out, list.as_slice()),
        SelectList::Mixed(list) => put_items(out, list.as_slice()),
    }
}

fn put_alias(out: &mut Vec<u8>, alias: &Option<Name>) -> Result<(), AllocError>
    ensures { OnOk result (out.new.items ≡ out.old.items ++ spaced (alias_words alias.now)) }
{
    match alias {
        None => Ok(()),
        Some(name) => put(out, name.as_bytes()),
    }
}

fn put_source(out: &mut Vec<u8>, source: &FromTable) -> Result<(), AllocError>
    ensures { OnOk result (out.new.items ≡ out.old.items ++ spaced (source_words source.now)) }
{
    put_name(out, &source.table)?;
    put_alias(out, &source.alias)
}

/// Puts a comma and a table for each.
fn put_more_sources(out: &mut Vec<u8>, sources: &[FromTable]) -> Result<(), AllocError>
    ensures { OnOk result (out.new.items ≡ out.old.items ++ spaced (more source_words sources.now)) }
{
    for source in sources {
        put(out, b",")?;
        put_source(out, source)?;
    }
    Ok(())
}

fn put_sources(out: &mut Vec<u8>, sources: &[FromTable]) -> Result<(), AllocError>
    ensures { OnOk result (out.new.items ≡ out.old.items ++ spaced (listed source_words sources.now)) }
{
    match sources.split_first() {
        None => Ok(()),
        Some((first, rest)) => {
            put_source(out, first)?;
            put_more_sources(out, rest)
        }
    }
}

/// Puts a comma and a column for each.
fn put_more_columns(out: &mut Vec<u8>, names: &[Name]) -> Result<(), AllocError>
    ensures { OnOk result (out.new.items ≡ out.old.items ++ spaced (more column_name_words names.now)) }
{
    for name in names {
        put(out, b",")?;
        put_column_name(out, name)?;
    }
    Ok(())
}

fn put_grouping(out: &mut Vec<u8>, names: &[Name]) -> Result<(), AllocError>
    ensures { OnOk result (out.new.items ≡ out.old.items ++ spaced (grouping_words names.now)) }
{
    match names.split_first() {
        None => Ok(()),
        Some((first, rest)) => {
            put(out, b"GROUP BY")?;
            put_column_name(out, first)?;
            put_more_columns(out, rest)
        }
    }
}

fn direction_word(descending: bool) -> &'static [u8]
    ensures { result.now ≡ direction_word descending }
{
    if descending {
        return b"DESC";
    }
    b"ASC"
}

fn put_order_item(out: &mut Vec<u8>, item: &OrderItem) -> Result<(), AllocError>
    ensures { OnOk result (out.new.items ≡ out.old.items ++ spaced (order_item_words item.now)) }
{
    put_column_name(out, &item.column)?;
    put(out, direction_word(item.descending))
}

/// Puts a comma and an item for each.
fn put_more_order(out: &mut Vec<u8>, items: &[OrderItem]) -> Result<(), AllocError>
    ensures { OnOk result (out.new.items ≡ out.old.items ++ spaced (more order_item_words items.now)) }
{
    for item in items {
        put(out, b",")?;
        put_order_item(out, item)?;
    }
    Ok(())
}

fn put_order(out: &mut Vec<u8>, items: &[OrderItem]) -> Result<(), AllocError>
    ensures { OnOk result (out.new.items ≡ out.old.items ++ spaced (order_words items.now)) }
{
    match items.split_first() {
        None => Ok(()),
        Some((first, rest)) => {
            put(out, b"ORDER BY")?;
            put_order_item(out, first)?;
            put_more_order(out, rest)
        }
    }
}

/// Puts what stands behind SELECT.
pub fn put_query(out: &mut Vec<u8>, query: &Query) -> Result<(), AllocError>
    ensures { OnOk result (out.new.items ≡ out.old.items ++ spaced (query_words query.now)) }
{
    put_selected(out, &query.selected)?;
    put(out, b"FROM")?;
    put_sources(out, query.tables.as_slice())?;
    put_filter(out, &query.filter)?;
    put_grouping(out, query.groups.as_slice())?;
    put_order(out, query.order.as_slice())
}
