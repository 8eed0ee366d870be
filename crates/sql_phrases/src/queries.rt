//! Queries, read off the tokens of a line.
ghost use Rattle.std.specs.Prelude.{◌≡◌, IfOk};
ghost use Rattle.std.specs.List.{filter_map, list_all};
ghost use Rattle.sql_query.specs.Items.{aggregate_in, expression_in};
ghost use Rattle.sql_phrases.specs.Queries.{aliased, count_of, folded_by, groups_of, is_aggregate, is_expression, item_of, items_of, list_of, order_item_of, order_items_of, order_of, query_of, selected_of, source_of, sources_of};

use crate::conditions::read_filter;
use crate::expression::read_expression;
use crate::reader::Reader;
use crate::reading::{read_column_name, read_column_names, read_identifier, read_name};
use sql_grammar::sql_tokens::kind::Kind;
use sql_grammar::sql_tokens::token::is_kind;
use sql_grammar::test::Test;
use sql_query::tier_base::{Name, Seq};
use sql_query::{Aggregate, Expression, FromTable, OrderItem, Query, SelectItem, SelectList};
use std::alloc::{AllocError, Global};

fn folded_by(kind: Kind, expression: Expression) -> Aggregate
    ensures { result ≡ folded_by kind expression }
{
    if is_kind(kind, Kind::Sum) {
        return Aggregate::Sum(expression);
    }
    if is_kind(kind, Kind::Min) {
        return Aggregate::Least(expression);
    }
    Aggregate::Greatest(expression)
}

// Reads what stands behind COUNT.
fn read_count(r: Reader<'_>) -> Result<(SelectItem, Reader<'_>), AllocError>
    ensures { IfOk result (λ x. count_of r.entry ≡ (x.0, x.1)) }
{
    let inside = r.skip(1);
    if inside.begins(Kind::Star) {
        return Ok((SelectItem::Aggregate(Aggregate::Rows), inside.skip(2)));
    }
    let (expression, rest) = read_expression(inside)?;
    Ok((
        SelectItem::Aggregate(Aggregate::Count(expression)),
        rest.skip(1),
    ))
}

fn read_item(r: Reader<'_>) -> Result<(SelectItem, Reader<'_>), AllocError>
    ensures { IfOk result (λ x. item_of r.entry ≡ (x.0, x.1)) }
{
    if r.begins(Kind::Count) {
        return read_count(r.skip(1));
    }
    let kind = r.first_kind();
    if Test::Fold.lets_pass(kind) {
        let (expression, rest) = read_expression(r.skip(2))?;
        return Ok((
            SelectItem::Aggregate(folded_by(kind, expression)),
            rest.skip(1),
        ));
    }
    let (expression, rest) = read_expression(r)?;
    Ok((SelectItem::Expression(expression), rest))
}

fn read_items(r: Reader<'_>) -> Result<(Vec<SelectItem>, Reader<'_>), AllocError>
    ensures { IfOk result (λ x. items_of r.entry ≡ (x.0.items, x.1)) }
{
    let mut items = Vec::new(r.alloc());
    let (first, mut rest) = read_item(r)?;
    items.push(first)?;
    while rest.begins(Kind::Comma) {
        let (item, behind) = read_item(rest.skip(1))?;
        items.push(item)?;
        rest = behind;
    }
    Ok((items, rest))
}

fn is_expression(item: &SelectItem) -> bool
    ensures { result ≡ is_expression item.now }
{
    match item {
        SelectItem::Expression(_) => true,
        SelectItem::Aggregate(_) => false,
    }
}

fn is_aggregate(item: &SelectItem) -> bool
    ensures { result ≡ is_aggregate item.now }
{
    match item {
        SelectItem::Expression(_) => false,
        SelectItem::Aggregate(_) => true,
    }
}

fn are_expressions(items: &[SelectItem]) -> bool
    ensures { result ≡ list_all is_expression items.now }
{
    items.iter().all(|item| is_expression(item))
}

fn are_aggregates(items: &[SelectItem]) -> bool
    ensures { result ≡ list_all is_aggregate items.now }
{
    items.iter().all(|item| is_aggregate(item))
}

fn expressions_in(alloc: Global, items: Vec<SelectItem>) -> Result<Seq<Expression>, AllocError>
    ensures { IfOk result (λ list. list ≡ filter_map expression_in items.items) }
{
    let list: Vec<Expression> = items
        .into_iter()
        .filter_map(|item| item.into_expression())
        .collect(alloc)?;
    Ok(Seq::from_vec(list))
}

fn aggregates_in(alloc: Global, items: Vec<SelectItem>) -> Result<Seq<Aggregate>, AllocError>
    ensures { IfOk result (λ list. list ≡ filter_map aggregate_in items.items) }
{
    let list: Vec<Aggregate> = items
        .into_iter()
        .filter_map(|item| item.into_aggregate())
        .collect(alloc)?;
    Ok(Seq::from_vec(list))
}

fn list_of(alloc: Global, items: Vec<SelectItem>) -> Result<SelectList, AllocError>
    ensures { IfOk result (λ list. list ≡ list_of items.items) }
{
    if are_expressions(items.as_slice()) {
        let list = expressions_in(alloc, items)?;
        return Ok(SelectList::Expressions(list));
    }
    if are_aggregates(items.as_slice()) {
        let list = aggregates_in(alloc, items)?;
        return Ok(SelectList::Aggregates(list));
    }
    Ok(SelectList::Mixed(Seq::from_vec(items)))
}

#[tactic(auto, unfolding(crate::specs::Queries::selected_of))]
fn read_selected(r: Reader<'_>) -> Result<(SelectList, Reader<'_>), AllocError>
    ensures { IfOk result (λ x. selected_of r.entry ≡ (x.0, x.1)) }
{
    if r.begins(Kind::Star) {
        return Ok((SelectList::Everything, r.skip(1)));
    }
    let alloc = r.alloc();
    let (items, rest) = read_items(r)?;
    let list = list_of(alloc, items)?;
    Ok((list, rest))
}

fn read_alias(table: Name, r: Reader<'_>) -> Result<(FromTable, Reader<'_>), AllocError>
    ensures { IfOk result (λ x. aliased (table, r.entry) ≡ (x.0, x.1)) }
{
    if Test::Name.lets_pass(r.first_kind()) {
        let (alias, rest) = read_identifier(r)?;
        return Ok((
            FromTable {
                table,
                alias: Some(alias),
            },
            rest,
        ));
    }
    Ok((FromTable { table, alias: None }, r))
}

fn read_source(r: Reader<'_>) -> Result<(FromTable, Reader<'_>), AllocError>
    ensures { IfOk result (λ x. source_of r.entry ≡ (x.0, x.1)) }
{
    let (table, rest) = read_name(r)?;
    read_alias(table, rest)
}

fn read_sources(r: Reader<'_>) -> Result<(Seq<FromTable>, Reader<'_>), AllocError>
    ensures { IfOk result (λ x. sources_of r.entry ≡ (x.0, x.1)) }
{
    let mut tables = Vec::new(r.alloc());
    let (first, mut rest) = read_source(r)?;
    tables.push(first)?;
    while rest.begins(Kind::Comma) {
        let (table, behind) = read_source(rest.skip(1))?;
        tables.push(table)?;
        rest = behind;
    }
    Ok((Seq::from_vec(tables), rest))
}

#[tactic(auto, unfolding(crate::specs::Queries::groups_of))]
fn read_groups(r: Reader<'_>) -> Result<(Seq<Name>, Reader<'_>), AllocError>
    ensures { IfOk result (λ x. groups_of r.entry ≡ (x.0, x.1)) }
{
    if r.begins(Kind::Group) {
        return read_column_names(r.skip(2));
    }
    Ok((Seq::new(r.alloc()), r))
}

fn read_order_item(r: Reader<'_>) -> Result<(OrderItem, Reader<'_>), AllocError>
    ensures { IfOk result (λ x. order_item_of r.entry ≡ (x.0, x.1)) }
{
    let (column, rest) = read_column_name(r)?;
    if rest.begins(Kind::Asc) {
        let item = OrderItem {
            column,
            descending: false,
        };
        return Ok((item, rest.skip(1)));
    }
    if rest.begins(Kind::Desc) {
        let item = OrderItem {
            column,
            descending: true,
        };
        return Ok((item, rest.skip(1)));
    }
    Ok((
        OrderItem {
            column,
            descending: false,
        },
        rest,
    ))
}

fn read_order_items(r: Reader<'_>) -> Result<(Seq<OrderItem>, Reader<'_>), AllocError>
    ensures { IfOk result (λ x. order_items_of r.entry ≡ (x.0, x.1)) }
{
    let mut items = Vec::new(r.alloc());
    let (first, mut rest) = read_order_item(r)?;
    items.push(first)?;
    while rest.begins(Kind::Comma) {
        let (item, behind) = read_order_item(rest.skip(1))?;
        items.push(item)?;
        rest = behind;
    }
    Ok((Seq::from_vec(items), rest))
}

#[tactic(auto, unfolding(crate::specs::Queries::order_of))]
fn read_order(r: Reader<'_>) -> Result<(Seq<OrderItem>, Reader<'_>), AllocError>
    ensures { IfOk result (λ x. order_of r.entry ≡ (x.0, x.1)) }
{
    if r.begins(Kind::Order) {
        return read_order_items(r.skip(2));
    }
    Ok((Seq::new(r.alloc()), r))
}

/// Reads what stands behind SELECT.
#[tactic(auto, unfolding(crate::specs::Queries::query_of))]
pub fn read_query(r: Reader<'_>) -> Result<(Query, Reader<'_>), AllocError>
    ensures { IfOk result (λ x. query_of r.entry ≡ (x.0, x.1)) }
{
    let (selected, rest) = read_selected(r)?;
    let (tables, rest) = read_sources(rest.skip(1))?;
    let (filter, rest) = read_filter(rest)?;
    let (groups, rest) = read_groups(rest)?;
    let (order, rest) = read_order(rest)?;
    Ok((
        Query {
            selected,
            tables,
            filter,
            groups,
            order,
        },
        rest,
    ))
}
