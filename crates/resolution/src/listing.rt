//! Select lists and ORDER BY with places in place of names.

ghost use Rattle.std.specs.Prelude.{◌≡◌, ◌||◌, IfOk, Ok, OnOk, Some, map};
ghost use Rattle.std.specs.List.{list_all};
ghost use Rattle.std.specs.Result.{is_ok};
ghost use Rattle.evaluator.specs.expressions.specs.Types.{agrees, family_of};
ghost use Rattle.evaluator.specs.expressions.specs.declared.typing.Family.TheVariants.{Number};
ghost use Rattle.resolution.specs.Literals.{has_unheld, some_unheld};
ghost use Rattle.resolution.specs.Placing.{expression_seen, expressions_seen, placed_expression, placed_list};
ghost use Rattle.resolution.specs.Queries.{operand_of, placed_item, placed_order, placed_selected, places_from, suit_totals, suits_families, suits_total, total_of, totals_of, tree_of_item, written_list};
ghost use Rattle.resolution.specs.Results.{Gives};
ghost use Rattle.resolution.specs.Scopes.{families, shown};
ghost use Rattle.resolution.specs.WrittenTypes.{written_families, written_family};

use crate::placing::{place_expression, place_list};
use crate::scope::{Seen, placed_column};
use evaluator::Aggregate;
use evaluator::expressions::{Expr, Family, family_of, is_numeric};
use evaluator::row_types::{Refused, Value};
use evaluator::tier_base::{Code, Seq};
use sql_query::{Aggregate as NamedAggregate, OrderItem, SelectItem, SelectList};
use std::alloc::{AllocError, Global};

/// The select list: all columns, its expressions, or the operands of its aggregates. `unheld` becomes true where no
/// type holds some literal of it.
///
/// The refusal is 103 of the first name that fits no column, or two; or memory was wanting.
pub(crate) fn place_selected(
    alloc: Global,
    scope: &[Seen<'_>],
    selected: &SelectList,
    unheld: &mut bool,
) -> Result<Vec<Expr>, Refused>
    ensures placed { Gives (λ es. expressions_seen es.items) (placed_selected (shown scope.now) selected.now) result }
    ensures typed { IfOk result (λ es. suits_families selected.now
        (map (λ e. family_of e (families (shown scope.now))) es.items)
        ≡ suits_families selected.now (written_families (shown scope.now) (written_list selected.now))) }
    ensures held { OnOk result (unheld.new ≡ unheld.old || some_unheld (written_list selected.now)) }
{
    match selected {
        SelectList::Everything => Ok(all_columns(alloc, scope)?),
        SelectList::Expressions(list) => place_list(alloc, scope, list.as_slice(), unheld),
        SelectList::Aggregates(list) => place_operands(alloc, scope, list.as_slice(), unheld),
        SelectList::Mixed(list) => place_items(alloc, scope, list.as_slice(), unheld),
    }
}

fn all_columns(alloc: Global, scope: &[Seen<'_>]) -> Result<Vec<Expr>, AllocError>
    ensures { IfOk result (λ es. expressions_seen es.items ≡ places_from 0 (shown scope.now)) }
{
    let mut columns = Vec::with_capacity(alloc, scope.len())?;
    for (place, _) in scope.iter().enumerate() {
        columns.push(Expr::column(place))?;
    }
    Ok(columns)
}

fn place_operands(
    alloc: Global,
    scope: &[Seen<'_>],
    aggregates: &[NamedAggregate],
    unheld: &mut bool,
) -> Result<Vec<Expr>, Refused>
    ensures placed { Gives (λ es. expressions_seen es.items)
        (placed_list (shown scope.now) (map operand_of aggregates.now)) result }
    ensures typed { IfOk result (λ es. map (λ e. family_of e (families (shown scope.now))) es.items
        ≡ written_families (shown scope.now) (map operand_of aggregates.now)) }
    ensures held { OnOk result (unheld.new ≡ unheld.old || some_unheld (map operand_of aggregates.now)) }
{
    let mut operands = Vec::with_capacity(alloc, aggregates.len())?;
    for aggregate in aggregates {
        let operand = place_operand(alloc, scope, aggregate, unheld)?;
        operands.push(operand).map_err(AllocError::from)?;
    }
    Ok(operands)
}

fn place_items(
    alloc: Global,
    scope: &[Seen<'_>],
    items: &[SelectItem],
    unheld: &mut bool,
) -> Result<Vec<Expr>, Refused>
    ensures placed { Gives (λ es. expressions_seen es.items)
        (placed_list (shown scope.now) (map tree_of_item items.now)) result }
    ensures typed { IfOk result (λ es. map (λ e. family_of e (families (shown scope.now))) es.items
        ≡ written_families (shown scope.now) (map tree_of_item items.now)) }
    ensures held { OnOk result (unheld.new ≡ unheld.old || some_unheld (map tree_of_item items.now)) }
{
    let mut exprs = Vec::with_capacity(alloc, items.len())?;
    for item in items {
        let expr = place_select_item(alloc, scope, item, unheld)?;
        exprs.push(expr).map_err(AllocError::from)?;
    }
    Ok(exprs)
}

fn place_select_item(
    alloc: Global,
    scope: &[Seen<'_>],
    item: &SelectItem,
    unheld: &mut bool,
) -> Result<Expr, Refused>
    ensures placed { Gives expression_seen (placed_expression (shown scope.now) (tree_of_item item.now)) result }
    ensures typed { IfOk result (λ e. family_of e (families (shown scope.now))
        ≡ written_family (shown scope.now) (tree_of_item item.now)) }
    ensures held { OnOk result (unheld.new ≡ unheld.old || has_unheld (tree_of_item item.now)) }
{
    match item {
        SelectItem::Expression(expression) => place_expression(alloc, scope, expression, unheld),
        SelectItem::Aggregate(aggregate) => place_operand(alloc, scope, aggregate, unheld),
    }
}

fn place_operand(
    alloc: Global,
    scope: &[Seen<'_>],
    aggregate: &NamedAggregate,
    unheld: &mut bool,
) -> Result<Expr, Refused>
    ensures placed { Gives expression_seen (placed_expression (shown scope.now) (operand_of aggregate.now)) result }
    ensures typed { IfOk result (λ e. family_of e (families (shown scope.now))
        ≡ written_family (shown scope.now) (operand_of aggregate.now)) }
    ensures held { OnOk result (unheld.new ≡ unheld.old || has_unheld (operand_of aggregate.now)) }
{
    match aggregate {
        NamedAggregate::Rows => Ok(Expr::literal(Value::Null)),
        NamedAggregate::Count(operand) => place_expression(alloc, scope, operand, unheld),
        NamedAggregate::Sum(operand) => place_expression(alloc, scope, operand, unheld),
        NamedAggregate::Least(operand) => place_expression(alloc, scope, operand, unheld),
        NamedAggregate::Greatest(operand) => place_expression(alloc, scope, operand, unheld),
    }
}

/// The aggregates of the select list, where it is of aggregates.
pub(crate) fn totals_of(
    alloc: Global,
    selected: &SelectList,
) -> Result<Option<Seq<Aggregate>>, AllocError>
    ensures { IfOk result (λ totals. totals ≡ totals_of selected.now) }
{
    match selected {
        SelectList::Everything => Ok(None),
        SelectList::Expressions(_) => Ok(None),
        SelectList::Aggregates(list) => {
            let totals = totals_in(alloc, list.as_slice())?;
            Ok(Some(Seq::from_vec(totals)))
        }
        SelectList::Mixed(_) => Ok(None),
    }
}

fn totals_in(alloc: Global, aggregates: &[NamedAggregate]) -> Result<Vec<Aggregate>, AllocError>
    ensures { IfOk result (λ totals. totals.items ≡ map total_of aggregates.now) }
{
    let mut totals = Vec::with_capacity(alloc, aggregates.len())?;
    for aggregate in aggregates {
        totals.push(total_of(aggregate))?;
    }
    Ok(totals)
}

fn total_of(aggregate: &NamedAggregate) -> Aggregate
    ensures { result ≡ total_of aggregate.now }
{
    match aggregate {
        NamedAggregate::Rows => Aggregate::Rows,
        NamedAggregate::Count(_) => Aggregate::Count,
        NamedAggregate::Sum(_) => Aggregate::Sum,
        NamedAggregate::Least(_) => Aggregate::Least,
        NamedAggregate::Greatest(_) => Aggregate::Greatest,
    }
}

/// Whether the select list keeps the rule of types, as it was placed.
pub(crate) fn suits_families(selected: &SelectList, listed: &[Expr], families: &[Family]) -> bool
    ensures { result ≡ suits_families selected.now (map (λ e. family_of e families.now) listed.now) }
{
    match selected {
        SelectList::Everything => true,
        SelectList::Expressions(_) => have_families(listed, families),
        SelectList::Aggregates(list) => suit_totals(list.as_slice(), listed, families),
        SelectList::Mixed(_) => false,
    }
}

fn have_families(listed: &[Expr], families: &[Family]) -> bool
    ensures { result ≡ list_all is_ok (map (λ e. family_of e families.now) listed.now) }
{
    listed.iter().all(|expr| family_of(expr, families).is_ok())
}

fn suit_totals(aggregates: &[NamedAggregate], operands: &[Expr], families: &[Family]) -> bool
    ensures { result ≡ suit_totals (map total_of aggregates.now) (map (λ e. family_of e families.now) operands.now) }
{
    for (aggregate, operand) in aggregates.iter().zip(operands) {
        if !suits_total(total_of(aggregate), family_of(operand, families)) {
            return false;
        }
    }
    true
}

fn suits_total(total: Aggregate, family: Result<Option<Family>, Code>) -> bool
    ensures { result ≡ suits_total total family }
{
    match total {
        Aggregate::Rows => true,
        Aggregate::Sum => sums(family),
        Aggregate::Count => family.is_ok(),
        Aggregate::Least => family.is_ok(),
        Aggregate::Greatest => family.is_ok(),
    }
}

// Whether these are numbers.
fn sums(family: Result<Option<Family>, Code>) -> bool
    ensures { result ≡ agrees family (Ok (Some Number)) }
{
    match family {
        Err(_) => false,
        Ok(family) => is_numeric(family),
    }
}

/// The places of the columns in ORDER BY.
///
/// The refusal is 103 of the first name that fits no column, or two; or memory was wanting.
pub(crate) fn place_order(
    alloc: Global,
    scope: &[Seen<'_>],
    items: &[OrderItem],
) -> Result<Vec<usize>, Refused>
    ensures { Gives (λ places. places.items) (placed_order (shown scope.now) items.now) result }
{
    let mut places = Vec::with_capacity(alloc, items.len())?;
    for item in items {
        let place = place_item(alloc, scope, item)?;
        places.push(place).map_err(AllocError::from)?;
    }
    Ok(places)
}

#[tactic(auto, unfolding(crate::specs::Queries::placed_item))]
fn place_item(alloc: Global, scope: &[Seen<'_>], item: &OrderItem) -> Result<usize, Refused>
    ensures { Gives (λ place. place) (placed_item (shown scope.now) item.now) result }
{
    placed_column(alloc, scope, &item.column)
}

/// Which of them are descending.
pub(crate) fn descending_of(alloc: Global, items: &[OrderItem]) -> Result<Vec<bool>, AllocError>
    ensures { IfOk result (λ descending. descending.items ≡ map (λ item. item.descending) items.now) }
{
    let mut descending = Vec::with_capacity(alloc, items.len())?;
    for item in items {
        descending.push(item.descending)?;
    }
    Ok(descending)
}
