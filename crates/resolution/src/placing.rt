//! Expressions and conditions with places in place of names.

ghost use Rattle.std.specs.Prelude.{◌≡◌, ◌||◌, IfOk, OnOk, map};
ghost use Rattle.evaluator.specs.expressions.specs.Types.{family_of, family_of_value, has_sound_types};
ghost use Rattle.std.specs.Option.{is_none};
ghost use Rattle.sql_query.specs.Literals.{value_of};
ghost use Rattle.sql_query.specs.Views.{all_of, any_of as some_of, chained};
ghost use Rattle.resolution.specs.Literals.{any_of, family_of_literal, family_of_text, has_unheld, some_unheld, standing_for, unheld_in_filter, unheld_within};
ghost use Rattle.resolution.specs.Placing.{condition_seen, expression_seen, expressions_seen, filter_seen, placed_condition, placed_expression, placed_filter, placed_list};
ghost use Rattle.resolution.specs.Results.{Gives};
ghost use Rattle.resolution.specs.Scopes.{families, shown};
ghost use Rattle.resolution.specs.WrittenTypes.{has_sound_filter, is_sound, is_sound_filter, written_families, written_family};

use crate::building::{binary, conjunction, disjunction, membership, negated_if, negation};
use crate::scope::{Seen, placed_column};
use evaluator::expressions::{Cond, Expr, Family, has_sound_types};
use evaluator::row_types::{Refused, Text, Time, Value};
use sql_query::{Condition, ConditionNode, Expression, ExpressionNode, Link, Literal};
use std::alloc::{AllocError, Global};

/// The expression with places in place of names. `unheld` becomes true where no type holds some literal of it; another
/// value of the same family stands for such a literal.
///
/// The refusal is 103 of the first name that fits no column, or two; or memory was wanting.
#[cycle(place_expression)]
pub(crate) fn place_expression(
    alloc: Global,
    scope: &[Seen<'_>],
    expression: &Expression,
    unheld: &mut bool,
) -> Result<Expr, Refused>
    ensures placed { Gives expression_seen (placed_expression (shown scope.now) expression.now) result }
    ensures typed { IfOk result (λ e. family_of e (families (shown scope.now))
        ≡ written_family (shown scope.now) expression.now) }
    ensures held { OnOk result (unheld.new ≡ unheld.old || has_unheld expression.now) }
{
    match &expression.node {
        ExpressionNode::Literal(literal) => {
            let value = standing_for(alloc, literal, unheld)?;
            Ok(Expr::literal(value))
        }
        ExpressionNode::Column(name) => {
            let place = placed_column(alloc, scope, name)?;
            Ok(Expr::column(place))
        }
        ExpressionNode::Chain(first, links) => {
            place_chain(alloc, scope, first, links.as_slice(), unheld)
        }
    }
}

// An expression, and then operations on it, with places in place of names.
#[cycle(place_expression)]
fn place_chain(
    alloc: Global,
    scope: &[Seen<'_>],
    first: &Expression,
    links: &[Link],
    unheld: &mut bool,
) -> Result<Expr, Refused>
    ensures placed { Gives expression_seen (placed_expression (shown scope.now) (chained first.now links.now)) result }
    ensures typed { IfOk result (λ e. family_of e (families (shown scope.now))
        ≡ written_family (shown scope.now) (chained first.now links.now)) }
    ensures held { OnOk result (unheld.new ≡ unheld.old || has_unheld (chained first.now links.now)) }
{
    let mut placed = place_expression(alloc, scope, first, unheld)?;
    for link in links {
        let operand = place_expression(alloc, scope, &link.operand, unheld)?;
        placed = binary(alloc, link.operation, placed, operand)?;
    }
    Ok(placed)
}

/// The expressions with places in place of names.
///
/// The refusal is 103 of the first name that fits no column, or two; or memory was wanting.
pub(crate) fn place_list(
    alloc: Global,
    scope: &[Seen<'_>],
    list: &[Expression],
    unheld: &mut bool,
) -> Result<Vec<Expr>, Refused>
    ensures placed { Gives (λ es. expressions_seen es.items) (placed_list (shown scope.now) list.now) result }
    ensures typed { IfOk result (λ es. map (λ e. family_of e (families (shown scope.now))) es.items
        ≡ written_families (shown scope.now) list.now) }
    ensures held { OnOk result (unheld.new ≡ unheld.old || some_unheld list.now) }
{
    let mut placed = Vec::with_capacity(alloc, list.len())?;
    for expression in list {
        let expr = place_expression(alloc, scope, expression, unheld)?;
        placed.push(expr).map_err(AllocError::from)?;
    }
    Ok(placed)
}

/// The condition with places in place of names. A NOT inside of it becomes a negation.
///
/// The refusal is 103 of the first name that fits no column, or two; or memory was wanting.
#[cycle(place_condition)]
pub(crate) fn place_condition(
    alloc: Global,
    scope: &[Seen<'_>],
    condition: &Condition,
    unheld: &mut bool,
) -> Result<Cond, Refused>
    ensures placed { Gives condition_seen (placed_condition (shown scope.now) condition.now) result }
    ensures typed { IfOk result (λ c. has_sound_types c (families (shown scope.now))
        ≡ is_sound (shown scope.now) condition.now) }
    ensures held { OnOk result (unheld.new ≡ unheld.old || unheld_within condition.now) }
{
    match &condition.node {
        ConditionNode::Compared(comparator, left, right) => {
            let left = place_expression(alloc, scope, left, unheld)?;
            let right = place_expression(alloc, scope, right, unheld)?;
            Ok(Cond::compared(*comparator, left, right))
        }
        ConditionNode::Missing(negated, expression) => {
            let expr = place_expression(alloc, scope, expression, unheld)?;
            Ok(negated_if(alloc, *negated, Cond::is_null(expr))?)
        }
        ConditionNode::Between(negated, expression, low, high) => {
            let expr = place_expression(alloc, scope, expression, unheld)?;
            let low = place_expression(alloc, scope, low, unheld)?;
            let high = place_expression(alloc, scope, high, unheld)?;
            Ok(negated_if(alloc, *negated, Cond::between(expr, low, high))?)
        }
        ConditionNode::Among(negated, expression, list) => {
            let expr = place_expression(alloc, scope, expression, unheld)?;
            let list = place_list(alloc, scope, list.as_slice(), unheld)?;
            Ok(membership(alloc, *negated, expr, list)?)
        }
        ConditionNode::Not(condition) => {
            let cond = place_condition(alloc, scope, condition, unheld)?;
            Ok(negation(alloc, cond)?)
        }
        ConditionNode::All(first, others) => {
            place_all(alloc, scope, first, others.as_slice(), unheld)
        }
        ConditionNode::Any(first, others) => {
            place_any(alloc, scope, first, others.as_slice(), unheld)
        }
    }
}

// AND between a condition and each of the others, with places in place of names.
#[cycle(place_condition)]
fn place_all(
    alloc: Global,
    scope: &[Seen<'_>],
    first: &Condition,
    others: &[Condition],
    unheld: &mut bool,
) -> Result<Cond, Refused>
    ensures placed { Gives condition_seen (placed_condition (shown scope.now) (all_of first.now others.now)) result }
    ensures typed { IfOk result (λ c. has_sound_types c (families (shown scope.now))
        ≡ is_sound (shown scope.now) (all_of first.now others.now)) }
    ensures held { OnOk result (unheld.new ≡ unheld.old || unheld_within (all_of first.now others.now)) }
{
    let mut placed = place_condition(alloc, scope, first, unheld)?;
    for other in others {
        let cond = place_condition(alloc, scope, other, unheld)?;
        placed = conjunction(alloc, placed, cond)?;
    }
    Ok(placed)
}

// OR between a condition and each of the others, with places in place of names.
#[cycle(place_condition)]
fn place_any(
    alloc: Global,
    scope: &[Seen<'_>],
    first: &Condition,
    others: &[Condition],
    unheld: &mut bool,
) -> Result<Cond, Refused>
    ensures placed { Gives condition_seen (placed_condition (shown scope.now) (some_of first.now others.now)) result }
    ensures typed { IfOk result (λ c. has_sound_types c (families (shown scope.now))
        ≡ is_sound (shown scope.now) (some_of first.now others.now)) }
    ensures held { OnOk result (unheld.new ≡ unheld.old || unheld_within (some_of first.now others.now)) }
{
    let mut placed = place_condition(alloc, scope, first, unheld)?;
    for other in others {
        let cond = place_condition(alloc, scope, other, unheld)?;
        placed = disjunction(alloc, placed, cond)?;
    }
    Ok(placed)
}

/// The condition behind WHERE, where there is one.
///
/// The refusal is 103 of the first name that fits no column, or two; or memory was wanting.
pub(crate) fn place_filter(
    alloc: Global,
    scope: &[Seen<'_>],
    filter: &Option<Condition>,
    unheld: &mut bool,
) -> Result<Option<Cond>, Refused>
    ensures placed { Gives filter_seen (placed_filter (shown scope.now) filter.now) result }
    ensures typed { IfOk result (λ c. has_sound_filter c (families (shown scope.now))
        ≡ is_sound_filter (shown scope.now) filter.now) }
    ensures held { OnOk result (unheld.new ≡ unheld.old || unheld_in_filter filter.now) }
{
    match filter {
        None => Ok(None),
        Some(condition) => {
            let cond = place_condition(alloc, scope, condition, unheld)?;
            Ok(Some(cond))
        }
    }
}

/// Whether the condition, where there is one, keeps the rule of types.
pub(crate) fn has_sound_filter(filter: &Option<Cond>, families: &[Family]) -> bool
    ensures { result ≡ has_sound_filter filter.now families.now }
{
    match filter {
        None => true,
        Some(cond) => has_sound_types(cond, families),
    }
}

// The value of the literal, or another one of its family where no type holds it; then `unheld` becomes true.
fn standing_for(alloc: Global, literal: &Literal, unheld: &mut bool) -> Result<Value, AllocError>
    ensures value { IfOk result (λ value. value ≡ standing_for literal.now) }
    ensures family { IfOk result (λ value. family_of_value value ≡ family_of_literal literal.now) }
    ensures held { OnOk result (unheld.new ≡ unheld.old || is_none (value_of literal.now)) }
{
    match literal.value(alloc)? {
        Some(value) => Ok(value),
        None => {
            *unheld = true;
            any_of(alloc, family_of_literal(literal))
        }
    }
}

/// The family of a literal by its form; none of NULL and of the text without bytes, which suit everywhere.
pub fn family_of_literal(literal: &Literal) -> Option<Family>
    ensures { result ≡ family_of_literal literal.now }
{
    match literal {
        Literal::Null => None,
        Literal::Number(_) => Some(Family::Number),
        Literal::Text(text) => family_of_text(text.as_bytes()),
        Literal::Time(_) => Some(Family::Datetime),
    }
}

fn family_of_text(bytes: &[u8]) -> Option<Family>
    ensures { result ≡ family_of_text bytes.now }
{
    match bytes.split_first() {
        None => None,
        Some(_) => Some(Family::Characters),
    }
}

// Some value of the family.
fn any_of(alloc: Global, family: Option<Family>) -> Result<Value, AllocError>
    ensures { IfOk result (λ value. value ≡ any_of family) }
{
    match family {
        None => Ok(Value::Null),
        Some(Family::Number) => Ok(Value::integer(0)),
        Some(Family::Characters) => {
            let text = Text::new(alloc, b"?")?;
            Ok(Value::Text(text))
        }
        Some(Family::Datetime) => Ok(Value::Time(Time::from_seconds(0))),
    }
}
