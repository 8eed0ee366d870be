//! Conditions behind what is printed so far.
ghost use Rattle.std.specs.Prelude.{◌≡◌, ◌++◌, ◌∷◌, [], OnOk, codes};
ghost use Rattle.sql_words.specs.Trees.{binds_and, binds_or, comparator_word, condition_words, expression_words, filter_words, membership_words, not_words, other_words, range_words};
ghost use Rattle.sql_words.specs.Words.{spaced, where_so};

use crate::expression::{put_expression, put_expressions};
use crate::word::put;
use sql_phrases::expressions::Comparator;
use sql_phrases::sql_query::{Condition, ConditionNode, Expression};
use sql_phrases::tier_base::Seq;
use std::alloc::AllocError;

/// How strongly what stands beside a condition binds.
#[derive(Clone, Copy, Debug, PartialEq, Eq)]
pub enum Strength {
    /// not at all, or by an OR behind it: AND and OR need no parentheses
    Loose,
    /// by an OR before it or an AND behind it: OR needs parentheses
    Middle,
    /// by an AND or a NOT before it: AND and OR need parentheses
    Tight,
}

fn binds_and(strength: Strength) -> bool
    ensures { result ≡ binds_and strength }
{
    match strength {
        Strength::Loose => false,
        Strength::Middle => false,
        Strength::Tight => true,
    }
}

fn binds_or(strength: Strength) -> bool
    ensures { result ≡ binds_or strength }
{
    match strength {
        Strength::Loose => false,
        Strength::Middle => true,
        Strength::Tight => true,
    }
}

fn comparator_word(comparator: Comparator) -> &'static [u8]
    ensures { result.now ≡ comparator_word comparator }
{
    match comparator {
        Comparator::Equal => b"=",
        Comparator::NotEqual => b"<>",
        Comparator::Less => b"<",
        Comparator::AtMost => b"<=",
        Comparator::Greater => b">",
        Comparator::AtLeast => b">=",
    }
}

/// Puts a parenthesis where one is needed.
fn put_open(out: &mut Vec<u8>, needed: bool) -> Result<(), AllocError>
    ensures { OnOk result (out.new.items ≡ out.old.items ++ spaced (where_so needed (codes "(" ∷ []))) }
{
    if needed {
        return put(out, b"(");
    }
    Ok(())
}

/// Puts a closing parenthesis where one is needed.
fn put_close(out: &mut Vec<u8>, needed: bool) -> Result<(), AllocError>
    ensures { OnOk result (out.new.items ≡ out.old.items ++ spaced (where_so needed (codes ")" ∷ []))) }
{
    if needed {
        return put(out, b")");
    }
    Ok(())
}

fn put_not(out: &mut Vec<u8>, negated: bool) -> Result<(), AllocError>
    ensures { OnOk result (out.new.items ≡ out.old.items ++ spaced (not_words negated)) }
{
    if negated {
        return put(out, b"NOT");
    }
    Ok(())
}

fn put_compared(
    out: &mut Vec<u8>,
    comparator: Comparator,
    left: &Expression,
    right: &Expression,
) -> Result<(), AllocError>
    ensures { OnOk result (out.new.items ≡ out.old.items
        ++ spaced (expression_words left.now ++ comparator_word comparator ∷ expression_words right.now)) }
{
    put_expression(out, left)?;
    put(out, comparator_word(comparator))?;
    put_expression(out, right)
}

fn put_missing(out: &mut Vec<u8>, negated: bool, expression: &Expression) -> Result<(), AllocError>
    ensures { OnOk result (out.new.items ≡ out.old.items
        ++ spaced (expression_words expression.now ++ codes "IS" ∷ not_words negated ++ codes "NULL" ∷ [])) }
{
    put_expression(out, expression)?;
    put(out, b"IS")?;
    put_not(out, negated)?;
    put(out, b"NULL")
}

fn put_range(out: &mut Vec<u8>, low: &Expression, high: &Expression) -> Result<(), AllocError>
    ensures { OnOk result (out.new.items ≡ out.old.items ++ spaced (range_words low.now high.now)) }
{
    put(out, b"BETWEEN")?;
    put_expression(out, low)?;
    put(out, b"AND")?;
    put_expression(out, high)
}

fn put_membership(out: &mut Vec<u8>, list: &Seq<Expression>) -> Result<(), AllocError>
    ensures { OnOk result (out.new.items ≡ out.old.items ++ spaced (membership_words list.now)) }
{
    put(out, b"IN")?;
    put_expressions(out, list.as_slice())
}

/// Puts, for each condition, the word and the condition beside what binds so strongly.
#[cycle(put_condition)]
fn put_others(
    out: &mut Vec<u8>,
    word: &[u8],
    strength: Strength,
    others: &[Condition],
) -> Result<(), AllocError>
    ensures { OnOk result (out.new.items ≡ out.old.items ++ spaced (other_words word.now strength others.now)) }
{
    for condition in others {
        put(out, word)?;
        put_condition(out, strength, condition)?;
    }
    Ok(())
}

/// Puts a condition beside what binds so strongly, with parentheses exactly where they are needed. The error is want of
/// memory.
#[cycle(put_condition)]
pub fn put_condition(
    out: &mut Vec<u8>,
    strength: Strength,
    condition: &Condition,
) -> Result<(), AllocError>
    ensures { OnOk result (out.new.items ≡ out.old.items ++ spaced (condition_words strength condition.now)) }
{
    match &condition.node {
        ConditionNode::Compared(comparator, left, right) => {
            put_compared(out, *comparator, left, right)
        }
        ConditionNode::Missing(negated, expression) => put_missing(out, *negated, expression),
        ConditionNode::Between(negated, expression, low, high) => {
            put_expression(out, expression)?;
            put_not(out, *negated)?;
            put_range(out, low, high)
        }
        ConditionNode::Among(negated, expression, list) => {
            put_expression(out, expression)?;
            put_not(out, *negated)?;
            put_membership(out, list)
        }
        ConditionNode::Not(condition) => {
            put(out, b"NOT")?;
            put_condition(out, Strength::Tight, condition)
        }
        ConditionNode::All(first, others) => {
            put_open(out, binds_and(strength))?;
            put_condition(out, Strength::Middle, first)?;
            put_others(out, b"AND", Strength::Tight, others.as_slice())?;
            put_close(out, binds_and(strength))
        }
        ConditionNode::Any(first, others) => {
            put_open(out, binds_or(strength))?;
            put_condition(out, Strength::Loose, first)?;
            put_others(out, b"OR", Strength::Middle, others.as_slice())?;
            put_close(out, binds_or(strength))
        }
    }
}

/// Puts WHERE and the condition, where there is one. The error is want of memory.
pub fn put_filter(out: &mut Vec<u8>, filter: &Option<Condition>) -> Result<(), AllocError>
    ensures { OnOk result (out.new.items ≡ out.old.items ++ spaced (filter_words filter.now)) }
{
    match filter {
        None => Ok(()),
        Some(condition) => {
            put(out, b"WHERE")?;
            put_condition(out, Strength::Loose, condition)
        }
    }
}
