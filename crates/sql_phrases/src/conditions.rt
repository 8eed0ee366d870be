//! Conditions, read off the tokens of a line.
ghost use Rattle.std.specs.Prelude.{◌≡◌, IfOk};
ghost use Rattle.sql_phrases.specs.Conditions.{comparator_of, condition_by, conjunction_by, filter_of, missing, predicate_of, test_of, tested, within};

use crate::expression::{read_expression, read_expressions};
use crate::reader::Reader;
use sql_grammar::sql_tokens::kind::Kind;
use sql_grammar::sql_tokens::token::is_kind;
use sql_grammar::test::Test;
use sql_query::expressions::Comparator;
use sql_query::{Condition, Expression};
use std::alloc::AllocError;

/// The greatest number of levels that conditions may nest.
const LEVELS: u8 = 32;

fn comparator_of(sign: Kind) -> Comparator
    ensures { result ≡ comparator_of sign }
{
    if is_kind(sign, Kind::Equals) {
        return Comparator::Equal;
    }
    if is_kind(sign, Kind::NotEquals) {
        return Comparator::NotEqual;
    }
    if is_kind(sign, Kind::LessThan) {
        return Comparator::Less;
    }
    if is_kind(sign, Kind::AtMost) {
        return Comparator::AtMost;
    }
    if is_kind(sign, Kind::GreaterThan) {
        return Comparator::Greater;
    }
    Comparator::AtLeast
}

fn read_missing(expression: Expression, r: Reader<'_>) -> (Condition, Reader<'_>)
    ensures { missing expression r.entry ≡ (result.0, result.1) }
{
    let rest = r.skip(1);
    if rest.begins(Kind::Not) {
        return (Condition::missing(true, expression), rest.skip(2));
    }
    (Condition::missing(false, expression), rest.skip(1))
}

#[tactic(auto, unfolding(crate::specs::Conditions::within))]
fn read_within(
    negated: bool,
    expression: Expression,
    r: Reader<'_>,
) -> Result<(Condition, Reader<'_>), AllocError>
    ensures { IfOk result (λ x. within negated expression r.entry ≡ (x.0, x.1)) }
{
    if r.begins(Kind::Between) {
        let (low, rest) = read_expression(r.skip(1))?;
        let (high, rest) = read_expression(rest.skip(1))?;
        return Ok((Condition::between(negated, expression, low, high), rest));
    }
    let (list, rest) = read_expressions(r.skip(2))?;
    Ok((Condition::among(negated, expression, list), rest.skip(1)))
}

// Reads what stands behind an expression.
#[tactic(auto, unfolding(crate::specs::Conditions::tested))]
fn read_tested(expression: Expression, r: Reader<'_>) -> Result<(Condition, Reader<'_>), AllocError>
    ensures { IfOk result (λ x. tested (expression, r.entry) ≡ (x.0, x.1)) }
{
    if Test::Compare.lets_pass(r.first_kind()) {
        let comparator = comparator_of(r.first_kind());
        let (right, rest) = read_expression(r.skip(1))?;
        return Ok((Condition::compared(comparator, expression, right), rest));
    }
    if r.begins(Kind::Is) {
        return Ok(read_missing(expression, r));
    }
    if r.begins(Kind::Not) {
        return read_within(true, expression, r.skip(1));
    }
    read_within(false, expression, r)
}

#[tactic(auto, unfolding(crate::specs::Conditions::test_of))]
fn read_test(r: Reader<'_>) -> Result<(Condition, Reader<'_>), AllocError>
    ensures { IfOk result (λ x. test_of r.entry ≡ (x.0, x.1)) }
{
    let (expression, rest) = read_expression(r)?;
    read_tested(expression, rest)
}

#[cycle(conditions)]
fn read_predicate(levels: u8, r: Reader<'_>) -> Result<(Condition, Reader<'_>), AllocError>
    ensures { IfOk result (λ x. predicate_of levels r.entry ≡ (x.0, x.1)) }
{
    if levels == 0 {
        return read_test(r);
    }
    if r.begins(Kind::OpenParen) {
        let (condition, rest) = read_condition_by(levels - 1, r.skip(1))?;
        return Ok((condition, rest.skip(1)));
    }
    if r.begins(Kind::Not) {
        let alloc = r.alloc();
        let (condition, rest) = read_predicate(levels - 1, r.skip(1))?;
        return Ok((Condition::not(alloc, condition)?, rest));
    }
    read_test(r)
}

#[cycle(conditions)]
fn read_conjunction_by(levels: u8, r: Reader<'_>) -> Result<(Condition, Reader<'_>), AllocError>
    ensures { IfOk result (λ x. conjunction_by (predicate_of levels) r.entry ≡ (x.0, x.1)) }
{
    let (mut conjunction, mut rest) = read_predicate(levels, r)?;
    while rest.begins(Kind::And) {
        let (predicate, behind) = read_predicate(levels, rest.skip(1))?;
        conjunction = Condition::all(behind.alloc(), conjunction, predicate)?;
        rest = behind;
    }
    Ok((conjunction, rest))
}

#[cycle(conditions)]
fn read_condition_by(levels: u8, r: Reader<'_>) -> Result<(Condition, Reader<'_>), AllocError>
    ensures { IfOk result (λ x. condition_by (predicate_of levels) r.entry ≡ (x.0, x.1)) }
{
    let (mut condition, mut rest) = read_conjunction_by(levels, r)?;
    while rest.begins(Kind::Or) {
        let (conjunction, behind) = read_conjunction_by(levels, rest.skip(1))?;
        condition = Condition::any(behind.alloc(), condition, conjunction)?;
        rest = behind;
    }
    Ok((condition, rest))
}

/// Reads a WHERE clause, where there is one.
#[tactic(auto, unfolding(crate::specs::Conditions::condition_of, crate::specs::Conditions::filter_of))]
pub fn read_filter(r: Reader<'_>) -> Result<(Option<Condition>, Reader<'_>), AllocError>
    ensures { IfOk result (λ x. filter_of r.entry ≡ (x.0, x.1)) }
{
    if r.begins(Kind::Where) {
        let (condition, rest) = read_condition_by(LEVELS, r.skip(1))?;
        return Ok((Some(condition), rest));
    }
    Ok((None, r))
}
