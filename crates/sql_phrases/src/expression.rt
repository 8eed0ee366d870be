//! Expressions, read off the tokens of a line.
ghost use Rattle.std.specs.Prelude.{◌≡◌, IfOk};
ghost use Rattle.sql_phrases.specs.Expressions.{at_sign, expression_of, expressions_of, factor_of, sign_of, term_of};

use crate::reader::Reader;
use crate::reading::{read_column_name, read_literal};
use sql_grammar::sql_tokens::kind::Kind;
use sql_grammar::sql_tokens::token::is_kind;
use sql_grammar::test::Test;
use sql_query::Expression;
use sql_query::expressions::Arithmetic;
use sql_query::tier_base::Seq;
use std::alloc::AllocError;

fn read_factor(r: Reader<'_>) -> Result<(Expression, Reader<'_>), AllocError>
    ensures { IfOk result (λ x. factor_of r.entry ≡ (x.0, x.1)) }
{
    if Test::Name.lets_pass(r.first_kind()) {
        let (name, rest) = read_column_name(r)?;
        return Ok((Expression::column(name), rest));
    }
    let (literal, rest) = read_literal(r)?;
    Ok((Expression::literal(literal), rest))
}

fn read_term(r: Reader<'_>) -> Result<(Expression, Reader<'_>), AllocError>
    ensures { IfOk result (λ x. term_of r.entry ≡ (x.0, x.1)) }
{
    let (mut term, mut rest) = read_factor(r)?;
    while rest.begins(Kind::Star) {
        let (factor, behind) = read_factor(rest.skip(1))?;
        term = Expression::binary(behind.alloc(), Arithmetic::Times, term, factor)?;
        rest = behind;
    }
    Ok((term, rest))
}

// Whether a sign stands in front.
fn at_sign(r: &Reader<'_>) -> bool
    ensures { result ≡ at_sign r.now }
{
    r.begins(Kind::Plus) || r.begins(Kind::Minus)
}

fn sign_of(kind: Kind) -> Arithmetic
    ensures { result ≡ sign_of kind }
{
    if is_kind(kind, Kind::Plus) {
        return Arithmetic::Plus;
    }
    Arithmetic::Minus
}

/// Reads an expression.
pub fn read_expression(r: Reader<'_>) -> Result<(Expression, Reader<'_>), AllocError>
    ensures { IfOk result (λ x. expression_of r.entry ≡ (x.0, x.1)) }
{
    let (mut expression, mut rest) = read_term(r)?;
    while at_sign(&rest) {
        let sign = sign_of(rest.first_kind());
        let (term, behind) = read_term(rest.skip(1))?;
        expression = Expression::binary(behind.alloc(), sign, expression, term)?;
        rest = behind;
    }
    Ok((expression, rest))
}

/// Reads expressions with commas between.
pub fn read_expressions(r: Reader<'_>) -> Result<(Seq<Expression>, Reader<'_>), AllocError>
    ensures { IfOk result (λ x. expressions_of r.entry ≡ (x.0, x.1)) }
{
    let mut expressions = Vec::new(r.alloc());
    let (first, mut rest) = read_expression(r)?;
    expressions.push(first)?;
    while rest.begins(Kind::Comma) {
        let (expression, behind) = read_expression(rest.skip(1))?;
        expressions.push(expression)?;
        rest = behind;
    }
    Ok((Seq::from_vec(expressions), rest))
}
