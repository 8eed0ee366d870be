//! Expressions behind what is printed so far.
ghost use Rattle.std.specs.Prelude.{◌≡◌, ◌++◌, OnOk};
ghost use Rattle.sql_words.specs.Trees.{expression_words, link_words, operation_word};
ghost use Rattle.sql_words.specs.Words.{enclosed, listed, more, spaced};

use crate::literal::put_literal;
use crate::word::{put, put_column_name};
use sql_phrases::expressions::Arithmetic;
use sql_phrases::sql_query::{Expression, ExpressionNode, Link};
use std::alloc::AllocError;

fn operation_word(operation: Arithmetic) -> &'static [u8]
    ensures { result.now ≡ operation_word operation }
{
    match operation {
        Arithmetic::Plus => b"+",
        Arithmetic::Minus => b"-",
        Arithmetic::Times => b"*",
    }
}

/// Puts each operation and the operand behind it.
#[cycle(put_expression)]
fn put_links(out: &mut Vec<u8>, links: &[Link]) -> Result<(), AllocError>
    ensures { OnOk result (out.new.items ≡ out.old.items ++ spaced (link_words links.now)) }
{
    for link in links {
        put(out, operation_word(link.operation))?;
        put_expression(out, &link.operand)?;
    }
    Ok(())
}

/// Puts an expression. It has no parentheses: what is read is a sum of products. The error is want of memory.
#[cycle(put_expression)]
pub fn put_expression(out: &mut Vec<u8>, expression: &Expression) -> Result<(), AllocError>
    ensures { OnOk result (out.new.items ≡ out.old.items ++ spaced (expression_words expression.now)) }
{
    match &expression.node {
        ExpressionNode::Literal(literal) => put_literal(out, literal),
        ExpressionNode::Column(name) => put_column_name(out, name),
        ExpressionNode::Chain(first, links) => {
            put_expression(out, first)?;
            put_links(out, links.as_slice())
        }
    }
}

/// Puts a comma and an expression for each.
fn put_more_expressions(out: &mut Vec<u8>, list: &[Expression]) -> Result<(), AllocError>
    ensures { OnOk result (out.new.items ≡ out.old.items ++ spaced (more expression_words list.now)) }
{
    for expression in list {
        put(out, b",")?;
        put_expression(out, expression)?;
    }
    Ok(())
}

/// Puts the expressions with commas between. The error is want of memory.
pub fn put_listed(out: &mut Vec<u8>, list: &[Expression]) -> Result<(), AllocError>
    ensures { OnOk result (out.new.items ≡ out.old.items ++ spaced (listed expression_words list.now)) }
{
    match list.split_first() {
        None => Ok(()),
        Some((first, rest)) => {
            put_expression(out, first)?;
            put_more_expressions(out, rest)
        }
    }
}

/// Puts the expressions between parentheses, with commas between. The error is want of memory.
pub fn put_expressions(out: &mut Vec<u8>, list: &[Expression]) -> Result<(), AllocError>
    ensures { OnOk result (out.new.items ≡ out.old.items ++ spaced (enclosed (listed expression_words list.now))) }
{
    put(out, b"(")?;
    put_listed(out, list)?;
    put(out, b")")
}
