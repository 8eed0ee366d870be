//! Expressions and their values.

ghost use Rattle.std.specs.Prelude.{◌≡◌, Some, None, IfErr, IfOk, MatchResult, option_copied, unwrap_or};
ghost use Rattle.std.specs.Option.{option_map};
ghost use Rattle.row_types.specs.declared.value.Value.TheVariants as one;
ghost use Rattle.expressions.specs.Expressions.{IsOverflow, calculated, eval, exact, number_in};
ghost use Rattle.expressions.specs.Operands.{shown};
ghost use Rattle.expressions.specs.Trees as trees;
ghost use Rattle.expressions.specs.Views.{chained};

use crate::columns::Columns;
use crate::operand::Operand;
use row_types::numbers::Number;
use row_types::tier_base::Code;
use row_types::{Detail, Refused, Row, Rule, Value};
use std::alloc::{AllocError, Global};
use std::marker::Model;

/// An operation of arithmetic.
#[derive(Clone, Copy, Debug, PartialEq, Eq)]
pub enum Arithmetic {
    /// `+`
    Plus,
    /// `-`
    Minus,
    /// `*`
    Times,
}

/// An expression over the columns of a row. Clauses see a tree without boxes and lists.
#[cycle(expression)]
pub struct Expr {
    /// What stands at the top of it.
    pub node: ExprNode,
}

/// What stands at the top of an expression.
#[cycle(expression)]
pub enum ExprNode {
    /// A literal's value.
    Literal(Value),
    /// The column at a place, from 0. It is NULL where the row has no such place.
    Column(usize),
    /// Operations from left to right: the first operand, and each further one behind its operation. However long such a
    /// chain is, it is one list.
    Chain(Box<Expr>, Vec<Step>),
}

/// An operation of a chain, and the operand behind it.
#[cycle(expression)]
pub struct Step {
    /// The operation on all that stands before it, and on the operand.
    pub operation: Arithmetic,
    /// The operand.
    pub operand: Expr,
}

impl Drop for Expr {
    #[cycle(drop_expression)]
    fn drop(self) {
        let Self { node: _ } = self;
    }
}

impl Drop for ExprNode {
    #[cycle(drop_expression)]
    fn drop(self) {
        match self {
            Self::Literal(_) => {}
            Self::Column(_) => {}
            Self::Chain(_, _) => {}
        }
    }
}

impl Drop for Step {
    #[cycle(drop_expression)]
    fn drop(self) {
        let Self {
            operation: _,
            operand: _,
        } = self;
    }
}

impl Model for Expr {
    ghost use Rattle.expressions.specs.Trees as trees;
    ghost use Rattle.expressions.specs.TreeCodes.{expression_code};

    ghost Value = { trees.Expr };

    ghost coded = { expression_code };

    ghost use Rattle.expressions.specs.Views.{HasSteps, expression_of};

    ghost view = { λ e. expression_of e.node };

    ghost invariant = { λ e. HasSteps e.node };

    ghost size = { trees.nodes_of_expression };

    ghost use Rattle.expressions.specs.ChainDepths.{depth_le-expression};

    ghost size_decreases = { λ a h. depth_le-expression a.node h };
}

impl Expr {
    /// A literal's value.
    pub fn literal(value: Value) -> Expr
        ensures { result ≡ trees.Literal value }
    {
        Expr {
            node: ExprNode::Literal(value),
        }
    }

    /// The column at a place, from 0.
    pub fn column(place: usize) -> Expr
        ensures { result ≡ trees.Column place }
    {
        Expr {
            node: ExprNode::Column(place),
        }
    }

    /// An operation on two expressions. Where the left one is a chain, it gets longer. The error is want of memory.
    #[tactic(auto, using(crate::proofs::ChainLaws::longer_chain))]
    pub fn binary(
        alloc: Global,
        operation: Arithmetic,
        left: Expr,
        right: Expr,
    ) -> Result<Expr, AllocError>
        ensures { IfOk result (λ e. e ≡ trees.Binary operation left right) }
    {
        let step = Step {
            operation,
            operand: right,
        };
        let mut left = left;
        if let ExprNode::Chain(_, steps) = &mut left.node {
            steps.push(step)?;
            return Ok(left);
        }
        let first = Box::new(alloc, left)?;
        let mut steps = Vec::with_capacity(alloc, 1)?;
        steps.push(step)?;
        Ok(Expr {
            node: ExprNode::Chain(first, steps),
        })
    }
}

/// What the expression is on these columns. None where the units of a number leave 64 signed bits in any part of it, or
/// its scale passes 18. `+` and `-` have the greater scale, `*` the sum of the scales.
///
/// Arithmetic with NULL is NULL, and so is arithmetic on a text or a time, which the rule of types refuses
/// beforehand. (TimesTen SQL Reference, "Expressions"; exact numbers are this project's rule.)
#[cycle(values)]
pub fn value_of<'a, C: Columns>(expr: &'a Expr, columns: &'a C) -> Option<Operand<'a>>
    ensures { option_map shown result ≡ eval expr.now (C.values columns.now) }
{
    match &expr.node {
        ExprNode::Literal(value) => Some(Operand::Stored(value)),
        ExprNode::Column(place) => Some(stored_or_null(columns.at(*place))),
        ExprNode::Chain(first, steps) => chain_value(first, steps.as_slice(), columns),
    }
}

// What an expression and operations on it are.
#[cycle(values)]
#[tactic(auto, using(crate::proofs::FoldLaws::eval_chained, crate::proofs::FoldLaws::applied_none, crate::proofs::FoldLaws::applied_stops))]
fn chain_value<'a, C: Columns>(
    first: &'a Expr,
    steps: &'a [Step],
    columns: &'a C,
) -> Option<Operand<'a>>
    ensures { option_map shown result ≡ eval (chained first.now steps.now) (C.values columns.now) }
{
    let Some(mut value) = value_of(first, columns) else {
        return None;
    };
    for step in steps {
        let Some(operand) = value_of(&step.operand, columns) else {
            return None;
        };
        let Some(next) = calculated(step.operation, &value, &operand) else {
            return None;
        };
        value = next;
    }
    Some(value)
}

/// What the expression is on a row.
///
/// `Refused::Rule` is 120 exactly where the units of a number leave 64 signed bits in any part of it, or its scale
/// passes 18. `Refused::Memory` comes where memory is wanting for the copy.
pub fn eval(alloc: Global, expr: &Expr, row: &Row) -> Result<Value, Refused>
    ensures value { IfOk result (λ value. eval expr.now row.now ≡ Some value) }
    ensures refused { IfErr result (IsOverflow (eval expr.now row.now)) }
{
    match value_of(expr, row) {
        None => Err(Refused::Rule(Rule {
            code: Code::Overflow,
            detail: Detail::Nothing,
        })),
        Some(operand) => {
            let value = operand.copied(alloc)?;
            Ok(value)
        }
    }
}

fn stored_or_null<'a>(value: Option<&'a Value>) -> Operand<'a>
    ensures { shown result ≡ unwrap_or (option_copied value.entry) one.Null }
{
    match value {
        None => Operand::Null,
        Some(value) => Operand::Stored(value),
    }
}

fn calculated<'a>(
    operation: Arithmetic,
    left: &Operand<'_>,
    right: &Operand<'_>,
) -> Option<Operand<'a>>
    ensures { option_map shown result ≡ calculated operation (shown left.now) (shown right.now) }
{
    match (number_in(left), number_in(right)) {
        (Some(x), Some(y)) => number(exact(operation, x, y)),
        _ => Some(Operand::Null),
    }
}

fn number_in(operand: &Operand<'_>) -> Option<Number>
    ensures { result ≡ number_in (shown operand.now) }
{
    match operand {
        Operand::Number(number) => Some(*number),
        Operand::Stored(Value::Number(number)) => Some(*number),
        _ => None,
    }
}

fn exact(operation: Arithmetic, x: Number, y: Number) -> Option<Number>
    ensures { result ≡ exact operation x y }
{
    match operation {
        Arithmetic::Plus => x.plus(y),
        Arithmetic::Minus => x.minus(y),
        Arithmetic::Times => x.times(y),
    }
}

fn number<'a>(number: Option<Number>) -> Option<Operand<'a>>
    ensures { option_map shown result ≡ option_map one.Number number }
{
    match number {
        None => None,
        Some(number) => Some(Operand::Number(number)),
    }
}
