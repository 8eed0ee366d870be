//! Copies of expressions and conditions.

ghost use Rattle.std.specs.Prelude.{◌≡◌, IfOk};
ghost use Rattle.expressions.specs.Views.{all_of, any_of, chained};

use crate::condition::{Cond, CondNode};
use crate::expression::{Expr, ExprNode, Step};
use row_types::tier_base::Seq;
use std::alloc::{AllocError, Global};

impl Expr {
    /// A second copy of the expression. The error is want of memory.
    #[cycle(copied_expression)]
    pub fn copied(&self, alloc: Global) -> Result<Expr, AllocError>
        ensures { IfOk result (λ copy. copy ≡ self.now) }
    {
        match &self.node {
            ExprNode::Literal(value) => {
                let value = value.copied(alloc)?;
                Ok(Expr::literal(value))
            }
            ExprNode::Column(place) => Ok(Expr::column(*place)),
            ExprNode::Chain(first, steps) => copied_chain(alloc, first, steps.as_slice()),
        }
    }
}

#[cycle(copied_expression)]
fn copied_chain(alloc: Global, first: &Expr, steps: &[Step]) -> Result<Expr, AllocError>
    ensures { IfOk result (λ copy. copy ≡ chained first.now steps.now) }
{
    let mut copy = first.copied(alloc)?;
    for step in steps {
        let operand = step.operand.copied(alloc)?;
        copy = Expr::binary(alloc, step.operation, copy, operand)?;
    }
    Ok(copy)
}

fn copied_list(alloc: Global, list: &[Expr]) -> Result<Seq<Expr>, AllocError>
    ensures { IfOk result (λ copy. copy ≡ list.now) }
{
    let mut copy = Vec::with_capacity(alloc, list.len())?;
    for expr in list {
        let expr = expr.copied(alloc)?;
        copy.push(expr)?;
    }
    Ok(Seq::from_vec(copy))
}

impl Cond {
    /// A second copy of the condition. The error is want of memory.
    #[cycle(copied_condition)]
    pub fn copied(&self, alloc: Global) -> Result<Cond, AllocError>
        ensures { IfOk result (λ copy. copy ≡ self.now) }
    {
        match &self.node {
            CondNode::Compared(comparator, left, right) => {
                let left = left.copied(alloc)?;
                let right = right.copied(alloc)?;
                Ok(Cond::compared(*comparator, left, right))
            }
            CondNode::IsNull(expr) => {
                let expr = expr.copied(alloc)?;
                Ok(Cond::is_null(expr))
            }
            CondNode::Between(expr, low, high) => {
                let expr = expr.copied(alloc)?;
                let low = low.copied(alloc)?;
                let high = high.copied(alloc)?;
                Ok(Cond::between(expr, low, high))
            }
            CondNode::In(expr, list) => {
                let expr = expr.copied(alloc)?;
                let list = copied_list(alloc, list.as_slice())?;
                Ok(Cond::among(expr, list))
            }
            CondNode::Not(cond) => {
                let cond = cond.copied(alloc)?;
                Cond::not(alloc, cond)
            }
            CondNode::And(first, others) => copied_all(alloc, first, others.as_slice()),
            CondNode::Or(first, others) => copied_any(alloc, first, others.as_slice()),
        }
    }
}

#[cycle(copied_condition)]
fn copied_all(alloc: Global, first: &Cond, others: &[Cond]) -> Result<Cond, AllocError>
    ensures { IfOk result (λ copy. copy ≡ all_of first.now others.now) }
{
    let mut copy = first.copied(alloc)?;
    for cond in others {
        let other = cond.copied(alloc)?;
        copy = Cond::and(alloc, copy, other)?;
    }
    Ok(copy)
}

#[cycle(copied_condition)]
fn copied_any(alloc: Global, first: &Cond, others: &[Cond]) -> Result<Cond, AllocError>
    ensures { IfOk result (λ copy. copy ≡ any_of first.now others.now) }
{
    let mut copy = first.copied(alloc)?;
    for cond in others {
        let other = cond.copied(alloc)?;
        copy = Cond::or(alloc, copy, other)?;
    }
    Ok(copy)
}
