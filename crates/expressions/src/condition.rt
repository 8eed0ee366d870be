//! Conditions and their truth.

ghost use Rattle.std.specs.Prelude.{◌≡◌, Some, None, IfErr, IfOk};
ghost use Rattle.std.specs.Option.{option_map};
ghost use Rattle.row_types.specs.Values.{is_null};
ghost use Rattle.expressions.specs.Conditions.{among, compared, comparison, holds, stands};
ghost use Rattle.expressions.specs.Expressions.{IsOverflow, eval};
ghost use Rattle.expressions.specs.Operands.{shown};
ghost use Rattle.expressions.specs.Trees as trees;
ghost use Rattle.expressions.specs.Views.{all_of, any_of};

use crate::columns::Columns;
use crate::expression::{Expr, value_of};
use crate::operand::Operand;
use row_types::tier_base::{Code, Seq};
use row_types::{Detail, Refused, Row, Rule, Truth, Value};
use std::alloc::{AllocError, Global};
use std::cmp::Ordering;
use std::marker::Model;

/// A comparison operator.
#[derive(Clone, Copy, Debug, PartialEq, Eq)]
pub enum Comparator {
    /// `=`
    Equal,
    /// `<>`
    NotEqual,
    /// `<`
    Less,
    /// `<=`
    AtMost,
    /// `>`
    Greater,
    /// `>=`
    AtLeast,
}

/// A condition over the columns of a row. IS NOT NULL, NOT BETWEEN and NOT IN are negations. Clauses see a tree without
/// boxes and lists.
#[cycle(condition)]
pub struct Cond {
    /// What stands at the top of it.
    pub node: CondNode,
}

/// What stands at the top of a condition.
#[cycle(condition)]
pub enum CondNode {
    /// A comparison. It is unknown where a side is NULL.
    Compared(Comparator, Expr, Expr),
    /// IS NULL. It is never unknown.
    IsNull(Expr),
    /// BETWEEN: at least the second and at most the third.
    Between(Expr, Expr, Expr),
    /// IN: equal to one of these.
    In(Expr, Seq<Expr>),
    /// NOT
    Not(Box<Cond>),
    /// AND between conditions, of which this is the first. However many they are, they are one list.
    And(Box<Cond>, Vec<Cond>),
    /// OR between conditions, of which this is the first.
    Or(Box<Cond>, Vec<Cond>),
}

impl Drop for Cond {
    #[cycle(drop_condition)]
    fn drop(self) {
        let Self { node: _ } = self;
    }
}

impl Drop for CondNode {
    #[cycle(drop_condition)]
    fn drop(self) {
        match self {
            Self::Compared(_, _, _) => {}
            Self::IsNull(_) => {}
            Self::Between(_, _, _) => {}
            Self::In(_, _) => {}
            Self::Not(_) => {}
            Self::And(_, _) => {}
            Self::Or(_, _) => {}
        }
    }
}

impl Model for Cond {
    ghost use Rattle.expressions.specs.Trees as trees;
    ghost use Rattle.expressions.specs.TreeCodes.{condition_code};

    ghost Value = { trees.Cond };

    ghost coded = { condition_code };

    ghost use Rattle.expressions.specs.Views.{HasOthers, condition_of};

    ghost view = { λ c. condition_of c.node };

    ghost invariant = { λ c. HasOthers c.node };

    ghost size = { trees.nodes_of_condition };

    ghost use Rattle.expressions.specs.ChainDepths.{depth_le-condition};

    ghost size_decreases = { λ a h. depth_le-condition a.node h };
}

impl Cond {
    /// A comparison.
    pub fn compared(comparator: Comparator, left: Expr, right: Expr) -> Cond
        ensures { result ≡ trees.Compared comparator left right }
    {
        Cond {
            node: CondNode::Compared(comparator, left, right),
        }
    }

    /// IS NULL.
    pub fn is_null(expr: Expr) -> Cond
        ensures { result ≡ trees.IsNull expr }
    {
        Cond {
            node: CondNode::IsNull(expr),
        }
    }

    /// BETWEEN: at least the second and at most the third.
    pub fn between(expr: Expr, low: Expr, high: Expr) -> Cond
        ensures { result ≡ trees.Between expr low high }
    {
        Cond {
            node: CondNode::Between(expr, low, high),
        }
    }

    /// IN: equal to one of these.
    pub fn among(expr: Expr, list: Seq<Expr>) -> Cond
        ensures { result ≡ trees.In expr list }
    {
        Cond {
            node: CondNode::In(expr, list),
        }
    }

    /// NOT. The error is want of memory.
    pub fn not(alloc: Global, cond: Cond) -> Result<Cond, AllocError>
        ensures { IfOk result (λ c. c ≡ trees.Not cond) }
    {
        let cond = Box::new(alloc, cond)?;
        Ok(Cond {
            node: CondNode::Not(cond),
        })
    }

    /// AND. Where the left condition is a list of AND, it gets longer. The error is want of memory.
    #[tactic(auto, using(crate::proofs::ChainLaws::longer_all))]
    pub fn and(alloc: Global, left: Cond, right: Cond) -> Result<Cond, AllocError>
        ensures { IfOk result (λ c. c ≡ trees.And left right) }
    {
        let mut left = left;
        if let CondNode::And(_, others) = &mut left.node {
            others.push(right)?;
            return Ok(left);
        }
        let first = Box::new(alloc, left)?;
        let mut others = Vec::with_capacity(alloc, 1)?;
        others.push(right)?;
        Ok(Cond {
            node: CondNode::And(first, others),
        })
    }

    /// OR. Where the left condition is a list of OR, it gets longer. The error is want of memory.
    #[tactic(auto, using(crate::proofs::ChainLaws::longer_any))]
    pub fn or(alloc: Global, left: Cond, right: Cond) -> Result<Cond, AllocError>
        ensures { IfOk result (λ c. c ≡ trees.Or left right) }
    {
        let mut left = left;
        if let CondNode::Or(_, others) = &mut left.node {
            others.push(right)?;
            return Ok(left);
        }
        let first = Box::new(alloc, left)?;
        let mut others = Vec::with_capacity(alloc, 1)?;
        others.push(right)?;
        Ok(Cond {
            node: CondNode::Or(first, others),
        })
    }
}

/// What the condition is on these columns. None where the units of a number leave 64 signed bits in any part of it, or
/// its scale passes 18: each operand of AND, OR, IN and BETWEEN is evaluated, whatever the others are. It takes no
/// memory.
///
/// (TimesTen SQL Reference, "Search conditions"; that every operand is evaluated is this project's rule.)
#[cycle(truths)]
pub fn truth_on<C: Columns>(cond: &Cond, columns: &C) -> Option<Truth>
    ensures { result ≡ holds cond.now (C.values columns.now) }
{
    match &cond.node {
        CondNode::Compared(comparator, left, right) => {
            comparison(*comparator, left, right, columns)
        }
        CondNode::IsNull(expr) => {
            match value_of(expr, columns) {
                None => None,
                Some(value) => Some(Truth::of(is_null(&value))),
            }
        }
        CondNode::Between(expr, low, high) => {
            let low = comparison(Comparator::AtLeast, expr, low, columns)?;
            let high = comparison(Comparator::AtMost, expr, high, columns)?;
            Some(low.and(high))
        }
        CondNode::In(expr, list) => {
            match value_of(expr, columns) {
                None => None,
                Some(value) => among(&value, list.as_slice(), columns),
            }
        }
        CondNode::Not(cond) => {
            let truth = truth_on(cond, columns)?;
            Some(truth.negated())
        }
        CondNode::And(first, others) => all_hold(first, others.as_slice(), columns),
        CondNode::Or(first, others) => one_holds(first, others.as_slice(), columns),
    }
}

// What AND between a condition and each of the others is.
#[cycle(truths)]
#[tactic(auto, using(crate::proofs::FoldLaws::holds_all, crate::proofs::FoldLaws::all_none, crate::proofs::FoldLaws::all_stops))]
fn all_hold<C: Columns>(first: &Cond, others: &[Cond], columns: &C) -> Option<Truth>
    ensures { result ≡ holds (all_of first.now others.now) (C.values columns.now) }
{
    let mut truth = truth_on(first, columns)?;
    for cond in others {
        truth = truth.and(truth_on(cond, columns)?);
    }
    Some(truth)
}

// What OR between a condition and each of the others is.
#[cycle(truths)]
#[tactic(auto, using(crate::proofs::FoldLaws::holds_any, crate::proofs::FoldLaws::any_none, crate::proofs::FoldLaws::any_stops))]
fn one_holds<C: Columns>(first: &Cond, others: &[Cond], columns: &C) -> Option<Truth>
    ensures { result ≡ holds (any_of first.now others.now) (C.values columns.now) }
{
    let mut truth = truth_on(first, columns)?;
    for cond in others {
        truth = truth.or(truth_on(cond, columns)?);
    }
    Some(truth)
}

/// What the condition is on a row. It takes no memory.
///
/// The refusal is 120, exactly where the units of a number leave 64 signed bits in any part of it, or its scale passes
/// 18.
pub fn holds(cond: &Cond, row: &Row) -> Result<Truth, Refused>
    ensures truth { IfOk result (λ truth. holds cond.now row.now ≡ Some truth) }
    ensures refused { IfErr result (IsOverflow (holds cond.now row.now)) }
{
    match truth_on(cond, row) {
        None => Err(Refused::Rule(Rule {
            code: Code::Overflow,
            detail: Detail::Nothing,
        })),
        Some(truth) => Ok(truth),
    }
}

fn comparison<'a, C: Columns>(
    comparator: Comparator,
    left: &'a Expr,
    right: &'a Expr,
    columns: &'a C,
) -> Option<Truth>
    ensures { result ≡ comparison comparator (eval left.now (C.values columns.now))
        (eval right.now (C.values columns.now)) }
{
    match (value_of(left, columns), value_of(right, columns)) {
        (Some(left), Some(right)) => Some(compared(comparator, &left, &right)),
        _ => None,
    }
}

fn compared<'a>(comparator: Comparator, left: &Operand<'a>, right: &Operand<'a>) -> Truth
    ensures { result ≡ compared comparator (shown left.now) (shown right.now) }
{
    if is_null(left) || is_null(right) {
        return Truth::Unknown;
    }
    Truth::of(stands(comparator, left.order(right)))
}

fn is_null(operand: &Operand<'_>) -> bool
    ensures { result ≡ is_null (shown operand.now) }
{
    match operand {
        Operand::Null => true,
        Operand::Stored(Value::Null) => true,
        _ => false,
    }
}

fn stands(comparator: Comparator, order: Ordering) -> bool
    ensures { result ≡ stands comparator order }
{
    match comparator {
        Comparator::Equal => order.is_eq(),
        Comparator::NotEqual => order.is_ne(),
        Comparator::Less => order.is_lt(),
        Comparator::AtMost => order.is_le(),
        Comparator::Greater => order.is_gt(),
        Comparator::AtLeast => order.is_ge(),
    }
}

// Whether the value is equal to one of these.
#[tactic(auto, using(crate::proofs::FoldLaws::among_first, crate::proofs::FoldLaws::one_joins))]
fn among<'a, C: Columns>(value: &Operand<'a>, list: &'a [Expr], columns: &'a C) -> Option<Truth>
    ensures { result ≡ among (shown value.now) list.now (C.values columns.now) }
{
    let mut truth = Truth::False;
    for expr in list {
        let Some(other) = value_of(expr, columns) else {
            return None;
        };
        truth = truth.or(compared(Comparator::Equal, value, &other));
    }
    Some(truth)
}
