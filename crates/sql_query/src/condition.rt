//! Conditions with the names of columns.

ghost use Rattle.std.specs.Prelude.{◌≡◌, IfOk};
ghost use Rattle.sql_query.specs.Trees.{All, Among, Any, Between, Compared, Missing, Not};

use crate::expression::Expression;
use expressions::Comparator;
use expressions::tier_base::Seq;
use std::alloc::{AllocError, Global};
use std::marker::Model;

/// A condition with the names of columns. Clauses see a tree without boxes and lists, a `ConditionTree`.
#[cycle(condition)]
pub struct Condition {
    /// What stands at the top of it.
    pub node: ConditionNode,
}

/// What stands at the top of a condition. A `bool` tells whether NOT is written inside of it, as in IS NOT NULL.
#[cycle(condition)]
pub enum ConditionNode {
    /// A comparison.
    Compared(Comparator, Expression, Expression),
    /// IS NULL, IS NOT NULL.
    Missing(bool, Expression),
    /// BETWEEN, NOT BETWEEN: the expression, the low end, the high end.
    Between(bool, Expression, Expression, Expression),
    /// IN, NOT IN.
    Among(bool, Expression, Seq<Expression>),
    /// NOT before a condition.
    Not(Box<Condition>),
    /// AND between conditions, of which this is the first. However many they are, they are one list.
    All(Box<Condition>, Vec<Condition>),
    /// OR between conditions, of which this is the first.
    Any(Box<Condition>, Vec<Condition>),
}

impl Drop for Condition {
    #[cycle(drop_condition)]
    fn drop(self) {
        let Self { node: _ } = self;
    }
}

impl Drop for ConditionNode {
    #[cycle(drop_condition)]
    fn drop(self) {
        match self {
            Self::Compared(_, _, _) => {}
            Self::Missing(_, _) => {}
            Self::Between(_, _, _, _) => {}
            Self::Among(_, _, _) => {}
            Self::Not(_) => {}
            Self::All(_, _) => {}
            Self::Any(_, _) => {}
        }
    }
}

impl Model for Condition {
    ghost use Rattle.sql_query.specs.Trees.{ConditionTree, nodes_of_condition};
    ghost use Rattle.sql_query.specs.TreeCodes.{condition_code};

    ghost Value = { ConditionTree };

    ghost coded = { condition_code };

    ghost use Rattle.sql_query.specs.Views.{HasOthers, condition_of};

    ghost view = { λ c. condition_of c.node };

    ghost invariant = { λ c. HasOthers c.node };

    ghost size = { nodes_of_condition };

    ghost use Rattle.sql_query.specs.ChainDepths.{depth_le-condition};

    ghost size_decreases = { λ a h. depth_le-condition a.node h };
}

impl Condition {
    /// A comparison.
    pub fn compared(comparator: Comparator, left: Expression, right: Expression) -> Condition
        ensures { result ≡ Compared comparator left right }
    {
        Condition {
            node: ConditionNode::Compared(comparator, left, right),
        }
    }

    /// IS NULL; where negated, IS NOT NULL.
    pub fn missing(negated: bool, expression: Expression) -> Condition
        ensures { result ≡ Missing negated expression }
    {
        Condition {
            node: ConditionNode::Missing(negated, expression),
        }
    }

    /// BETWEEN; where negated, NOT BETWEEN.
    pub fn between(
        negated: bool,
        expression: Expression,
        low: Expression,
        high: Expression,
    ) -> Condition
        ensures { result ≡ Between negated expression low high }
    {
        Condition {
            node: ConditionNode::Between(negated, expression, low, high),
        }
    }

    /// IN; where negated, NOT IN.
    pub fn among(negated: bool, expression: Expression, list: Seq<Expression>) -> Condition
        ensures { result ≡ Among negated expression list }
    {
        Condition {
            node: ConditionNode::Among(negated, expression, list),
        }
    }

    /// NOT before a condition.
    pub fn not(alloc: Global, condition: Condition) -> Result<Condition, AllocError>
        ensures { IfOk result (λ c. c ≡ Not condition) }
    {
        let condition = Box::new(alloc, condition)?;
        Ok(Condition {
            node: ConditionNode::Not(condition),
        })
    }

    /// AND. Where the left condition is a list of AND, it gets longer.
    #[tactic(auto, using(crate::proofs::ChainLaws::longer_all))]
    pub fn all(alloc: Global, left: Condition, right: Condition) -> Result<Condition, AllocError>
        ensures { IfOk result (λ c. c ≡ All left right) }
    {
        let mut left = left;
        if let ConditionNode::All(_, others) = &mut left.node {
            others.push(right)?;
            return Ok(left);
        }
        let first = Box::new(alloc, left)?;
        let mut others = Vec::with_capacity(alloc, 1)?;
        others.push(right)?;
        Ok(Condition {
            node: ConditionNode::All(first, others),
        })
    }

    /// OR. Where the left condition is a list of OR, it gets longer.
    #[tactic(auto, using(crate::proofs::ChainLaws::longer_any))]
    pub fn any(alloc: Global, left: Condition, right: Condition) -> Result<Condition, AllocError>
        ensures { IfOk result (λ c. c ≡ Any left right) }
    {
        let mut left = left;
        if let ConditionNode::Any(_, others) = &mut left.node {
            others.push(right)?;
            return Ok(left);
        }
        let first = Box::new(alloc, left)?;
        let mut others = Vec::with_capacity(alloc, 1)?;
        others.push(right)?;
        Ok(Condition {
            node: ConditionNode::Any(first, others),
        })
    }
}
