//! Expressions with the names of columns.

ghost use Rattle.std.specs.Prelude.{◌≡◌, IfOk};
ghost use Rattle.sql_query.specs.Trees.{Binary, Column, Constant};

use crate::literal::Literal;
use expressions::Arithmetic;
use expressions::tier_base::Name;
use std::alloc::{AllocError, Global};
use std::marker::Model;

/// An expression with the names of columns. Clauses see a tree without boxes and lists, an `ExpressionTree`.
#[cycle(expression)]
pub struct Expression {
    /// What stands at the top of it.
    pub node: ExpressionNode,
}

/// What stands at the top of an expression.
#[cycle(expression)]
pub enum ExpressionNode {
    /// A literal.
    Literal(Literal),
    /// A column: its name, or the name of a table of the statement, a dot and its name. The whole is one name here.
    Column(Name),
    /// Operations from left to right: the first operand, and each further one behind its operation. However long such a
    /// chain is, it is one list.
    Chain(Box<Expression>, Vec<Link>),
}

/// An operation of a chain, and the operand behind it.
#[cycle(expression)]
pub struct Link {
    /// The operation on all that stands before it, and on the operand.
    pub operation: Arithmetic,
    /// The operand.
    pub operand: Expression,
}

impl Drop for Expression {
    #[cycle(drop_expression)]
    fn drop(self) {
        let Self { node: _ } = self;
    }
}

impl Drop for ExpressionNode {
    #[cycle(drop_expression)]
    fn drop(self) {
        match self {
            Self::Literal(_) => {}
            Self::Column(_) => {}
            Self::Chain(_, _) => {}
        }
    }
}

impl Drop for Link {
    #[cycle(drop_expression)]
    fn drop(self) {
        let Self {
            operation: _,
            operand: _,
        } = self;
    }
}

impl Model for Expression {
    ghost use Rattle.sql_query.specs.Trees.{ExpressionTree, nodes_of_expression};
    ghost use Rattle.sql_query.specs.TreeCodes.{expression_code};

    ghost Value = { ExpressionTree };

    ghost coded = { expression_code };

    ghost use Rattle.sql_query.specs.Views.{HasLinks, expression_of};

    ghost view = { λ e. expression_of e.node };

    ghost invariant = { λ e. HasLinks e.node };

    ghost size = { nodes_of_expression };

    ghost use Rattle.sql_query.specs.ChainDepths.{depth_le-expression};

    ghost size_decreases = { λ a h. depth_le-expression a.node h };
}

impl Expression {
    /// A literal.
    pub fn literal(literal: Literal) -> Expression
        ensures { result ≡ Constant literal }
    {
        Expression {
            node: ExpressionNode::Literal(literal),
        }
    }

    /// A column.
    pub fn column(name: Name) -> Expression
        ensures { result ≡ Column name }
    {
        Expression {
            node: ExpressionNode::Column(name),
        }
    }

    /// An operation on two expressions. Where the left one is a chain, it gets longer.
    #[tactic(auto, using(crate::proofs::ChainLaws::longer_chain))]
    pub fn binary(
        alloc: Global,
        operation: Arithmetic,
        left: Expression,
        right: Expression,
    ) -> Result<Expression, AllocError>
        ensures { IfOk result (λ e. e ≡ Binary operation left right) }
    {
        let link = Link {
            operation,
            operand: right,
        };
        let mut left = left;
        if let ExpressionNode::Chain(_, links) = &mut left.node {
            links.push(link)?;
            return Ok(left);
        }
        let first = Box::new(alloc, left)?;
        let mut links = Vec::with_capacity(alloc, 1)?;
        links.push(link)?;
        Ok(Expression {
            node: ExpressionNode::Chain(first, links),
        })
    }
}
