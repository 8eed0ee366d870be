//! Expressions and conditions of parts.

ghost use Rattle.std.specs.Prelude.{◌≡◌, ◌&&◌, IfOk, List, map};
ghost use Rattle.std.specs.List.{list_all};
ghost use Rattle.std.specs.Result.{is_ok};
ghost use Rattle.evaluator.specs.expressions.specs.declared.typing.Family.{Family as OneFamily};
ghost use Rattle.evaluator.specs.expressions.specs.Types.{agrees, family_of, has_sound_types, of_both};
ghost use Rattle.resolution.specs.Placing.{And, Binary, In, Not, Or, condition_seen, expression_seen, expressions_seen, negated_if};

use evaluator::expressions::{Arithmetic, Cond, Expr};
use evaluator::tier_base::Seq;
use std::alloc::{AllocError, Global};

/// An operation on two expressions.
pub(crate) fn binary(
    alloc: Global,
    operation: Arithmetic,
    left: Expr,
    right: Expr,
) -> Result<Expr, AllocError>
    ensures seen { IfOk result (λ e. expression_seen e
        ≡ Binary operation (expression_seen left) (expression_seen right)) }
    ensures typed { IfOk result (λ e. (columns : List OneFamily)
        → family_of e columns ≡ of_both (family_of left columns) (family_of right columns)) }
{
    Expr::binary(alloc, operation, left, right)
}

/// NOT.
pub(crate) fn negation(alloc: Global, cond: Cond) -> Result<Cond, AllocError>
    ensures seen { IfOk result (λ c. condition_seen c ≡ Not (condition_seen cond)) }
    ensures typed { IfOk result (λ c. (columns : List OneFamily)
        → has_sound_types c columns ≡ has_sound_types cond columns) }
{
    Cond::not(alloc, cond)
}

/// NOT where it is wanted.
pub(crate) fn negated_if(alloc: Global, negated: bool, cond: Cond) -> Result<Cond, AllocError>
    ensures seen { IfOk result (λ c. condition_seen c ≡ negated_if negated (condition_seen cond)) }
    ensures typed { IfOk result (λ c. (columns : List OneFamily)
        → has_sound_types c columns ≡ has_sound_types cond columns) }
{
    if negated {
        negation(alloc, cond)
    } else {
        Ok(cond)
    }
}

/// IN; where negated, NOT IN.
#[tactic(auto, using(crate::proofs::TypeLaws::all_agree_families))]
pub(crate) fn membership(
    alloc: Global,
    negated: bool,
    expr: Expr,
    list: Vec<Expr>,
) -> Result<Cond, AllocError>
    ensures seen { IfOk result (λ c. condition_seen c
        ≡ negated_if negated (In (expression_seen expr) (expressions_seen list.items))) }
    ensures typed { IfOk result (λ c. (columns : List OneFamily)
        → has_sound_types c columns ≡ (is_ok (family_of expr columns)
        && list_all (agrees (family_of expr columns)) (map (λ e. family_of e columns) list.items))) }
{
    negated_if(alloc, negated, Cond::among(expr, Seq::from_vec(list)))
}

/// AND.
pub(crate) fn conjunction(alloc: Global, left: Cond, right: Cond) -> Result<Cond, AllocError>
    ensures seen { IfOk result (λ c. condition_seen c ≡ And (condition_seen left) (condition_seen right)) }
    ensures typed { IfOk result (λ c. (columns : List OneFamily)
        → has_sound_types c columns ≡ (has_sound_types left columns && has_sound_types right columns)) }
{
    Cond::and(alloc, left, right)
}

/// OR.
pub(crate) fn disjunction(alloc: Global, left: Cond, right: Cond) -> Result<Cond, AllocError>
    ensures seen { IfOk result (λ c. condition_seen c ≡ Or (condition_seen left) (condition_seen right)) }
    ensures typed { IfOk result (λ c. (columns : List OneFamily)
        → has_sound_types c columns ≡ (has_sound_types left columns && has_sound_types right columns)) }
{
    Cond::or(alloc, left, right)
}
