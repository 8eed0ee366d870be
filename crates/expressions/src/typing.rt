//! The rule of types.

ghost use Rattle.std.specs.Prelude.{◌≡◌};
ghost use Rattle.expressions.specs.Types.{agrees, all_agree, family_of, family_of_type, family_of_value, has_sound_types, is_numeric, of_both, of_numbers, same_family, suits};
ghost use Rattle.expressions.specs.Views.{all_of, any_of, chained};

use crate::condition::{Cond, CondNode};
use crate::expression::{Expr, ExprNode, Step};
use row_types::tier_base::Code;
use row_types::{Ty, Value};

/// A family of types. Values of one family can be compared.
#[derive(Clone, Copy, Debug, PartialEq, Eq)]
pub enum Family {
    /// TT_INTEGER, TT_BIGINT and NUMBER.
    Number,
    /// VARCHAR2.
    Characters,
    /// TIMESTAMP.
    Datetime,
}

/// The family of a column's type.
pub fn family_of_type(ty: Ty) -> Family
    ensures { result ≡ family_of_type ty }
{
    match ty {
        Ty::TtInteger => Family::Number,
        Ty::TtBigint => Family::Number,
        Ty::Number(_, _) => Family::Number,
        Ty::Varchar2(_) => Family::Characters,
        Ty::Timestamp => Family::Datetime,
    }
}

/// The family of an expression over columns of these families; none where it is NULL in every row, which suits
/// everywhere.
///
/// `TypeMismatch` exactly where arithmetic meets an expression that is no number. (TimesTen SQL Reference,
/// "Expressions"; without conversion between families, which is this project's rule.)
#[cycle(families)]
pub fn family_of(expr: &Expr, columns: &[Family]) -> Result<Option<Family>, Code>
    ensures { result ≡ family_of expr.now columns.now }
{
    match &expr.node {
        ExprNode::Literal(value) => Ok(family_of_value(value)),
        ExprNode::Column(place) => Ok(columns.get(*place).copied()),
        ExprNode::Chain(first, steps) => chain_family(first, steps.as_slice(), columns),
    }
}

// The family of an expression and operations on it.
#[cycle(families)]
#[tactic(auto, using(crate::proofs::FoldLaws::family_chained))]
fn chain_family(first: &Expr, steps: &[Step], columns: &[Family]) -> Result<Option<Family>, Code>
    ensures { result ≡ family_of (chained first.now steps.now) columns.now }
{
    let mut family = family_of(first, columns);
    for step in steps {
        family = of_both(family, family_of(&step.operand, columns));
    }
    family
}

/// Whether the condition keeps the rule of types over columns of these families: each comparison, also those of
/// BETWEEN and IN, is of two numbers, two texts, two times, or with NULL, and all arithmetic is of numbers.
///
/// Where it isn't so the statement is refused with 104. (TimesTen SQL Reference, "Comparison predicate"; without
/// conversion between families, which is this project's rule.)
#[cycle(soundness)]
pub fn has_sound_types(cond: &Cond, columns: &[Family]) -> bool
    ensures { result ≡ has_sound_types cond.now columns.now }
{
    match &cond.node {
        CondNode::Compared(_, left, right) => agrees(family_of(left, columns), right, columns),
        CondNode::IsNull(expr) => family_of(expr, columns).is_ok(),
        CondNode::Between(expr, low, high) => {
            let family = family_of(expr, columns);
            agrees(family, low, columns) && agrees(family, high, columns)
        }
        CondNode::In(expr, list) => {
            let family = family_of(expr, columns);
            family.is_ok() && all_agree(family, list.as_slice(), columns)
        }
        CondNode::Not(cond) => has_sound_types(cond, columns),
        CondNode::And(first, others) => are_sound(first, others.as_slice(), columns),
        CondNode::Or(first, others) => are_sound(first, others.as_slice(), columns),
    }
}

// Whether a condition and each of the others keep the rule.
#[cycle(soundness)]
#[tactic(auto, using(crate::proofs::FoldLaws::sound_all, crate::proofs::FoldLaws::sound_any, crate::proofs::FoldLaws::sound_none, crate::proofs::FoldLaws::sound_stops))]
fn are_sound(first: &Cond, others: &[Cond], columns: &[Family]) -> bool
    ensures all { result ≡ has_sound_types (all_of first.now others.now) columns.now }
    ensures any { result ≡ has_sound_types (any_of first.now others.now) columns.now }
{
    if !has_sound_types(first, columns) {
        return false;
    }
    for cond in others {
        if !has_sound_types(cond, columns) {
            return false;
        }
    }
    true
}

/// Whether a value of one family may stand where another is wanted: they are the same, or one is NULL.
pub fn suits(left: Option<Family>, right: Option<Family>) -> bool
    ensures { result ≡ suits left right }
{
    match (left, right) {
        (Some(left), Some(right)) => is_same_family(left, right),
        _ => true,
    }
}

fn is_same_family(left: Family, right: Family) -> bool
    ensures { result ≡ same_family left right }
{
    left == right
}

// Whether the expression has a family that suits.
fn agrees(family: Result<Option<Family>, Code>, expr: &Expr, columns: &[Family]) -> bool
    ensures { result ≡ agrees family (family_of expr.now columns.now) }
{
    match (family, family_of(expr, columns)) {
        (Ok(left), Ok(right)) => suits(left, right),
        _ => false,
    }
}

// Whether each of them has a family that suits.
fn all_agree(family: Result<Option<Family>, Code>, list: &[Expr], columns: &[Family]) -> bool
    ensures { result ≡ all_agree family list.now columns.now }
{
    for expr in list {
        if !agrees(family, expr, columns) {
            return false;
        }
    }
    true
}

fn family_of_value(value: &Value) -> Option<Family>
    ensures { result ≡ family_of_value value.now }
{
    match value {
        Value::Null => None,
        Value::Number(_) => Some(Family::Number),
        Value::Text(_) => Some(Family::Characters),
        Value::Time(_) => Some(Family::Datetime),
    }
}

// The family of an operation on two operands of these families.
fn of_both(
    left: Result<Option<Family>, Code>,
    right: Result<Option<Family>, Code>,
) -> Result<Option<Family>, Code>
    ensures { result ≡ of_both left right }
{
    let left = left?;
    let right = right?;
    of_numbers(left, right)
}

fn of_numbers(left: Option<Family>, right: Option<Family>) -> Result<Option<Family>, Code>
    ensures { result ≡ of_numbers left right }
{
    if is_numeric(left) && is_numeric(right) {
        Ok(Some(Family::Number))
    } else {
        Err(Code::TypeMismatch)
    }
}

/// Whether arithmetic takes it: a number or NULL.
pub fn is_numeric(family: Option<Family>) -> bool
    ensures { result ≡ is_numeric family }
{
    match family {
        None => true,
        Some(Family::Number) => true,
        _ => false,
    }
}
