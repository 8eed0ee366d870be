//! Rows made of expressions.

ghost use Rattle.std.specs.Prelude.{◌≡◌, Err, Ok, Some, None, IfOk, option_copied, drop};
ghost use Rattle.expressions.specs.row_types.specs.Columns.{stored_in};
ghost use Rattle.expressions.specs.row_types.specs.declared.value.Value.TheVariants.{Number as NumberOf};
ghost use Rattle.std.specs.Option.{option_map};
ghost use Rattle.expressions.specs.tier_base.specs.declared.code.Code.TheVariants as code;
ghost use Rattle.expressions.specs.Expressions.{eval};
ghost use Rattle.expressions.specs.Operands.{shown};
ghost use Rattle.table_state.specs.Refusals.{is_code};
ghost use Rattle.evaluator.specs.Rules.{Gives, unless};
ghost use Rattle.evaluator.specs.Writes.{built, done, first_refusing, refuses, stored_value, stored_values, values_of};

use crate::refusing::overflow;
use expressions::numbers::Number;
use expressions::row_types::{Column, Detail, Refused, Row, Rule, Value, fits, stored};
use expressions::tier_base::{Code, Name};
use expressions::{Columns, Expr, Operand, value_of};
use std::alloc::{AllocError, Global};

/// The row that the columns keep of what the expressions give, one for each column. A number is rounded to its column's
/// scale, half away from zero.
///
/// The refusal is 105 of the first column that can't hold its rounded value, then 106 of the first that refuses NULL,
/// then 120 of an expression; or memory was wanting.
pub fn build_row<C: Columns>(
    alloc: Global,
    columns: &[Column],
    exprs: &[Expr],
    on: &C,
) -> Result<Row, Refused>
    ensures { Gives (built columns.now exprs.now (C.values on.now)) result }
{
    check(alloc, Code::OutOfRange, columns, exprs, on)?;
    check(alloc, Code::NullNotAllowed, columns, exprs, on)?;
    match stored_values(alloc, columns, exprs, on)? {
        None => Err(overflow()),
        Some(values) => Ok(Row::from_vec(values)),
    }
}

/// The values of expressions; none where one is 120.
pub fn values_of<C: Columns>(
    alloc: Global,
    exprs: &[Expr],
    on: &C,
) -> Result<Option<Vec<Value>>, AllocError>
    ensures { IfOk result (λ values. option_map (λ v. v.items) values ≡ values_of exprs.now (C.values on.now)) }
{
    let mut values = Vec::with_capacity(alloc, exprs.len())?;
    for expr in exprs {
        match value_of(expr, on) {
            None => return Ok(None),
            Some(value) => values.push(value.copied(alloc)?)?,
        }
    }
    Ok(Some(values))
}

// What the columns keep of the values of expressions; none where one is 120 or isn't kept.
fn stored_values<C: Columns>(
    alloc: Global,
    columns: &[Column],
    exprs: &[Expr],
    on: &C,
) -> Result<Option<Vec<Value>>, AllocError>
    ensures { IfOk result (λ values. option_map (λ v. v.items) values
        ≡ stored_values columns.now exprs.now (C.values on.now)) }
{
    let mut values = Vec::with_capacity(alloc, columns.len())?;
    let mut place: usize = 0;
    for column in columns {
        match exprs.get(place) {
            None => return Ok(Some(values)),
            Some(expr) => match stored_value(alloc, column, expr, on)? {
                None => return Ok(None),
                Some(value) => values.push(value)?,
            },
        }
        place += 1;
    }
    Ok(Some(values))
}

// What the column keeps of the value of an expression.
fn stored_value<C: Columns>(
    alloc: Global,
    column: &Column,
    expr: &Expr,
    on: &C,
) -> Result<Option<Value>, AllocError>
    ensures { IfOk result (λ value. value ≡ stored_value column.now (eval expr.now (C.values on.now))) }
{
    match value_of(expr, on) {
        None => Ok(None),
        Some(operand) => {
            let value = operand.copied(alloc)?;
            match stored(value, column) {
                Ok(value) => Ok(Some(value)),
                Err(_) => Ok(None),
            }
        }
    }
}

// Refuses where a column refuses its value for this cause.
fn check<C: Columns>(
    alloc: Global,
    code: Code,
    columns: &[Column],
    exprs: &[Expr],
    on: &C,
) -> Result<(), Refused>
    ensures { Gives (unless code (first_refusing code columns.now exprs.now (C.values on.now)) (Ok tt)) result }
{
    match first_refusing(code, columns, exprs, on) {
        None => Ok(()),
        Some(name) => {
            let name = name.copied(alloc)?;
            Err(Refused::Rule(Rule {
                code,
                detail: Detail::Name(name),
            }))
        }
    }
}

fn first_refusing<'a, C: Columns>(
    code: Code,
    columns: &'a [Column],
    exprs: &[Expr],
    on: &C,
) -> Option<&'a Name>
    ensures { option_copied result ≡ first_refusing code columns.now exprs.now (C.values on.now) }
{
    match (columns.split_first(), exprs.split_first()) {
        (Some((column, columns)), Some((expr, exprs))) => {
            if refuses(code, column, expr, on) {
                Some(&column.name)
            } else {
                first_refusing(code, columns, exprs, on)
            }
        }
        _ => None,
    }
}

fn refuses<C: Columns>(code: Code, column: &Column, expr: &Expr, on: &C) -> bool
    ensures { result ≡ refuses code column.now (eval expr.now (C.values on.now)) }
{
    match value_of(expr, on) {
        None => false,
        Some(operand) => is_code(code, keeps(column, &operand)),
    }
}

// Whether the column keeps the value, or why it doesn't. Nothing is copied.
#[tactic(auto, using(crate::proofs::BuildLaws::done_kept))]
fn keeps(column: &Column, operand: &Operand<'_>) -> Result<(), Code>
    ensures { result ≡ done (stored_in column.now (shown operand.now)) }
{
    match operand {
        Operand::Null => fits(&Value::Null, column),
        Operand::Number(number) => keeps_number(column, *number),
        Operand::Stored(value) => keeps_value(column, value),
    }
}

#[tactic(auto, using(crate::proofs::BuildLaws::done_kept))]
fn keeps_value(column: &Column, value: &Value) -> Result<(), Code>
    ensures { result ≡ done (stored_in column.now value.now) }
{
    match value {
        Value::Number(number) => keeps_number(column, *number),
        _ => fits(value, column),
    }
}

fn keeps_number(column: &Column, number: Number) -> Result<(), Code>
    ensures { result ≡ done (stored_in column.now (NumberOf number)) }
{
    match stored(Value::Number(number), column) {
        Ok(_) => Ok(()),
        Err(code) => Err(code),
    }
}

fn is_code(code: Code, fit: Result<(), Code>) -> bool
    ensures { result ≡ is_code code fit }
{
    match fit {
        Ok(()) => false,
        Err(why) => why.number() == code.number(),
    }
}
