//! Refusals.

ghost use Rattle.std.specs.Prelude.{◌≡◌, IfOk};
ghost use Rattle.evaluator.specs.Rules.{about};
ghost use Rattle.resolution.specs.Results.{IsRefusal, mismatch, no_type};

use evaluator::row_types::{Detail, Refused, Rule};
use evaluator::tier_base::{Code, Name};
use std::alloc::{AllocError, Global};

/// 104: types that don't suit, or another number of values than wanted.
pub(crate) fn mismatch() -> Rule
    ensures { result ≡ mismatch }
{
    Rule {
        code: Code::TypeMismatch,
        detail: Detail::Nothing,
    }
}

/// 105 of a literal that no type holds.
pub(crate) fn no_type() -> Rule
    ensures { result ≡ no_type }
{
    Rule {
        code: Code::OutOfRange,
        detail: Detail::NoType,
    }
}

/// A rule about a name.
///
/// The error is want of memory for the name.
pub(crate) fn rule_about(alloc: Global, code: Code, name: &Name) -> Result<Rule, AllocError>
    ensures { IfOk result (λ rule. rule ≡ about code name.now) }
{
    let name = name.copied(alloc)?;
    Ok(Rule {
        code,
        detail: Detail::Name(name),
    })
}

/// A rule about a name, or want of memory for the name.
pub(crate) fn about(alloc: Global, code: Code, name: &Name) -> Refused
    ensures { IsRefusal (about code name.now) result }
{
    match rule_about(alloc, code, name) {
        Err(_) => Refused::Memory,
        Ok(rule) => Refused::Rule(rule),
    }
}
