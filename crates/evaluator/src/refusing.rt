//! Refusals.

ghost use Rattle.std.specs.Prelude.{◌≡◌, Err, Ok, Some, None};
ghost use Rattle.expressions.specs.row_types.specs.declared.rule.Refused.TheVariants as refused;
ghost use Rattle.evaluator.specs.Rules.{limit as limit_rule, no_table, overflow};

use expressions::row_types::{Detail, Refused, Rule};
use expressions::tier_base::{Code, Limit};

/// 120: a number leaves 64 signed bits.
pub fn overflow() -> Refused
    ensures { result ≡ refused.Rule overflow }
{
    Refused::Rule(Rule {
        code: Code::Overflow,
        detail: Detail::Nothing,
    })
}

/// 119: a count would pass its limit.
pub fn over_limit(limit: Limit) -> Refused
    ensures { result ≡ refused.Rule (limit_rule limit) }
{
    Refused::Rule(Rule {
        code: Code::Limit,
        detail: Detail::Limit(limit),
    })
}

/// 102: there is no such table.
pub fn unknown_table() -> Refused
    ensures { result ≡ refused.Rule no_table }
{
    Refused::Rule(Rule {
        code: Code::UnknownTable,
        detail: Detail::Nothing,
    })
}
