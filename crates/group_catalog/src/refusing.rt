//! Refusals.

ghost use Rattle.std.specs.Prelude.{◌≡◌, option_copied};
ghost use Rattle.table_defs.specs.Declarations.{Tells, broken_at};
ghost use Rattle.cache_tier.specs.Rules.{lettered, named, plain};
ghost use Rattle.resolution.specs.Results.{IsRefusal};

use row_types::{Detail, Letter, Refused, Rule};
use std::alloc::Global;
use tier_base::{Code, Name};

/// A code alone.
pub(crate) fn plain(code: Code) -> Rule
    ensures { result ≡ plain code }
{
    Rule {
        code,
        detail: Detail::Nothing,
    }
}

/// 105 of a literal that no type holds.
pub(crate) fn no_type() -> Rule
    ensures { result ≡ record { code = Code.OutOfRange; detail = Detail.NoType } }
{
    Rule {
        code: Code::OutOfRange,
        detail: Detail::NoType,
    }
}

/// A rule about a name, or want of memory for the name.
pub(crate) fn about(alloc: Global, code: Code, name: &Name) -> Refused
    ensures { IsRefusal (named code name.now) result }
{
    match name.copied(alloc) {
        Err(_) => Refused::Memory,
        Ok(name) => Refused::Rule(Rule {
            code,
            detail: Detail::Name(name),
        }),
    }
}

/// 114.
pub(crate) fn lettered(letter: Letter) -> Refused
    ensures { result ≡ Refused.Rule (lettered letter) }
{
    Refused::Rule(Rule {
        code: Code::DefinitionRule,
        detail: Detail::Letter(letter),
    })
}

/// Refuses by this code where there is a name, which is told. Memory may be wanting for its copy.
pub(crate) fn refuse_name(alloc: Global, code: Code, name: Option<&Name>) -> Result<(), Refused>
    ensures { Tells result (broken_at code (option_copied name.entry)) }
{
    match name {
        None => Ok(()),
        Some(name) => {
            let name = name.copied(alloc)?;
            Err(Refused::Rule(Rule {
                code,
                detail: Detail::Name(name),
            }))
        }
    }
}
