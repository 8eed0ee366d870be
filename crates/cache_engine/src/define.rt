//! The text of a definition.

ghost use Rattle.std.specs.Prelude.{◌≡◌, IfOk, true};
ghost use Rattle.cache_tier.specs.Definitions.{text_of};
ghost use Rattle.sql_subset.specs.declared.stmt.CreateGroup.{CreateGroup};
ghost use Rattle.sql_subset.specs.declared.stmt.Stmt.TheVariants as statements;

use row_types::Text;
use sql_print::print::print;
use sql_subset::stmt::Stmt;
use std::alloc::{AllocError, Global};

/// The text by which a journal keeps the definition of a group; the empty one of another statement. It fails for want
/// of memory alone.
pub(crate) fn definition_text(alloc: Global, statement: &Stmt) -> Result<Text, AllocError>
    ensures { IfOk result (λ text. (d : CreateGroup) → statement.now ≡ statements.CreateGroup d
        → text ≡ text_of d) }
{
    if is_definition(statement) {
        return print(alloc, statement);
    }
    Text::new(alloc, b"")
}

fn is_definition(statement: &Stmt) -> bool
    ensures { (d : CreateGroup) → statement.now ≡ statements.CreateGroup d → result ≡ true }
{
    match statement {
        Stmt::CreateGroup(_) => true,
        _ => false,
    }
}
