//! What refuses CREATE TABLE.

ghost use Rattle.std.specs.Prelude.{◌≡◌, IfOk};
ghost use Rattle.table_defs.specs.Declarations.{IsChecked, Tells, resolved};
ghost use Rattle.cache_tier.specs.ConsoleSteps.{table_fault};
ghost use Rattle.cache_tier.specs.TierStates.{Tier as AbstractTier};
ghost use Rattle.stored_tier.specs.Stored.{IsStoredAs};
ghost use Rattle.cache_engine.specs.Tabling.{parent_fault, stored_table_fault};

use row_types::{Detail, Refused, Rule, TableDeclaration};
use std::alloc::{AllocError, Global};
use stored_tier::tier::Tier;
use table_defs::TableDef;
use tier_base::Code;

/// The definition that a declaration makes behind those of the backing tables, where nothing refuses it.
///
/// The refusal is the first broken rule: 102, 103, 113, 104 and 105 as `TableDef::check` tells; 121 of a foreign
/// key to a table of a writethrough group; 119 of tables, columns and columns of a key. Or memory was wanting.
/// (TimesTen SQL Reference, "CREATE TABLE"; the codes and their order are this project's rule.)
pub fn check_table(
    tier: &Tier,
    alloc: Global,
    declaration: &TableDeclaration,
) -> Result<TableDef, Refused>
    ensures told { (a : AbstractTier) → IsStoredAs tier.now a → Tells result (table_fault a declaration.now) }
    ensures def { (a : AbstractTier) → IsStoredAs tier.now a
        → IfOk result (λ def. def ≡ resolved declaration.now a.schema) }
    ensures checked { IfOk result IsChecked }
{
    judge_table(tier, alloc, declaration)
}

fn judge_table(
    tier: &Tier,
    alloc: Global,
    declaration: &TableDeclaration,
) -> Result<TableDef, Refused>
    ensures told { Tells result (stored_table_fault tier.now declaration.now) }
    ensures def { IfOk result (λ def. def ≡ resolved declaration.now tier.now.schema) }
    ensures checked { IfOk result IsChecked }
{
    let def = TableDef::check(alloc, declaration, &tier.schema)?;
    if let Some(rule) = judge_parent(tier, alloc, declaration, &def)? {
        return Err(Refused::Rule(rule));
    }
    match def.over_limit(&tier.schema) {
        None => Ok(def),
        Some(limit) => Err(Refused::Rule(Rule {
            code: Code::Limit,
            detail: Detail::Limit(limit),
        })),
    }
}

// 121: the foreign key refers to a table of a writethrough group. Its own error is want of memory.
fn judge_parent(
    tier: &Tier,
    alloc: Global,
    declaration: &TableDeclaration,
    def: &TableDef,
) -> Result<Option<Rule>, AllocError>
    ensures { IfOk result (λ rule. rule ≡ parent_fault tier.now declaration.now def.now.foreign_key) }
{
    match (&declaration.foreign_key, &def.foreign_key) {
        (Some(declared), Some(foreign)) if tier.catalog.is_written_through(foreign.parent) => {
            let name = declared.parent.copied(alloc)?;
            Ok(Some(Rule {
                code: Code::WritethroughTable,
                detail: Detail::Name(name),
            }))
        }
        _ => Ok(None),
    }
}
