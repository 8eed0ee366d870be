//! The key of an INSERT.

ghost use Rattle.std.specs.Prelude.{◌≡◌, IfOk, Some, option_copied, slice_get};
ghost use Rattle.tier_base.specs.declared.number.TableId.{TableId as OneTable};
ghost use Rattle.evaluator.specs.Cascades.{key_in};
ghost use Rattle.cache_tier.specs.InsertSteps.{has_key_in, taken};
ghost use Rattle.cache_tier.specs.TierStates.{Tier};

use row_types::{Detail, Key, Row, Rule};
use std::alloc::{AllocError, Global};
use table_defs::{BackingSchema, TableDef};
use table_state::{Scan, key_of_row};
use tier_base::{Code, TableId};

/// Whether the key of a row has a row, in the tables of a scan. It fails for want of memory alone.
pub fn has_key<S: Scan>(
    alloc: Global,
    scan: &S,
    table: TableId,
    row: &Row,
) -> Result<bool, AllocError>
    ensures { IfOk result (λ has. has ≡ has_key_in (S.state scan.now) table row.now) }
{
    let key = key_in(alloc, scan.schema(), table, row)?;
    Ok(scan.find(table, &key).is_some())
}

/// 107 of the key of a row of a table. It fails for want of memory alone.
pub fn taken(alloc: Global, def: &TableDef, row: &Row) -> Result<Rule, AllocError>
    ensures { IfOk result (λ rule. (t : Tier) (table : OneTable) → slice_get t.schema table.0 ≡ Some def.now
        → rule ≡ taken t table row.now) }
{
    let key = key_of_row(alloc, def, row)?;
    let name = def.name.copied(alloc)?;
    Ok(Rule {
        code: Code::KeyExists,
        detail: Detail::Row(name, key),
    })
}

// The key of a row of a table, without values where there is no such table.
fn key_in(
    alloc: Global,
    schema: &BackingSchema,
    table: TableId,
    row: &Row,
) -> Result<Key, AllocError>
    ensures { IfOk result (λ key. key ≡ key_in (slice_get schema.now table.0) row.now) }
{
    match schema.get(table.0 as usize) {
        None => Ok(Key::from_vec(Vec::new(alloc))),
        Some(def) => key_of_row(alloc, def, row),
    }
}
