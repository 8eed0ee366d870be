//! Places for tables that no operation has touched.

ghost use Rattle.std.specs.Prelude.{◌≡◌, ℕ, ◌<◌, ◌≤◌, ◌^◌, IfOk, List, OnOk, length};
ghost use Rattle.std.specs.FinMap as map;
ghost use Rattle.table_state.specs.table_defs.specs.declared.definition.TableDef.{TableDef as Def};
ghost use Rattle.table_state.specs.declared.operation.Op.{Op};
ghost use Rattle.own_rows.specs.Laying.{HaveRoom};
ghost use Rattle.own_rows.specs.OwnTables.{AreRowsOf};

use crate::own::OwnRows;
use std::alloc::{AllocError, Global};
use table_state::indexed_rows::{IndexedRows, Rows};
use table_state::table_defs::{BackingSchema, ForeignKey, TableDef, copied_places};

// No rows, with an index by parent where there is a foreign key.
fn bare_rows(alloc: Global, foreign_key: &Option<ForeignKey>) -> Result<IndexedRows, AllocError>
    ensures { IfOk result (λ rows. rows ≡ map.empty) }
{
    match foreign_key {
        None => Ok(IndexedRows::new(alloc)),
        Some(foreign) => {
            let columns = copied_places(alloc, foreign.columns.as_slice())?;
            Ok(IndexedRows::by_parent(alloc, columns))
        }
    }
}

// No own rows of a table.
fn bare(alloc: Global, def: &TableDef) -> Result<OwnRows, AllocError>
    ensures live { IfOk result (λ own. own.live ≡ map.empty) }
    ensures fresh { IfOk result (λ own. own.fresh ≡ map.empty) }
    ensures gone { IfOk result (λ own. own.gone ≡ map.empty) }
{
    let live = bare_rows(alloc, &def.foreign_key)?;
    Ok(OwnRows {
        live,
        fresh: Rows::new(alloc),
        gone: Rows::new(alloc),
    })
}

/// A place for each table of the schema. It fails for want of memory alone; what was pushed then stays, and says
/// nothing.
pub(crate) fn widen_rows(
    alloc: Global,
    own: &mut Vec<OwnRows>,
    schema: &BackingSchema,
) -> Result<(), AllocError>
    requires { length own.old.items ≤ length schema.now }
    ensures rows { (known : List Def) (ops : List Op)
        → AreRowsOf known ops own.old.items → AreRowsOf known ops own.new.items }
    ensures room { (n : ℕ) → n < 2 ^ 63 → HaveRoom n own.old.items → HaveRoom n own.new.items }
    ensures within { length own.new.items ≤ length schema.now }
    ensures wide { OnOk result (length own.new.items ≡ length schema.now) }
{
    let wanted = &schema.as_slice()[own.len()..];
    for def in wanted {
        let rows = bare(alloc, def)?;
        own.push(rows)?;
    }
    Ok(())
}
