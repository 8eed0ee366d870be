//! A second copy of tables.

ghost use Rattle.std.specs.Prelude.{◌≡◌, IfOk, length, if◌then◌else◌};
ghost use Rattle.std.specs.FinMap.{empty};
ghost use Rattle.table_defs.specs.tier_base.specs.declared.number.TableId.{TableId};
ghost use Rattle.table_state.specs.Copies.{is_one_of, only_asked};
ghost use Rattle.table_state.specs.Tables.{table_at};

use crate::tables::Tables;
use indexed_rows::IndexedRows;
use std::alloc::{AllocError, Global};
use table_defs::copied_schema;
use table_defs::tier_base::TableId;

impl Tables {
    /// A second copy of the tables. It goes through all rows.
    pub fn copied(&self, alloc: Global) -> Result<Tables, AllocError>
        ensures { IfOk result (λ tables. tables ≡ self.now) }
    {
        let schema = copied_schema(alloc, self.schema.as_slice())?;
        let rows = copied_tables(alloc, self.rows.as_slice())?;
        Ok(Tables { schema, rows })
    }

    /// A second copy of the definitions and of the rows of these tables; the others have no rows. It goes through the
    /// rows of these tables alone.
    pub fn copied_of(&self, alloc: Global, asked: &[TableId]) -> Result<Tables, AllocError>
        ensures schema { IfOk result (λ copy. copy.schema ≡ self.now.schema) }
        ensures whole { IfOk result (λ copy. length copy.tables ≡ length self.now.tables) }
        ensures rows { IfOk result (λ copy. (t : TableId)
            → table_at copy t ≡ (if is_one_of asked.now t then table_at self.now t else empty)) }
    {
        let schema = copied_schema(alloc, self.schema.as_slice())?;
        let rows = copied_asked(alloc, self.rows.as_slice(), asked)?;
        Ok(Tables { schema, rows })
    }
}

fn copied_tables(alloc: Global, tables: &[IndexedRows]) -> Result<Vec<IndexedRows>, AllocError>
    ensures { IfOk result (λ copies. copies.items ≡ tables.now) }
{
    let mut copies = Vec::with_capacity(alloc, tables.len())?;
    for rows in tables {
        copies.push(rows.copied(alloc)?)?;
    }
    Ok(copies)
}

fn copied_asked(
    alloc: Global,
    tables: &[IndexedRows],
    asked: &[TableId],
) -> Result<Vec<IndexedRows>, AllocError>
    ensures { IfOk result (λ copies. copies.items ≡ only_asked asked.now 0 tables.now) }
{
    let mut copies = Vec::with_capacity(alloc, tables.len())?;
    for (place, rows) in tables.iter().enumerate() {
        copies.push(copied_where(alloc, rows, is_asked(asked, place))?)?;
    }
    Ok(copies)
}

fn is_asked(asked: &[TableId], place: usize) -> bool
    ensures { result ≡ is_one_of asked.now (record { 0 = place }) }
{
    asked.iter().any(|one| one.0 as usize == place)
}

fn copied_where(alloc: Global, rows: &IndexedRows, asked: bool) -> Result<IndexedRows, AllocError>
    ensures { IfOk result (λ copy. copy ≡ (if asked then rows.now else empty)) }
{
    if asked {
        rows.copied(alloc)
    } else {
        Ok(IndexedRows::new(alloc))
    }
}
