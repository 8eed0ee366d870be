//! The tables of a state.

ghost use Rattle.std.specs.Prelude.{◌≡◌, [], ◌∷◌, ◌++◌, Some, IfOk, OnErr, OnOk, option_copied, slice_get};
ghost use Rattle.std.specs.FinMap as map;
ghost use Rattle.table_state.specs.Children.{child_from};
ghost use Rattle.table_defs.specs.Declarations.{foreign_places};
ghost use Rattle.table_state.specs.Histories.{no_tables};

use indexed_rows::{IndexedRows, Rows};
use std::alloc::{AllocError, Global};
use std::marker::Model;
use table_defs::row_types::Key;
use table_defs::tier_base::{Seq, TableId};
use table_defs::{BackingSchema, ForeignKey, TableDef, copied_places};

/// The tables with their rows. Clauses see a table state.
pub struct Tables {
    pub(crate) schema: BackingSchema,
    pub(crate) rows: Vec<IndexedRows>,
}

impl Drop for Tables {
    fn drop(self) {
        let Self { schema: _, rows: _ } = self;
    }
}

impl Model for Tables {
    ghost use Rattle.table_state.specs.Tables.{TableState};
    ghost use Rattle.table_state.specs.StateCode.{state_code};

    ghost Value = { TableState };

    ghost coded = { state_code };

    ghost view = { λ t. record { schema = t.schema; tables = t.rows.items } };
}

impl Tables {
    /// No tables. It takes no memory.
    pub fn new(alloc: Global) -> Tables
        ensures { result ≡ no_tables }
    {
        Tables {
            schema: Seq::new(alloc),
            rows: Vec::new(alloc),
        }
    }

    /// The definitions of the tables.
    pub fn schema(&self) -> &BackingSchema
        ensures { result.now ≡ self.now.schema }
    {
        &self.schema
    }

    /// The rows of a table, none where there is no such table.
    pub fn table(&self, table: TableId) -> Option<&Rows>
        ensures { option_copied result ≡ slice_get self.now.tables table.0 }
    {
        match self.indexed(table) {
            None => None,
            Some(indexed) => Some(indexed.rows()),
        }
    }

    fn indexed(&self, table: TableId) -> Option<&IndexedRows>
        ensures { option_copied result ≡ slice_get self.now.tables table.0 }
    {
        self.rows.get(table.0 as usize)
    }

    /// The first place in key order, from a place on, of a row that refers to the key by its table's foreign key.
    ///
    /// It is looked up in an index by parent. Where a call that doesn't fail had no memory for the index, the rows are
    /// gone through.
    pub fn child(&self, table: TableId, key: &Key, from: usize) -> Option<usize>
        ensures { result ≡ child_from self.now table key.now from }
    {
        match (self.schema().get(table.0 as usize), self.indexed(table)) {
            (Some(def), Some(rows)) => rows.child(foreign_places(&def.foreign_key), key, from),
            _ => None,
        }
    }

    /// Makes a table without rows, behind the others.
    ///
    /// It fails for want of memory alone, and the tables then are as they were.
    pub fn define(&mut self, alloc: Global, def: TableDef) -> Result<(), AllocError>
        ensures ok { OnOk result (self.new ≡ record {
          schema = self.old.schema ++ def ∷ [];
          tables =
              self.old.tables ++ map.empty ∷ [];
        }) }
        ensures err { OnErr result (self.new ≡ self.old) }
    {
        let rows = bare_rows(alloc, &def.foreign_key)?;
        self.rows.push(rows)?;
        match self.schema.push(def) {
            Ok(()) => Ok(()),
            Err(failed) => {
                let _ = self.rows.pop();
                Err(AllocError::from(failed))
            }
        }
    }
}

// No rows, with an index by parent where there is a foreign key.
fn bare_rows(alloc: Global, foreign_key: &Option<ForeignKey>) -> Result<IndexedRows, AllocError>
    ensures { IfOk result (λ rows. rows ≡ map.empty) }
{
    match foreign_key {
        None => Ok(IndexedRows::new(alloc)),
        Some(foreign) => {
            let columns = copied_places(alloc, foreign.columns.as_slice())?;
            Ok(IndexedRows::by_parent(alloc, columns))
        }
    }
}

fn foreign_places(foreign_key: &Option<ForeignKey>) -> &[usize]
    ensures { result.now ≡ foreign_places foreign_key.now }
{
    match foreign_key {
        None => &[],
        Some(foreign) => foreign.columns.as_slice(),
    }
}
