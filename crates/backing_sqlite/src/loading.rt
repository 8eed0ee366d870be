//! Tables read out of the store.

ghost use Rattle.table_state.specs.Keyed.{IsKeyed};
ghost use Rattle.std.specs.Prelude.{IfOk};

use crate::closure::Choice;
use crate::fault::StoreFault;
use crate::judging::table_at;
use crate::shelf::Shelf;
use crate::store::{Store, TakesRows};
use crate::values::row_of;
use std::alloc::Global;
use table_defs::TableDef;
use table_state::scan_laws::keyed_law;
use table_state::{ApplyError, Entry, Op, Tables};
use tier_base::TableId;

/// All tables, with rows of the chosen ones alone. Those that the chosen ones refer to have to be chosen too. It fails
/// where a row breaks a rule of its table.
pub(crate) fn load<S: Store>(
    alloc: Global,
    tx: &mut S,
    shelf: &Shelf,
    choice: &Choice,
) -> Result<Tables, StoreFault>
    ensures keyed { IfOk result IsKeyed }
{
    let mut tables = bare(alloc, shelf.schema().as_slice())?;
    for (place, def) in shelf.schema().as_slice().iter().enumerate() {
        let table = table_at(place)?;
        if choice.has(table) {
            tables = load_rows(alloc, tx, shelf, table, def, tables)?;
        }
    }
    Ok(tables)
}

// The tables without rows.
fn bare(alloc: Global, defs: &[TableDef]) -> Result<Tables, StoreFault>
    ensures keyed { IfOk result IsKeyed }
{
    let mut entries = Vec::with_capacity(alloc, defs.len())?;
    for def in defs {
        entries.push(Entry::Definition(def.copied(alloc)?))?;
    }
    after(alloc, entries.as_slice())
}

// The tables that the entries leave.
fn after(alloc: Global, entries: &[Entry]) -> Result<Tables, StoreFault>
    ensures keyed { IfOk result IsKeyed }
{
    keyed_law();
    let mut tables = Tables::new(alloc);
    match tables.run(alloc, entries) {
        Ok(()) => Ok(tables),
        Err(_) => Err(StoreFault::Memory),
    }
}

// Puts in the rows of a table.
fn load_rows<S: Store>(
    alloc: Global,
    tx: &mut S,
    shelf: &Shelf,
    table: TableId,
    def: &TableDef,
    tables: Tables,
) -> Result<Tables, StoreFault>
    requires { IsKeyed tables }
    ensures keyed { IfOk result IsKeyed }
{
    let text = shelf.texts(table)?.all.as_str();
    let mut loaded = Loaded {
        alloc,
        table,
        def,
        tables,
    };
    tx.each_row(text, &[], &mut loaded)?;
    Ok(loaded.into_tables())
}

// Tables, of which one gets its rows.
struct Loaded<'a> {
    alloc: Global,
    table: TableId,
    def: &'a TableDef,
    tables: Tables,
}

impl Drop for Loaded<'_> {
    fn drop(self) {
        let Self {
            alloc: _,
            table: _,
            def: _,
            tables: _,
        } = self;
    }
}

impl TakesRows for Loaded<'_> {
    ghost use Rattle.table_state.specs.Keyed.{IsKeyed};

    ghost keeps = { λ loaded. IsKeyed loaded.tables };

    fn take(&mut self, stored: &sqlite::Row) -> Result<(), StoreFault> {
        let row = row_of(self.alloc, self.def.columns.as_slice(), stored)?;
        put(self.alloc, &mut self.tables, &[Op::Insert(self.table, row)])
    }
}

impl Loaded<'_> {
    ghost use Rattle.std.specs.Prelude.{◌≡◌};

    fn into_tables(self) -> Tables
        ensures { result ≡ self.entry.tables }
    {
        let Self {
            alloc: _,
            table: _,
            def: _,
            tables,
        } = self;
        tables
    }
}

fn put(alloc: Global, tables: &mut Tables, ops: &[Op]) -> Result<(), StoreFault>
    requires { IsKeyed tables.old }
    ensures keyed { IsKeyed tables.new }
{
    keyed_law();
    match tables.apply_all(alloc, ops) {
        Ok(()) => Ok(()),
        Err(ApplyError::Memory) => Err(StoreFault::Memory),
        Err(_) => Err(StoreFault::Failed),
    }
}
