//! The keys that operations write.

ghost use Rattle.std.specs.Prelude.{◌≡◌, IfOk, OnOk, option_copied};
ghost use Rattle.table_state.specs.declared.footprint.RowKey.{RowKey as OneKey};
ghost use Rattle.pending_writes.specs.LastWriters.{last_left, left_by_row, left_at};
ghost use Rattle.pending_writes.specs.Noting.{IsEntered, NotesMore, noted, told_by};

use crate::writers::{Writer, Writers};
use std::alloc::{AllocError, Global};
use table_state::row_types::{Key, Row};
use table_state::table_defs::{BackingSchema, TableDef};
use table_state::tier_base::{TableId, Ticket};
use table_state::{Op, key_of_row};

/// A key that an operation writes.
pub(crate) struct Write {
    /// The table.
    pub(crate) table: TableId,
    /// The key.
    pub(crate) key: Key,
    /// Whether the operation leaves a row there.
    pub(crate) leaves: bool,
}

impl Drop for Write {
    fn drop(self) {
        let Self {
            table: _,
            key: _,
            leaves: _,
        } = self;
    }
}

impl Write {
    /// Notes that this transaction made the write, whose key is entered. It takes no memory.
    pub(crate) fn note(self, tables: &mut [Writers], ticket: Ticket)
        requires { IsEntered tables.old self }
        ensures { tables.new ≡ noted ticket self tables.old }
    {
        let Self { table, key, leaves } = self;
        tables[table.0 as usize].note(key, Writer { ticket, leaves });
    }
}

/// The keys that operations write, one operation behind the other. It fails for want of memory alone.
pub(crate) fn writes_of(
    alloc: Global,
    schema: &BackingSchema,
    ops: &[Op],
) -> Result<Vec<Write>, AllocError>
    ensures { IfOk result (λ writes. (k : OneKey) → told_by k writes.items ≡ last_left schema.now k ops.now) }
{
    let mut writes = Vec::with_capacity(alloc, ops.len())?;
    for op in ops {
        add_op(&mut writes, alloc, schema, op)?;
    }
    Ok(writes)
}

// Those of one operation go behind the others.
fn add_op(
    writes: &mut Vec<Write>,
    alloc: Global,
    schema: &BackingSchema,
    op: &Op,
) -> Result<(), AllocError>
    ensures { OnOk result (NotesMore (λ k. left_at schema.now k op.now) writes.old.items writes.new.items) }
{
    let table = op.table();
    let def = schema.get(table.0 as usize);
    match op {
        Op::Insert(_, row) => add_row(writes, alloc, table, def, row, true),
        Op::Update(_, old, new) => {
            add_row(writes, alloc, table, def, old, true)?;
            add_row(writes, alloc, table, def, new, true)
        }
        Op::Delete(_, row) => add_row(writes, alloc, table, def, row, false),
    }
}

// The key of a row goes behind the others.
fn add_row(
    writes: &mut Vec<Write>,
    alloc: Global,
    table: TableId,
    def: Option<&TableDef>,
    row: &Row,
    leaves: bool,
) -> Result<(), AllocError>
    ensures { OnOk result (NotesMore
        (λ k. left_by_row k table (option_copied def.entry) row.now leaves)
        writes.old.items writes.new.items) }
{
    match def {
        None => Ok(()),
        Some(def) => {
            let key = key_of_row(alloc, def, row)?;
            writes.push(Write { table, key, leaves })?;
            Ok(())
        }
    }
}
