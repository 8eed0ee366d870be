//! The log of a history.

ghost use Rattle.std.specs.Prelude.{◌≡◌, [], ◌∷◌, ◌++◌, IfOk, OnOk, option_copied, if◌then◌else◌};
ghost use Rattle.table_state.specs.Copies.{is_one_of};
ghost use Rattle.table_state.specs.Operations.{table_of};
ghost use Rattle.change_log.specs.Steps.{change_of, changes_of, entry_changes, key_in, logged_over, of_tables};

use crate::changing::is_one_of;
use crate::log::{Log, RowChange};
use std::alloc::{AllocError, Global};
use table_state::row_types::{Key, Row};
use table_state::table_defs::{BackingSchema, TableDef};
use table_state::tier_base::{Seq, TableId};
use table_state::{Entry, Op, key_of_row};

/// The log of entries of a history, in some tables: a change for each of their operations. The definitions are those
/// that stand behind the entries.
///
/// It goes through the operations once. It fails for want of memory alone.
pub fn logged(
    alloc: Global,
    schema: &BackingSchema,
    entries: &[Entry],
    tables: &[TableId],
) -> Result<Log, AllocError>
    ensures { IfOk result (λ log. log ≡ of_tables tables.now (logged_over schema.now entries.now)) }
{
    let out = log_of(alloc, schema, entries, tables)?;
    Ok(Seq::from_vec(out))
}

fn log_of(
    alloc: Global,
    schema: &BackingSchema,
    entries: &[Entry],
    tables: &[TableId],
) -> Result<Vec<RowChange>, AllocError>
    ensures { IfOk result (λ out. out.items ≡ of_tables tables.now (logged_over schema.now entries.now)) }
{
    let mut out = Vec::new(alloc);
    for entry in entries {
        add_entry(alloc, &mut out, schema, entry, tables)?;
    }
    Ok(out)
}

fn add_entry(
    alloc: Global,
    out: &mut Vec<RowChange>,
    schema: &BackingSchema,
    entry: &Entry,
    tables: &[TableId],
) -> Result<(), AllocError>
    ensures { OnOk result (out.new.items
        ≡ out.old.items ++ of_tables tables.now (entry_changes schema.now entry.now)) }
{
    match entry {
        Entry::Definition(_) => Ok(()),
        Entry::Foreign(ops) => add_ops(alloc, out, schema, ops.as_slice(), tables),
        Entry::Own(_, ops) => add_ops(alloc, out, schema, ops.as_slice(), tables),
    }
}

fn add_ops(
    alloc: Global,
    out: &mut Vec<RowChange>,
    schema: &BackingSchema,
    ops: &[Op],
    tables: &[TableId],
) -> Result<(), AllocError>
    ensures { OnOk result (out.new.items ≡ out.old.items ++ of_tables tables.now (changes_of schema.now ops.now)) }
{
    for op in ops {
        add_op(alloc, out, schema, op, tables)?;
    }
    Ok(())
}

fn add_op(
    alloc: Global,
    out: &mut Vec<RowChange>,
    schema: &BackingSchema,
    op: &Op,
    tables: &[TableId],
) -> Result<(), AllocError>
    ensures { OnOk result (out.new.items ≡ out.old.items
        ++ (if is_one_of tables.now (table_of op.now) then change_of schema.now op.now ∷ [] else [])) }
{
    if is_one_of(tables, op.table()) {
        let change = change_of(alloc, schema, op)?;
        out.push(change)?;
    }
    Ok(())
}

// The change that is written beside an operation.
fn change_of(alloc: Global, schema: &BackingSchema, op: &Op) -> Result<RowChange, AllocError>
    ensures { IfOk result (λ change. change ≡ change_of schema.now op.now) }
{
    match op {
        Op::Insert(table, row) => {
            let key = key_in(alloc, schema.get(table.0 as usize), row)?;
            let new = Some(row.copied(alloc)?);
            Ok(RowChange {
                table: *table,
                key,
                old: None,
                new,
            })
        }
        Op::Update(table, old, new) => {
            let key = key_in(alloc, schema.get(table.0 as usize), old)?;
            let old = Some(old.copied(alloc)?);
            let new = Some(new.copied(alloc)?);
            Ok(RowChange {
                table: *table,
                key,
                old,
                new,
            })
        }
        Op::Delete(table, old) => {
            let key = key_in(alloc, schema.get(table.0 as usize), old)?;
            let old = Some(old.copied(alloc)?);
            Ok(RowChange {
                table: *table,
                key,
                old,
                new: None,
            })
        }
    }
}

// The primary key of a row of this table.
fn key_in(alloc: Global, def: Option<&TableDef>, row: &Row) -> Result<Key, AllocError>
    ensures { IfOk result (λ key. key ≡ key_in (option_copied def.entry) row.now) }
{
    match def {
        None => Ok(Key::from_vec(Vec::new(alloc))),
        Some(def) => key_of_row(alloc, def, row),
    }
}
