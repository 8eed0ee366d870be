//! Writing operations as the journal keeps them, from where the tier holds them.

ghost use Rattle.std.specs.Prelude.{◌≡◌, ◌+◌, ◌≤◌, ℕ, ◌∷◌, ◌++◌, length, map, OnOk, vec_capacity};
ghost use Rattle.std.specs.List.{AllByRecursion, flat_map};
ghost use Rattle.journal_entries.specs.Sizes.{capped};
ghost use Rattle.journal_entries.specs.Spelling.{IsName, IsOp, IsRow, name_bytes, op_bytes, row_bytes};
ghost use Rattle.tier_journal.specs.Writing.{name_in, written_op};

use journal_entries::size::row_size;
use journal_entries::writing::{put_byte, put_name, put_row};
use row_types::Row;
use std::alloc::AllocError;
use table_defs::TableDef;
use table_state::Op;
use tier_base::TableId;

/// The name of a table; nothing of a table that the schema lacks.
fn name_in(schema: &[TableDef], table: TableId) -> &[u8]
    ensures { result.now ≡ name_in schema.now table }
{
    match schema.get(table.0 as usize) {
        Some(def) => def.name.as_bytes(),
        None => &[],
    }
}

/// Takes memory for so many bytes more.
pub(crate) fn reserve(out: &mut Vec<u8>, bytes: u64) -> Result<(), AllocError>
    ensures room { OnOk result ((size : ℕ) → bytes ≡ capped size → length out.new.items + size ≤ vec_capacity out.new) }
    ensures items { out.new.items ≡ out.old.items }
{
    out.reserve(bytes as usize)
}

/// Puts a tag and a table's name behind the others.
fn push_table(out: &mut Vec<u8>, tag: u8, name: &[u8]) -> Result<(), AllocError>
    requires { IsName name.now }
    ensures { OnOk result (out.new.items ≡ out.old.items ++ tag ∷ name_bytes name.now) }
{
    out.reserve(name.len() + 2)?;
    put_byte(out, tag);
    put_name(out, name);
    Ok(())
}

fn push_row(out: &mut Vec<u8>, row: &Row) -> Result<(), AllocError>
    requires { IsRow 2 row.now }
    ensures { OnOk result (out.new.items ≡ out.old.items ++ row_bytes row.now) }
{
    reserve(out, row_size(row.values()))?;
    put_row(out, row.values());
    Ok(())
}

fn push_op(out: &mut Vec<u8>, schema: &[TableDef], op: &Op) -> Result<(), AllocError>
    requires { IsOp 2 (written_op schema.now op.now) }
    ensures { OnOk result (out.new.items ≡ out.old.items ++ op_bytes (written_op schema.now op.now)) }
{
    match op {
        Op::Insert(table, row) => {
            push_table(out, 1, name_in(schema, *table))?;
            push_row(out, row)
        }
        Op::Update(table, old, new) => {
            push_table(out, 2, name_in(schema, *table))?;
            push_row(out, old)?;
            push_row(out, new)
        }
        Op::Delete(table, row) => {
            push_table(out, 3, name_in(schema, *table))?;
            push_row(out, row)
        }
    }
}

/// Puts operations behind the others, by the names of their tables.
pub(crate) fn push_ops(out: &mut Vec<u8>, schema: &[TableDef], ops: &[Op]) -> Result<(), AllocError>
    requires { AllByRecursion (λ op. IsOp 2 (written_op schema.now op)) ops.now }
    ensures { OnOk result (out.new.items
        ≡ out.old.items ++ flat_map (λ op. op_bytes (written_op schema.now op)) ops.now) }
{
    for op in ops {
        push_op(out, schema, op)?;
    }
    Ok(())
}
