//! What changed between two states.

ghost use Rattle.std.specs.Prelude.{◌≡◌, [], ◌∷◌, ◌++◌, Some, None, IfOk, OnOk, option_copied, unwrap_or, if◌then◌else◌};
ghost use Rattle.std.specs.FinMap as map;
ghost use Rattle.table_state.specs.Copies.{is_one_of};
ghost use Rattle.table_state.specs.Tables.{table_at};
ghost use Rattle.change_log.specs.Changing.{changes_from, left_changes, new_changes, table_changes};
ghost use Rattle.change_log.specs.Logs.{IsChanged};
ghost use Rattle.change_log.specs.Netting.{where_it_differs};

use crate::log::{Log, RowChange};
use crate::netting::{copied_row, is_same_place};
use std::alloc::{AllocError, Global};
use table_state::Tables;
use table_state::indexed_rows::Rows;
use table_state::row_types::{Key, Row};
use table_state::tier_base::{Seq, TableId};

/// What changed in these tables between two states: one entry for each key whose row differs.
///
/// It goes through all rows of these tables. It fails for want of memory alone.
pub fn changed(
    alloc: Global,
    from: &Tables,
    to: &Tables,
    tables: &[TableId],
) -> Result<Log, AllocError>
    ensures { IfOk result (λ log. IsChanged tables.now from.now to.now log) }
{
    let out = changes_of(alloc, from, to, tables)?;
    Ok(Seq::from_vec(out))
}

fn changes_of(
    alloc: Global,
    from: &Tables,
    to: &Tables,
    tables: &[TableId],
) -> Result<Vec<RowChange>, AllocError>
    ensures { IfOk result (λ out. out.items ≡ changes_from from.now to.now [] tables.now) }
{
    let none = Rows::new(alloc);
    let mut out = Vec::new(alloc);
    let mut seen = Vec::new(alloc);
    for table in tables {
        let again = is_one_of(seen.as_slice(), *table);
        let old = or_none(from.table(*table), &none);
        let new = or_none(to.table(*table), &none);
        add_where(alloc, again, &mut out, *table, old, new)?;
        seen.push(*table)?;
    }
    Ok(out)
}

/// Whether the table is one of these.
pub(crate) fn is_one_of(tables: &[TableId], table: TableId) -> bool
    ensures { result ≡ is_one_of tables.now table }
{
    tables.iter().any(|one| one.0 == table.0)
}

fn or_none<'a>(rows: Option<&'a Rows>, none: &'a Rows) -> &'a Rows
    ensures { result.now ≡ unwrap_or (option_copied rows.entry) none.now }
{
    match rows {
        None => none,
        Some(rows) => rows,
    }
}

// The changes of a table, where it isn't there again.
fn add_where(
    alloc: Global,
    again: bool,
    out: &mut Vec<RowChange>,
    table: TableId,
    old: &Rows,
    new: &Rows,
) -> Result<(), AllocError>
    ensures { OnOk result (out.new.items
        ≡ out.old.items ++ (if again then [] else table_changes table old.now new.now)) }
{
    if !again {
        add_left(alloc, out, table, old, new)?;
        add_new(alloc, out, table, old, new)?;
    }
    Ok(())
}

fn add_left(
    alloc: Global,
    out: &mut Vec<RowChange>,
    table: TableId,
    old: &Rows,
    new: &Rows,
) -> Result<(), AllocError>
    ensures { OnOk result (out.new.items ≡ out.old.items ++ left_changes table new.now (map.entries old.now)) }
{
    for place in 0..old.len() {
        let (key, row) = old.entry_at(place);
        add_change(alloc, out, table, key, row, new.get(key))?;
    }
    Ok(())
}

fn add_change(
    alloc: Global,
    out: &mut Vec<RowChange>,
    table: TableId,
    key: &Key,
    row: &Row,
    new: Option<&Row>,
) -> Result<(), AllocError>
    ensures { OnOk result (out.new.items ≡ out.old.items ++ where_it_differs (record {
      table = table;
      key = key.now;
      old = Some row.now;
      new = option_copied new.entry;
    })) }
{
    let old = Some(row.copied(alloc)?);
    if is_same_place(&old, new) {
        return Ok(());
    }
    let key = key.copied(alloc)?;
    let new = copied_row(alloc, new)?;
    out.push(RowChange {
        table,
        key,
        old,
        new,
    })?;
    Ok(())
}

fn add_new(
    alloc: Global,
    out: &mut Vec<RowChange>,
    table: TableId,
    old: &Rows,
    new: &Rows,
) -> Result<(), AllocError>
    ensures { OnOk result (out.new.items ≡ out.old.items ++ new_changes table old.now (map.entries new.now)) }
{
    for place in 0..new.len() {
        let (key, row) = new.entry_at(place);
        add_where_new(alloc, out, table, key, row, old.contains_key(key))?;
    }
    Ok(())
}

fn add_where_new(
    alloc: Global,
    out: &mut Vec<RowChange>,
    table: TableId,
    key: &Key,
    row: &Row,
    was_there: bool,
) -> Result<(), AllocError>
    ensures { OnOk result (out.new.items ≡ out.old.items ++ (if was_there then []
        else record { table = table; key = key.now; old = None; new = Some row.now } ∷ [])) }
{
    if !was_there {
        let key = key.copied(alloc)?;
        let new = Some(row.copied(alloc)?);
        out.push(RowChange {
            table,
            key,
            old: None,
            new,
        })?;
    }
    Ok(())
}
