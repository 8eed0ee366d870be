//! Deletions with ON DELETE CASCADE.

ghost use Rattle.std.specs.Prelude.{◌≡◌, IfOk, OnOk, option_copied, option_to_list};
ghost use Rattle.std.specs.List.{flat_map};
ghost use Rattle.table_state.specs.table_defs.specs.Names.{table_id};
ghost use Rattle.table_state.specs.declared.operation.Op.TheVariants as op;
ghost use Rattle.evaluator.specs.Capping.{extended, put};
ghost use Rattle.evaluator.specs.Cascades.{cascades_from, child_at, children_from, deleted, key_in, referring};

use crate::capped::Capped;
use expressions::row_types::{Key, Row};
use expressions::tier_base::TableId;
use std::alloc::{AllocError, Global};
use table_state::table_defs::{ForeignKey, TableDef};
use table_state::{Op, Scan, key_of_row};

/// Puts the deletion of a row behind `out`, and before it those of the rows that leave with it by ON DELETE CASCADE.
/// It goes at most `depth` tables deep.
#[cycle(cascade)]
pub fn delete_row<S: Scan>(
    alloc: Global,
    depth: usize,
    scan: &S,
    table: TableId,
    row: &Row,
    out: &mut Capped<Op>,
) -> Result<(), AllocError>
    ensures { OnOk result (out.new ≡ extended out.old (deleted depth (S.state scan.now) table row.now)) }
{
    if depth == 0 {
        return Ok(());
    }
    let schema = scan.schema();
    let key = key_in(alloc, schema.get(table.0 as usize), row)?;
    let children = children_of(alloc, schema.as_slice(), table)?;
    for child in children.as_slice() {
        delete_children(alloc, depth - 1, scan, *child, &key, out)?;
    }
    push_deletion(alloc, table, row, out)
}

// Puts the deletions of the rows of a table that refer to the key behind `out`.
#[cycle(cascade)]
fn delete_children<S: Scan>(
    alloc: Global,
    depth: usize,
    scan: &S,
    child: TableId,
    key: &Key,
    out: &mut Capped<Op>,
) -> Result<(), AllocError>
    ensures { OnOk result (out.new ≡ extended out.old
        (flat_map (deleted depth (S.state scan.now) child) (referring (S.state scan.now) key.now child))) }
{
    let mut from: usize = 0;
    let end = scan.len(child);
    while from < end {
        match scan.child(child, key, from) {
            None => return Ok(()),
            Some(place) => {
                match scan.row(child, place) {
                    None => {}
                    Some(row) => delete_row(alloc, depth, scan, child, row, out)?,
                }
                from = place + 1;
            }
        }
    }
    Ok(())
}

fn push_deletion(
    alloc: Global,
    table: TableId,
    row: &Row,
    out: &mut Capped<Op>,
) -> Result<(), AllocError>
    ensures { OnOk result (out.new ≡ put out.old (op.Delete table row.now)) }
{
    if out.has_room() {
        let row = row.copied(alloc)?;
        out.push(Op::Delete(table, row))
    } else {
        out.skip();
        Ok(())
    }
}

// The key of a row of this table.
fn key_in(alloc: Global, def: Option<&TableDef>, row: &Row) -> Result<Key, AllocError>
    ensures { IfOk result (λ key. key ≡ key_in (option_copied def.entry) row.now) }
{
    match def {
        None => Ok(Key::from_vec(Vec::new(alloc))),
        Some(def) => key_of_row(alloc, def, row),
    }
}

// The tables whose rows leave with those of this one.
fn children_of(
    alloc: Global,
    defs: &[TableDef],
    parent: TableId,
) -> Result<Vec<TableId>, AllocError>
    ensures { IfOk result (λ children. children.items ≡ children_from parent 0 defs.now) }
{
    let mut children = Vec::new(alloc);
    let mut place: usize = 0;
    for def in defs {
        if let Some(child) = child_at(parent, place, def) {
            children.push(child)?;
        }
        place += 1;
    }
    Ok(children)
}

fn child_at(parent: TableId, place: usize, def: &TableDef) -> Option<TableId>
    ensures { option_to_list result ≡ child_at parent place def.now }
{
    if cascades_from(parent, &def.foreign_key) {
        table_id(place)
    } else {
        None
    }
}

fn table_id(place: usize) -> Option<TableId>
    ensures { result ≡ table_id place }
{
    if place < 4_294_967_296 {
        Some(TableId(place as u32))
    } else {
        None
    }
}

fn cascades_from(parent: TableId, foreign_key: &Option<ForeignKey>) -> bool
    ensures { result ≡ cascades_from parent foreign_key.now }
{
    match foreign_key {
        None => false,
        Some(foreign) => foreign.cascade && foreign.parent.0 == parent.0,
    }
}
