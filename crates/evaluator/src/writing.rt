//! The effects of writes.

ghost use Rattle.std.specs.Prelude.{◌≡◌, Some, slice_get};
ghost use Rattle.std.specs.FinMap.{values};
ghost use Rattle.table_state.specs.Tables.{table_at};
ghost use Rattle.table_state.specs.Keyed.{HasFit, IsKeyed, IsUnderKeys};
ghost use Rattle.evaluator.specs.KeyPaths.{ChangesChildren};
ghost use Rattle.evaluator.specs.Rules.{Adds, Gives, each};
ghost use Rattle.evaluator.specs.Writes.{done_in, done_on, done_to, effects_of, passes_rows};

use crate::beside::Beside;
use crate::building::build_row;
use crate::capped::Capped;
use crate::cascade::delete_row;
use crate::change::{Action, Change};
use crate::key_path::{selected_key, selected_parent};
use crate::looking::selects;
use crate::refusing::{over_limit, overflow, unknown_table};
use expressions::NoColumns;
use expressions::row_types::{Key, Refused, Row, Truth};
use expressions::tier_base::{Limit, TableId};
use std::alloc::Global;
use table_state::table_defs::TableDef;
use table_state::{Op, Ops, Scan};

/// The operations of a write, on its selected rows in key order. An update's expressions are read on the old row, and
/// a deletion stands behind those of the rows that leave with it by ON DELETE CASCADE. `room` is how many operations
/// its transaction may still have.
///
/// Each number of a new row is rounded to its column's scale, half away from zero, before it is seen whether it fits.
///
/// The refusal is the first broken rule, row by row: 120 of its condition, 105 of the first column that can't hold its
/// value, 106 of the first that refuses NULL, 120 of an expression. Then 119 of the transaction's operations, and 119
/// of the table's rows. It is 102 where there is no such table. Whether keys, parents and children allow the operations
/// is told where they are applied. After a refusal for want of memory, as after all others, nothing is changed.
///
/// Where the condition has no arithmetic and names the whole primary key, the row is looked up, and no other is read;
/// where it so names the whole foreign key, the rows of that parent are. (TimesTen SQL Reference, INSERT, UPDATE,
/// DELETE.)
pub fn effects<S: Scan>(
    alloc: Global,
    change: &Change,
    room: usize,
    scan: &S,
) -> Result<Ops, Refused>
    requires { IsKeyed (S.state scan.now) }
    ensures { Gives (effects_of room change.now (S.state scan.now)) result }
{
    let mut out = Capped::new(alloc, room);
    match scan.schema().get(change.table.0 as usize) {
        None => Err(unknown_table()),
        Some(def) => {
            add_ops(alloc, scan, change.table, def, &change.action, &mut out)?;
            if out.over {
                Err(over_limit(Limit::Operations))
            } else if passes_rows(scan, change.table, &change.action) {
                Err(over_limit(Limit::Rows))
            } else {
                Ok(out.kept)
            }
        }
    }
}

// Whether the table would have more rows than it may.
fn passes_rows<S: Scan>(scan: &S, table: TableId, action: &Action) -> bool
    ensures { result ≡ passes_rows (S.state scan.now) table action.now }
{
    match action {
        Action::Insert(_) => scan.len(table) as u64 >= Limit::Rows.number(),
        _ => false,
    }
}

fn add_ops<S: Scan>(
    alloc: Global,
    scan: &S,
    table: TableId,
    def: &TableDef,
    action: &Action,
    out: &mut Capped<Op>,
) -> Result<(), Refused>
    requires its_def { slice_get (S.state scan.now).schema table.0 ≡ Some def.now }
    requires under_keys { IsUnderKeys def.now.primary_key (table_at (S.state scan.now) table) }
    requires fit { HasFit def.now.columns (table_at (S.state scan.now) table) }
    ensures { Adds (done_in (S.state scan.now) table def.now action.now) result out.old out.new }
{
    match action {
        Action::Insert(exprs) => {
            let row = build_row(alloc, def.columns.as_slice(), exprs.as_slice(), &NoColumns)?;
            out.push(Op::Insert(table, row))?;
            Ok(())
        }
        Action::Update(_, _) => change_rows(alloc, scan, table, def, action, out),
        Action::Delete(_) => change_rows(alloc, scan, table, def, action, out),
    }
}

// Changes the selected rows. A row that can be looked up is.
fn change_rows<S: Scan>(
    alloc: Global,
    scan: &S,
    table: TableId,
    def: &TableDef,
    action: &Action,
    out: &mut Capped<Op>,
) -> Result<(), Refused>
    requires its_def { slice_get (S.state scan.now).schema table.0 ≡ Some def.now }
    requires under_keys { IsUnderKeys def.now.primary_key (table_at (S.state scan.now) table) }
    requires fit { HasFit def.now.columns (table_at (S.state scan.now) table) }
    ensures { Adds (each (done_on (S.state scan.now) table def.now action.now)
        (values (table_at (S.state scan.now) table))) result out.old out.new }
{
    match selected_key(
        alloc,
        action.filter(),
        &Beside::Nothing,
        def.columns.as_slice(),
        def.primary_key.as_slice(),
    )? {
        None => change_many(alloc, scan, table, def, action, out),
        Some(key) => match scan.find(table, &key) {
            None => Ok(()),
            Some(row) => change_row(alloc, scan, table, def, action, row, out),
        },
    }
}

// Changes the selected rows of the parent that the condition tells, or of all rows.
fn change_many<S: Scan>(
    alloc: Global,
    scan: &S,
    table: TableId,
    def: &TableDef,
    action: &Action,
    out: &mut Capped<Op>,
) -> Result<(), Refused>
    requires its_def { slice_get (S.state scan.now).schema table.0 ≡ Some def.now }
    requires fit { HasFit def.now.columns (table_at (S.state scan.now) table) }
    ensures { Adds (each (done_on (S.state scan.now) table def.now action.now)
        (values (table_at (S.state scan.now) table))) result out.old out.new }
{
    match selected_parent(
        alloc,
        action.filter(),
        &Beside::Nothing,
        def.columns.as_slice(),
        &def.foreign_key,
    )? {
        None => change_all(alloc, scan, table, def, action, out),
        Some(key) => change_children(alloc, scan, table, def, action, &key, out),
    }
}

// Changes the selected rows of the table that refer to the key.
fn change_children<S: Scan>(
    alloc: Global,
    scan: &S,
    table: TableId,
    def: &TableDef,
    action: &Action,
    key: &Key,
    out: &mut Capped<Op>,
) -> Result<(), Refused>
    requires { ChangesChildren (S.state scan.now) table def.now action.now key.now }
    ensures { Adds (each (done_on (S.state scan.now) table def.now action.now)
        (values (table_at (S.state scan.now) table))) result out.old out.new }
{
    let mut from: usize = 0;
    let end = scan.len(table);
    while from < end {
        match scan.child(table, key, from) {
            None => return Ok(()),
            Some(place) => {
                match scan.row(table, place) {
                    None => {}
                    Some(row) => change_row(alloc, scan, table, def, action, row, out)?,
                }
                from = place + 1;
            }
        }
    }
    Ok(())
}

fn change_all<S: Scan>(
    alloc: Global,
    scan: &S,
    table: TableId,
    def: &TableDef,
    action: &Action,
    out: &mut Capped<Op>,
) -> Result<(), Refused>
    ensures { Adds (each (done_on (S.state scan.now) table def.now action.now)
        (values (table_at (S.state scan.now) table))) result out.old out.new }
{
    for place in 0..scan.len(table) {
        match scan.row(table, place) {
            None => {}
            Some(row) => change_row(alloc, scan, table, def, action, row, out)?,
        }
    }
    Ok(())
}

// Changes a row where it is selected.
fn change_row<S: Scan>(
    alloc: Global,
    scan: &S,
    table: TableId,
    def: &TableDef,
    action: &Action,
    row: &Row,
    out: &mut Capped<Op>,
) -> Result<(), Refused>
    ensures { Adds (done_on (S.state scan.now) table def.now action.now row.now) result out.old out.new }
{
    match selects(action.filter(), row) {
        None => Err(overflow()),
        Some(Truth::True) => change_selected(alloc, scan, table, def, action, row, out),
        Some(_) => Ok(()),
    }
}

fn change_selected<S: Scan>(
    alloc: Global,
    scan: &S,
    table: TableId,
    def: &TableDef,
    action: &Action,
    row: &Row,
    out: &mut Capped<Op>,
) -> Result<(), Refused>
    ensures { Adds (done_to (S.state scan.now) table def.now action.now row.now) result out.old out.new }
{
    match action {
        Action::Insert(_) => Ok(()),
        Action::Update(exprs, _) => {
            let new = build_row(alloc, def.columns.as_slice(), exprs.as_slice(), row)?;
            let old = row.copied(alloc)?;
            out.push(Op::Update(table, old, new))?;
            Ok(())
        }
        Action::Delete(_) => {
            delete_row(alloc, scan.schema().len(), scan, table, row, out)?;
            Ok(())
        }
    }
}
