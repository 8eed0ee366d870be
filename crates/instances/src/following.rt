//! Rows of a child table, found from the rows of its parent by the index by parent.

ghost use Rattle.std.specs.Prelude.{◌≡◌, IfOk, OnOk};
ghost use Rattle.table_state.specs.Tables.{table_at};
ghost use Rattle.instances.specs.Collecting.{Adds, is_under};
ghost use Rattle.instances.specs.Views.{child_rows, kept_at};

use crate::collecting::{add_copy, kept_at, or_none, selects};
use crate::tree::Child;
use expressions::row_types::Key;
use std::alloc::{AllocError, Global};
use table_state::Tables;
use table_state::indexed_rows::Rows;

/// The rows of a child table that its WHERE selects and that refer to one of those kept at the parent's place. They are
/// found from there: it costs a look-up for each of those, and one for each row that refers to them.
pub(crate) fn followed_rows(
    alloc: Global,
    tables: &Tables,
    kept: &[Rows],
    child: &Child,
) -> Result<Rows, AllocError>
    ensures { IfOk result (λ rows. rows ≡ child_rows tables.now (kept_at kept.now child.now.parent) child.now) }
{
    let none = Rows::new(alloc);
    let parents = kept_at(kept, child.parent, &none);
    let rows = or_none(tables.table(child.table), &none);
    rows_under(alloc, tables, child, rows, parents)
}

fn rows_under(
    alloc: Global,
    tables: &Tables,
    child: &Child,
    rows: &Rows,
    parents: &Rows,
) -> Result<Rows, AllocError>
    requires { rows.now ≡ table_at tables.now child.now.table }
    ensures { IfOk result (λ out. out ≡ child_rows tables.now parents.now child.now) }
{
    let mut out = Rows::new(alloc);
    for place in 0..parents.len() {
        let entry = parents.entry_at(place);
        add_under(alloc, tables, child, rows, &entry.0, &mut out)?;
    }
    Ok(out)
}

// Puts in the rows that the WHERE selects and that refer to this parent.
fn add_under(
    alloc: Global,
    tables: &Tables,
    child: &Child,
    rows: &Rows,
    parent: &Key,
    out: &mut Rows,
) -> Result<(), AllocError>
    requires { rows.now ≡ table_at tables.now child.now.table }
    ensures { OnOk result (Adds (is_under tables.now child.now parent.now) rows.now out.old out.new) }
{
    let end = rows.len();
    let mut from: usize = 0;
    while from < end {
        match tables.child(child.table, parent, from) {
            None => return Ok(()),
            Some(place) => {
                let entry = rows.entry_at(place);
                if selects(&child.filter, &entry.1) {
                    add_copy(alloc, out, &entry.0, &entry.1)?;
                }
                from = place + 1;
            }
        }
    }
    Ok(())
}
