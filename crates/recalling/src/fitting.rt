//! Whether the tickets and the transactions of a journal fit.

ghost use Rattle.std.specs.Prelude.{◌≡◌, slice_get};
ghost use Rattle.std.specs.List.{list_all};
ghost use Rattle.table_state.specs.Operations.{table_of};
ghost use Rattle.table_state.specs.Tables.{fits_columns};
ghost use Rattle.cache_tier.specs.Groups.{is_table_of};
ghost use Rattle.cache_tier.specs.StandingBetween.{HaveOwnTables};
ghost use Rattle.group_catalog.specs.Catalogs.{groups_in};
ghost use Rattle.recalling.specs.Fitting.{fits_table, has_fitting_rows, is_mark, is_next_ticket, keeps_key, op_fits};
ghost use Rattle.recalling.specs.Steps.{is_of_kind};

use group_catalog::Catalog;
use indexed_rows::first_change;
use row_types::{Column, Row, Value, fits};
use table_defs::{BackingSchema, TableDef};
use table_state::Op;
use tier_base::{Limit, TableId, Ticket};

// One above the last ticket.
const MARKS: u64 = 1 << 63;

// Whether a ticket is above those before it, and not past the last one.
pub(crate) fn is_next_ticket(above: u64, ticket: Ticket) -> bool
    ensures { result ≡ is_next_ticket above ticket.0 }
{
    above <= ticket.0 && ticket.0 <= Limit::Tickets.number()
}

// Whether a mark is one above the last ticket at most.
pub(crate) fn is_mark(next: Ticket) -> bool
    ensures { result ≡ is_mark next.0 }
{
    next.0 <= MARKS
}

// Whether each of these operations is on a table of a group of the kind, and its rows fit the table.
pub(crate) fn ops_fit(
    schema: &BackingSchema,
    catalog: &Catalog,
    synchronous: bool,
    ops: &[Op],
) -> bool
    requires { HaveOwnTables (groups_in catalog.now) }
    ensures { result ≡ list_all (op_fits schema.now (groups_in catalog.now) (is_of_kind synchronous)) ops.now }
{
    for op in ops {
        if !op_fits(schema, catalog, synchronous, op) {
            return false;
        }
    }
    true
}

fn op_fits(schema: &BackingSchema, catalog: &Catalog, synchronous: bool, op: &Op) -> bool
    requires { HaveOwnTables (groups_in catalog.now) }
    ensures { result ≡ op_fits schema.now (groups_in catalog.now) (is_of_kind synchronous) op.now }
{
    is_of_kind(catalog, synchronous, op.table()) && fits_table(schema, op)
}

// Whether a group of the kind has the table.
fn is_of_kind(catalog: &Catalog, synchronous: bool, table: TableId) -> bool
    requires { HaveOwnTables (groups_in catalog.now) }
    ensures { result ≡ is_table_of (is_of_kind synchronous) (groups_in catalog.now) table }
{
    if synchronous {
        catalog.is_synchronous(table)
    } else {
        catalog.is_written_through(table) && !catalog.is_synchronous(table)
    }
}

fn fits_table(schema: &BackingSchema, op: &Op) -> bool
    ensures { result ≡ fits_table (slice_get schema.now (table_of op.now).0) op.now }
{
    match schema.get(op.table().0 as usize) {
        None => false,
        Some(def) => has_fitting_rows(def, op),
    }
}

fn has_fitting_rows(def: &TableDef, op: &Op) -> bool
    ensures { result ≡ has_fitting_rows def.now op.now }
{
    let columns = def.columns.as_slice();
    match op {
        Op::Insert(_, row) => fits_columns(columns, row.values()),
        Op::Update(_, old, new) => {
            fits_columns(columns, old.values())
                && fits_columns(columns, new.values())
                && keeps_key(def, old, new)
        }
        Op::Delete(_, row) => fits_columns(columns, row.values()),
    }
}

fn keeps_key(def: &TableDef, old: &Row, new: &Row) -> bool
    ensures { result ≡ keeps_key def.now old.now new.now }
{
    first_change(def.primary_key.as_slice(), old.values(), new.values()).is_none()
}

// Whether there are as many values as columns, and each column takes its value.
fn fits_columns(columns: &[Column], values: &[Value]) -> bool
    ensures { result ≡ fits_columns columns.now values.now }
{
    match (columns.split_first(), values.split_first()) {
        (None, None) => true,
        (Some((column, columns)), Some((value, values))) => {
            fits(value, column).is_ok() && fits_columns(columns, values)
        }
        _ => false,
    }
}
