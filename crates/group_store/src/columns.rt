//! Columns of keys, and rows found by them.

ghost use Rattle.std.specs.Prelude.{◌≡◌, ◌++◌, IfOk};
ghost use Rattle.slot_rows.specs.Orders.{place_from};
ghost use Rattle.group_store.specs.Recent.{orders_for};

use slot_rows::SlotRows;
use slot_rows::row_types::Value;
use slot_rows::tier_base::Seq;
use std::alloc::{AllocError, Global};

// Some columns and then others.
pub(crate) fn joined(
    alloc: Global,
    first: &[usize],
    second: &[usize],
) -> Result<Seq<usize>, AllocError>
    ensures { IfOk result (λ columns. columns ≡ first.now ++ second.now) }
{
    let mut columns = Vec::from_slice(alloc, first)?;
    columns.extend_from_slice(second)?;
    Ok(Seq::from_vec(columns))
}

// The first place in key order, from a place on, of a row whose foreign key, which these columns are, names a key.
// Where there is a foreign key, there is an order by it.
pub(crate) fn place_of_child(
    rows: &SlotRows,
    foreign: &[usize],
    key: &[Value],
    from: usize,
) -> Option<usize>
    requires { rows.now.orders ≡ orders_for foreign.now rows.now.places }
    ensures { result ≡ place_from rows.now.table foreign.now key.now from }
{
    if key.len() != foreign.len() {
        return None;
    }
    if foreign.len() > 0 {
        return rows.next_with(0, key, from);
    }
    if from < rows.len() { Some(from) } else { None }
}
