//! Several orders of the same rows.

ghost use Rattle.std.specs.Prelude.{OnOk};
ghost use Rattle.slot_rows.specs.Orders.{Awaits, Each, EachNow, EmptiesOrder, EntersOrder, HasSpare, Includes, SameOrder, LeavesOrder};

use crate::order::Order;
use indexed_rows::row_types::Row;
use slab::Slab;
use std::alloc::{AllocError, Global};

// Makes room in each until there is room for so many more slots.
//
// It fails for want of memory alone.
fn reserve_each(orders: &mut [Order], alloc: Global, more: usize) -> Result<(), AllocError>
    ensures kept { EachNow SameOrder orders.old orders.new }
    ensures ok { OnOk result (Each (HasSpare more) orders.new) }
{
    match orders.split_first_mut() {
        None => Ok(()),
        Some((order, orders)) => {
            order.reserve(alloc, more)?;
            reserve_each(orders, alloc, more)
        }
    }
}

// Enters a slot with a row into each. It takes no memory.
fn enter_each(orders: &mut [Order], rows: &Slab<Row>, slot: usize)
    requires { Each (Awaits rows.now slot) orders.old }
    ensures { EachNow (EntersOrder rows.now slot) orders.old orders.new }
{
    match orders.split_first_mut() {
        None => {}
        Some((order, orders)) => {
            order.enter_row(rows, slot);
            enter_each(orders, rows, slot);
        }
    }
}

// Takes a slot with a row out of each. It takes no memory.
fn leave_each(orders: &mut [Order], rows: &Slab<Row>, slot: usize)
    requires { Each (Includes rows.now slot) orders.old }
    ensures { EachNow (LeavesOrder slot) orders.old orders.new }
{
    match orders.split_first_mut() {
        None => {}
        Some((order, orders)) => {
            order.leave_row(rows, slot);
            leave_each(orders, rows, slot);
        }
    }
}

// Takes all slots out of each. It takes no memory.
fn clear_each(orders: &mut [Order], alloc: Global)
    ensures { EachNow EmptiesOrder orders.old orders.new }
{
    match orders.split_first_mut() {
        None => {}
        Some((order, orders)) => {
            order.clear(alloc);
            clear_each(orders, alloc);
        }
    }
}

// Makes room in all until there is room for so many more slots.
//
// It fails for want of memory alone.
pub(crate) fn reserve_all(
    orders: &mut Vec<Order>,
    alloc: Global,
    more: usize,
) -> Result<(), AllocError>
    ensures kept { EachNow SameOrder orders.old.items orders.new.items }
    ensures ok { OnOk result (Each (HasSpare more) orders.new.items) }
{
    reserve_each(orders.as_mut_slice(), alloc, more)
}

// Enters a slot with a row into all. It takes no memory.
pub(crate) fn enter_all(orders: &mut Vec<Order>, rows: &Slab<Row>, slot: usize)
    requires { Each (Awaits rows.now slot) orders.old.items }
    ensures { EachNow (EntersOrder rows.now slot) orders.old.items orders.new.items }
{
    enter_each(orders.as_mut_slice(), rows, slot);
}

// Takes a slot with a row out of all. It takes no memory.
pub(crate) fn leave_all(orders: &mut Vec<Order>, rows: &Slab<Row>, slot: usize)
    requires { Each (Includes rows.now slot) orders.old.items }
    ensures { EachNow (LeavesOrder slot) orders.old.items orders.new.items }
{
    leave_each(orders.as_mut_slice(), rows, slot);
}

// Takes all slots out of all. It takes no memory.
pub(crate) fn clear_all(orders: &mut Vec<Order>, alloc: Global)
    ensures { EachNow EmptiesOrder orders.old.items orders.new.items }
{
    clear_each(orders.as_mut_slice(), alloc);
}
