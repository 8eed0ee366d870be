//! Transactions of the tier.

ghost use Rattle.backing_sqlite.specs.Waiting.{WaitsFor};

use crate::fault::StoreFault;
use crate::judging::{Difference, difference_at};
use crate::reading::{first_missing, position_of};
use crate::shelf::Shelf;
use crate::store::{Base, Store, end};
use crate::values::LogPlace;
use crate::writing::{add_record, do_op, next_entry};
use outside::{Applied, Receipt};
use std::alloc::Global;
use table_state::{Op, Sealed};
use tier_base::{Position, Ticket};

/// Applies and records a transaction, in one transaction of the store, where its ticket isn't recorded yet, those of
/// `after` are, and its operations apply. Else nothing changes.
pub(crate) fn apply_once(
    alloc: Global,
    base: &mut Base,
    shelf: &Shelf,
    sealed: &Sealed,
    after: &[Ticket],
) -> Result<Applied, StoreFault>
    ensures waits { WaitsFor after.now result }
{
    match base.begin() {
        Ok(mut tx) => {
            let done = apply_in(alloc, &mut tx, shelf, sealed, after);
            match end(tx, is_applied(&done)) {
                Ok(()) => done,
                Err(fault) => Err(fault),
            }
        }
        Err(fault) => Err(fault),
    }
}

fn is_applied(done: &Result<Applied, StoreFault>) -> bool {
    match done {
        Ok(Applied::Now(_)) => true,
        _ => false,
    }
}

// The same, where what was done before an operation that doesn't apply is still to be taken back.
fn apply_in<S: Store>(
    alloc: Global,
    tx: &mut S,
    shelf: &Shelf,
    sealed: &Sealed,
    after: &[Ticket],
) -> Result<Applied, StoreFault>
    ensures waits { WaitsFor after.now result }
{
    let ticket = sealed.ticket;
    if let Some(position) = position_of(tx, ticket)? {
        return Ok(Applied::Before(receipt(ticket, position)));
    }
    if let Some(missing) = first_missing(tx, after)? {
        return Ok(Applied::NotReady(missing));
    }
    match do_all(alloc, tx, shelf, sealed.ops.as_slice())? {
        Some(difference) => Ok(difference.told()),
        None => match add_record(tx, ticket) {
            Ok(position) => Ok(Applied::Now(receipt(ticket, position))),
            Err(fault) => Err(fault),
        },
    }
}

// Does the operations from left to right, up to the first that doesn't apply.
fn do_all<S: Store>(
    alloc: Global,
    tx: &mut S,
    shelf: &Shelf,
    ops: &[Op],
) -> Result<Option<Difference>, StoreFault> {
    let position = next_entry(tx)?;
    let mut before = None;
    for (number, op) in ops.iter().enumerate() {
        match difference_at(alloc, tx, shelf, op)? {
            None => do_op(alloc, tx, shelf, before, op, LogPlace { position, number })?,
            Some(difference) => return Ok(Some(difference)),
        }
        before = Some(op);
    }
    Ok(None)
}

fn receipt(ticket: Ticket, position: u64) -> Receipt {
    Receipt {
        ticket,
        position: Position(position),
    }
}
