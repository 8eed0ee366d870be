//! Writes of sessions that are passed on.

use crate::fault::StoreFault;
use crate::foreign::{is_written, write_in};
use crate::reading::position_of;
use crate::shelf::Shelf;
use crate::store::{Base, Store, end};
use crate::writing::add_record;
use evaluator::Change;
use outside::Done;
use std::alloc::Global;
use std::slice::from_ref;
use tier_base::Ticket;

/// Does one write and records it with its ticket, in one transaction of the store, where it breaks no rule and its
/// ticket isn't recorded yet. Else nothing changes.
pub(crate) fn passed(
    alloc: Global,
    base: &mut Base,
    shelf: &Shelf,
    ticket: Ticket,
    change: &Change,
) -> Result<Done, StoreFault> {
    match base.begin() {
        Ok(mut tx) => {
            let done = passed_in(alloc, &mut tx, shelf, ticket, change);
            match end(tx, is_written(&done)) {
                Ok(()) => done,
                Err(fault) => Err(fault),
            }
        }
        Err(fault) => Err(fault),
    }
}

// The same, where after an error what was done is still to be taken back.
fn passed_in<S: Store>(
    alloc: Global,
    tx: &mut S,
    shelf: &Shelf,
    ticket: Ticket,
    change: &Change,
) -> Result<Done, StoreFault> {
    if position_of(tx, ticket)?.is_some() {
        return Err(StoreFault::Failed);
    }
    let done = write_in(alloc, tx, shelf, from_ref(change))?;
    match &done {
        Done::Broken(_) => Ok(done),
        Done::Rows(_) => match add_record(tx, ticket) {
            Ok(_) => Ok(done),
            Err(fault) => Err(fault),
        },
    }
}
