//! Transactions of the console, and copies of the tables.

ghost use Rattle.table_state.specs.Keyed.{IsKeyed};

use crate::closure::Choice;
use crate::fault::StoreFault;
use crate::loading::load;
use crate::reading::entries;
use crate::shelf::Shelf;
use crate::store::{Base, Store, end, end_reading};
use crate::values::LogPlace;
use crate::writing::{add_entry, do_op, next_entry};
use evaluator::Change;
use outside::{Done, Snapshot};
use std::alloc::Global;
use table_state::{ApplyError, Op, Tables};
use tier_base::{Position, TableId};
use transactions::write_all;

/// Does the writes of a transaction of the console, all of them or none, in one transaction of the store.
pub(crate) fn foreign(
    alloc: Global,
    base: &mut Base,
    shelf: &Shelf,
    changes: &[Change],
) -> Result<Done, StoreFault> {
    match base.begin() {
        Ok(mut tx) => {
            let done = foreign_in(alloc, &mut tx, shelf, changes);
            match end(tx, is_written(&done)) {
                Ok(()) => done,
                Err(fault) => Err(fault),
            }
        }
        Err(fault) => Err(fault),
    }
}

/// Whether rows were written.
pub(crate) fn is_written(done: &Result<Done, StoreFault>) -> bool {
    match done {
        Ok(Done::Rows(_)) => true,
        _ => false,
    }
}

fn foreign_in<S: Store>(
    alloc: Global,
    tx: &mut S,
    shelf: &Shelf,
    changes: &[Change],
) -> Result<Done, StoreFault> {
    let done = write_in(alloc, tx, shelf, changes)?;
    match &done {
        Done::Broken(_) => Ok(done),
        Done::Rows(_) => match add_entry(tx) {
            Ok(_) => Ok(done),
            Err(fault) => Err(fault),
        },
    }
}

/// Does writes, all of them or none. They are judged on copies of their tables, and of those that refer to these or are
/// referred to. After an error what was done is still to be taken back.
pub(crate) fn write_in<S: Store>(
    alloc: Global,
    tx: &mut S,
    shelf: &Shelf,
    changes: &[Change],
) -> Result<Done, StoreFault> {
    let choice = family_of(alloc, shelf, changes)?;
    match load(alloc, tx, shelf, &choice) {
        Ok(tables) => write_on(alloc, tx, shelf, tables, changes),
        Err(fault) => Err(fault),
    }
}

// Does the writes, which are judged on these tables.
fn write_on<S: Store>(
    alloc: Global,
    tx: &mut S,
    shelf: &Shelf,
    tables: Tables,
    changes: &[Change],
) -> Result<Done, StoreFault>
    requires { IsKeyed tables }
{
    let mut tables = tables;
    match write_all(alloc, &mut tables, changes) {
        Ok(written) => match write_ops(alloc, tx, shelf, written.ops.as_slice()) {
            Ok(()) => Ok(Done::Rows(written.rows as u64)),
            Err(fault) => Err(fault),
        },
        Err(error) => refused(error),
    }
}

// The tables of the writes, with those that refer to these or are referred to.
fn family_of(alloc: Global, shelf: &Shelf, changes: &[Change]) -> Result<Choice, StoreFault> {
    let mut choice = Choice::none(alloc, shelf.schema().len())?;
    for change in changes {
        choice.add(change.table);
    }
    choice.add_family(shelf.schema())?;
    Ok(choice)
}

// What is told of writes that weren't done.
fn refused(error: ApplyError) -> Result<Done, StoreFault> {
    match error {
        ApplyError::Rule(rule) => Ok(Done::Broken(rule)),
        ApplyError::Differs(_, _, _) => Err(StoreFault::Failed),
        ApplyError::Memory => Err(StoreFault::Memory),
    }
}

fn write_ops<S: Store>(
    alloc: Global,
    tx: &mut S,
    shelf: &Shelf,
    ops: &[Op],
) -> Result<(), StoreFault> {
    let position = next_entry(tx)?;
    let mut before = None;
    for (number, op) in ops.iter().enumerate() {
        do_op(alloc, tx, shelf, before, op, LogPlace { position, number })?;
        before = Some(op);
    }
    Ok(())
}

/// The definitions of all tables and the rows of these, with the number of entries. Nothing changes.
pub(crate) fn snapshot(
    alloc: Global,
    base: &mut Base,
    shelf: &Shelf,
    asked: &[TableId],
) -> Result<Snapshot, StoreFault> {
    match base.begin() {
        Ok(mut tx) => {
            let found = snapshot_in(alloc, &mut tx, shelf, asked);
            end_reading(tx);
            found
        }
        Err(fault) => Err(fault),
    }
}

fn snapshot_in<S: Store>(
    alloc: Global,
    tx: &mut S,
    shelf: &Shelf,
    asked: &[TableId],
) -> Result<Snapshot, StoreFault> {
    let mut choice = Choice::none(alloc, shelf.schema().len())?;
    for table in asked {
        choice.add(*table);
    }
    let own = choice.len();
    match choice.add_parents(shelf.schema()) {
        Ok(()) => snapshot_with(alloc, tx, shelf, &choice, own, asked),
        Err(fault) => Err(fault),
    }
}

// The snapshot, where these tables are read, and so many of them are asked for.
fn snapshot_with<S: Store>(
    alloc: Global,
    tx: &mut S,
    shelf: &Shelf,
    choice: &Choice,
    own: usize,
    asked: &[TableId],
) -> Result<Snapshot, StoreFault> {
    let count = entries(tx)?;
    match load(alloc, tx, shelf, choice) {
        Ok(all) => match only(alloc, all, choice.len() == own, asked) {
            Ok(tables) => Ok(Snapshot {
                position: Position(count),
                tables,
            }),
            Err(fault) => Err(fault),
        },
        Err(fault) => Err(fault),
    }
}

// The tables with the rows of those that are asked for, which may be all that have rows.
fn only(
    alloc: Global,
    tables: Tables,
    are_all: bool,
    asked: &[TableId],
) -> Result<Tables, StoreFault> {
    if are_all {
        return Ok(tables);
    }
    match tables.copied_of(alloc, asked) {
        Ok(copy) => Ok(copy),
        Err(_) => Err(StoreFault::Memory),
    }
}
