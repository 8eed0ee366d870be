//! New backing tables.

use crate::catalog::make_log;
use crate::fault::StoreFault;
use crate::judging::table_at;
use crate::schema_rows::write_def;
use crate::shelf::Shelf;
use crate::store::{Base, Store, end};
use crate::texts::{create_text, index_text};
use crate::writing::{add_entry, give};
use std::alloc::Global;
use table_defs::TableDef;

/// Makes a table, in one transaction of the store. After an error the shelf is as it was.
pub(crate) fn define(
    alloc: Global,
    base: &mut Base,
    shelf: &mut Shelf,
    def: &TableDef,
) -> Result<(), StoreFault> {
    let place = table_at(shelf.schema().len())?.0;
    shelf.push(alloc, def.copied(alloc)?)?;
    match make(alloc, base, shelf, place, def) {
        Ok(()) => Ok(()),
        Err(fault) => {
            shelf.pop();
            Err(fault)
        }
    }
}

fn make(
    alloc: Global,
    base: &mut Base,
    shelf: &Shelf,
    place: u32,
    def: &TableDef,
) -> Result<(), StoreFault> {
    match base.begin() {
        Ok(mut tx) => {
            let done = make_in(alloc, &mut tx, shelf, place, def);
            match end(tx, done.is_ok()) {
                Ok(()) => done,
                Err(fault) => Err(fault),
            }
        }
        Err(fault) => Err(fault),
    }
}

fn make_in<S: Store>(
    alloc: Global,
    tx: &mut S,
    shelf: &Shelf,
    place: u32,
    def: &TableDef,
) -> Result<(), StoreFault> {
    make_table(alloc, tx, shelf, def)?;
    make_index(alloc, tx, def)?;
    make_log(alloc, tx, def)?;
    write_def(tx, place, def)?;
    add_entry(tx).map(|_| ())
}

fn make_table<S: Store>(
    alloc: Global,
    tx: &mut S,
    shelf: &Shelf,
    def: &TableDef,
) -> Result<(), StoreFault> {
    let parent = match &def.foreign_key {
        None => None,
        Some(foreign) => shelf.def(foreign.parent),
    };
    let text = create_text(alloc, def, parent)?;
    give(tx, text.as_str(), &[])
}

fn make_index<S: Store>(alloc: Global, tx: &mut S, def: &TableDef) -> Result<(), StoreFault> {
    match &def.foreign_key {
        None => Ok(()),
        Some(foreign) => {
            let text = index_text(alloc, def, foreign)?;
            give(tx, text.as_str(), &[])
        }
    }
}
