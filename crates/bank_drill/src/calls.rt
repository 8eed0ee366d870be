//! Calls of the site, as a script asks for them.

use crate::answers::{
    tell_applied, tell_bank_error, tell_changes, tell_done, tell_found, tell_reached, tell_schema,
    tell_snapshot,
};
use crate::asking::{asked, changes_of, key_of, ops_of, table_of, tables_of, tickets_of};
use crate::error::DrillError;
use crate::telling::Output;
use crate::trees::{tree_of, trees_of, wants_of};
use evaluator::Change;
use outside::Site;
use row_types::TableDeclaration;
use sql_subset::request::ConsoleRequest;
use std::alloc::Global;
use table_defs::{BackingSchema, TableDef};
use table_state::Sealed;
use tier_base::{Position, Ticket};

/// Makes a table, or does the writes of a transaction of the console.
pub fn console<T: Site>(
    alloc: Global,
    site: &mut T,
    text: &str,
    line: usize,
    out: &mut Output,
) -> Result<(), DrillError> {
    let known = site.schema()?;
    match asked(alloc, text)? {
        None => Err(DrillError::Line(line)),
        Some(ConsoleRequest::CreateTable(table)) => define(alloc, site, &known, &table, line, out),
        Some(ConsoleRequest::Writes(_)) => foreign(alloc, site, &known, text, line, out),
    }
}

fn define<T: Site>(
    alloc: Global,
    site: &mut T,
    known: &BackingSchema,
    table: &TableDeclaration,
    line: usize,
    out: &mut Output,
) -> Result<(), DrillError> {
    let Ok(def) = TableDef::check(alloc, table, known) else {
        return Err(DrillError::Line(line));
    };
    match site.define(&def) {
        Ok(()) => out.put_line("defined"),
        Err(error) => tell_bank_error(out, error),
    }
    Ok(())
}

fn foreign<T: Site>(
    alloc: Global,
    site: &mut T,
    known: &BackingSchema,
    text: &str,
    line: usize,
    out: &mut Output,
) -> Result<(), DrillError> {
    let changes = changes_of(alloc, known, text, line)?;
    match site.foreign(changes.as_slice()) {
        Ok(done) => tell_done(out, &done),
        Err(error) => tell_bank_error(out, error),
    }
    Ok(())
}

/// The transaction of this ticket that does these operations.
pub fn seal<T: Site>(
    alloc: Global,
    site: &mut T,
    ticket: u64,
    ops: &str,
    line: usize,
) -> Result<Sealed, DrillError> {
    let known = site.schema()?;
    let ops = ops_of(alloc, &known, ops, line)?;
    Ok(Sealed {
        ticket: Ticket(ticket),
        ops,
    })
}

/// Applies the transaction of this ticket once.
pub fn apply<T: Site>(
    alloc: Global,
    site: &mut T,
    sealed: &[Sealed],
    ticket: u64,
    after: &str,
    line: usize,
    out: &mut Output,
) -> Result<(), DrillError> {
    let after = tickets_of(alloc, after, line)?;
    match sealed.iter().find(|one| one.ticket.0 == ticket) {
        None => Err(DrillError::Line(line)),
        Some(one) => match site.apply_once(one, after.as_slice()) {
            Ok(applied) => {
                let known = site.schema()?;
                tell_applied(out, &known, &applied);
                Ok(())
            }
            Err(error) => {
                tell_bank_error(out, error);
                Ok(())
            }
        },
    }
}

/// Does one write that is passed on, with this ticket.
pub fn passed<T: Site>(
    alloc: Global,
    site: &mut T,
    ticket: u64,
    write: &str,
    line: usize,
    out: &mut Output,
) -> Result<(), DrillError> {
    let known = site.schema()?;
    let changes = changes_of(alloc, &known, write, line)?;
    match changes.as_slice() {
        [change] => {
            pass(site, ticket, change, out);
            Ok(())
        }
        _ => Err(DrillError::Line(line)),
    }
}

fn pass<T: Site>(site: &mut T, ticket: u64, change: &Change, out: &mut Output) {
    match site.passed(Ticket(ticket), change) {
        Ok(done) => tell_done(out, &done),
        Err(error) => tell_bank_error(out, error),
    }
}

/// Tells the row at a key.
pub fn find<T: Site>(
    alloc: Global,
    site: &mut T,
    table: &str,
    key: &str,
    line: usize,
    out: &mut Output,
) -> Result<(), DrillError> {
    let known = site.schema()?;
    let table = table_of(alloc, &known, table, line)?;
    let key = key_of(alloc, key, line)?;
    match site.find(table, &key) {
        Ok(row) => tell_found(out, &row),
        Err(error) => tell_bank_error(out, error),
    }
    Ok(())
}

/// Tells the instance that the row at a key is in.
pub fn reach<T: Site>(
    alloc: Global,
    site: &mut T,
    table: &str,
    text: &str,
    line: usize,
    out: &mut Output,
) -> Result<(), DrillError> {
    let known = site.schema()?;
    let (key, tree) = text.split_once(" in ").unwrap_or((text, ""));
    let table = table_of(alloc, &known, table, line)?;
    let key = key_of(alloc, key, line)?;
    let tree = tree_of(alloc, &known, tree, line)?;
    match site.reach(&tree, table, &key) {
        Ok(reached) => tell_reached(out, &known, &tree, &reached),
        Err(error) => tell_bank_error(out, error),
    }
    Ok(())
}

/// Tells what changed since a position, where no call to come asks since one before another.
pub fn changes<T: Site>(
    alloc: Global,
    site: &mut T,
    from: (Position, Position),
    wants: &str,
    trees: &str,
    line: usize,
    out: &mut Output,
) -> Result<(), DrillError> {
    let known = site.schema()?;
    let wants = wants_of(alloc, &known, wants, line)?;
    let trees = trees_of(alloc, &known, trees, line)?;
    let (since, least) = from;
    match site.changes(since, least, trees.as_slice(), wants.as_slice()) {
        Ok(changes) => tell_changes(out, &known, trees.as_slice(), &changes),
        Err(error) => tell_bank_error(out, error),
    }
    Ok(())
}

/// Tells whether it tells what changed since a position.
pub fn tells<T: Site>(site: &mut T, since: Position, out: &mut Output) {
    if site.tells_since(since) {
        out.put_line("yes");
    } else {
        out.put_line("no");
    }
}

/// Tells the definitions.
pub fn schema<T: Site>(site: &mut T, out: &mut Output) {
    match site.schema() {
        Ok(known) => tell_schema(out, &known),
        Err(error) => tell_bank_error(out, error),
    }
}

/// Tells the rows of these tables.
pub fn snapshot<T: Site>(
    alloc: Global,
    site: &mut T,
    tables: &str,
    line: usize,
    out: &mut Output,
) -> Result<(), DrillError> {
    let known = site.schema()?;
    let tables = tables_of(alloc, &known, tables, line)?;
    match site.snapshot(tables.as_slice()) {
        Ok(copy) => tell_snapshot(out, &copy),
        Err(error) => tell_bank_error(out, error),
    }
    Ok(())
}
