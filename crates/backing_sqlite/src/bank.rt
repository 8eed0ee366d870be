//! The backing database in a file.

ghost use Rattle.std.specs.Prelude.{◌≡◌, IfOk};
ghost use Rattle.outside.specs.Bank.{WaitsForOne};
ghost use Rattle.backing_sqlite.specs.Counting.{Counts, answer_of};

use crate::applying::apply_once;
use crate::catalog::open_catalog;
use crate::changing::changes;
use crate::defining::define;
use crate::fault::{OpenError, StoreFault};
use crate::foreign::{foreign, snapshot};
use crate::passing::passed;
use crate::reaching::reach;
use crate::reading::{entries_now, find, recorded};
use crate::shelf::Shelf;
use crate::store::Base;
use evaluator::Change;
use instances::Tree;
use outside::{Applied, BankError, Changes, Done, Reached, Snapshot};
use row_types::{Key, Row};
use std::alloc::Global;
use std::marker::Model;
use table_defs::{BackingSchema, TableDef, copied_schema};
use table_state::{RowKey, Sealed};
use tier_base::{Position, TableId, Ticket};

/// The backing database in a SQLite file, which it holds alone while it is open. It doesn't tell what it holds. Each
/// call is one transaction of the store, and each failed one is counted. Clauses see how many have failed.
pub struct SqliteBank {
    alloc: Global,
    base: Base,
    shelf: Shelf,
    faults: u64,
}

impl Drop for SqliteBank {
    fn drop(self) {
        let Self {
            alloc: _,
            base: _,
            shelf: _,
            faults: _,
        } = self;
    }
}

impl Model for SqliteBank {
    ghost use Rattle.std.specs.Prelude.{ℕ};

    ghost Value = { ℕ };

    ghost view = { λ bank. bank.faults };
}

impl SqliteBank {
    /// The backing database in the file of this path. A file that isn't there is made, with an empty history.
    pub fn open(rt: &HostRuntime, path: &str) -> Result<SqliteBank, OpenError>
        ensures { IfOk result (λ bank. bank ≡ 0) }
    {
        let alloc = rt.alloc();
        let mut base = Base::open(rt, path)?;
        match open_catalog(alloc, &mut base) {
            Ok(shelf) => Ok(SqliteBank {
                alloc,
                base,
                shelf,
                faults: 0,
            }),
            Err(fault) => Err(OpenError::from(fault)),
        }
    }

    /// Closes the file, with all in it that was beside it. Where it fails, what was done is found all the same when the
    /// file is opened again.
    pub fn close(self) -> Result<(), BankError> {
        let Self {
            alloc: _,
            base,
            shelf: _,
            faults: _,
        } = self;
        match base.close() {
            Ok(()) => Ok(()),
            Err(_) => Err(BankError::Failed),
        }
    }

    /// How many calls have failed, up to 2^64 - 1.
    pub fn faults(&self) -> u64
        ensures { result ≡ self.now }
    {
        self.faults
    }

    // The answer of a call, whose failure is counted.
    fn answer<T>(&mut self, done: Result<T, StoreFault>) -> Result<T, BankError>
        ensures told { result ≡ answer_of done }
        ensures counts { Counts self.old self.new result }
    {
        match done {
            Ok(told) => Ok(told),
            Err(StoreFault::Memory) => Err(BankError::Memory),
            Err(StoreFault::Failed) => {
                self.faults = self.faults.saturating_add(1);
                Err(BankError::Failed)
            }
        }
    }

    /// The definitions of all tables, in the order in which they were made.
    pub fn schema(&mut self) -> Result<BackingSchema, BankError>
        ensures counts { Counts self.old self.new result }
    {
        match copied_schema(self.alloc, self.shelf.schema().as_slice()) {
            Ok(schema) => Ok(schema),
            Err(_) => Err(BankError::Memory),
        }
    }

    /// Makes a table, which is behind the others then.
    pub fn define(&mut self, def: &TableDef) -> Result<(), BankError>
        ensures counts { Counts self.old self.new result }
    {
        let done = define(self.alloc, &mut self.base, &mut self.shelf, def);
        self.answer(done)
    }

    /// Applies and records a transaction, where its ticket isn't recorded yet and those of `after` are.
    pub fn apply_once(&mut self, sealed: &Sealed, after: &[Ticket]) -> Result<Applied, BankError>
        ensures counts { Counts self.old self.new result }
        ensures waits { WaitsForOne after.now result }
    {
        let done = apply_once(self.alloc, &mut self.base, &self.shelf, sealed, after);
        self.answer(done)
    }

    /// Whether a transaction with this ticket is recorded.
    pub fn recorded(&mut self, ticket: Ticket) -> Result<bool, BankError>
        ensures counts { Counts self.old self.new result }
    {
        let done = recorded(&mut self.base, ticket);
        self.answer(done)
    }

    /// The row at the key of the table, none where there is none.
    pub fn find(&mut self, table: TableId, key: &Key) -> Result<Option<Row>, BankError>
        ensures counts { Counts self.old self.new result }
    {
        let done = find(self.alloc, &mut self.base, &self.shelf, table, key);
        self.answer(done)
    }

    /// Does the writes of a transaction of the console, one after the other, all of them or none.
    pub fn foreign(&mut self, changes: &[Change]) -> Result<Done, BankError>
        ensures counts { Counts self.old self.new result }
    {
        let done = foreign(self.alloc, &mut self.base, &self.shelf, changes);
        self.answer(done)
    }

    /// Does one write of a session that is passed on, and records it with its ticket.
    pub fn passed(&mut self, ticket: Ticket, change: &Change) -> Result<Done, BankError>
        ensures counts { Counts self.old self.new result }
    {
        let done = passed(self.alloc, &mut self.base, &self.shelf, ticket, change);
        self.answer(done)
    }

    /// The definitions of all tables, and the rows of these tables, at one position of the history.
    pub fn snapshot(&mut self, tables: &[TableId]) -> Result<Snapshot, BankError>
        ensures counts { Counts self.old self.new result }
    {
        let done = snapshot(self.alloc, &mut self.base, &self.shelf, tables);
        self.answer(done)
    }

    /// The instance of the tree that the row of a key is in, at one position of the history.
    pub fn reach(&mut self, tree: &Tree, table: TableId, key: &Key) -> Result<Reached, BankError>
        ensures counts { Counts self.old self.new result }
    {
        let done = reach(self.alloc, &mut self.base, &self.shelf, tree, table, key);
        self.answer(done)
    }

    /// What changed since a position of the history, and the instances that this touches or that a want names. What the
    /// logs have up to the least position that calls to come ask from is forgotten by later writes.
    ///
    /// It fails, too, where the logs don't go back so far.
    pub fn changes(
        &mut self,
        since: Position,
        least: Position,
        trees: &[Tree],
        wants: &[RowKey],
    ) -> Result<Changes, BankError>
        ensures counts { Counts self.old self.new result }
    {
        let done = changes(self.alloc, &mut self.base, &self.shelf, since, trees, wants);
        if done.is_ok() {
            self.shelf.keep_from(least.0);
        }
        self.answer(done)
    }

    /// Whether the logs go back to a position. Where none are kept, or they have become too long, they begin now. No
    /// failure is counted: where the history can't be read the answer is no.
    pub fn tells_since(&mut self, since: Position) -> bool
        ensures { self.new ≡ self.old }
    {
        match entries_now(&mut self.base) {
            Err(_) => false,
            Ok(entries) => {
                self.shelf.begin_logs(entries);
                self.shelf.tells_since(since.0, entries)
            }
        }
    }
}
