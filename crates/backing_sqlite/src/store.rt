//! The store in the file, as this crate asks it.

use crate::fault::{OpenError, StoreFault};
use sqlite::types::ValueRef;
use sqlite::{Alter, Connection, Error, File, FileStore, Transaction};
use sqlite_disk::Disk;

/// A transaction of the store. It says nothing of what the store has: what is written over it needs none of the words
/// of `sqlite` on that.
pub(crate) trait Store {
    /// Does a statement, and tells how many rows it changed.
    fn change(&mut self, sql: &str, values: &[ValueRef<'_>]) -> Result<usize, StoreFault>;

    /// The first row of the answer, where there is one.
    fn first_row(
        &mut self,
        sql: &str,
        values: &[ValueRef<'_>],
    ) -> Result<Option<sqlite::Row>, StoreFault>;

    /// All rows of the answer.
    fn all_rows(
        &mut self,
        sql: &str,
        values: &[ValueRef<'_>],
    ) -> Result<Vec<sqlite::Row>, StoreFault>;

    /// Hands over the rows of the answer, one after the other, up to the first that isn't taken.
    fn each_row<T: TakesRows>(
        &mut self,
        sql: &str,
        values: &[ValueRef<'_>],
        taker: &mut T,
    ) -> Result<(), StoreFault>
        requires { T.keeps taker.old }
        ensures { T.keeps taker.new };
}

/// What takes in the rows of an answer.
pub(crate) trait TakesRows {
    /// What holds of it before each row, and behind.
    ghost keeps: { Self → Type 0 };

    /// Takes in a row.
    fn take(&mut self, stored: &sqlite::Row) -> Result<(), StoreFault>
        requires { keeps self.old }
        ensures { keeps self.new };
}

// At any store, as are the functions below: one that calls `sqlite` at the type of a file is dear to prove.
impl<S: Alter> Store for Transaction<'_, S> {
    fn change(&mut self, sql: &str, values: &[ValueRef<'_>]) -> Result<usize, StoreFault> {
        match self.execute(sql, values) {
            Ok(changed) => Ok(changed),
            Err(error) => Err(StoreFault::from(error)),
        }
    }

    fn first_row(
        &mut self,
        sql: &str,
        values: &[ValueRef<'_>],
    ) -> Result<Option<sqlite::Row>, StoreFault> {
        match self.query_row(sql, values) {
            Ok(row) => Ok(Some(row)),
            Err(error) => no_row(error),
        }
    }

    fn all_rows(
        &mut self,
        sql: &str,
        values: &[ValueRef<'_>],
    ) -> Result<Vec<sqlite::Row>, StoreFault> {
        match self.query_all(sql, values) {
            Ok(rows) => Ok(rows),
            Err(error) => Err(StoreFault::from(error)),
        }
    }

    fn each_row<T: TakesRows>(
        &mut self,
        sql: &str,
        values: &[ValueRef<'_>],
        taker: &mut T,
    ) -> Result<(), StoreFault> {
        hand_over(self, sql, values, taker)
    }
}

// What an error says of the first row: where it is that there is none, that.
fn no_row(error: Error) -> Result<Option<sqlite::Row>, StoreFault> {
    if error == Error::QueryReturnedNoRows {
        Ok(None)
    } else {
        Err(StoreFault::from(error))
    }
}

fn hand_over<S: Alter, T: TakesRows>(
    tx: &mut Transaction<'_, S>,
    sql: &str,
    values: &[ValueRef<'_>],
    taker: &mut T,
) -> Result<(), StoreFault>
    requires { T.keeps taker.old }
    ensures { T.keeps taker.new }
{
    let mut rows = tx.query(sql, values)?;
    for _ in 0..u64::MAX {
        rows.advance()?;
        match rows.get() {
            None => return Ok(()),
            Some(stored) => taker.take(stored)?,
        }
    }
    Ok(())
}

/// The store in a file. All calls of `sqlite` stand here.
pub(crate) struct Base {
    conn: Connection<FileStore<File>>,
}

impl Drop for Base {
    fn drop(self) {
        let Self { conn: _ } = self;
    }
}

impl Base {
    /// The store in the file of this path.
    pub(crate) fn open(rt: &HostRuntime, path: &str) -> Result<Base, OpenError> {
        match Connection::open(rt, path) {
            Ok(conn) => Ok(Base { conn }),
            Err(error) => Err(OpenError::from(error)),
        }
    }

    /// Closes the file.
    pub(crate) fn close(self) -> Result<(), StoreFault> {
        let Self { conn } = self;
        close(conn)
    }

    /// Begins a transaction. It fails where one is open.
    pub(crate) fn begin(&mut self) -> Result<Transaction<'_, FileStore<File>>, StoreFault> {
        begin(&mut self.conn)
    }
}

fn close<D: Disk + Drop>(conn: Connection<FileStore<D>>) -> Result<(), StoreFault> {
    match conn.close() {
        Ok(()) => Ok(()),
        Err(error) => Err(StoreFault::from(error)),
    }
}

fn begin<S: Alter>(conn: &mut Connection<S>) -> Result<Transaction<'_, S>, StoreFault> {
    if conn.is_autocommit() {
        Ok(conn.transaction())
    } else {
        Err(StoreFault::Failed)
    }
}

/// Ends a transaction of the store, with what was done in it or without.
pub(crate) fn end<S: Alter>(tx: Transaction<'_, S>, is_done: bool) -> Result<(), StoreFault> {
    if !is_done {
        return Ok(());
    }
    match tx.commit() {
        Ok(()) => Ok(()),
        Err(error) => Err(StoreFault::from(error)),
    }
}

/// Ends a transaction of the store in which nothing was done.
pub(crate) fn end_reading<S: Alter>(tx: Transaction<'_, S>) {
    let _ = end(tx, false);
}
