//! The rows of a table beside an index.

ghost use Rattle.std.specs.Prelude.{◌≡◌, ◌+◌, ◌<◌, ◌^◌, IfOk, OnErr, OnOk, drop};
ghost use Rattle.std.specs.FinMap as map;
ghost use Rattle.indexed_rows.specs.Rows.{put_in, put_over, first_from, has_key};

use crate::copy::copied_rows;
use crate::parents::{Parents, insert_both, put_back_both, remove_both, replace_both, walked};
use crate::{Rows, Spare};
use row_types::tier_base::Seq;
use row_types::{Key, Row};
use std::alloc::{AllocError, Global};
use std::marker::Model;

/// The rows of a table, with an index by parent where it has a foreign key. Clauses see the rows.
///
/// A call that doesn't fail gives the index up where memory for it is wanting. The rows are then gone through where
/// they would be looked up.
pub struct IndexedRows {
    rows: Rows,
    parents: Option<Parents>,
}

impl Drop for IndexedRows {
    fn drop(self) {
        let Self {
            rows: _,
            parents: _,
        } = self;
    }
}

impl Model for IndexedRows {
    ghost use Rattle.std.specs.Prelude.{List};
    ghost use Rattle.std.specs.FinMap as map;
    ghost use Rattle.std.specs.Coded.{coded_list};
    ghost use Rattle.row_types.specs.contracts.value.Value as one;
    ghost use Rattle.indexed_rows.specs.Rows.{Table};
    ghost use Rattle.indexed_rows.specs.Indexes.{IsIndexed};

    ghost Value = { Table };

    ghost coded = { map.code (coded_list one.the_row.coded) (coded_list one.the_row.coded) };

    ghost view = { λ i. i.rows };

    ghost invariant = { λ i. IsIndexed i.parents i.rows };
}

impl IndexedRows {
    /// No rows, to be indexed by their values at these columns. It takes no memory.
    pub fn by_parent(alloc: Global, columns: Seq<usize>) -> IndexedRows
        ensures { result ≡ map.empty }
    {
        IndexedRows {
            rows: Rows::new(alloc),
            parents: Some(Parents::new(alloc, columns)),
        }
    }

    /// No rows and no index. It takes no memory.
    pub fn new(alloc: Global) -> IndexedRows
        ensures { result ≡ map.empty }
    {
        IndexedRows {
            rows: Rows::new(alloc),
            parents: None,
        }
    }

    /// The rows.
    pub fn rows(&self) -> &Rows
        ensures { result.now ≡ self.now }
    {
        &self.rows
    }

    /// A second copy of the rows and of the index. It goes through all rows.
    pub fn copied(&self, alloc: Global) -> Result<IndexedRows, AllocError>
        ensures { IfOk result (λ indexed. indexed ≡ self.now) }
    {
        let rows = copied_rows(alloc, &self.rows)?;
        let parents = copied_index(alloc, &self.parents)?;
        Ok(IndexedRows { rows, parents })
    }

    /// Puts in a row where its key has none.
    ///
    /// It fails for want of memory alone, and the rows then are as they were.
    pub fn insert(&mut self, alloc: Global, key: &Key, row: Row) -> Result<(), AllocError>
        ensures ok { OnOk result (self.new ≡ put_in self.old key.now row) }
        ensures err { OnErr result (self.new ≡ self.old) }
    {
        match &mut self.parents {
            None => {
                let key = key.copied(alloc)?;
                let _ = self.rows.insert(key, row)?;
                Ok(())
            }
            Some(parents) => insert_both(alloc, &mut self.rows, parents, key, row),
        }
    }

    /// Puts a row over the one that the key has. It takes no memory where the parent stays.
    pub fn replace(&mut self, alloc: Global, key: Key, row: Row)
        ensures { self.new ≡ put_over self.old key row }
    {
        match self.parents.take() {
            None => {
                let _ = self.rows.replace(key, row);
            }
            Some(parents) => {
                self.parents = replace_both(alloc, &mut self.rows, parents, key, row);
            }
        }
    }

    /// Takes out the row of a key.
    pub fn remove(&mut self, alloc: Global, key: &Key)
        ensures { self.new ≡ map.remove self.old key.now }
    {
        match self.parents.take() {
            None => {
                let _ = self.rows.remove(key);
            }
            Some(parents) => {
                self.parents = remove_both(alloc, &mut self.rows, parents, key);
            }
        }
    }

    /// Puts back a row that left where its key has none.
    pub fn put_back(&mut self, alloc: Global, left: Spare)
        requires { map.len self.old + 1 < 2 ^ 63 }
        ensures { self.new ≡ put_in self.old left.0 left.1 }
    {
        match self.parents.take() {
            None => self.rows.put_back(left),
            Some(parents) => {
                self.parents = put_back_both(alloc, &mut self.rows, parents, left);
            }
        }
    }

    /// The first place, from a place on, of a row that has the key at these columns. It is looked up where they are
    /// the foreign key's and the index is there, and else the rows are gone through.
    pub fn child(&self, columns: &[usize], key: &Key, from: usize) -> Option<usize>
        ensures { result ≡ first_from (has_key columns.now key.now) from (drop from (map.values self.now)) }
    {
        match &self.parents {
            None => walked(columns, &self.rows, key, from),
            Some(parents) => {
                if parents.columns.as_slice() == columns {
                    parents.child(&self.rows, key, from)
                } else {
                    walked(columns, &self.rows, key, from)
                }
            }
        }
    }
}

fn copied_index(alloc: Global, parents: &Option<Parents>) -> Result<Option<Parents>, AllocError>
    ensures { IfOk result (λ copy. copy ≡ parents.now) }
{
    match parents {
        None => Ok(None),
        Some(parents) => {
            let copy = parents.copied(alloc)?;
            Ok(Some(copy))
        }
    }
}
