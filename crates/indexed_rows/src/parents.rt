//! An index of the rows of a table by parent.

ghost use Rattle.std.specs.Prelude.{◌≡◌, ◌+◌, ◌<◌, ◌^◌, ◌++◌, None, IfOk, OnErr, OnOk, drop, option_copied};
ghost use Rattle.std.specs.FinMap as map;
ghost use Rattle.indexed_rows.specs.Rows.{put_in, put_over, first_from, has_key, Table};
ghost use Rattle.indexed_rows.specs.Indexes.{IsFirstOf, IsIndexOf, IsIndexed, behind, entry_of, with_entry, without_entry};

use crate::copy::copied_rows;
use crate::keys::values_at;
use crate::values::{first_change, has_key, is_same_values};
use crate::{Rows, Spare};
use row_types::tier_base::Seq;
use row_types::{Key, Row, Value};
use std::alloc::{AllocError, Global};

/// An index of the rows of a table by parent.
pub(crate) struct Parents {
    /// The places of the foreign key's columns.
    pub(crate) columns: Seq<usize>,
    /// An entry for each row, by the parent's key with the row's own key behind it. It has no values.
    pub(crate) entries: Rows,
}

impl Drop for Parents {
    fn drop(self) {
        let Self {
            columns: _,
            entries: _,
        } = self;
    }
}

impl Parents {
    /// The index of no rows by these columns. It takes no memory.
    pub(crate) fn new(alloc: Global, columns: Seq<usize>) -> Parents
        ensures { IsIndexOf result map.empty }
    {
        Parents {
            columns,
            entries: Rows::new(alloc),
        }
    }

    /// A second copy of the index. It goes through all entries.
    pub(crate) fn copied(&self, alloc: Global) -> Result<Parents, AllocError>
        ensures { IfOk result (λ parents. parents ≡ self.now) }
    {
        let columns = Vec::from_slice(alloc, self.columns.as_slice())?;
        let entries = copied_rows(alloc, &self.entries)?;
        Ok(Parents {
            columns: Seq::from_vec(columns),
            entries,
        })
    }

    fn entry_of(&self, alloc: Global, key: &Key, row: &Row) -> Result<Key, AllocError>
        ensures { IfOk result (λ entry. entry ≡ entry_of self.now key.now row.now) }
    {
        let mut values = values_at(alloc, self.columns.as_slice(), row)?;
        for value in key.values() {
            values.push(value.copied(alloc)?)?;
        }
        Ok(Key::from_vec(values))
    }

    // It fails for want of memory alone, and the index then is as it was.
    fn enter(&mut self, alloc: Global, entry: Key) -> Result<(), AllocError>
        ensures ok { OnOk result (self.new ≡ with_entry entry self.old) }
        ensures err { OnErr result (self.new ≡ self.old) }
    {
        let _ = self.entries.insert(entry, Row::from_vec(Vec::new(alloc)))?;
        Ok(())
    }

    // The entry of a row gives way to that of the row that takes its place.
    fn moved(self, alloc: Global, key: &Key, old: &Row, new: &Row) -> Result<Parents, AllocError>
        ensures { IfOk result (λ moved. moved
            ≡ with_entry (entry_of self key.now new.now) (without_entry (entry_of self key.now old.now) self)) }
    {
        let mut moved = self;
        let left = moved.entry_of(alloc, key, old)?;
        let entered = moved.entry_of(alloc, key, new)?;
        let _ = moved.entries.remove(&left);
        moved.enter(alloc, entered)?;
        Ok(moved)
    }

    // None where memory is wanting. It takes none where the parent stays.
    fn shifted(self, alloc: Global, key: &Key, old: &Row, new: &Row) -> Option<Parents>
        ensures { (rows : Table) → IsIndexOf self rows → map.get rows key.now ≡ Some old.now
            → IsIndexed result (map.insert rows key.now new.now) }
    {
        match first_change(self.columns.as_slice(), old.values(), new.values()) {
            None => Some(self),
            Some(_) => match self.moved(alloc, key, old, new) {
                Ok(moved) => Some(moved),
                Err(_) => None,
            },
        }
    }

    // None where memory is wanting.
    fn left(self, alloc: Global, key: &Key, row: &Row) -> Option<Parents>
        ensures { (rows : Table) → IsIndexOf self rows → map.get rows key.now ≡ Some row.now
            → IsIndexed result (map.remove rows key.now) }
    {
        match self.entry_of(alloc, key, row) {
            Err(_) => None,
            Ok(entry) => {
                let mut left = self;
                let _ = left.entries.remove(&entry);
                Some(left)
            }
        }
    }

    // None where memory is wanting.
    fn joined(self, alloc: Global, key: &Key, row: &Row) -> Option<Parents>
        ensures { (rows : Table) → IsIndexOf self rows → map.get rows key.now ≡ None
            → IsIndexed result (map.insert rows key.now row.now) }
    {
        match self.with_row(alloc, key, row) {
            Ok(joined) => Some(joined),
            Err(_) => None,
        }
    }

    fn with_row(self, alloc: Global, key: &Key, row: &Row) -> Result<Parents, AllocError>
        ensures { IfOk result (λ joined. joined ≡ with_entry (entry_of self key.now row.now) self) }
    {
        let mut joined = self;
        let entry = joined.entry_of(alloc, key, row)?;
        joined.enter(alloc, entry)?;
        Ok(joined)
    }

    // The key of the first row of a parent whose key isn't below the least.
    fn first_of<'a>(&'a self, parent: &[Value], least: &[Value]) -> Option<&'a [Value]>
        ensures { (rows : Table) → IsIndexOf self.now rows
            → IsFirstOf self.now.columns rows parent.now least.now (option_copied result) }
    {
        let place = self.entries.first_at_least_parts(parent, least);
        if place >= self.entries.len() {
            return None;
        }
        let (entry, _) = self.entries.entry_at(place);
        behind(entry.values(), self.columns.len(), parent)
    }

    /// The first place, from a place on, of a row that refers to the key.
    pub(crate) fn child(&self, rows: &Rows, key: &Key, from: usize) -> Option<usize>
        requires { IsIndexOf self.now rows.now }
        ensures { result ≡ first_from (has_key self.now.columns key.now) from (drop from (map.values rows.now)) }
    {
        if from >= rows.len() {
            return None;
        }
        let (least, _) = rows.entry_at(from);
        match self.first_of(key.values(), least.values()) {
            None => None,
            Some(child) => Some(rows.first_at_least_parts(&[], child)),
        }
    }
}

// What stands behind the front of so many values, where this is the front.
fn behind<'a>(values: &'a [Value], count: usize, front: &[Value]) -> Option<&'a [Value]>
    ensures { option_copied result ≡ behind values.now count front.now }
{
    if count > values.len() {
        return None;
    }
    if is_same_values(&values[..count], front) {
        Some(&values[count..])
    } else {
        None
    }
}

/// Puts in a row where its key has none, beside the index.
///
/// It fails for want of memory alone, and the rows then are as they were.
pub(crate) fn insert_both(
    alloc: Global,
    rows: &mut Rows,
    parents: &mut Parents,
    key: &Key,
    row: Row,
) -> Result<(), AllocError>
    requires { IsIndexOf parents.old rows.old }
    ensures index { IsIndexOf parents.new rows.new }
    ensures ok { OnOk result (rows.new ≡ put_in rows.old key.now row) }
    ensures err { OnErr result (rows.new ≡ rows.old) }
{
    let entry = parents.entry_of(alloc, key, &row)?;
    let kept = key.copied(alloc)?;
    if !rows.insert(kept, row)? {
        return Ok(());
    }
    match parents.enter(alloc, entry) {
        Ok(()) => Ok(()),
        Err(failed) => {
            let _ = rows.remove(key);
            Err(failed)
        }
    }
}

/// Puts a row over the one that the key has, and gives back the index, where memory is left for it.
pub(crate) fn replace_both(
    alloc: Global,
    rows: &mut Rows,
    parents: Parents,
    key: Key,
    row: Row,
) -> Option<Parents>
    requires { IsIndexOf parents rows.old }
    ensures index { IsIndexed result rows.new }
    ensures rows { rows.new ≡ put_over rows.old key row }
{
    match rows.get(&key) {
        None => Some(parents),
        Some(old) => {
            let shifted = parents.shifted(alloc, &key, old, &row);
            let _ = rows.replace(key, row);
            shifted
        }
    }
}

/// Takes out the row of a key, and gives back the index, where memory is left for it.
pub(crate) fn remove_both(
    alloc: Global,
    rows: &mut Rows,
    parents: Parents,
    key: &Key,
) -> Option<Parents>
    requires { IsIndexOf parents rows.old }
    ensures index { IsIndexed result rows.new }
    ensures rows { rows.new ≡ map.remove rows.old key.now }
{
    match rows.remove(key) {
        None => Some(parents),
        Some(row) => parents.left(alloc, key, &row),
    }
}

/// Puts back a row that left where its key has none, and gives back the index, where memory is left for it.
pub(crate) fn put_back_both(
    alloc: Global,
    rows: &mut Rows,
    parents: Parents,
    left: Spare,
) -> Option<Parents>
    requires index { IsIndexOf parents rows.old }
    requires room { map.len rows.old + 1 < 2 ^ 63 }
    ensures index { IsIndexed result rows.new }
    ensures rows { rows.new ≡ put_in rows.old left.0 left.1 }
{
    if rows.contains_key(left.key()) {
        return Some(parents);
    }
    let joined = parents.joined(alloc, left.key(), left.row());
    rows.put_back(left);
    joined
}

/// The first place, from a place on, of a row that has the key at these columns. It goes through the rows from there.
pub(crate) fn walked(columns: &[usize], rows: &Rows, key: &Key, from: usize) -> Option<usize>
    ensures { result ≡ first_from (has_key columns.now key.now) from (drop from (map.values rows.now)) }
{
    for place in from..rows.len() {
        if has_key(columns, rows.row_at(place).values(), key.values()) {
            return Some(place);
        }
    }
    None
}
