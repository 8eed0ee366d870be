//! What transactions read and write.

ghost use Rattle.std.specs.Prelude.{◌≡◌, ◌++◌, [], IfOk, OnOk, map, slice_get, option_copied};
ghost use Rattle.std.specs.List.{flat_map, list_any};
ghost use Rattle.table_state.specs.Footprints.{conflict, footprint_of, is_among, is_in, referred_by, referred_key, same_row_key, written_by, written_key};

use crate::lookup::key_of_row;
use crate::operation::Op;
use indexed_rows::{is_same_values, key_at};
use std::alloc::{AllocError, Global};
use table_defs::row_types::{Key, Row};
use table_defs::tier_base::{Seq, TableId};
use table_defs::{BackingSchema, TableDef};

/// A row of a table, by its key.
pub struct RowKey {
    /// The table.
    pub table: TableId,
    /// The primary key.
    pub key: Key,
}

impl RowKey {
    /// The primary key.
    pub fn into_key(self) -> Key
        ensures { result ≡ self.key }
    {
        let Self { table: _, key } = self;
        key
    }
}

impl Drop for RowKey {
    fn drop(self) {
        let Self { table: _, key: _ } = self;
    }
}

/// The rows that a transaction writes, and those that it refers to.
pub struct Footprint {
    /// The keys of all rows in the operations, old and new.
    pub written: Seq<RowKey>,
    /// The keys of the parents that old or new rows name.
    pub referred: Seq<RowKey>,
}

impl Drop for Footprint {
    fn drop(self) {
        let Self {
            written: _,
            referred: _,
        } = self;
    }
}

/// Whether a key is in both footprints and written in one, so that the order of the transactions matters. It takes
/// no memory.
pub fn conflicts(a: &Footprint, b: &Footprint) -> bool
    ensures { result ≡ conflict a.now b.now }
{
    is_any_in(b, a.written.as_slice()) || is_any_in(a, b.written.as_slice())
}

fn is_any_in(footprint: &Footprint, keys: &[RowKey]) -> bool
    ensures { result ≡ list_any (is_in footprint.now) keys.now }
{
    keys.iter().any(|key| footprint.has(key))
}

impl Footprint {
    /// The footprint of a transaction.
    pub fn of(alloc: Global, schema: &BackingSchema, ops: &[Op]) -> Result<Footprint, AllocError>
        ensures { IfOk result (λ footprint. footprint ≡ footprint_of schema.now ops.now) }
    {
        let mut footprint = Footprint {
            written: Seq::new(alloc),
            referred: Seq::new(alloc),
        };
        for op in ops {
            footprint.add(alloc, schema, op)?;
        }
        Ok(footprint)
    }

    /// The rows that are written, and those that are referred to.
    pub fn into_parts(self) -> (Seq<RowKey>, Seq<RowKey>)
        ensures written { result.0 ≡ self.written }
        ensures referred { result.1 ≡ self.referred }
    {
        let Self { written, referred } = self;
        (written, referred)
    }

    /// Whether the key is written or referred to.
    pub fn has(&self, key: &RowKey) -> bool
        ensures { result ≡ is_in self.now key.now }
    {
        is_among(self.written.as_slice(), key) || is_among(self.referred.as_slice(), key)
    }

    fn add(&mut self, alloc: Global, schema: &BackingSchema, op: &Op) -> Result<(), AllocError>
        ensures written { OnOk result (self.new.written ≡ self.old.written ++ written_by schema.now op.now) }
        ensures referred { OnOk result (self.new.referred ≡ self.old.referred ++ referred_by schema.now op.now) }
    {
        let def = schema.get(op.table().0 as usize);
        match op {
            Op::Insert(table, row) => self.add_row(alloc, *table, def, row),
            Op::Update(table, old, new) => {
                self.add_row(alloc, *table, def, old)?;
                self.add_row(alloc, *table, def, new)
            }
            Op::Delete(table, old) => self.add_row(alloc, *table, def, old),
        }
    }

    fn add_row(
        &mut self,
        alloc: Global,
        table: TableId,
        def: Option<&TableDef>,
        row: &Row,
    ) -> Result<(), AllocError>
        ensures written { OnOk result (self.new.written ≡ self.old.written
            ++ written_key table (option_copied def.entry) row.now) }
        ensures referred { OnOk result (self.new.referred ≡ self.old.referred
            ++ referred_key (option_copied def.entry) row.now) }
    {
        match def {
            None => Ok(()),
            Some(def) => {
                let key = key_of_row(alloc, def, row)?;
                self.written.push(RowKey { table, key })?;
                match &def.foreign_key {
                    None => Ok(()),
                    Some(foreign) => {
                        let key = key_at(alloc, foreign.columns.as_slice(), row)?;
                        let table = foreign.parent;
                        self.referred.push(RowKey { table, key })?;
                        Ok(())
                    }
                }
            }
        }
    }
}

fn is_among(keys: &[RowKey], key: &RowKey) -> bool
    ensures { result ≡ is_among keys.now key.now }
{
    keys.iter().any(|other| is_same_row_key(key, other))
}

fn is_same_row_key(a: &RowKey, b: &RowKey) -> bool
    ensures { result ≡ same_row_key a.now b.now }
{
    a.table.0 == b.table.0 && is_same_values(a.key.values(), b.key.values())
}
