//! Whether operations apply.

ghost use Rattle.std.specs.Prelude.{◌≡◌, ◌<◌, IfOk, IfSome, None, Some, option_copied, slice_get, if◌then◌else◌, find};
ghost use Rattle.std.specs.Option.{option_and_then};
ghost use Rattle.std.specs.FinMap as map;
ghost use Rattle.table_defs.specs.tier_base.specs.declared.code.Code.TheVariants as code;
ghost use Rattle.table_defs.specs.row_types.specs.declared.rule.Detail.TheVariants as detail;
ghost use Rattle.table_state.specs.declared.refusal.ApplyError.TheVariants as error;
ghost use Rattle.indexed_rows.specs.Rows.{key_of};
ghost use Rattle.table_state.specs.Tables.{is_found, names_parent, table_at};
ghost use Rattle.table_state.specs.Refusals.{Judges, child_of, delete_fault, differing, first_child, has_children, insert_fault, missing_parent, refused, row_of, update_fault};

use crate::fitting::{broken, check_fit, check_key_stays};
use crate::lookup::key_of_row;
use crate::refusal::ApplyError;
use crate::tables::Tables;
use indexed_rows::{IndexedRows, Rows, is_same_row, key_at};
use std::alloc::{AllocError, Global};
use table_defs::row_types::{Detail, Key, Row};
use table_defs::tier_base::{Code, TableId};
use table_defs::{ForeignKey, TableDef};

impl Tables {
    /// The key of a row that can be inserted.
    pub(crate) fn check_insert(
        &self,
        alloc: Global,
        def: &TableDef,
        rows: &Rows,
        row: &Row,
    ) -> Result<Key, ApplyError>
        ensures judged { Judges result (insert_fault self.now row.now def.now rows.now) }
        ensures key { IfOk result (λ key. key ≡ key_of def.now.primary_key row.now) }
    {
        check_fit(alloc, def.columns.as_slice(), row)?;
        let key = key_of_row(alloc, def, row)?;
        check_new(alloc, def, rows, &key)?;
        self.check_parent(alloc, def, row)?;
        Ok(key)
    }

    /// The key of a row that can become another.
    pub(crate) fn check_update(
        &self,
        alloc: Global,
        table: TableId,
        def: &TableDef,
        rows: &Rows,
        old: &Row,
        new: &Row,
    ) -> Result<Key, ApplyError>
        ensures judged { Judges result (update_fault self.now table old.now new.now def.now rows.now) }
        ensures key { IfOk result (λ key. key ≡ key_of def.now.primary_key old.now) }
    {
        check_key_stays(alloc, def, old, new)?;
        check_fit(alloc, def.columns.as_slice(), new)?;
        let key = key_of_row(alloc, def, old)?;
        check_there(alloc, table, rows, &key, old)?;
        self.check_parent(alloc, def, new)?;
        Ok(key)
    }

    /// The key of a row that can be deleted.
    pub(crate) fn check_delete(
        &self,
        alloc: Global,
        table: TableId,
        def: &TableDef,
        rows: &Rows,
        old: &Row,
    ) -> Result<Key, ApplyError>
        ensures judged { Judges result (delete_fault self.now table old.now def.now rows.now) }
        ensures key { IfOk result (λ key. key ≡ key_of def.now.primary_key old.now) }
    {
        let key = key_of_row(alloc, def, old)?;
        check_there(alloc, table, rows, &key, old)?;
        self.check_childless(alloc, table, &key)?;
        Ok(key)
    }

    fn check_parent(&self, alloc: Global, def: &TableDef, row: &Row) -> Result<(), ApplyError>
        ensures { Judges result (missing_parent self.now def.now row.now) }
    {
        match &def.foreign_key {
            None => Ok(()),
            Some(foreign) => {
                let key = key_at(alloc, foreign.columns.as_slice(), row)?;
                if self.has_row(foreign.parent, &key) {
                    return Ok(());
                }
                match self.row_detail(alloc, foreign.parent, key) {
                    Err(_) => Err(ApplyError::Memory),
                    Ok(detail) => Err(broken(Code::ParentMissing, detail)),
                }
            }
        }
    }

    fn has_row(&self, table: TableId, key: &Key) -> bool
        ensures { result ≡ map.contains_key (table_at self.now table) key.now }
    {
        match self.table(table) {
            None => false,
            Some(rows) => rows.contains_key(key),
        }
    }

    fn row_detail(&self, alloc: Global, table: TableId, key: Key) -> Result<Detail, AllocError>
        ensures { IfOk result (λ detail. detail ≡ row_of key (slice_get self.now.schema table.0)) }
    {
        match self.schema.get(table.0 as usize) {
            None => Ok(Detail::Nothing),
            Some(def) => {
                let name = def.name.copied(alloc)?;
                Ok(Detail::Row(name, key))
            }
        }
    }

    fn check_childless(&self, alloc: Global, table: TableId, key: &Key) -> Result<(), ApplyError>
        ensures { Judges result (has_children self.now table key.now) }
    {
        match first_child(
            alloc,
            table,
            key,
            self.schema.as_slice(),
            self.rows.as_slice(),
        ) {
            Err(_) => Err(ApplyError::Memory),
            Ok(None) => Ok(()),
            Ok(Some(child)) => Err(broken(Code::ChildExists, child)),
        }
    }
}

fn check_new(alloc: Global, def: &TableDef, rows: &Rows, key: &Key) -> Result<(), ApplyError>
    ensures { Judges result (if map.contains_key rows.now key.now then refused code.KeyExists
        (detail.Row def.now.name key.now) else None) }
{
    if !rows.contains_key(key) {
        return Ok(());
    }
    let name = def.name.copied(alloc)?;
    let key = key.copied(alloc)?;
    Err(broken(Code::KeyExists, Detail::Row(name, key)))
}

fn check_there(
    alloc: Global,
    table: TableId,
    rows: &Rows,
    key: &Key,
    row: &Row,
) -> Result<(), ApplyError>
    ensures { Judges result (if is_found row.now (map.get rows.now key.now) then None else Some
        (error.Differs table key.now (map.get rows.now key.now))) }
{
    match rows.get(key) {
        None => {
            let key = key.copied(alloc)?;
            Err(ApplyError::Differs(table, key, None))
        }
        Some(found) => {
            if is_same_row(found, row) {
                return Ok(());
            }
            let key = key.copied(alloc)?;
            let found = found.copied(alloc)?;
            Err(ApplyError::Differs(table, key, Some(found)))
        }
    }
}

fn first_child(
    alloc: Global,
    table: TableId,
    key: &Key,
    defs: &[TableDef],
    tables: &[IndexedRows],
) -> Result<Option<Detail>, AllocError>
    ensures { IfOk result (λ child. child ≡ first_child table key.now defs.now tables.now) }
{
    let mut later = defs;
    let mut others = tables;
    while let (Some((def, defs)), Some((rows, tables))) = (
        later.split_first(),
        others.split_first(),
    ) {
        match child_of(alloc, table, key, def, rows)? {
            Some(child) => return Ok(Some(child)),
            None => {
                later = defs;
                others = tables;
            }
        }
    }
    Ok(None)
}

fn child_of(
    alloc: Global,
    table: TableId,
    key: &Key,
    def: &TableDef,
    rows: &IndexedRows,
) -> Result<Option<Detail>, AllocError>
    ensures { IfOk result (λ child. child ≡ child_of table key.now def.now rows.now) }
{
    match child_place(table, key, &def.foreign_key, rows) {
        None => Ok(None),
        Some(place) => {
            let (key, _) = rows.rows().entry_at(place);
            let key = key.copied(alloc)?;
            let name = def.name.copied(alloc)?;
            Ok(Some(Detail::Row(name, key)))
        }
    }
}

// The place of the first row that refers to the row of this table and key.
fn child_place(
    table: TableId,
    key: &Key,
    foreign_key: &Option<ForeignKey>,
    rows: &IndexedRows,
) -> Option<usize>
    ensures found { option_and_then (slice_get (map.entries rows.now)) result
        ≡ find (λ e. names_parent table key.now foreign_key.now e.1) (map.entries rows.now) }
    ensures within { IfSome result (λ place. place < map.len rows.now) }
{
    match foreign_key {
        None => None,
        Some(foreign) => {
            if foreign.parent == table {
                rows.child(foreign.columns.as_slice(), key, 0)
            } else {
                None
            }
        }
    }
}
