//! Operations applied to tables.

ghost use Rattle.std.specs.Prelude.{◌≡◌, ◌<◌, ◌^◌, IfErr, IfOk, OnErr, OnOk, Some};
ghost use Rattle.std.specs.FinMap as map;
ghost use Rattle.table_state.specs.Operations.{applied};
ghost use Rattle.table_state.specs.Tables.{table_at};
ghost use Rattle.table_state.specs.Refusals.{IsFault, Judges, SaysNone, broken_by};
ghost use Rattle.table_state.specs.Changes.{HasRoom, IsKeyIn, taken_back};

use crate::change::Undo;
use crate::fitting::broken;
use crate::operation::Op;
use crate::refusal::ApplyError;
use crate::tables::Tables;
use indexed_rows::Spare;
use std::alloc::Global;
use table_defs::row_types::{Detail, Key, Row};
use table_defs::tier_base::{Code, TableId};

impl Tables {
    /// Applies an operation.
    ///
    /// `ApplyError::Rule` tells the first broken rule: 102 without the table; 118 of an update that changes the
    /// primary key; 104 of a row with another number of values than columns, 105 of a value that its column can't
    /// hold, 106 of NULL where the column refuses it; 107 of an insert whose key has a row; 108 without the parent;
    /// 109 of a delete whose row has a child. `ApplyError::Differs` comes, before 108 and 109, where the old row of
    /// an update or delete isn't there. After an error the tables are as they were.
    pub fn apply(&mut self, alloc: Global, op: &Op) -> Result<(), ApplyError>
        ensures ok { OnOk result (applied op.now self.old ≡ Some self.new) }
        ensures refused { IfErr result (IsFault (broken_by op.now self.old)) }
        ensures none { IfErr result (SaysNone (applied op.now self.old)) }
        ensures unchanged { OnErr result (self.new ≡ self.old) }
    {
        match op {
            Op::Insert(table, row) => {
                self.insert(alloc, *table, row)?;
                Ok(())
            }
            Op::Update(table, old, new) => {
                self.update(alloc, *table, old, new)?;
                Ok(())
            }
            Op::Delete(table, old) => self.delete(alloc, *table, old),
        }
    }

    /// Applies an operation, and tells how that is taken back. The error is that of `apply`.
    pub(crate) fn apply_undoable(&mut self, alloc: Global, op: &Op) -> Result<Undo, ApplyError>
        ensures ok { OnOk result (applied op.now self.old ≡ Some self.new) }
        ensures undo { IfOk result (λ undo. taken_back undo self.new ≡ self.old) }
        ensures room { IfOk result (λ undo. HasRoom undo self.new) }
        ensures refused { IfErr result (IsFault (broken_by op.now self.old)) }
        ensures unchanged { OnErr result (self.new ≡ self.old) }
    {
        match op {
            Op::Insert(table, row) => self.insert(alloc, *table, row),
            Op::Update(table, old, new) => self.update(alloc, *table, old, new),
            Op::Delete(table, old) => self.delete_kept(alloc, *table, old),
        }
    }

    /// Inserts a row, and tells how that is taken back.
    pub(crate) fn insert(
        &mut self,
        alloc: Global,
        table: TableId,
        row: &Row,
    ) -> Result<Undo, ApplyError>
        ensures ok { OnOk result (applied (Op.Insert table row.now) self.old ≡ Some self.new) }
        ensures undo { IfOk result (λ undo. taken_back undo self.new ≡ self.old) }
        ensures room { IfOk result (λ undo. HasRoom undo self.new) }
        ensures refused { IfErr result (IsFault (broken_by (Op.Insert table row.now) self.old)) }
        ensures unchanged { OnErr result (self.new ≡ self.old) }
    {
        let key = self.judge_insert(alloc, table, row)?;
        let row = row.copied(alloc)?;
        self.put_new(alloc, table, &key, row)?;
        Ok(Undo::Inserted(table, key))
    }

    /// Updates a row, and tells how that is taken back.
    pub(crate) fn update(
        &mut self,
        alloc: Global,
        table: TableId,
        old: &Row,
        new: &Row,
    ) -> Result<Undo, ApplyError>
        ensures ok { OnOk result (applied (Op.Update table old.now new.now) self.old ≡ Some self.new) }
        ensures undo { IfOk result (λ undo. taken_back undo self.new ≡ self.old) }
        ensures room { IfOk result (λ undo. HasRoom undo self.new) }
        ensures refused { IfErr result (IsFault (broken_by (Op.Update table old.now new.now) self.old)) }
        ensures unchanged { OnErr result (self.new ≡ self.old) }
    {
        let key = self.judge_update(alloc, table, old, new)?;
        let kept = key.copied(alloc)?;
        let old = old.copied(alloc)?;
        let new = new.copied(alloc)?;
        self.put_over(alloc, table, key, new);
        Ok(Undo::Changed(table, kept, old))
    }

    fn delete(&mut self, alloc: Global, table: TableId, old: &Row) -> Result<(), ApplyError>
        ensures ok { OnOk result (applied (Op.Delete table old.now) self.old ≡ Some self.new) }
        ensures refused { IfErr result (IsFault (broken_by (Op.Delete table old.now) self.old)) }
        ensures unchanged { OnErr result (self.new ≡ self.old) }
    {
        let key = self.judge_delete(alloc, table, old)?;
        self.take_out(alloc, table, &key);
        Ok(())
    }

    // Deletes a row, and tells how that is taken back.
    fn delete_kept(&mut self, alloc: Global, table: TableId, old: &Row) -> Result<Undo, ApplyError>
        ensures ok { OnOk result (applied (Op.Delete table old.now) self.old ≡ Some self.new) }
        ensures undo { IfOk result (λ undo. taken_back undo self.new ≡ self.old) }
        ensures room { IfOk result (λ undo. HasRoom undo self.new) }
        ensures refused { IfErr result (IsFault (broken_by (Op.Delete table old.now) self.old)) }
        ensures unchanged { OnErr result (self.new ≡ self.old) }
    {
        let key = self.judge_delete(alloc, table, old)?;
        let kept = key.copied(alloc)?;
        let old = old.copied(alloc)?;
        let left = Spare::new(alloc, kept, old)?;
        // What `count` ensures tells that the table has room for the row when it comes back.
        let _held = self.count(table);
        self.take_out(alloc, table, &key);
        Ok(Undo::Deleted(table, left))
    }

    // How many rows a table has.
    fn count(&self, table: TableId) -> usize
        ensures value { result ≡ map.len (table_at self.now table) }
        ensures fits { map.len (table_at self.now table) < 2 ^ 63 }
    {
        match self.table(table) {
            None => 0,
            Some(rows) => rows.len(),
        }
    }

    fn judge_insert(&self, alloc: Global, table: TableId, row: &Row) -> Result<Key, ApplyError>
        ensures judged { Judges result (broken_by (Op.Insert table row.now) self.now) }
        ensures key { IfOk result (IsKeyIn self.now table row.now) }
    {
        match (self.schema().get(table.0 as usize), self.table(table)) {
            (Some(def), Some(rows)) => self.check_insert(alloc, def, rows, row),
            _ => Err(broken(Code::UnknownTable, Detail::Nothing)),
        }
    }

    fn judge_update(
        &self,
        alloc: Global,
        table: TableId,
        old: &Row,
        new: &Row,
    ) -> Result<Key, ApplyError>
        ensures judged { Judges result (broken_by (Op.Update table old.now new.now) self.now) }
        ensures key { IfOk result (IsKeyIn self.now table old.now) }
    {
        match (self.schema().get(table.0 as usize), self.table(table)) {
            (Some(def), Some(rows)) => self.check_update(alloc, table, def, rows, old, new),
            _ => Err(broken(Code::UnknownTable, Detail::Nothing)),
        }
    }

    fn judge_delete(&self, alloc: Global, table: TableId, old: &Row) -> Result<Key, ApplyError>
        ensures judged { Judges result (broken_by (Op.Delete table old.now) self.now) }
        ensures key { IfOk result (IsKeyIn self.now table old.now) }
    {
        match (self.schema().get(table.0 as usize), self.table(table)) {
            (Some(def), Some(rows)) => self.check_delete(alloc, table, def, rows, old),
            _ => Err(broken(Code::UnknownTable, Detail::Nothing)),
        }
    }
}
