//! Transactions and histories applied to tables.

ghost use Rattle.std.specs.Prelude.{◌≡◌, [], ◌∷◌, ◌++◌, IfErr, IfOk, OnErr, OnOk, Some};
ghost use Rattle.table_state.specs.Operations.{applied, applied_all};
ghost use Rattle.table_state.specs.Histories.{after_entry, state_from};
ghost use Rattle.table_state.specs.Refusals.{IsFault, SaysNone, StopsAt, broken_by, broken_by_all, broken_by_entry, broken_in};
ghost use Rattle.table_state.specs.Changes.{LeadsBack};
ghost use Rattle.table_state.specs.Tables.{TableState};

use crate::history::Entry;
use crate::operation::Op;
use crate::refusal::ApplyError;
use crate::tables::Tables;
use crate::undo_log::UndoLog;
use std::alloc::Global;

impl Tables {
    /// Applies the operations of a transaction from left to right, all or none.
    ///
    /// The error is that of the first operation that doesn't apply, as `apply` tells it. After an error, want of
    /// memory too, the tables are as they were. A transaction costs what its own rows cost.
    pub fn apply_all(&mut self, alloc: Global, ops: &[Op]) -> Result<(), ApplyError>
        ensures ok { OnOk result (applied_all ops.now self.old ≡ Some self.new) }
        ensures refused { IfErr result (IsFault (broken_by_all ops.now self.old)) }
        ensures none { IfErr result (SaysNone (applied_all ops.now self.old)) }
        ensures unchanged { OnErr result (self.new ≡ self.old) }
    {
        match ops.split_last() {
            None => Ok(()),
            Some((last, front)) => self.apply_front(alloc, ops, front, last),
        }
    }

    // How the last operation is taken back isn't noted.
    fn apply_front(
        &mut self,
        alloc: Global,
        ops: &[Op],
        front: &[Op],
        last: &Op,
    ) -> Result<(), ApplyError>
        requires { ops.now ≡ front.now ++ last.now ∷ [] }
        ensures ok { OnOk result (applied_all ops.now self.old ≡ Some self.new) }
        ensures refused { IfErr result (IsFault (broken_by_all ops.now self.old)) }
        ensures unchanged { OnErr result (self.new ≡ self.old) }
    {
        match self.apply_noted(alloc, front) {
            Err(e) => Err(e),
            Ok(log) => match self.apply(alloc, last) {
                Ok(()) => Ok(()),
                Err(e) => {
                    self.take_all_back(alloc, log);
                    Err(e)
                }
            },
        }
    }

    /// Applies the operations of a transaction as `apply_all` does, and tells how that is taken back.
    pub fn apply_noted(&mut self, alloc: Global, ops: &[Op]) -> Result<UndoLog, ApplyError>
        ensures ok { OnOk result (applied_all ops.now self.old ≡ Some self.new) }
        ensures back { IfOk result (λ log. LeadsBack log self.new self.old) }
        ensures refused { IfErr result (IsFault (broken_by_all ops.now self.old)) }
        ensures none { IfErr result (SaysNone (applied_all ops.now self.old)) }
        ensures unchanged { OnErr result (self.new ≡ self.old) }
    {
        let mut log = UndoLog::new(alloc);
        for op in ops {
            match self.apply_one(alloc, op, &mut log) {
                Ok(()) => {}
                Err(e) => {
                    self.take_all_back(alloc, log);
                    return Err(e);
                }
            }
        }
        Ok(log)
    }

    /// Applies one operation as `apply` does, and puts how it is taken back behind what is noted.
    ///
    /// After an error, want of memory too, the tables are as they were, and what is noted still leads back from them.
    pub fn apply_one(&mut self, alloc: Global, op: &Op, log: &mut UndoLog) -> Result<(), ApplyError>
        ensures ok { OnOk result (applied op.now self.old ≡ Some self.new) }
        ensures back { (s : TableState) → LeadsBack log.old self.old s → LeadsBack log.new self.new s }
        ensures refused { IfErr result (IsFault (broken_by op.now self.old)) }
        ensures unchanged { OnErr result (self.new ≡ self.old) }
    {
        let undo = self.apply_undoable(alloc, op)?;
        match log.push(undo) {
            Ok(()) => Ok(()),
            Err(undo) => {
                self.take_back(alloc, undo);
                Err(ApplyError::Memory)
            }
        }
    }

    /// Takes the step of one entry of the history.
    ///
    /// A definition fails for want of memory alone, and the error of a transaction is that of `apply_all`. After an
    /// error the tables are as they were.
    pub fn step(&mut self, alloc: Global, entry: &Entry) -> Result<(), ApplyError>
        ensures ok { OnOk result (after_entry entry.now self.old ≡ Some self.new) }
        ensures refused { IfErr result (IsFault (broken_by_entry entry.now self.old)) }
        ensures none { IfErr result (SaysNone (after_entry entry.now self.old)) }
        ensures unchanged { OnErr result (self.new ≡ self.old) }
    {
        match entry {
            Entry::Definition(def) => {
                let def = def.copied(alloc)?;
                self.define(alloc, def)?;
                Ok(())
            }
            Entry::Foreign(ops) => self.apply_all(alloc, ops.as_slice()),
            Entry::Own(_, ops) => self.apply_all(alloc, ops.as_slice()),
        }
    }

    /// Takes the steps of the entries, up to the first that can't be taken.
    ///
    /// The error is that entry's, as `step` tells it. After an error the steps before it stand.
    pub fn run(&mut self, alloc: Global, entries: &[Entry]) -> Result<(), ApplyError>
        ensures ok { OnOk result (state_from entries.now self.old ≡ Some self.new) }
        ensures refused { IfErr result (IsFault (broken_in entries.now self.old)) }
        ensures none { IfErr result (SaysNone (state_from entries.now self.old)) }
        ensures stopped { IfErr result (StopsAt entries.now self.old self.new) }
    {
        for entry in entries {
            self.step(alloc, entry)?;
        }
        Ok(())
    }
}
