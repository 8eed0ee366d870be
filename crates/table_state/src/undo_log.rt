//! How several changes are taken back.

ghost use Rattle.std.specs.Prelude.{◌≡◌, [], ◌∷◌, ◌++◌, IfErr, OnErr, OnOk};
ghost use Rattle.table_state.specs.Changes.{AllHaveRoom, LeadsBack, all_taken_back};
ghost use Rattle.table_state.specs.Tables.{TableState};

use crate::change::Undo;
use crate::tables::Tables;
use std::alloc::{AllocError, Global};
use std::marker::Model;

/// How changes of tables are taken back. Clauses see the changes, in the order in which they were made.
#[derive(Drop)]
pub struct UndoLog {
    undos: Vec<Undo>,
}

impl Model for UndoLog {
    ghost use Rattle.std.specs.Prelude.{List};
    ghost use Rattle.table_state.specs.declared.change.Undo.{Undo};

    ghost Value = { List Undo };

    ghost view = { λ log. log.undos.items };
}

impl UndoLog {
    /// No changes. It takes no memory.
    pub fn new(alloc: Global) -> UndoLog
        ensures none { result ≡ [] }
        ensures back { (s : TableState) → LeadsBack result s s }
    {
        UndoLog {
            undos: Vec::new(alloc),
        }
    }

    /// Puts other changes behind these, which were made on the state that these left.
    ///
    /// It fails for want of memory alone, and both then are as they were.
    pub fn append(&mut self, later: &mut UndoLog) -> Result<(), AllocError>
        ensures ok { OnOk result (self.new ≡ self.old ++ later.old) }
        ensures back { OnOk result ((before between behind : TableState) → LeadsBack self.old between before
            → LeadsBack later.old behind between → LeadsBack self.new behind before) }
        ensures unchanged { OnErr result ((self.new ≡ self.old) × (later.new ≡ later.old)) }
    {
        self.undos.append(&mut later.undos)?;
        Ok(())
    }

    // It fails for want of memory alone.
    pub(crate) fn push(&mut self, undo: Undo) -> Result<(), Undo>
        ensures ok { OnOk result (self.new ≡ self.old ++ undo ∷ []) }
        ensures err { OnErr result (self.new ≡ self.old) }
        ensures value_returned { IfErr result (λ back. back ≡ undo) }
    {
        match self.undos.push(undo) {
            Ok(()) => Ok(()),
            Err(failed) => Err(failed.value),
        }
    }
}

impl Tables {
    /// Takes changes back, the last one first. It doesn't fail.
    pub fn take_all_back(&mut self, alloc: Global, log: UndoLog)
        requires { AllHaveRoom log self.old }
        ensures taken { self.new ≡ all_taken_back log self.old }
        ensures back { (s : TableState) → LeadsBack log self.old s → self.new ≡ s }
    {
        let mut undos = log.undos;
        while let Some(undo) = undos.pop() {
            self.take_back(alloc, undo);
        }
    }
}
