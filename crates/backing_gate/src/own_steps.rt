//! The own steps of the bank calls, as they are planned.

ghost use Rattle.std.specs.Prelude.{◌≡◌, ◌≤◌, ◌⊎◌, [], ◌∷◌};
ghost use Rattle.table_state.specs.declared.history.Entry.{Entry};
ghost use Rattle.outside.specs.Bank.{AppliesOnce, Defines, Grows, TellsRecorded, TellsRow, TellsSchema};
ghost use Rattle.outside.specs.Changes.{TakesChanges};
ghost use Rattle.outside.specs.Console.{TakesSnapshot, WritesForeign};
ghost use Rattle.outside.specs.Faults.{BankHasCause, Rose};
ghost use Rattle.outside.specs.Passing.{CommitsAlone};
ghost use Rattle.outside.specs.Reaching.{Reaches};
ghost use Rattle.backing_gate.specs.Plans.{one_more};
ghost use Rattle.backing_gate.specs.Heeding.{HasEffect, HeedsAs, IsWritten, MustCome, NoneDiffers, bank_of};
ghost use Rattle.backing_gate.specs.Memory.{site_state};
ghost use Rattle.backing_gate.specs.PassedOn.{PassesAs};

use crate::memory_site::MemorySite;
use crate::plan::{Outcome, When};
use evaluator::Change;
use instances::Tree;
use outside::{Applied, BankError, Changes, Done, Reached, Snapshot};
use row_types::{Key, Row};
use table_defs::{BackingSchema, TableDef, copied_schema};
use table_state::{RowKey, Sealed};
use tier_base::{Position, TableId, Ticket};

impl MemorySite {
    // Counts a failed call.
    fn count_failure(&mut self)
        ensures counted { self.new ≡ record self.old { bank_faults = one_more self.old.bank_faults } }
        ensures later { self.old.bank_faults ≤ self.new.bank_faults }
        ensures rose { Rose self.old.bank_faults self.new.bank_faults }
    {
        self.bank_faults = self.bank_faults.saturating_add(1);
    }

    /// The definitions of the tables.
    pub(crate) fn schema_as(&mut self, outcome: Option<Outcome>) -> Result<BackingSchema, BankError>
        ensures own { TellsSchema result self.old.history self.new.history }
        ensures heeds { HeedsAs outcome self.old self.new result (λ begun done. done ≡ begun) }
        ensures cause { BankHasCause (site_state self.old) (site_state self.new) result }
        ensures kept { self.new ≡ record self.old { history = self.new.history; bank_faults = self.new.bank_faults } }
    {
        match outcome {
            Some(Outcome::Failed(_)) => {
                self.count_failure();
                Err(BankError::Failed)
            }
            Some(Outcome::Refused) => Err(BankError::Memory),
            None => match copied_schema(self.alloc, self.bank.schema().as_slice()) {
                Ok(schema) => Ok(schema),
                Err(_) => Err(BankError::Memory),
            },
        }
    }

    /// Makes a table.
    pub(crate) fn define_as(
        &mut self,
        outcome: Option<Outcome>,
        def: &TableDef,
    ) -> Result<(), BankError>
        ensures own { Defines def.now result self.old.history self.new.history }
        ensures heeds { HeedsAs outcome self.old self.new result (Grows (Entry.Definition def.now ∷ [])) }
        ensures cause { BankHasCause (site_state self.old) (site_state self.new) result }
        ensures kept { self.new ≡ record self.old { history = self.new.history; bank_faults = self.new.bank_faults } }
    {
        match outcome {
            Some(Outcome::Failed(When::Before)) => {
                self.count_failure();
                return Err(BankError::Failed);
            }
            Some(Outcome::Failed(When::After)) => match self.bank.define(self.alloc, def) {
                Ok(()) => {
                    self.count_failure();
                    return Err(BankError::Failed);
                }
                Err(_) => return Err(BankError::Memory),
            },
            Some(Outcome::Refused) => return Err(BankError::Memory),
            None => match self.bank.define(self.alloc, def) {
                Ok(()) => return Ok(()),
                Err(_) => return Err(BankError::Memory),
            },
        }
    }

    /// Applies and records a transaction of the tier, where it can come.
    pub(crate) fn apply_once_as(
        &mut self,
        outcome: Option<Outcome>,
        sealed: &Sealed,
        after: &[Ticket],
    ) -> Result<Applied, BankError>
        ensures own { AppliesOnce sealed.now after.now result self.old.history self.new.history }
        ensures heeds { HeedsAs outcome self.old self.new result (MustCome sealed.now after.now) }
        ensures cause { BankHasCause (site_state self.old) (site_state self.new) result }
        ensures kept { self.new ≡ record self.old { history = self.new.history; bank_faults = self.new.bank_faults } }
    {
        match outcome {
            Some(Outcome::Failed(When::Before)) => {
                self.count_failure();
                return Err(BankError::Failed);
            }
            Some(Outcome::Failed(When::After)) => match self
                .bank
                .apply_once(self.alloc, sealed, after)
            {
                Ok(_) => {
                    self.count_failure();
                    return Err(BankError::Failed);
                }
                Err(_) => return Err(BankError::Memory),
            },
            Some(Outcome::Refused) => return Err(BankError::Memory),
            None => match self.bank.apply_once(self.alloc, sealed, after) {
                Ok(applied) => return Ok(applied),
                Err(_) => return Err(BankError::Memory),
            },
        }
    }

    /// Whether a transaction with this ticket is recorded.
    pub(crate) fn recorded_as(
        &mut self,
        outcome: Option<Outcome>,
        ticket: Ticket,
    ) -> Result<bool, BankError>
        ensures own { TellsRecorded ticket.0 result self.old.history self.new.history }
        ensures heeds { HeedsAs outcome self.old self.new result (λ begun done. done ≡ begun) }
        ensures cause { BankHasCause (site_state self.old) (site_state self.new) result }
        ensures kept { self.new ≡ record self.old { history = self.new.history; bank_faults = self.new.bank_faults } }
    {
        match outcome {
            Some(Outcome::Failed(_)) => {
                self.count_failure();
                Err(BankError::Failed)
            }
            Some(Outcome::Refused) => Err(BankError::Memory),
            None => Ok(self.bank.recorded(ticket)),
        }
    }

    /// The row at the key of the table.
    pub(crate) fn find_as(
        &mut self,
        outcome: Option<Outcome>,
        table: TableId,
        key: &Key,
    ) -> Result<Option<Row>, BankError>
        ensures own { TellsRow table key.now result self.old.history self.new.history }
        ensures heeds { HeedsAs outcome self.old self.new result (λ begun done. done ≡ begun) }
        ensures cause { BankHasCause (site_state self.old) (site_state self.new) result }
        ensures kept { self.new ≡ record self.old { history = self.new.history; bank_faults = self.new.bank_faults } }
    {
        match outcome {
            Some(Outcome::Failed(_)) => {
                self.count_failure();
                Err(BankError::Failed)
            }
            Some(Outcome::Refused) => Err(BankError::Memory),
            None => match self.bank.find(self.alloc, table, key) {
                Ok(row) => Ok(row),
                Err(_) => Err(BankError::Memory),
            },
        }
    }

    /// The rows of these tables.
    pub(crate) fn snapshot_as(
        &mut self,
        outcome: Option<Outcome>,
        tables: &[TableId],
    ) -> Result<Snapshot, BankError>
        ensures own { TakesSnapshot tables.now result self.old.history self.new.history }
        ensures heeds { HeedsAs outcome self.old self.new result (λ begun done. done ≡ begun) }
        ensures cause { BankHasCause (site_state self.old) (site_state self.new) result }
        ensures kept { self.new ≡ record self.old { history = self.new.history; bank_faults = self.new.bank_faults } }
    {
        match outcome {
            Some(Outcome::Failed(_)) => {
                self.count_failure();
                Err(BankError::Failed)
            }
            Some(Outcome::Refused) => Err(BankError::Memory),
            None => match self.bank.snapshot(self.alloc, tables) {
                Ok(snapshot) => Ok(snapshot),
                Err(_) => Err(BankError::Memory),
            },
        }
    }

    /// The instance that a row is in.
    pub(crate) fn reach_as(
        &mut self,
        outcome: Option<Outcome>,
        tree: &Tree,
        table: TableId,
        key: &Key,
    ) -> Result<Reached, BankError>
        ensures own { Reaches tree.now table key.now result self.old.history self.new.history }
        ensures heeds { HeedsAs outcome self.old self.new result (λ begun done. done ≡ begun) }
        ensures cause { BankHasCause (site_state self.old) (site_state self.new) result }
        ensures kept { self.new ≡ record self.old { history = self.new.history; bank_faults = self.new.bank_faults } }
    {
        match outcome {
            Some(Outcome::Failed(_)) => {
                self.count_failure();
                Err(BankError::Failed)
            }
            Some(Outcome::Refused) => Err(BankError::Memory),
            None => match self.bank.reach(self.alloc, tree, table, key) {
                Ok(reached) => Ok(reached),
                Err(_) => Err(BankError::Memory),
            },
        }
    }

    /// What changed since a position.
    pub(crate) fn changes_as(
        &mut self,
        outcome: Option<Outcome>,
        since: Position,
        trees: &[Tree],
        wants: &[RowKey],
    ) -> Result<Changes, BankError>
        ensures own { TakesChanges since trees.now wants.now result self.old.history self.new.history }
        ensures heeds { HeedsAs outcome self.old self.new result (λ begun done. done ≡ begun) }
        ensures cause { BankHasCause (site_state self.old) (site_state self.new) result }
        ensures kept { self.new ≡ record self.old { history = self.new.history; bank_faults = self.new.bank_faults } }
    {
        match outcome {
            Some(Outcome::Failed(_)) => {
                self.count_failure();
                Err(BankError::Failed)
            }
            Some(Outcome::Refused) => Err(BankError::Memory),
            None => match self.bank.changes(self.alloc, since, trees, wants) {
                Ok(changes) => Ok(changes),
                Err(_) => Err(BankError::Memory),
            },
        }
    }

    /// Does the writes of a transaction of the console. It fails, though nothing is planned, where an operation meets a
    /// row that isn't there as it says; no schema whose definitions were checked leads there.
    pub(crate) fn foreign_as(
        &mut self,
        outcome: Option<Outcome>,
        changes: &[Change],
    ) -> Result<Done, BankError>
        ensures own { WritesForeign changes.now result self.old.history self.new.history }
        ensures heeds { NoneDiffers changes.now self.old.history
            → HeedsAs outcome self.old self.new result (IsWritten changes.now) }
        ensures idle { HasEffect outcome ⊎ (self.new.history ≡ self.old.history) }
        ensures cause { BankHasCause (site_state self.old) (site_state self.new) result }
        ensures kept { self.new ≡ record self.old { history = self.new.history; bank_faults = self.new.bank_faults } }
    {
        match outcome {
            Some(Outcome::Failed(When::Before)) => {
                self.count_failure();
                return Err(BankError::Failed);
            }
            Some(Outcome::Failed(When::After)) => match self.bank.foreign(self.alloc, changes) {
                Ok(_) => {
                    self.count_failure();
                    return Err(BankError::Failed);
                }
                Err(BankError::Failed) => {
                    self.count_failure();
                    return Err(BankError::Failed);
                }
                Err(BankError::Memory) => return Err(BankError::Memory),
            },
            Some(Outcome::Refused) => return Err(BankError::Memory),
            None => match self.bank.foreign(self.alloc, changes) {
                Ok(done) => return Ok(done),
                Err(BankError::Failed) => {
                    self.count_failure();
                    return Err(BankError::Failed);
                }
                Err(BankError::Memory) => return Err(BankError::Memory),
            },
        }
    }

    /// Does one write of a session that is passed on. It fails, though nothing is planned, where its ticket is recorded
    /// already, and where an operation meets a row that isn't there as it says.
    pub(crate) fn passed_as(
        &mut self,
        outcome: Option<Outcome>,
        ticket: Ticket,
        change: &Change,
    ) -> Result<Done, BankError>
        ensures own { CommitsAlone ticket.0 change.now result self.old.history self.new.history }
        ensures heeds { PassesAs outcome ticket.0 change.now (bank_of self.old) (bank_of self.new) result }
        ensures idle { HasEffect outcome ⊎ (self.new.history ≡ self.old.history) }
        ensures cause { BankHasCause (site_state self.old) (site_state self.new) result }
        ensures kept { self.new ≡ record self.old { history = self.new.history; bank_faults = self.new.bank_faults } }
    {
        match outcome {
            Some(Outcome::Failed(When::Before)) => {
                self.count_failure();
                return Err(BankError::Failed);
            }
            Some(Outcome::Failed(When::After)) => {
                match self.bank.passed(self.alloc, ticket, change) {
                    Ok(_) => {
                        self.count_failure();
                        return Err(BankError::Failed);
                    }
                    Err(BankError::Failed) => {
                        self.count_failure();
                        return Err(BankError::Failed);
                    }
                    Err(BankError::Memory) => return Err(BankError::Memory),
                }
            }
            Some(Outcome::Refused) => return Err(BankError::Memory),
            None => match self.bank.passed(self.alloc, ticket, change) {
                Ok(done) => return Ok(done),
                Err(BankError::Failed) => {
                    self.count_failure();
                    return Err(BankError::Failed);
                }
                Err(BankError::Memory) => return Err(BankError::Memory),
            },
        }
    }
}
