//! Tables with the history that they come of.

ghost use Rattle.std.specs.Prelude.{◌≡◌, ◌≤◌, [], ◌∷◌, ◌++◌, false, length, take, true, IfErr, IfOk, IfSome, IsErr, IsSome, None, Ok, OnErr, OnOk, Some};
ghost use Rattle.std.specs.Result.{IsErrOf};
ghost use Rattle.std.specs.FinMap.{get};
ghost use Rattle.table_state.specs.declared.history.Entry.{Entry};
ghost use Rattle.table_state.specs.Tables.{TableState, table_at};
ghost use Rattle.table_state.specs.Histories.{entry_of, has_ticket, state_of};
ghost use Rattle.table_state.specs.Refusals.{IsFault, SaysNone, broken_by_all};
ghost use Rattle.outside.specs.Bank.{AppliesOnce, HasAll};
ghost use Rattle.outside.specs.Changes.{TellsChanges};
ghost use Rattle.outside.specs.Console.{IsCopyOf, Writes, WritesForeign};
ghost use Rattle.outside.specs.Others.{are_on_shared, is_shared};
ghost use Rattle.outside.specs.Passing.{CommitsAlone};
ghost use Rattle.outside.specs.Reaching.{instance_with};
ghost use Rattle.outside.specs.declared.fault.BankError.{BankError};
ghost use Rattle.outside.specs.declared.site.Done.{Done};
ghost use Rattle.transactions.specs.Transactions.{Tells, written_by_all};
ghost use Rattle.backing_gate.specs.Heeding.{MayVisit, NoneDiffers};
ghost use Rattle.backing_gate.specs.PassedOn.{IsFresh};
ghost use Rattle.backing_gate.specs.Sharing.{WritesOnShared};
ghost use Rattle.table_state.specs.Keyed.{IsKeyed};
ghost use Rattle.backing_gate.specs.Tickets.{FirstMissing};

use crate::difference::{first_difference, row_at};
use crate::ledger::Ledger;
use crate::reaching::instance_with;
use crate::touching::{all_touched, covered_tables};
use change_log::{logged, net};
use evaluator::Change;
use instances::Tree;
use outside::{Applied, BankError, Changes, Done, Reached, Receipt, Snapshot};
use row_types::{Key, Row};
use std::alloc::{AllocError, Global};
use std::marker::Model;
use std::slice::from_ref;
use table_defs::{BackingSchema, TableDef};
use table_state::{ApplyError, Entry, History, Op, RowKey, Sealed, Tables, UndoLog, copied_ops};
use tier_base::{Position, Seq, TableId, Ticket};
use transactions::writing::write_each;
use transactions::{Written, write_all};

/// The backing tables, with the history that left them. Clauses see the history.
#[derive(Drop)]
pub struct MemoryBank {
    ledger: Ledger,
    tables: Tables,
}

impl Model for MemoryBank {
    ghost use Rattle.std.specs.Prelude.{◌≡◌, List, Some};
    ghost use Rattle.table_state.specs.declared.history.Entry.{Entry};
    ghost use Rattle.table_state.specs.Histories.{state_of};

    ghost Value = { List Entry };

    ghost view = { λ b. b.ledger };

    ghost invariant = { λ b. state_of b.ledger ≡ Some b.tables };
}

impl MemoryBank {
    /// A bank without tables. It takes no memory.
    pub fn new(alloc: Global) -> MemoryBank
        ensures { result ≡ [] }
    {
        MemoryBank {
            ledger: Ledger::new(alloc),
            tables: Tables::new(alloc),
        }
    }

    /// The history.
    pub fn history(&self) -> &History
        ensures { result.now ≡ self.now }
    {
        self.ledger.entries()
    }

    /// A bank that went through the first entries of this one, so many as are asked for.
    ///
    /// It fails for want of memory alone.
    pub(crate) fn at(&self, alloc: Global, entries: usize) -> Result<MemoryBank, AllocError>
        requires { entries ≤ length self.now }
        ensures { IfOk result (λ bank. bank ≡ take entries self.now) }
    {
        MemoryBank::following(alloc, &self.ledger.entries().as_slice()[..entries])
    }

    // A bank that goes through these entries.
    fn following(alloc: Global, entries: &[Entry]) -> Result<MemoryBank, AllocError>
        ensures { IfOk result (λ bank. bank ≡ entries.now) }
    {
        let mut bank = MemoryBank::new(alloc);
        for entry in entries {
            bank.follow(alloc, entry)?;
        }
        Ok(bank)
    }

    // Goes through one entry more. An entry that doesn't apply, or whose ticket is there, is told as want of memory: no
    // bank went through such entries.
    fn follow(&mut self, alloc: Global, entry: &Entry) -> Result<(), AllocError>
        ensures { OnOk result (self.new ≡ self.old ++ entry.now ∷ []) }
    {
        match entry {
            Entry::Definition(def) => self.define(alloc, def),
            Entry::Foreign(ops) => match self.add_foreign(alloc, ops.as_slice()) {
                Ok(()) => Ok(()),
                Err(_) => Err(AllocError),
            },
            Entry::Own(ticket, ops) => self.follow_own(alloc, *ticket, ops.as_slice()),
        }
    }

    // The same of a transaction of the tier.
    fn follow_own(&mut self, alloc: Global, ticket: Ticket, ops: &[Op]) -> Result<(), AllocError>
        ensures { OnOk result (self.new ≡ self.old ++ Entry.Own ticket ops.now ∷ []) }
    {
        if self.ledger.position_of(ticket).is_some() {
            return Err(AllocError);
        }
        let ops = copied_ops(alloc, ops)?;
        match self.record(alloc, &Sealed { ticket, ops }) {
            Ok(()) => Ok(()),
            Err(_) => Err(AllocError),
        }
    }

    /// The definitions of the tables, in the order in which they were made.
    pub(crate) fn schema(&self) -> &BackingSchema
        ensures { (s : TableState) → state_of self.now ≡ Some s → result.now ≡ s.schema }
    {
        self.tables.schema()
    }

    /// Whether a transaction with this ticket is recorded.
    pub(crate) fn recorded(&self, ticket: Ticket) -> bool
        ensures { result ≡ has_ticket ticket.0 self.now }
    {
        self.ledger.position_of(ticket).is_some()
    }

    /// The row at the key of the table, none where there is none. It fails for want of memory alone.
    pub(crate) fn find(
        &self,
        alloc: Global,
        table: TableId,
        key: &Key,
    ) -> Result<Option<Row>, AllocError>
        ensures { IfOk result
            (λ row. (s : TableState) → state_of self.now ≡ Some s → row ≡ get (table_at s table) key.now) }
    {
        row_at(alloc, &self.tables, table, key)
    }

    /// Makes a table. For want of memory nothing changes.
    pub(crate) fn define(&mut self, alloc: Global, def: &TableDef) -> Result<(), AllocError>
        ensures ok { OnOk result (self.new ≡ self.old ++ Entry.Definition def.now ∷ []) }
        ensures err { OnErr result (self.new ≡ self.old) }
    {
        let entry = def.copied(alloc)?;
        let kept = def.copied(alloc)?;
        self.ledger.push_definition(entry)?;
        match self.tables.define(alloc, kept) {
            Ok(()) => Ok(()),
            Err(failed) => {
                self.ledger.take_back();
                Err(failed)
            }
        }
    }

    /// Applies a transaction that isn't the tier's and puts it behind the history, where it applies. After an error
    /// nothing changes.
    pub(crate) fn add_foreign(&mut self, alloc: Global, ops: &[Op]) -> Result<(), ApplyError>
        ensures ok { OnOk result (self.new ≡ self.old ++ Entry.Foreign ops.now ∷ []) }
        ensures none { IfErr result (SaysNone (state_of (self.old ++ Entry.Foreign ops.now ∷ []))) }
        ensures unchanged { OnErr result (self.new ≡ self.old) }
    {
        let kept = copied_ops(alloc, ops)?;
        self.ledger.push_foreign(kept)?;
        match self.tables.apply_all(alloc, ops) {
            Ok(()) => Ok(()),
            Err(error) => {
                self.ledger.take_back();
                Err(error)
            }
        }
    }

    /// Does the writes of a transaction of the console, all of them or none, and puts it behind the history, also where
    /// it writes no row.
    ///
    /// `BankError::Failed` where an operation meets a row that isn't there as it says; for want of memory
    /// `BankError::Memory`. Nothing changes then.
    pub(crate) fn foreign(&mut self, alloc: Global, changes: &[Change]) -> Result<Done, BankError>
        ensures written { WritesForeign changes.now result self.old self.new }
        ensures failed { IsErrOf result BankError.Failed → NoneDiffers changes.now self.old → ⊥ }
        ensures unchanged { OnErr result (self.new ≡ self.old) }
    {
        // The history leaves the tables.
        let _ = &self.tables;
        match self.write(alloc, changes) {
            Ok(rows) => Ok(Done::Rows(rows as u64)),
            Err(ApplyError::Rule(rule)) => Ok(Done::Broken(rule)),
            Err(ApplyError::Differs(_, _, _)) => Err(BankError::Failed),
            Err(ApplyError::Memory) => Err(BankError::Memory),
        }
    }

    // The entry is put in empty first, so that no memory is wanting when the tables have changed.
    fn write(&mut self, alloc: Global, changes: &[Change]) -> Result<usize, ApplyError>
        ensures ok { IfOk result (λ rows. Writes changes.now rows self.old self.new) }
        ensures refused { IfErr result
            (λ error. (s : TableState) → state_of self.old ≡ Some s → Tells (written_by_all changes.now s) error) }
        ensures unchanged { OnErr result (self.new ≡ self.old) }
    {
        self.ledger.push_foreign(Seq::new(alloc))?;
        match write_all(alloc, &mut self.tables, changes) {
            Ok(written) => {
                let rows = written.rows;
                self.ledger.replace_last(alloc, Entry::Foreign(written.ops));
                return Ok(rows);
            }
            Err(error) => {
                self.ledger.take_back();
                return Err(error);
            }
        }
    }

    /// Does one write of a session that is passed on, and puts it behind the history with its ticket, also where it
    /// writes no row.
    ///
    /// `BankError::Failed` where the ticket is recorded already, and where an operation meets a row that isn't there as
    /// it says; for want of memory `BankError::Memory`. Nothing changes then.
    pub(crate) fn passed(
        &mut self,
        alloc: Global,
        ticket: Ticket,
        change: &Change,
    ) -> Result<Done, BankError>
        ensures written { CommitsAlone ticket.0 change.now result self.old self.new }
        ensures known { has_ticket ticket.0 self.old ≡ true → IsErr result }
        ensures failed { IsErrOf result BankError.Failed → IsFresh ticket.0 change.now self.old → ⊥ }
        ensures unchanged { OnErr result (self.new ≡ self.old) }
    {
        // The history leaves the tables.
        let _ = &self.tables;
        if self.ledger.position_of(ticket).is_some() {
            return Err(BankError::Failed);
        }
        match self.write_own(alloc, ticket, change) {
            Ok(rows) => return Ok(Done::Rows(rows as u64)),
            Err(ApplyError::Rule(rule)) => return Ok(Done::Broken(rule)),
            Err(ApplyError::Differs(_, _, _)) => return Err(BankError::Failed),
            Err(ApplyError::Memory) => return Err(BankError::Memory),
        }
    }

    // The same of a ticket that is new, with how many rows were written. The entry is put in empty first here too.
    fn write_own(
        &mut self,
        alloc: Global,
        ticket: Ticket,
        change: &Change,
    ) -> Result<usize, ApplyError>
        requires { has_ticket ticket.0 self.old ≡ false }
        ensures ok { IfOk result (λ rows. CommitsAlone ticket.0 change.now (Ok (Done.Rows rows)) self.old self.new) }
        ensures refused { IfErr result (λ error. (s : TableState) → state_of self.old ≡ Some s
            → Tells (written_by_all (change.now ∷ []) s) error) }
        ensures unchanged { OnErr result (self.new ≡ self.old) }
    {
        self.ledger.push_own(ticket, Seq::new(alloc))?;
        match write_all(alloc, &mut self.tables, from_ref(change)) {
            Ok(written) => {
                let rows = written.rows;
                self.ledger
                    .replace_last(alloc, Entry::Own(ticket, written.ops));
                return Ok(rows);
            }
            Err(error) => {
                self.ledger.take_back();
                return Err(error);
            }
        }
    }

    /// Lets a transaction of others with these writes come, where they break no rule, change shared tables alone and
    /// memory isn't wanting; else nothing changes. It costs what its own rows cost: no table is copied.
    pub(crate) fn visit(&mut self, alloc: Global, shared: &[TableId], changes: &[Change])
        ensures { MayVisit shared.now (Some changes.now) self.old self.new }
    {
        // The entry is put in empty first, so that no memory is wanting when the tables have changed.
        match self.ledger.push_foreign(Seq::new(alloc)) {
            Err(_) => {}
            Ok(()) => match write_on_shared(alloc, &mut self.tables, shared, changes) {
                None => self.ledger.take_back(),
                Some(written) => self.ledger.replace_last(alloc, Entry::Foreign(written.ops)),
            },
        }
    }

    /// The definitions of all tables and the rows of these, with the length of the history. It fails for want of memory
    /// alone.
    pub(crate) fn snapshot(&self, alloc: Global, tables: &[TableId]) -> Result<Snapshot, AllocError>
        ensures position { IfOk result (λ snapshot. snapshot.position.0 ≡ length self.now) }
        ensures copy { IfOk result
            (λ snapshot. (s : TableState) → state_of self.now ≡ Some s → IsCopyOf tables.now s snapshot.tables) }
    {
        let tables = self.tables.copied_of(alloc, tables)?;
        let position = Position(self.ledger.entries().len() as u64);
        Ok(Snapshot { position, tables })
    }

    /// The instance that the row of a key is in, with the length of the history. It fails for want of memory alone.
    pub(crate) fn reach(
        &self,
        alloc: Global,
        tree: &Tree,
        table: TableId,
        key: &Key,
    ) -> Result<Reached, AllocError>
        ensures position { IfOk result (λ reached. reached.position.0 ≡ length self.now) }
        ensures instance { IfOk result (λ reached. (s : TableState) → state_of self.now ≡ Some s
            → reached.instance ≡ instance_with s tree.now table key.now) }
    {
        let instance = instance_with(alloc, tree, &self.tables, table, key)?;
        let position = Position(self.ledger.entries().len() as u64);
        Ok(Reached { position, instance })
    }

    /// What changed since a position in the tables of the trees, and the instances that this touches or that a want
    /// names. It goes through the history behind the position, which has each operation. It fails for want of memory
    /// alone.
    pub(crate) fn changes(
        &self,
        alloc: Global,
        since: Position,
        trees: &[Tree],
        wants: &[RowKey],
    ) -> Result<Changes, AllocError>
        ensures { IfOk result (λ changes. TellsChanges self.now since trees.now wants.now changes) }
    {
        let entries = self.ledger.entries().as_slice();
        let position = Position(entries.len() as u64);
        let begin = since.0.min(position.0) as usize;
        let covered = covered_tables(alloc, trees)?;
        let whole = logged(
            alloc,
            self.tables.schema(),
            &entries[begin..],
            covered.as_slice(),
        )?;
        let log = net(alloc, &whole)?;
        let touched = all_touched(alloc, trees, &self.tables, log.as_slice(), wants)?;
        Ok(Changes {
            position,
            log,
            touched,
        })
    }

    /// Applies and records a transaction where its ticket is new, those of `after` are there and its operations
    /// apply. For want of memory nothing changes.
    pub(crate) fn apply_once(
        &mut self,
        alloc: Global,
        sealed: &Sealed,
        after: &[Ticket],
    ) -> Result<Applied, AllocError>
        ensures ok { IfOk result (λ applied. AppliesOnce sealed.now after.now (Ok applied) self.old self.new) }
        ensures err { OnErr result (self.new ≡ self.old) }
    {
        if let Some(position) = self.ledger.position_of(sealed.ticket) {
            return Ok(Applied::Before(Receipt {
                ticket: sealed.ticket,
                position: Position(position),
            }));
        }
        if let Some(ticket) = self.first_missing(after) {
            return Ok(Applied::NotReady(ticket));
        }
        self.apply_new(alloc, sealed, after)
    }

    /// The first of the tickets that isn't recorded.
    fn first_missing(&self, tickets: &[Ticket]) -> Option<Ticket>
        ensures { FirstMissing result tickets.now self.now }
    {
        for ticket in tickets {
            if self.ledger.position_of(*ticket).is_none() {
                return Some(*ticket);
            }
        }
        None
    }

    // The ticket is new, and those of `after` are there.
    fn apply_new(
        &mut self,
        alloc: Global,
        sealed: &Sealed,
        after: &[Ticket],
    ) -> Result<Applied, AllocError>
        requires fresh { has_ticket sealed.now.ticket.0 self.old ≡ false }
        requires waited { HasAll after.now self.old }
        ensures ok { IfOk result (λ applied. AppliesOnce sealed.now after.now (Ok applied) self.old self.new) }
        ensures err { OnErr result (self.new ≡ self.old) }
    {
        match self.record(alloc, sealed) {
            Ok(()) => {
                return Ok(Applied::Now(Receipt {
                    ticket: sealed.ticket,
                    position: Position(self.ledger.entries().len() as u64),
                }));
            }
            Err(ApplyError::Memory) => return Err(AllocError),
            Err(ApplyError::Differs(table, key, row)) => {
                return Ok(Applied::Differs(table, key, row));
            }
            Err(ApplyError::Rule(_)) => {
                let found = first_difference(alloc, &mut self.tables, sealed.ops.as_slice())?;
                return Ok(Applied::Differs(found.table, found.key, found.row));
            }
        }
    }

    // Puts the transaction behind the history and applies it, where it applies.
    fn record(&mut self, alloc: Global, sealed: &Sealed) -> Result<(), ApplyError>
        requires { has_ticket sealed.now.ticket.0 self.old ≡ false }
        ensures ok { OnOk result (self.new ≡ self.old ++ entry_of sealed.now ∷ []) }
        ensures applies { OnOk result (IsSome (state_of (self.old ++ entry_of sealed.now ∷ []))) }
        ensures none { IfErr result (SaysNone (state_of (self.old ++ entry_of sealed.now ∷ []))) }
        ensures refused { IfErr result
            (λ error. (s : TableState) → state_of self.old ≡ Some s → IsFault (broken_by_all sealed.now.ops s) error) }
        ensures unchanged { OnErr result (self.new ≡ self.old) }
    {
        let ops = copied_ops(alloc, sealed.ops.as_slice())?;
        self.ledger.push_own(sealed.ticket, ops)?;
        match self.tables.apply_all(alloc, sealed.ops.as_slice()) {
            Ok(()) => return Ok(()),
            Err(error) => {
                self.ledger.take_back();
                return Err(error);
            }
        }
    }
}

// Does the writes of others where they break no rule and change shared tables alone; else the tables are as they were.
fn write_on_shared(
    alloc: Global,
    tables: &mut Tables,
    shared: &[TableId],
    changes: &[Change],
) -> Option<Written>
    requires { IsKeyed tables.old }
    ensures none { result ≡ None → tables.new ≡ tables.old }
    ensures some { IfSome result (λ written. WritesOnShared shared.now changes.now written tables.old tables.new) }
{
    let mut log = UndoLog::new(alloc);
    match write_each(alloc, tables, changes, &mut log) {
        Err(_) => {
            tables.take_all_back(alloc, log);
            None
        }
        Ok(written) => {
            if are_on_shared(shared, written.ops.as_slice()) {
                return Some(written);
            }
            tables.take_all_back(alloc, log);
            None
        }
    }
}

// Whether each operation is on one of these tables.
fn are_on_shared(shared: &[TableId], ops: &[Op]) -> bool
    ensures { result ≡ are_on_shared shared.now ops.now }
{
    ops.iter().all(|op| is_shared(shared, op.table()))
}

fn is_shared(shared: &[TableId], table: TableId) -> bool
    ensures { result ≡ is_shared shared.now table }
{
    shared.iter().any(|one| one.0 == table.0)
}
