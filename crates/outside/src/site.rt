//! The backing database, with the journal's disk beside it.

ghost use Rattle.outside.specs.Bank.{AppliesOnce, Defines, TellsRecorded, TellsRow, TellsSchema, WaitsForOne};
ghost use Rattle.outside.specs.Calls.{BankGoesOn, BankTold, OnlyLooks};
ghost use Rattle.outside.specs.Changes.{TakesChanges};
ghost use Rattle.outside.specs.Console.{TakesSnapshot, WritesForeign};
ghost use Rattle.outside.specs.Faults.{BankHasCause};
ghost use Rattle.outside.specs.Passing.{CommitsAlone};
ghost use Rattle.outside.specs.Reaching.{Reaches};
ghost use Rattle.table_defs.specs.Declarations.{IsChecked};

use crate::changes::Changes;
use crate::disk::Disk;
use crate::fault::BankError;
use evaluator::Change;
use indexed_rows::Rows;
use instances::Tree;
use row_types::{Key, Row, Rule};
use table_defs::{BackingSchema, TableDef};
use table_state::{RowKey, Sealed, Tables};
use tier_base::{Position, Seq, TableId, Ticket};

/// That a transaction of the tier stands in the backing history.
#[derive(Clone, Copy, Debug, PartialEq, Eq)]
pub struct Receipt {
    /// Its ticket.
    pub ticket: Ticket,
    /// How many entries the history had with its own as the last.
    pub position: Position,
}

/// What became of a transaction that was to be applied once.
#[derive(Drop)]
pub enum Applied {
    /// It was applied and recorded in this call.
    Now(Receipt),
    /// It was recorded already.
    Before(Receipt),
    /// This ticket, which has to stand before it, isn't recorded.
    NotReady(Ticket),
    /// An operation doesn't apply. Of the first such: the table, the key of the row that isn't as it should be, and the
    /// row there. That is the operation's own row, or the parent that is missing, or the least child that is there.
    Differs(TableId, Key, Option<Row>),
}

/// What became of a transaction of the console, or of a write that was passed on.
#[derive(Drop)]
pub enum Done {
    /// It was done. So many rows of the named tables were written; those that left by ON DELETE CASCADE aren't counted.
    Rows(u64),
    /// It breaks this rule, and none of its writes was done.
    Broken(Rule),
}

/// Rows of the backing tables at one position of the backing history.
#[derive(Drop)]
pub struct Snapshot {
    /// The position: how many entries the history had.
    pub position: Position,
    /// All tables, but rows of those alone that were asked for.
    pub tables: Tables,
}

/// The instance of a root key.
pub struct Instance {
    /// The root key.
    pub root: Key,
    /// For each table of the tree, the root first, the rows of the view that are reached from the root row, by primary
    /// key. There are none where that row isn't in the view.
    pub rows: Seq<Rows>,
}

impl Drop for Instance {
    fn drop(self) {
        let Self { root: _, rows: _ } = self;
    }
}

/// The instance that a row is in, at one position of the backing history.
pub struct Reached {
    /// The position: how many entries the history had.
    pub position: Position,
    /// The instance; none where the tree doesn't cover the row's table, and where the row, or one that it leads to,
    /// isn't there.
    pub instance: Option<Instance>,
}

impl Drop for Reached {
    fn drop(self) {
        let Self {
            position: _,
            instance: _,
        } = self;
    }
}

/// The backing database. Each call is one moment. Calls keep the slots of the disk, and no call changes what was
/// possible before it.
///
/// Transactions of others may come in each call, before its own step and behind it. They change shared tables alone. So
/// a position that a call tells is a length that the history had in the call, and needn't be its end.
///
/// `BankError::Failed` comes only where the count of bank faults rose in the call; a failed `define`, `apply_once`,
/// `foreign` or `passed` leaves the history with its own entry or without it. Where memory is wanting there is no own
/// entry. No call changes the count of the disk's faults, or which tables others change.
pub trait Site: Disk {
    /// The definitions of all tables, in the order in which they were made.
    fn schema(&mut self) -> Result<BackingSchema, BankError>
        ensures told { BankTold (Self.state self.old) (Self.state self.new) (TellsSchema result) }
        ensures crash { BankGoesOn Self.state Self.possible self.old self.new }
        ensures cause { BankHasCause (Self.state self.old) (Self.state self.new) result };

    /// Makes a table, which is behind the others then. A condition is that the definition passed `TableDef::check`.
    fn define(&mut self, def: &TableDef) -> Result<(), BankError>
        requires checked { IsChecked def.now }
        ensures told { BankTold (Self.state self.old) (Self.state self.new) (Defines def.now result) }
        ensures crash { BankGoesOn Self.state Self.possible self.old self.new }
        ensures cause { BankHasCause (Self.state self.old) (Self.state self.new) result };

    /// Applies and records a transaction, in one transaction of the bank, where its ticket isn't recorded yet and
    /// those of `after` are. What it waits for is one of `after`, also where the site tells nothing.
    fn apply_once(&mut self, sealed: &Sealed, after: &[Ticket]) -> Result<Applied, BankError>
        ensures told { BankTold (Self.state self.old) (Self.state self.new) (AppliesOnce sealed.now after.now result) }
        ensures crash { BankGoesOn Self.state Self.possible self.old self.new }
        ensures waits { WaitsForOne after.now result }
        ensures cause { BankHasCause (Self.state self.old) (Self.state self.new) result };

    /// Whether a transaction with this ticket is recorded.
    fn recorded(&mut self, ticket: Ticket) -> Result<bool, BankError>
        ensures told { BankTold (Self.state self.old) (Self.state self.new) (TellsRecorded ticket.0 result) }
        ensures crash { BankGoesOn Self.state Self.possible self.old self.new }
        ensures cause { BankHasCause (Self.state self.old) (Self.state self.new) result };

    /// The row at the key of the table, none where there is none.
    fn find(&mut self, table: TableId, key: &Key) -> Result<Option<Row>, BankError>
        ensures told { BankTold (Self.state self.old) (Self.state self.new) (TellsRow table key.now result) }
        ensures crash { BankGoesOn Self.state Self.possible self.old self.new }
        ensures cause { BankHasCause (Self.state self.old) (Self.state self.new) result };

    /// Does the writes of a transaction of the console, one after the other, all of them or none. It isn't the tier's,
    /// so it has no ticket. Its entry comes also where no row is written.
    ///
    /// It answers how many rows of the named tables were written (TimesTen SQL Reference, "INSERT", "UPDATE" and
    /// "DELETE"), or the first broken rule: 105 of a value that its column can't hold, 106 of NULL where it is refused,
    /// 120 of a number past 64 signed bits, 119 of too many operations or rows, 107 of a key that has a row, 108 of a
    /// missing parent, 109 of a row with a child; 104 and 118 of a write that isn't made for its table.
    fn foreign(&mut self, changes: &[Change]) -> Result<Done, BankError>
        ensures told { BankTold (Self.state self.old) (Self.state self.new) (WritesForeign changes.now result) }
        ensures crash { BankGoesOn Self.state Self.possible self.old self.new }
        ensures cause { BankHasCause (Self.state self.old) (Self.state self.new) result };

    /// Does one write of a session that is passed on, and records it with its ticket, in one transaction of the bank.
    /// Its entry comes also where no row is written.
    ///
    /// It answers how many rows of the named table were written, or the first broken rule, as `foreign` does. A ticket
    /// that is recorded already is a failed call that leaves the history as it was. (TimesTen Cache User's Guide,
    /// "Setting a passthrough level"; that a passed-on write commits by itself is this project's rule.)
    fn passed(&mut self, ticket: Ticket, change: &Change) -> Result<Done, BankError>
        ensures told { BankTold (Self.state self.old) (Self.state self.new)
            (CommitsAlone ticket.0 change.now result) }
        ensures crash { BankGoesOn Self.state Self.possible self.old self.new }
        ensures cause { BankHasCause (Self.state self.old) (Self.state self.new) result };

    /// The definitions of all tables, and the rows of these tables, at one position of the history.
    fn snapshot(&mut self, tables: &[TableId]) -> Result<Snapshot, BankError>
        ensures told { BankTold (Self.state self.old) (Self.state self.new) (TakesSnapshot tables.now result) }
        ensures crash { BankGoesOn Self.state Self.possible self.old self.new }
        ensures cause { BankHasCause (Self.state self.old) (Self.state self.new) result };

    /// The instance of the tree that the row of a key is in, at one position of the history: that of the root row to
    /// which it leads over foreign keys, whatever the WHERE conditions say. Its rows are those of the view alone.
    ///
    /// (TimesTen Cache User's Guide, "Dynamically loading a cache instance".)
    fn reach(&mut self, tree: &Tree, table: TableId, key: &Key) -> Result<Reached, BankError>
        ensures told { BankTold (Self.state self.old) (Self.state self.new) (Reaches tree.now table key.now result) }
        ensures crash { BankGoesOn Self.state Self.possible self.old self.new }
        ensures cause { BankHasCause (Self.state self.old) (Self.state self.new) result };

    /// What changed since a position of the history in the tables of the trees, and of each tree the instances of which
    /// a row changed, came or left, and those that a want names, as they are now: all at one position. Rows lead to
    /// their instances whatever the WHERE conditions say; an instance has the rows of the view alone. So an instance
    /// that isn't told has the rows that it had (`changes_law`).
    ///
    /// `least` says that no call to come asks since a position before it, so the log up to it may be forgotten. A site
    /// that has no log from there on answers that the call failed; `tells_since` says so before.
    ///
    /// (TimesTen Cache User's Guide, "Automatically refreshing a cache group".)
    fn changes(
        &mut self,
        since: Position,
        least: Position,
        trees: &[Tree],
        wants: &[RowKey],
    ) -> Result<Changes, BankError>
        ensures told { BankTold (Self.state self.old) (Self.state self.new)
            (TakesChanges since trees.now wants.now result) }
        ensures crash { BankGoesOn Self.state Self.possible self.old self.new }
        ensures cause { BankHasCause (Self.state self.old) (Self.state self.new) result };

    /// Whether the log goes back to a position, so that `changes` can tell what changed since. A site that keeps no log
    /// begins one. Where the answer is no the tables are to be read whole. It isn't a call that can fail, and all that
    /// is known of the site stays.
    fn tells_since(&mut self, since: Position) -> bool
        ensures looks { OnlyLooks Self.state Self.possible self.old self.new };
}
