//! A site of a disk and the backing database in a file.

ghost use Rattle.std.specs.Prelude.{◌≡◌};
ghost use Rattle.file_disk.specs.Untold.{no_certain, no_read, untold};
ghost use Rattle.outside.specs.Sites.{SiteState};
ghost use Rattle.backing_sqlite.specs.Untold.{untold_state};

use crate::bank::SqliteBank;
use evaluator::Change;
use instances::Tree;
use outside::{Applied, BankError, Changes, Disk, DiskFault, Done, Reached, Site, Slot, Snapshot};
use row_types::{Key, Row};
use table_defs::{BackingSchema, TableDef};
use table_state::{RowKey, Sealed};
use tier_base::{Position, TableId, Ticket};

/// A disk, and the backing database in a file, as one site. It tells nothing of what it holds, whatever the disk tells.
/// Its disk's faults are those of the disk, and its bank's those of the bank.
pub struct RealSite<D: Disk> {
    disk: D,
    bank: SqliteBank,
}

impl<D: Disk + Drop> Drop for RealSite<D> {
    fn drop(self) {
        let Self { disk: _, bank: _ } = self;
    }
}

impl<D: Disk> RealSite<D> {
    /// The site of this disk and this bank.
    pub fn of(disk: D, bank: SqliteBank) -> RealSite<D>
        ensures { ⟦<RealSite<D> as Disk>⟧.state result ≡ untold_state (D.state disk).disk_faults bank }
    {
        RealSite { disk, bank }
    }

    /// Its disk and its bank.
    pub fn parts(self) -> (D, SqliteBank)
        ensures { ⟦<RealSite<D> as Disk>⟧.state self ≡ untold_state (D.state result.0).disk_faults result.1 }
    {
        let Self { disk, bank } = self;
        (disk, bank)
    }
}

impl<D: Disk> Disk for RealSite<D> {
    ghost state = { λ site. untold_state (D.state site.disk).disk_faults site.bank };

    ghost possible = { untold };

    fn len(&mut self, slot: Slot) -> Result<u64, DiskFault> {
        self.disk.len(slot)
    }

    fn read_at(&mut self, slot: Slot, at: u64, buf: &mut [u8]) -> Result<usize, DiskFault> {
        self.disk.read_at(slot, at, buf)
    }

    fn write_at(&mut self, slot: Slot, at: u64, bytes: &[u8]) -> Result<(), DiskFault> {
        self.disk.write_at(slot, at, bytes)
    }

    fn cut(&mut self, slot: Slot, len: u64) -> Result<(), DiskFault> {
        self.disk.cut(slot, len)
    }

    fn sync(&mut self, slot: Slot) -> Result<(), DiskFault> {
        self.disk.sync(slot)
    }

    ghost certain = { no_certain };

    ghost read_possible = { no_read };
}

impl<D: Disk> Site for RealSite<D> {
    fn schema(&mut self) -> Result<BackingSchema, BankError> {
        self.bank.schema()
    }

    fn define(&mut self, def: &TableDef) -> Result<(), BankError> {
        self.bank.define(def)
    }

    fn apply_once(&mut self, sealed: &Sealed, after: &[Ticket]) -> Result<Applied, BankError> {
        self.bank.apply_once(sealed, after)
    }

    fn recorded(&mut self, ticket: Ticket) -> Result<bool, BankError> {
        self.bank.recorded(ticket)
    }

    fn find(&mut self, table: TableId, key: &Key) -> Result<Option<Row>, BankError> {
        self.bank.find(table, key)
    }

    fn foreign(&mut self, changes: &[Change]) -> Result<Done, BankError> {
        self.bank.foreign(changes)
    }

    fn passed(&mut self, ticket: Ticket, change: &Change) -> Result<Done, BankError> {
        self.bank.passed(ticket, change)
    }

    fn snapshot(&mut self, tables: &[TableId]) -> Result<Snapshot, BankError> {
        self.bank.snapshot(tables)
    }

    fn reach(&mut self, tree: &Tree, table: TableId, key: &Key) -> Result<Reached, BankError> {
        self.bank.reach(tree, table, key)
    }

    fn changes(
        &mut self,
        since: Position,
        least: Position,
        trees: &[Tree],
        wants: &[RowKey],
    ) -> Result<Changes, BankError> {
        self.bank.changes(since, least, trees, wants)
    }

    fn tells_since(&mut self, since: Position) -> bool {
        self.bank.tells_since(since)
    }
}
