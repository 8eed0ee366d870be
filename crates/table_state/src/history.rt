//! The backing history.

ghost use Rattle.std.specs.Prelude.{◌≡◌, ◌↔◌, IfOk, IsTrue};

use crate::operation::{Ops, copied_ops, same_ops};
use std::alloc::{AllocError, Global};
use table_defs::TableDef;
use table_defs::tier_base::{Seq, Ticket};

/// What the backing database went through, from its beginning. It only grows.
pub type History = Seq<Entry>;

/// One step of the backing database.
pub enum Entry {
    /// A table was defined.
    Definition(TableDef),
    /// A transaction that wasn't the tier's.
    Foreign(Ops),
    /// A transaction of the tier, with its ticket.
    Own(Ticket, Ops),
}

impl Drop for Entry {
    fn drop(self) {
        match self {
            Self::Definition(_) => {}
            Self::Foreign(_) => {}
            Self::Own(_, _) => {}
        }
    }
}

impl Entry {
    /// Whether this is the same entry.
    pub fn same(&self, other: &Entry) -> bool
        ensures { IsTrue result ↔ (self.now ≡ other.now) }
    {
        match (self, other) {
            (Entry::Definition(def), Entry::Definition(other)) => def.same(other),
            (Entry::Foreign(ops), Entry::Foreign(other)) => {
                same_ops(ops.as_slice(), other.as_slice())
            }
            (Entry::Own(a, ops), Entry::Own(b, other)) => {
                *a == *b && same_ops(ops.as_slice(), other.as_slice())
            }
            _ => false,
        }
    }

    /// A second copy of the entry.
    pub fn copied(&self, alloc: Global) -> Result<Entry, AllocError>
        ensures { IfOk result (λ entry. entry ≡ self.now) }
    {
        match self {
            Entry::Definition(def) => {
                let def = def.copied(alloc)?;
                Ok(Entry::Definition(def))
            }
            Entry::Foreign(ops) => {
                let ops = copied_ops(alloc, ops.as_slice())?;
                Ok(Entry::Foreign(ops))
            }
            Entry::Own(ticket, ops) => {
                let ops = copied_ops(alloc, ops.as_slice())?;
                Ok(Entry::Own(*ticket, ops))
            }
        }
    }
}

/// A committed transaction: its ticket and what it did.
#[derive(Drop)]
pub struct Sealed {
    /// Its ticket.
    pub ticket: Ticket,
    /// What it did.
    pub ops: Ops,
}

impl Sealed {
    /// Whether this is the same transaction.
    pub fn same(&self, other: &Sealed) -> bool
        ensures { IsTrue result ↔ (self.now ≡ other.now) }
    {
        self.ticket == other.ticket && same_ops(self.ops.as_slice(), other.ops.as_slice())
    }

    /// A second copy of the transaction.
    pub fn copied(&self, alloc: Global) -> Result<Sealed, AllocError>
        ensures { IfOk result (λ sealed. sealed ≡ self.now) }
    {
        let ops = copied_ops(alloc, self.ops.as_slice())?;
        Ok(Sealed {
            ticket: self.ticket,
            ops,
        })
    }
}
