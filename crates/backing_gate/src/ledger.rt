//! The backing history with its tickets.

ghost use Rattle.std.specs.Prelude.{◌≡◌, [], ◌∷◌, ◌++◌, false, length, List, OnErr, OnOk};
ghost use Rattle.table_state.specs.declared.history.Entry.{Entry};
ghost use Rattle.table_state.specs.Histories.{has_ticket, position_of};
ghost use Rattle.backing_gate.specs.Tickets.{EndsLike, IsNewIn};

use std::alloc::{AllocError, Global};
use std::collections::BTreeMap;
use std::marker::Model;
use table_defs::TableDef;
use table_state::{Entry, History, Ops};
use tier_base::{Seq, Ticket};

/// The backing history, in which a ticket is found without going through it. Clauses see the entries.
pub(crate) struct Ledger {
    entries: History,
    // The position of each ticket.
    positions: BTreeMap<u64, u64>,
}

impl Drop for Ledger {
    fn drop(self) {
        let Self {
            entries: _,
            positions: _,
        } = self;
    }
}

impl Model for Ledger {
    ghost use Rattle.std.specs.Prelude.{◌≡◌, List, ℕ};
    ghost use Rattle.std.specs.BTreeMap.{get};
    ghost use Rattle.std.specs.Ordering.{nat_cmp};
    ghost use Rattle.table_state.specs.declared.history.Entry.{Entry};
    ghost use Rattle.table_state.specs.Histories.{position_of};

    ghost Value = { List Entry };

    ghost view = { λ l. l.entries };

    ghost invariant = { λ l. (ticket : ℕ) → get nat_cmp l.positions ticket ≡ position_of ticket l.entries };
}

impl Ledger {
    /// The history without entries. It takes no memory.
    pub(crate) fn new(alloc: Global) -> Ledger
        ensures { result ≡ [] }
    {
        Ledger {
            entries: Seq::new(alloc),
            positions: BTreeMap::new(alloc),
        }
    }

    /// The entries.
    pub(crate) fn entries(&self) -> &History
        ensures { result.now ≡ self.now }
    {
        &self.entries
    }

    /// The position behind the entry with the ticket, where one has it.
    pub(crate) fn position_of(&self, ticket: Ticket) -> Option<u64>
        ensures { result ≡ position_of ticket.0 self.now }
    {
        self.positions.get(&ticket.0).copied()
    }

    /// Puts a definition behind the history. For want of memory it stays.
    pub(crate) fn push_definition(&mut self, def: TableDef) -> Result<(), AllocError>
        ensures ok { OnOk result (self.new ≡ self.old ++ Entry.Definition def ∷ []) }
        ensures err { OnErr result (self.new ≡ self.old) }
    {
        self.entries.push(Entry::Definition(def))?;
        Ok(())
    }

    /// Puts a transaction of others behind the history. For want of memory it stays.
    pub(crate) fn push_foreign(&mut self, ops: Ops) -> Result<(), AllocError>
        ensures ok { OnOk result (self.new ≡ self.old ++ Entry.Foreign ops ∷ []) }
        ensures err { OnErr result (self.new ≡ self.old) }
    {
        self.entries.push(Entry::Foreign(ops))?;
        Ok(())
    }

    /// Puts a transaction of the tier, whose ticket is new, behind the history. For want of memory it stays.
    pub(crate) fn push_own(&mut self, ticket: Ticket, ops: Ops) -> Result<(), AllocError>
        requires { has_ticket ticket.0 self.old ≡ false }
        ensures ok { OnOk result (self.new ≡ self.old ++ Entry.Own ticket ops ∷ []) }
        ensures err { OnErr result (self.new ≡ self.old) }
    {
        self.entries.push(Entry::Own(ticket, ops))?;
        match self.positions.insert(ticket.0, self.entries.len() as u64) {
            Ok(_) => Ok(()),
            Err(failed) => {
                let _ = self.entries.pop();
                Err(AllocError::from(failed))
            }
        }
    }

    /// This entry comes in place of the last one. A condition is that both have the same ticket, or none. It takes no
    /// memory.
    pub(crate) fn replace_last(&mut self, alloc: Global, entry: Entry)
        requires { EndsLike entry self.old }
        ensures { (front : List Entry) (last : Entry) → self.old ≡ front ++ last ∷ []
            → self.new ≡ front ++ entry ∷ [] }
    {
        let mut entries = std::mem::replace(&mut self.entries, Seq::new(alloc)).into_vec();
        let last = entries.len() - 1;
        entries[last] = entry;
        self.entries = Seq::from_vec(entries);
    }

    /// Takes the last entry back. A condition is that no entry before it has its ticket. It takes no memory.
    pub(crate) fn take_back(&mut self)
        requires { (front : List Entry) (last : Entry) → self.old ≡ front ++ last ∷ [] → IsNewIn front last }
        ensures { (front : List Entry) (last : Entry) → self.old ≡ front ++ last ∷ [] → self.new ≡ front }
    {
        match self.entries.pop() {
            None => {}
            Some(entry) => match &entry {
                Entry::Definition(_) => {}
                Entry::Foreign(_) => {}
                Entry::Own(ticket, _) => {
                    let _ = self.positions.remove(&ticket.0);
                }
            },
        }
    }
}
