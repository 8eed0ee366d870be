//! Putting entries into a batch. Each call fails for want of memory alone; the batch is gone then.

ghost use Rattle.std.specs.Prelude.{◌≡◌, ◌<◌, ◌^◌, [], ◌∷◌, ◌++◌, List, IfOk, OnOk, length, true};
ghost use Rattle.table_defs.specs.declared.definition.TableDef.{TableDef as OneTable};
ghost use Rattle.sql_subset.specs.declared.stmt.CreateGroup.{CreateGroup};
ghost use Rattle.journal_entries.specs.Bodies.{follows};
ghost use Rattle.journal_entries.specs.Spelling.{IsEntry, IsTransaction, transaction_bytes};
ghost use Rattle.cache_tier.specs.Journals.{Commits, Defines, Drops, JournalEntry as TierEntry, Marks, Numbers, Prepares, SetsLoaded, SetsState};
ghost use Rattle.tier_journal.specs.Batches.{Adds, CanFollow};
ghost use Rattle.tier_journal.specs.Writing.{HasTables, written, written_ops, written_state};

use crate::batch::Batch;
use crate::writing::{push_ops, reserve};
use journal_entries::writing::{put_byte, put_bytes, put_entry};
use journal_entries::{Bytes, Entry, GroupState, Standing, entry_size};
use sql_subset::stmt::RefreshState;
use std::alloc::{AllocError, Global};
use table_defs::TableDef;
use table_state::Sealed;
use tier_base::{Seq, Ticket};

fn copied(alloc: Global, bytes: &[u8]) -> Result<Bytes, AllocError>
    ensures { IfOk result (λ copy. copy ≡ bytes.now) }
{
    Ok(Seq::from_vec(Vec::from_slice(alloc, bytes)?))
}

fn written_state(state: RefreshState) -> GroupState
    ensures { result ≡ written_state state }
{
    match state {
        RefreshState::On => GroupState::On,
        RefreshState::Off => GroupState::Off,
        RefreshState::Paused => GroupState::Paused,
    }
}

/// Puts a tag, the ticket and the operations of a transaction behind the others.
fn push_transaction(
    out: &mut Vec<u8>,
    tag: u8,
    schema: &[TableDef],
    sealed: &Sealed,
) -> Result<(), AllocError>
    requires { IsTransaction 2 sealed.now.ticket (written_ops schema.now sealed.now.ops) }
    ensures { OnOk result (out.new.items
        ≡ out.old.items ++ tag ∷ transaction_bytes sealed.now.ticket (written_ops schema.now sealed.now.ops)) }
{
    out.reserve(11)?;
    put_byte(out, tag);
    put_bytes(out, &sealed.ticket.0.to_be_bytes());
    put_bytes(out, &(sealed.ops.len() as u16).to_be_bytes());
    push_ops(out, schema, sealed.ops.as_slice())?;
    Ok(())
}

impl Batch {
    /// With an entry behind the others, as the journal keeps it.
    fn with_entry(self, entry: &Entry) -> Result<Batch, AllocError>
        requires bytes { IsEntry 2 entry.now }
        requires order { follows self.standing entry.now ≡ true }
        ensures { IfOk result (λ batch. (schema : List OneTable) (e : TierEntry) → HasTables schema e
            → written schema e ≡ entry.now → Adds schema self batch e) }
    {
        let mut batch = self;
        reserve(&mut batch.bytes, entry_size(entry))?;
        put_entry(&mut batch.bytes, entry);
        batch.standing = batch.standing.behind(entry);
        Ok(batch)
    }

    /// With a commit of asynchronous writes behind the others.
    pub fn with_commit(self, schema: &[TableDef], sealed: &Sealed) -> Result<Batch, AllocError>
        requires { CanFollow schema.now self (Commits sealed.now) }
        ensures { IfOk result (λ batch. Adds schema.now self batch (Commits sealed.now)) }
    {
        let mut batch = self;
        push_transaction(&mut batch.bytes, 1, schema, sealed)?;
        batch.standing = Standing {
            first: false,
            last: sealed.ticket.0,
        };
        Ok(batch)
    }

    /// With synchronous writes that are to be applied behind the others.
    pub fn with_prepare(self, schema: &[TableDef], sealed: &Sealed) -> Result<Batch, AllocError>
        requires { CanFollow schema.now self (Prepares sealed.now) }
        ensures { IfOk result (λ batch. Adds schema.now self batch (Prepares sealed.now)) }
    {
        let mut batch = self;
        push_transaction(&mut batch.bytes, 2, schema, sealed)?;
        batch.standing = Standing {
            first: false,
            last: sealed.ticket.0,
        };
        Ok(batch)
    }

    /// With the number of a passed-on write behind the others.
    pub fn with_number(self, ticket: Ticket) -> Result<Batch, AllocError>
        requires { CanFollow [] self (Numbers ticket.0) }
        ensures { IfOk result (λ batch. (schema : List OneTable) → Adds schema self batch (Numbers ticket.0)) }
    {
        let batch = self.with_entry(&Entry::Passed(ticket))?;
        Ok(batch)
    }

    /// With the next ticket, where the batch begins a slot.
    pub fn with_mark(self, next: Ticket) -> Result<Batch, AllocError>
        requires { CanFollow [] self (Marks next.0) }
        ensures { IfOk result (λ batch. (schema : List OneTable) → Adds schema self batch (Marks next.0)) }
    {
        let batch = self.with_entry(&Entry::Mark(next))?;
        Ok(batch)
    }

    /// With the definition of a group, by its text, behind the others.
    pub fn with_definition(self, alloc: Global, text: &[u8]) -> Result<Batch, AllocError>
        requires { length text.now < 2 ^ 32 }
        ensures { IfOk result (λ batch. (schema : List OneTable) (def : CreateGroup)
            → Adds schema self batch (Defines def text.now)) }
    {
        let text = copied(alloc, text)?;
        let batch = self.with_entry(&Entry::Defined(text))?;
        Ok(batch)
    }

    /// With the drop of a group behind the others.
    pub fn with_drop(self, alloc: Global, name: &[u8]) -> Result<Batch, AllocError>
        requires { length name.now < 2 ^ 8 }
        ensures { IfOk result (λ batch. (schema : List OneTable) → Adds schema self batch (Drops name.now)) }
    {
        let name = copied(alloc, name)?;
        let batch = self.with_entry(&Entry::Dropped(name))?;
        Ok(batch)
    }

    /// With the STATE of a group behind the others.
    pub fn with_state(
        self,
        alloc: Global,
        name: &[u8],
        state: RefreshState,
    ) -> Result<Batch, AllocError>
        requires { length name.now < 2 ^ 8 }
        ensures { IfOk result (λ batch. (schema : List OneTable) → Adds schema self batch (SetsState name.now state)) }
    {
        let name = copied(alloc, name)?;
        let batch = self.with_entry(&Entry::Turned(name, written_state(state)))?;
        Ok(batch)
    }

    /// With whether a group is loaded behind the others.
    pub fn with_loaded(self, alloc: Global, name: &[u8], flag: bool) -> Result<Batch, AllocError>
        requires { length name.now < 2 ^ 8 }
        ensures { IfOk result (λ batch. (schema : List OneTable) → Adds schema self batch (SetsLoaded name.now flag)) }
    {
        let name = copied(alloc, name)?;
        let batch = self.with_entry(&Entry::Loaded(name, flag))?;
        Ok(batch)
    }
}
