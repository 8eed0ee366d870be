//! Making entries ready. Each call fails for want of memory alone; the journal keeps what it kept.

ghost use Rattle.std.specs.Prelude.{◌≡◌, IfOk, List};
ghost use Rattle.table_defs.specs.declared.definition.TableDef.{TableDef as OneTable};
ghost use Rattle.sql_subset.specs.declared.stmt.CreateGroup.{CreateGroup};
ghost use Rattle.cache_tier.specs.Journals.{Commits, Defines, Drops, Numbers, Prepares, SetsLoaded, SetsState};
ghost use Rattle.tier_journal.specs.Drafts.{IsDraftOf, StaysKept};

use crate::draft::{Draft, placed};
use crate::{Batch, TierJournal};
use sql_subset::stmt::RefreshState;
use std::alloc::{AllocError, Global};
use table_defs::TableDef;
use table_state::Sealed;
use tier_base::Ticket;

impl Draft {
    /// A commit of asynchronous writes. What has no bytes in a journal is taken for want of memory.
    pub fn of_commit(
        alloc: Global,
        journal: &mut Option<TierJournal>,
        schema: &[TableDef],
        sealed: &Sealed,
    ) -> Result<Draft, AllocError>
        ensures draft { IfOk result (λ draft. IsDraftOf schema.now journal.new draft (Commits sealed.now)) }
        ensures kept { StaysKept journal.old journal.new }
    {
        match journal {
            None => Ok(Draft::Unkept),
            Some(journal) => {
                let batch = Batch::behind(alloc, journal);
                if !batch.can_take(schema, sealed) {
                    return Err(AllocError);
                }
                let batch = batch.with_commit(schema, sealed)?;
                placed(journal, batch)
            }
        }
    }

    /// Synchronous writes that are to be applied. What has no bytes in a journal is taken for want of memory.
    pub fn of_prepare(
        alloc: Global,
        journal: &mut Option<TierJournal>,
        schema: &[TableDef],
        sealed: &Sealed,
    ) -> Result<Draft, AllocError>
        ensures draft { IfOk result (λ draft. IsDraftOf schema.now journal.new draft (Prepares sealed.now)) }
        ensures kept { StaysKept journal.old journal.new }
    {
        match journal {
            None => Ok(Draft::Unkept),
            Some(journal) => {
                let batch = Batch::behind(alloc, journal);
                if !batch.can_take(schema, sealed) {
                    return Err(AllocError);
                }
                let batch = batch.with_prepare(schema, sealed)?;
                placed(journal, batch)
            }
        }
    }

    /// The number of a write that is passed on. One that isn't greater than those before it is taken for want of
    /// memory.
    pub fn of_number(
        alloc: Global,
        journal: &mut Option<TierJournal>,
        ticket: Ticket,
    ) -> Result<Draft, AllocError>
        ensures draft { IfOk result (λ draft. (schema : List OneTable)
            → IsDraftOf schema journal.new draft (Numbers ticket.0)) }
        ensures kept { StaysKept journal.old journal.new }
    {
        match journal {
            None => Ok(Draft::Unkept),
            Some(journal) => {
                let batch = Batch::behind(alloc, journal);
                if !batch.can_number(ticket) {
                    return Err(AllocError);
                }
                let batch = batch.with_number(ticket)?;
                placed(journal, batch)
            }
        }
    }

    /// The definition of a group, by its text. A text of 2^32 bytes and more is taken for want of memory.
    pub fn of_definition(
        alloc: Global,
        journal: &mut Option<TierJournal>,
        text: &[u8],
    ) -> Result<Draft, AllocError>
        ensures draft { IfOk result (λ draft. (schema : List OneTable) (d : CreateGroup)
            → IsDraftOf schema journal.new draft (Defines d text.now)) }
        ensures kept { StaysKept journal.old journal.new }
    {
        match journal {
            None => Ok(Draft::Unkept),
            Some(journal) => {
                if text.len() >= 1 << 32 {
                    return Err(AllocError);
                }
                let batch = Batch::behind(alloc, journal).with_definition(alloc, text)?;
                placed(journal, batch)
            }
        }
    }

    /// The drop of a group. A name of 256 bytes and more is taken for want of memory.
    pub fn of_drop(
        alloc: Global,
        journal: &mut Option<TierJournal>,
        name: &[u8],
    ) -> Result<Draft, AllocError>
        ensures draft { IfOk result (λ draft. (schema : List OneTable)
            → IsDraftOf schema journal.new draft (Drops name.now)) }
        ensures kept { StaysKept journal.old journal.new }
    {
        match journal {
            None => Ok(Draft::Unkept),
            Some(journal) => {
                if name.len() >= 256 {
                    return Err(AllocError);
                }
                let batch = Batch::behind(alloc, journal).with_drop(alloc, name)?;
                placed(journal, batch)
            }
        }
    }

    /// The STATE of a group. A name of 256 bytes and more is taken for want of memory.
    pub fn of_state(
        alloc: Global,
        journal: &mut Option<TierJournal>,
        name: &[u8],
        state: RefreshState,
    ) -> Result<Draft, AllocError>
        ensures draft { IfOk result (λ draft. (schema : List OneTable)
            → IsDraftOf schema journal.new draft (SetsState name.now state)) }
        ensures kept { StaysKept journal.old journal.new }
    {
        match journal {
            None => Ok(Draft::Unkept),
            Some(journal) => {
                if name.len() >= 256 {
                    return Err(AllocError);
                }
                let batch = Batch::behind(alloc, journal).with_state(alloc, name, state)?;
                placed(journal, batch)
            }
        }
    }

    /// Whether a group is loaded. A name of 256 bytes and more is taken for want of memory.
    pub fn of_loaded(
        alloc: Global,
        journal: &mut Option<TierJournal>,
        name: &[u8],
        flag: bool,
    ) -> Result<Draft, AllocError>
        ensures draft { IfOk result (λ draft. (schema : List OneTable)
            → IsDraftOf schema journal.new draft (SetsLoaded name.now flag)) }
        ensures kept { StaysKept journal.old journal.new }
    {
        match journal {
            None => Ok(Draft::Unkept),
            Some(journal) => {
                if name.len() >= 256 {
                    return Err(AllocError);
                }
                let batch = Batch::behind(alloc, journal).with_loaded(alloc, name, flag)?;
                placed(journal, batch)
            }
        }
    }
}
