//! Entries of the journal, in the tier's words.

ghost use Rattle.std.specs.Prelude.{◌≡◌, IfErr, IfOk, false};

use journal_entries::Bytes;
use sql_subset::stmt::{CreateGroup, RefreshState};
use table_state::Sealed;
use tier_base::Ticket;

/// An entry of the journal, in the tier's words.
pub enum Record {
    /// A commit of asynchronous writes.
    Commit(Sealed),
    /// Synchronous writes, before they are applied.
    Prepare(Sealed),
    /// The number of a passed-on write.
    Number(Ticket),
    /// The next ticket, where a slot begins.
    Mark(Ticket),
    /// The definition of a group, and its text.
    Define(CreateGroup, Bytes),
    /// The drop of a group.
    Drop(Bytes),
    /// The STATE of a group.
    State(Bytes, RefreshState),
    /// Whether a group is loaded.
    Loaded(Bytes, bool),
}

// By hand, so that what lets a record go has one call, and not all its forms.
impl Drop for Record {
    fn drop(self) {
        match self {
            Self::Commit(_) => {}
            Self::Prepare(_) => {}
            Self::Number(_) => {}
            Self::Mark(_) => {}
            Self::Define(_, _) => {}
            Self::Drop(_) => {}
            Self::State(_, _) => {}
            Self::Loaded(_, _) => {}
        }
    }
}

impl Record {
    ghost use Rattle.tier_journal.specs.declared.record.Record.TheVariants as record_of;
    ghost use Rattle.tier_journal.specs.Opening.{is_commit, is_definition};

    /// The transaction of a commit; any other record as it is.
    pub fn into_commit(self) -> Result<Sealed, Record>
        ensures commit { IfOk result (λ sealed. self ≡ record_of.Commit sealed) }
        ensures same { IfErr result (λ other. other ≡ self) }
        ensures other { IfErr result (λ other. is_commit other ≡ false) }
    {
        match self {
            Self::Commit(sealed) => Ok(sealed),
            Self::Prepare(sealed) => Err(Self::Prepare(sealed)),
            Self::Number(ticket) => Err(Self::Number(ticket)),
            Self::Mark(next) => Err(Self::Mark(next)),
            Self::Define(declared, text) => Err(Self::Define(declared, text)),
            Self::Drop(name) => Err(Self::Drop(name)),
            Self::State(name, state) => Err(Self::State(name, state)),
            Self::Loaded(name, loaded) => Err(Self::Loaded(name, loaded)),
        }
    }

    /// The definition of a group, and its text; any other record as it is.
    pub fn into_definition(self) -> Result<(CreateGroup, Bytes), Record>
        ensures definition { IfOk result (λ parts. self ≡ record_of.Define parts.0 parts.1) }
        ensures same { IfErr result (λ other. other ≡ self) }
        ensures other { IfErr result (λ other. is_definition other ≡ false) }
    {
        match self {
            Self::Commit(sealed) => Err(Self::Commit(sealed)),
            Self::Prepare(sealed) => Err(Self::Prepare(sealed)),
            Self::Number(ticket) => Err(Self::Number(ticket)),
            Self::Mark(next) => Err(Self::Mark(next)),
            Self::Define(declared, text) => Ok((declared, text)),
            Self::Drop(name) => Err(Self::Drop(name)),
            Self::State(name, state) => Err(Self::State(name, state)),
            Self::Loaded(name, loaded) => Err(Self::Loaded(name, loaded)),
        }
    }
}
