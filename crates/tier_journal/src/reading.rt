//! Entries in the tier's words, from those that the journal keeps.

ghost use Rattle.std.specs.Prelude.{◌≡◌, ◌<◌, ◌^◌, List, IfOk, length};
ghost use Rattle.table_defs.specs.declared.definition.TableDef.{TableDef as OneTable};
ghost use Rattle.journal_entries.specs.declared.entry.Entry.TheVariants.{Defined};
ghost use Rattle.tier_journal.specs.Reading.{IsRead, IsReadText, IsTold, read_state};

use crate::naming::read_ops;
use crate::record::Record;
use journal_entries::{Bytes, Entry, GroupState};
use sql_subset::line::parse;
use sql_subset::request::ParseError;
use sql_subset::stmt::{CreateGroup, RefreshState, Stmt};
use std::alloc::{AllocError, Global};
use table_defs::TableDef;
use table_state::Sealed;
use tier_base::Seq;

fn read_state(state: GroupState) -> RefreshState
    ensures { result ≡ read_state state }
{
    match state {
        GroupState::On => RefreshState::On,
        GroupState::Off => RefreshState::Off,
        GroupState::Paused => RefreshState::Paused,
    }
}

fn copied(alloc: Global, bytes: &Bytes) -> Result<Bytes, AllocError>
    ensures { IfOk result (λ copy. copy ≡ bytes.now) }
{
    Ok(Seq::from_vec(Vec::from_slice(alloc, bytes.as_slice())?))
}

/// The definition that a text spells, if it spells one.
fn read_text(alloc: Global, text: &[u8]) -> Result<Option<CreateGroup>, AllocError>
    ensures { IfOk result (λ r. IsReadText text.now r) }
{
    match parse(alloc, text) {
        Ok(Stmt::CreateGroup(def)) => Ok(Some(def)),
        Ok(_) => Ok(None),
        Err(ParseError::Memory) => Err(AllocError),
        Err(ParseError::At(_)) => Ok(None),
        Err(ParseError::Depth) => Ok(None),
    }
}

/// The definition of a group, from its text.
fn read_definition(alloc: Global, text: &Bytes) -> Result<Option<Record>, AllocError>
    ensures { IfOk result (λ r. (schema : List OneTable) → IsRead schema (Defined text.now) r) }
{
    match read_text(alloc, text.as_slice())? {
        None => Ok(None),
        Some(def) => {
            let text = copied(alloc, text)?;
            Ok(Some(Record::Define(def, text)))
        }
    }
}

/// The entry in the tier's words; none where it stands for none.
fn read_entry(
    alloc: Global,
    schema: &[TableDef],
    entry: &Entry,
) -> Result<Option<Record>, AllocError>
    requires { length schema.now < 2 ^ 32 }
    ensures { IfOk result (λ r. IsRead schema.now entry.now r) }
{
    match entry {
        Entry::Commit(ticket, ops) => {
            let ticket = *ticket;
            match read_ops(alloc, schema, ops.as_slice())? {
                None => Ok(None),
                Some(ops) => Ok(Some(Record::Commit(Sealed { ticket, ops }))),
            }
        }
        Entry::Prepare(ticket, ops) => {
            let ticket = *ticket;
            match read_ops(alloc, schema, ops.as_slice())? {
                None => Ok(None),
                Some(ops) => Ok(Some(Record::Prepare(Sealed { ticket, ops }))),
            }
        }
        Entry::Passed(ticket) => Ok(Some(Record::Number(*ticket))),
        Entry::Mark(next) => Ok(Some(Record::Mark(*next))),
        Entry::Defined(text) => {
            let record = read_definition(alloc, text)?;
            Ok(record)
        }
        Entry::Dropped(name) => {
            let name = copied(alloc, name)?;
            Ok(Some(Record::Drop(name)))
        }
        Entry::Turned(name, state) => {
            let name = copied(alloc, name)?;
            Ok(Some(Record::State(name, read_state(*state))))
        }
        Entry::Loaded(name, flag) => {
            let flag = *flag;
            let name = copied(alloc, name)?;
            Ok(Some(Record::Loaded(name, flag)))
        }
    }
}

/// What reading entries in the tier's words finds.
#[derive(Drop)]
pub struct Told {
    /// The entries with the places of their first bytes, up to the first that stands for none.
    pub records: Vec<(u64, Record)>,
    /// Its place.
    pub unfit: Option<u64>,
}

/// The entries in the tier's words, with their places, or the place of the first that stands for none.
pub(crate) fn read_entries(
    alloc: Global,
    schema: &[TableDef],
    entries: &[(u64, Entry)],
) -> Result<Told, AllocError>
    requires { length schema.now < 2 ^ 32 }
    ensures { IfOk result (λ told. IsTold schema.now entries.now told) }
{
    let mut records = Vec::new(alloc);
    for (place, entry) in entries {
        match read_entry(alloc, schema, entry)? {
            None => {
                return Ok(Told {
                    records,
                    unfit: Some(*place),
                });
            }
            Some(record) => records.push((*place, record))?,
        }
    }
    Ok(Told {
        records,
        unfit: None,
    })
}
