//! The definitions of the backing tables, with the texts of the statements on them.

use crate::fault::StoreFault;
use crate::texts::TableTexts;
use std::alloc::Global;
use table_defs::{BackingSchema, TableDef};
use tier_base::{Seq, TableId};

/// For so many entries of the history the logs are kept, counted from the least position that may still be asked from.
const LONGEST: u64 = 1_000_000;

/// The definitions of the backing tables, with the texts of the statements on them, and the position from which on the
/// logs are kept, where they are.
pub(crate) struct Shelf {
    schema: BackingSchema,
    texts: Vec<TableTexts>,
    kept: Option<u64>,
}

impl Drop for Shelf {
    fn drop(self) {
        let Self {
            schema: _,
            texts: _,
            kept: _,
        } = self;
    }
}

impl Shelf {
    /// No tables, and no logs. It takes no memory.
    pub(crate) fn new(alloc: Global) -> Shelf {
        Shelf {
            schema: Seq::new(alloc),
            texts: Vec::new(alloc),
            kept: None,
        }
    }

    /// Whether the logs have the operations of the transaction behind which the history has so many entries.
    pub(crate) fn has_logged(&self, entries: u64) -> bool {
        match self.kept {
            None => false,
            Some(kept) => entries <= kept.saturating_add(LONGEST),
        }
    }

    /// Whether the logs tell what changed since a position, where the history has so many entries.
    pub(crate) fn tells_since(&self, since: u64, entries: u64) -> bool {
        match self.kept {
            None => false,
            Some(kept) => kept <= since && self.has_logged(entries),
        }
    }

    /// The logs are kept from now on, where they aren't. The history has so many entries.
    pub(crate) fn begin_logs(&mut self, entries: u64) {
        if !self.has_logged(entries) {
            self.kept = Some(entries);
        }
    }

    /// The logs, where they are kept, need to tell no more what came up to this position. That is never taken back.
    pub(crate) fn keep_from(&mut self, position: u64) {
        if let Some(kept) = self.kept {
            self.kept = Some(kept.max(position));
        }
    }

    /// Up to this position the logs are empty, or to be emptied, before a transaction behind which the history has so
    /// many entries; none where there are no logs.
    pub(crate) fn forgotten(&self, entries: u64) -> Option<u64> {
        let kept = self.kept?;
        if self.has_logged(entries) {
            Some(kept)
        } else {
            Some(entries)
        }
    }

    /// The definitions.
    pub(crate) fn schema(&self) -> &BackingSchema {
        &self.schema
    }

    /// The definition of a table.
    pub(crate) fn def(&self, table: TableId) -> Option<&TableDef> {
        self.schema.get(table.0 as usize)
    }

    /// The texts of the statements on a table. It fails where there is no such table.
    pub(crate) fn texts(&self, table: TableId) -> Result<&TableTexts, StoreFault> {
        match self.texts.get(table.0 as usize) {
            None => Err(StoreFault::Failed),
            Some(texts) => Ok(texts),
        }
    }

    /// Puts a table behind the others.
    pub(crate) fn push(&mut self, alloc: Global, def: TableDef) -> Result<(), StoreFault> {
        let texts = TableTexts::new(alloc, &def)?;
        self.texts.push(texts)?;
        match self.schema.push(def) {
            Ok(()) => Ok(()),
            Err(_) => {
                let _ = self.texts.pop();
                Err(StoreFault::Memory)
            }
        }
    }

    /// Takes the last table away.
    pub(crate) fn pop(&mut self) {
        let _ = self.schema.pop();
        let _ = self.texts.pop();
    }
}
