//! Which tables have to be read beside others.

use crate::fault::StoreFault;
use crate::judging::table_at;
use std::alloc::Global;
use table_defs::{BackingSchema, TableDef};
use tier_base::TableId;

/// A choice of the tables of a schema.
pub(crate) struct Choice {
    // For each table whether it is chosen.
    chosen: Vec<bool>,
}

impl Drop for Choice {
    fn drop(self) {
        let Self { chosen: _ } = self;
    }
}

impl Choice {
    /// No tables of so many.
    pub(crate) fn none(alloc: Global, tables: usize) -> Result<Choice, StoreFault> {
        let mut chosen = Vec::with_capacity(alloc, tables)?;
        for _ in 0..tables {
            chosen.push(false)?;
        }
        Ok(Choice { chosen })
    }

    /// Whether the table is chosen.
    pub(crate) fn has(&self, table: TableId) -> bool {
        match self.chosen.get(table.0 as usize) {
            None => false,
            Some(chosen) => *chosen,
        }
    }

    /// Chooses the table, where there is one.
    pub(crate) fn add(&mut self, table: TableId) {
        let place = table.0 as usize;
        if place < self.chosen.len() {
            self.chosen[place] = true;
        }
    }

    /// How many tables are chosen.
    pub(crate) fn len(&self) -> usize {
        self.chosen.iter().filter(|chosen| **chosen).count()
    }

    /// Chooses all tables that the chosen ones refer to, on and on.
    pub(crate) fn add_parents(&mut self, schema: &BackingSchema) -> Result<(), StoreFault> {
        for (place, def) in schema.as_slice().iter().enumerate().rev() {
            if let Some(parent) = parent_of(def) {
                if self.has(table_at(place)?) {
                    self.add(parent);
                }
            }
        }
        Ok(())
    }

    // Chooses all tables that refer to a chosen one, on and on.
    fn add_children(&mut self, schema: &BackingSchema) -> Result<(), StoreFault> {
        for (place, def) in schema.as_slice().iter().enumerate() {
            if let Some(parent) = parent_of(def) {
                if self.has(parent) {
                    self.add(table_at(place)?);
                }
            }
        }
        Ok(())
    }

    /// Chooses all tables that refer to a chosen one, on and on, and then all that these refer to. So a write of a
    /// chosen table, with what leaves by ON DELETE CASCADE, is judged as on all tables.
    pub(crate) fn add_family(&mut self, schema: &BackingSchema) -> Result<(), StoreFault> {
        self.add_children(schema)?;
        self.add_parents(schema)
    }
}

// The table that the foreign key refers to.
fn parent_of(def: &TableDef) -> Option<TableId> {
    match &def.foreign_key {
        None => None,
        Some(foreign) => Some(foreign.parent),
    }
}
