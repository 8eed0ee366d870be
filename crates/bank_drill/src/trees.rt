//! Trees as a script spells them.

use crate::asking::{key_of, table_of, writes_of};
use crate::error::DrillError;
use expressions::Cond;
use instances::{Child, Root, Tree};
use resolution::resolve_filter;
use sql_query::{Delete, Write};
use std::alloc::Global;
use table_defs::{BackingSchema, TableDef, find_table};
use table_state::RowKey;
use tier_base::{Seq, TableId};

/// The tree of these tables, with `; ` between, the root first, each with its WHERE where it has one.
pub fn tree_of(
    alloc: Global,
    schema: &BackingSchema,
    text: &str,
    line: usize,
) -> Result<Tree, DrillError> {
    let (first, rest) = text.split_once("; ").unwrap_or((text, ""));
    let (table, filter) = covered(alloc, schema, first, line)?;
    let mut tree = Tree {
        root: Root { table, filter },
        children: Seq::new(alloc),
    };
    for part in rest.split("; ") {
        if !part.is_empty() {
            let (table, filter) = covered(alloc, schema, part, line)?;
            let parent = parent_of(schema, &tree, table, line)?;
            tree.children.push(Child {
                table,
                filter,
                parent,
            })?;
        }
    }
    Ok(tree)
}

// The place of the table that the foreign key refers to.
fn parent_of(
    schema: &BackingSchema,
    tree: &Tree,
    table: TableId,
    line: usize,
) -> Result<usize, DrillError> {
    match schema.get(table.0 as usize) {
        None => Err(DrillError::Line(line)),
        Some(def) => match place_above(tree, def) {
            None => Err(DrillError::Line(line)),
            Some(place) => Ok(place),
        },
    }
}

fn place_above(tree: &Tree, def: &TableDef) -> Option<usize> {
    match &def.foreign_key {
        None => None,
        Some(foreign) => tree.place_of(foreign.parent),
    }
}

// A table, with the WHERE behind its name, as of a DELETE.
fn covered(
    alloc: Global,
    schema: &BackingSchema,
    text: &str,
    line: usize,
) -> Result<(TableId, Option<Cond>), DrillError> {
    let text = format!(in alloc; "DELETE FROM {text}")?;
    let writes = writes_of(alloc, text.as_str(), line)?;
    match writes.as_slice() {
        [Write::Delete(delete)] => covered_by(alloc, schema, delete, line),
        _ => Err(DrillError::Line(line)),
    }
}

fn covered_by(
    alloc: Global,
    schema: &BackingSchema,
    delete: &Delete,
    line: usize,
) -> Result<(TableId, Option<Cond>), DrillError> {
    let Some(table) = find_table(schema, &delete.table) else {
        return Err(DrillError::Line(line));
    };
    let Some(def) = schema.get(table.0 as usize) else {
        return Err(DrillError::Line(line));
    };
    match resolve_filter(alloc, &def.name, def.columns.as_slice(), &delete.filter) {
        Ok(filter) => Ok((table, filter.into_cond())),
        Err(_) => Err(DrillError::Line(line)),
    }
}

/// Trees, with ` / ` between.
pub fn trees_of(
    alloc: Global,
    schema: &BackingSchema,
    text: &str,
    line: usize,
) -> Result<Vec<Tree>, DrillError> {
    let mut trees = Vec::new(alloc);
    for part in text.split(" / ") {
        trees.push(tree_of(alloc, schema, part, line)?)?;
    }
    Ok(trees)
}

/// The rows that are wanted, each a table and a key, with `; ` between.
pub fn wants_of(
    alloc: Global,
    schema: &BackingSchema,
    text: &str,
    line: usize,
) -> Result<Vec<RowKey>, DrillError> {
    let mut wants = Vec::new(alloc);
    for part in text.split("; ") {
        if !part.is_empty() {
            let (table, key) = part.split_once(' ').unwrap_or((part, ""));
            let table = table_of(alloc, schema, table, line)?;
            let key = key_of(alloc, key, line)?;
            wants.push(RowKey { table, key })?;
        }
    }
    Ok(wants)
}
