//! The tables of a definition with the backing tables of their names.

ghost use Rattle.std.specs.Prelude.{◌≡◌, ◌++◌, IfOk, OnOk, [], option_to_list};
ghost use Rattle.std.specs.List.{flat_map};
ghost use Rattle.std.specs.Option.{option_map};
ghost use Rattle.table_defs.specs.Names.{place_of_table};
ghost use Rattle.table_defs.specs.Declarations.{Tells};
ghost use Rattle.sql_subset.specs.declared.stmt.GroupTable.{GroupTable as OneTable};
ghost use Rattle.cache_tier.specs.Definitions.{first_unknown, names_in, placed_from, placed_if};
ghost use Rattle.group_catalog.specs.Placed.{table_seen, tables_seen};

use crate::refusing::refuse_name;
use row_types::{Refused, TableDeclaration};
use sql_subset::stmt::GroupTable;
use std::alloc::{AllocError, Global};
use table_defs::{BackingSchema, TableDef, find_table};
use tier_base::{Code, TableId};

/// A table of a definition with the backing table of its name, and the tables of the definition before it.
#[derive(Clone, Copy)]
pub struct PlacedTable<'a> {
    /// the table as it is declared
    pub it: &'a GroupTable,
    /// the backing table
    pub id: TableId,
    /// its definition
    pub def: &'a TableDef,
    /// the tables of the definition before it
    pub before: &'a [GroupTable],
}

/// The tables with the backing tables of their names. Nothing of a definition is copied.
///
/// The refusal is 102 of the first name, in the order of the text, that is no backing table's: of a table, or behind
/// its REFERENCES; or memory was wanting.
pub(crate) fn place_tables<'a>(
    alloc: Global,
    schema: &'a BackingSchema,
    tables: &'a [GroupTable],
) -> Result<Vec<PlacedTable<'a>>, Refused>
    ensures told { Tells result (first_unknown schema.now (flat_map (λ (g : OneTable). names_in g.table) tables.now)) }
    ensures placed { IfOk result (λ placed. tables_seen placed.items ≡ placed_from schema.now [] tables.now) }
{
    let mut placed = Vec::with_capacity(alloc, tables.len())?;
    for i in 0..tables.len() {
        place_one(alloc, schema, &tables[..i], &tables[i], &mut placed)?;
    }
    Ok(placed)
}

// One table more.
fn place_one<'a>(
    alloc: Global,
    schema: &'a BackingSchema,
    before: &'a [GroupTable],
    it: &'a GroupTable,
    placed: &mut Vec<PlacedTable<'a>>,
) -> Result<(), Refused>
    ensures told { Tells result (first_unknown schema.now (names_in it.now.table)) }
    ensures placed { OnOk result (tables_seen placed.new.items ≡ tables_seen placed.old.items
        ++ placed_if schema.now before.now it.now (place_of_table schema.now it.now.table.name)) }
{
    refuse_unknown(alloc, schema, &it.table)?;
    if let Some(table) = placed_table(schema, before, it) {
        placed.push(table).map_err(AllocError::from)?;
    }
    Ok(())
}

// 102 of the table, or behind its REFERENCES.
fn refuse_unknown(
    alloc: Global,
    schema: &BackingSchema,
    table: &TableDeclaration,
) -> Result<(), Refused>
    ensures { Tells result (first_unknown schema.now (names_in table.now)) }
{
    if find_table(schema, &table.name).is_none() {
        return refuse_name(alloc, Code::UnknownTable, Some(&table.name));
    }
    match &table.foreign_key {
        None => Ok(()),
        Some(foreign) => {
            if find_table(schema, &foreign.parent).is_none() {
                return refuse_name(alloc, Code::UnknownTable, Some(&foreign.parent));
            }
            Ok(())
        }
    }
}

// The table with the backing table of its name, where there is one.
fn placed_table<'a>(
    schema: &'a BackingSchema,
    before: &'a [GroupTable],
    it: &'a GroupTable,
) -> Option<PlacedTable<'a>>
    ensures { option_to_list (option_map table_seen result)
        ≡ placed_if schema.now before.now it.now (place_of_table schema.now it.now.table.name) }
{
    match find_table(schema, &it.table.name) {
        None => None,
        Some(id) => match schema.get(id.0 as usize) {
            None => None,
            Some(def) => Some(PlacedTable {
                it,
                id,
                def,
                before,
            }),
        },
    }
}
