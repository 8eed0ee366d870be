//! Tables and columns by their names.

ghost use Rattle.std.specs.Prelude.{◌≡◌, position};
ghost use Rattle.table_defs.specs.Names.{is_listed, place_of_column, place_of_table, same_name, table_id};

use crate::definition::{BackingSchema, TableDef};
use row_types::ColumnDeclaration;
use row_types::tier_base::{Name, TableId};

/// The table of this name, where the schema has one.
pub fn find_table(schema: &BackingSchema, name: &Name) -> Option<TableId>
    ensures { result ≡ place_of_table schema.now name.now }
{
    match place_named(schema.as_slice(), name) {
        None => None,
        Some(place) => table_id(place),
    }
}

fn place_named(defs: &[TableDef], name: &Name) -> Option<usize>
    ensures { result ≡ position (λ def. same_name def.name name.now) defs.now }
{
    defs.iter().position(|def| is_same_name(&def.name, name))
}

fn table_id(place: usize) -> Option<TableId>
    ensures { result ≡ table_id place }
{
    if place < 4_294_967_296 {
        Some(TableId(place as u32))
    } else {
        None
    }
}

/// Whether both names are the same.
pub(crate) fn is_same_name(a: &Name, b: &Name) -> bool
    ensures { result ≡ same_name a.now b.now }
{
    a.same(b)
}

/// Whether the name is one of these.
pub(crate) fn is_listed(names: &[Name], name: &Name) -> bool
    ensures { result ≡ is_listed names.now name.now }
{
    names.iter().any(|other| is_same_name(other, name))
}

/// The place of the column of this name.
pub(crate) fn place_of_column(columns: &[ColumnDeclaration], name: &Name) -> Option<usize>
    ensures { result ≡ place_of_column columns.now name.now }
{
    columns
        .iter()
        .position(|column| is_same_name(&column.name, name))
}
