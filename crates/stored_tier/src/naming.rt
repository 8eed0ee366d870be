//! The tables that sessions find by name, and where each is kept.

ghost use Rattle.std.specs.Prelude.{◌≡◌, IfOk, IsTrue, OnErr, OnOk, Some, length};
ghost use Rattle.group_catalog.specs.Catalogs.{groups_in};
ghost use Rattle.table_defs.specs.Declarations.{IsRefusedBy};
ghost use Rattle.cache_tier.specs.Rules.{named};
ghost use Rattle.stored_tier.specs.Naming.{AreNamed, HasNoHome, named_def};
ghost use Rattle.stored_tier.specs.Stored.{named_where_cached};

use crate::tier::Tier;
use group_catalog::Catalog;
use group_store::{Directory, Store};
use row_types::{Detail, Refused, Rule};
use std::alloc::{AllocError, Global};
use table_defs::{BackingSchema, TableDef};
use tier_base::{Code, Name, Seq, TableId};

impl Tier {
    /// Makes anew what sessions find by name, and where tables are kept, for the schema, the groups and the stores.
    ///
    /// It fails for want of memory alone; all then stays.
    pub fn show_names(&mut self, alloc: Global) -> Result<(), AllocError>
        ensures named { OnOk result (AreNamed (groups_in self.old.catalog) self.old.stores.items self.old.schema
            self.new.visible self.new.directory) }
        ensures same { self.new
            ≡ record self.old { visible = self.new.visible; directory = self.new.directory } }
        ensures err { OnErr result (self.new ≡ self.old) }
    {
        let (visible, directory) = name_tables(
            alloc,
            &self.catalog,
            self.stores.as_slice(),
            self.schema.as_slice(),
        )?;
        self.visible = visible;
        self.directory = directory;
        Ok(())
    }
}

/// What sessions find by name over a schema, and where its tables are kept, for these groups and stores.
///
/// It fails for want of memory alone.
pub fn name_tables(
    alloc: Global,
    catalog: &Catalog,
    stores: &[Store],
    schema: &[TableDef],
) -> Result<(BackingSchema, Directory), AllocError>
    ensures { IfOk result (λ n. AreNamed (groups_in catalog.now) stores.now schema.now n.0 n.1) }
{
    match u32::try_from(schema.len()) {
        Err(_) => Err(AllocError),
        Ok(tables) => {
            let visible = name_cached(alloc, catalog, schema, tables)?;
            let directory = Directory::of(alloc, stores, tables)?;
            Ok((visible, directory))
        }
    }
}

// The definitions at their places, where a table that isn't cached has no name.
fn name_cached(
    alloc: Global,
    catalog: &Catalog,
    schema: &[TableDef],
    tables: u32,
) -> Result<BackingSchema, AllocError>
    requires { length schema.now ≡ tables }
    ensures { IfOk result (λ visible. visible ≡ named_where_cached (groups_in catalog.now) schema.now) }
{
    let mut visible = Vec::new(alloc);
    for number in 0..tables {
        visible.push(name_one(alloc, catalog, TableId(number), &schema[number as usize])?)?;
    }
    Ok(Seq::from_vec(visible))
}

// A definition, without its name where the table isn't cached.
fn name_one(
    alloc: Global,
    catalog: &Catalog,
    table: TableId,
    def: &TableDef,
) -> Result<TableDef, AllocError>
    ensures { IfOk result (λ named. named ≡ named_def (groups_in catalog.now) table def.now) }
{
    let mut named = def.copied(alloc)?;
    if catalog.has_table(table) {
        return Ok(named);
    }
    named.name = Name::hidden(alloc);
    Ok(named)
}

/// Whether none of the tables from the first number on, below the second, is kept.
pub fn has_no_home(directory: &Directory, first: u32, end: u32) -> bool
    ensures { IsTrue result → HasNoHome directory.now first end }
{
    for number in first..end {
        if directory.home(TableId(number)).is_some() {
            return false;
        }
    }
    true
}

/// The refusal with a name, or want of memory.
pub fn refuse_name(alloc: Global, code: Code, name: &Name) -> Refused
    ensures { IsRefusedBy (Some (named code name.now)) result }
{
    match name.copied(alloc) {
        Err(_) => Refused::Memory,
        Ok(name) => Refused::Rule(Rule {
            code,
            detail: Detail::Name(name),
        }),
    }
}
