//! Definitions of backing tables.

ghost use Rattle.std.specs.Prelude.{◌≡◌, ◌↔◌, IfOk, IsTrue};

use row_types::Column;
use row_types::tier_base::{Name, Seq, TableId};
use std::alloc::{AllocError, Global};

/// The definitions of the backing tables, in the order in which they were made. It only grows.
pub type BackingSchema = Seq<TableDef>;

/// A foreign key: these columns name the whole primary key of an earlier table.
pub struct ForeignKey {
    /// The places of the columns, in the order of the parent's primary key.
    pub columns: Seq<usize>,
    /// The parent table.
    pub parent: TableId,
    /// Whether deleting a parent row deletes its children (ON DELETE CASCADE).
    pub cascade: bool,
}

impl Drop for ForeignKey {
    fn drop(self) {
        let Self {
            columns: _,
            parent: _,
            cascade: _,
        } = self;
    }
}

impl ForeignKey {
    /// Whether this is the same foreign key.
    pub fn same(&self, other: &ForeignKey) -> bool
        ensures { IsTrue result ↔ (self.now ≡ other.now) }
    {
        self.columns.as_slice() == other.columns.as_slice()
            && self.parent == other.parent
            && self.cascade == other.cascade
    }

    /// A second copy of the foreign key.
    pub fn copied(&self, alloc: Global) -> Result<ForeignKey, AllocError>
        ensures { IfOk result (λ foreign. foreign ≡ self.now) }
    {
        let columns = copied_places(alloc, self.columns.as_slice())?;
        Ok(ForeignKey {
            columns,
            parent: self.parent,
            cascade: self.cascade,
        })
    }
}

/// The definition of a backing table.
pub struct TableDef {
    /// Its name.
    pub name: Name,
    /// Its columns, in their order. Those of the keys refuse NULL.
    pub columns: Seq<Column>,
    /// The places of the primary key's columns, in its order.
    pub primary_key: Seq<usize>,
    /// Its foreign key, where it has one.
    pub foreign_key: Option<ForeignKey>,
}

impl Drop for TableDef {
    fn drop(self) {
        let Self {
            name: _,
            columns: _,
            primary_key: _,
            foreign_key: _,
        } = self;
    }
}

impl TableDef {
    /// Whether this is the same definition.
    pub fn same(&self, other: &TableDef) -> bool
        ensures { IsTrue result ↔ (self.now ≡ other.now) }
    {
        self.name.same(&other.name)
            && same_columns(self.columns.as_slice(), other.columns.as_slice())
            && self.primary_key.as_slice() == other.primary_key.as_slice()
            && same_foreign_key(&self.foreign_key, &other.foreign_key)
    }

    /// A second copy of the definition.
    pub fn copied(&self, alloc: Global) -> Result<TableDef, AllocError>
        ensures { IfOk result (λ def. def ≡ self.now) }
    {
        let name = self.name.copied(alloc)?;
        let columns = copied_columns(alloc, self.columns.as_slice())?;
        let primary_key = copied_places(alloc, self.primary_key.as_slice())?;
        let foreign_key = copied_foreign_key(alloc, &self.foreign_key)?;
        Ok(TableDef {
            name,
            columns,
            primary_key,
            foreign_key,
        })
    }
}

/// A second copy of the definitions.
pub fn copied_schema(alloc: Global, defs: &[TableDef]) -> Result<BackingSchema, AllocError>
    ensures { IfOk result (λ copies. copies ≡ defs.now) }
{
    let mut copies = Vec::with_capacity(alloc, defs.len())?;
    for def in defs {
        copies.push(def.copied(alloc)?)?;
    }
    Ok(Seq::from_vec(copies))
}

/// A second copy of places. It fails for want of memory alone.
pub fn copied_places(alloc: Global, places: &[usize]) -> Result<Seq<usize>, AllocError>
    ensures { IfOk result (λ copies. copies ≡ places.now) }
{
    Ok(Seq::from_vec(Vec::from_slice(alloc, places)?))
}

fn same_columns(left: &[Column], right: &[Column]) -> bool
    ensures { IsTrue result ↔ (left.now ≡ right.now) }
{
    match (left.split_first(), right.split_first()) {
        (None, None) => true,
        (Some((a, left)), Some((b, right))) => a.same(b) && same_columns(left, right),
        _ => false,
    }
}

fn copied_columns(alloc: Global, columns: &[Column]) -> Result<Seq<Column>, AllocError>
    ensures { IfOk result (λ copies. copies ≡ columns.now) }
{
    let mut copies = Vec::with_capacity(alloc, columns.len())?;
    for column in columns {
        copies.push(column.copied(alloc)?)?;
    }
    Ok(Seq::from_vec(copies))
}

fn same_foreign_key(left: &Option<ForeignKey>, right: &Option<ForeignKey>) -> bool
    ensures { IsTrue result ↔ (left.now ≡ right.now) }
{
    match (left, right) {
        (None, None) => true,
        (Some(left), Some(right)) => left.same(right),
        _ => false,
    }
}

fn copied_foreign_key(
    alloc: Global,
    foreign_key: &Option<ForeignKey>,
) -> Result<Option<ForeignKey>, AllocError>
    ensures { IfOk result (λ copy. copy ≡ foreign_key.now) }
{
    match foreign_key {
        None => Ok(None),
        Some(foreign) => {
            let foreign = foreign.copied(alloc)?;
            Ok(Some(foreign))
        }
    }
}
