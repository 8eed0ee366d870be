//! Declared tables checked against a schema, and their limits.

ghost use Rattle.std.specs.Prelude.{◌≡◌, [], ◌∷◌, None, IfErr, IfOk, OnOk, length, map, option_copied, position};
ghost use Rattle.row_types.specs.tier_base.specs.declared.code.Code.TheVariants as code;
ghost use Rattle.table_defs.specs.Declarations.{IsRefusedBy, Tells, broken_at, fault_of, foreign_places, key_fault, key_places, limit_of, places_of, refuses_null, resolved, resolved_column, resolved_reference, type_fault};
ghost use Rattle.std.specs.Option.{option_map};

use crate::definition::{BackingSchema, ForeignKey, TableDef};
use crate::faults::{
    foreign_names, has_one_key, is_sound_reference, key_names, missing_parent, taken_name,
    wrong_name,
};
use crate::names::{find_table, is_listed, place_of_column};
use crate::types::type_of;
use row_types::tier_base::{Code, Limit, Name, Seq, TableId};
use row_types::{Column, ColumnDeclaration, Detail, Refused, Rule, TableDeclaration};
use std::alloc::{AllocError, Global};

impl TableDef {
    /// The definition that a declaration makes behind this schema.
    ///
    /// `Refused::Rule` tells the first broken rule: 102 of a parent that isn't there; 103 of a column's name that
    /// stands twice, or of a name of the PRIMARY KEY and then of the FOREIGN KEY clause that is no column's or stands
    /// twice there; 113 where the name is another table's; 104 without a primary key, with two, or where the
    /// foreign key isn't the whole primary key of its parent in its order with the same types; 105 of a VARCHAR2
    /// whose number isn't from 1 to 4000. `Refused::Memory` comes where memory is wanting.
    pub fn check(
        alloc: Global,
        declaration: &TableDeclaration,
        schema: &BackingSchema,
    ) -> Result<TableDef, Refused>
        ensures sound { OnOk result (fault_of declaration.now schema.now ≡ None) }
        ensures resolved { IfOk result (λ def. def ≡ resolved declaration.now schema.now) }
        ensures refused { IfErr result (IsRefusedBy (fault_of declaration.now schema.now)) }
    {
        let parent = missing_parent(schema, &declaration.foreign_key);
        refuse_name(alloc, Code::UnknownTable, parent)?;
        refuse_name(alloc, Code::UnknownColumn, wrong_name(declaration))?;
        let taken = taken_name(schema, &declaration.name);
        refuse_name(alloc, Code::NameInUse, taken)?;
        refuse_keys(declaration, schema)?;
        let columns = resolved_columns(alloc, declaration)?;
        let name = declaration.name.copied(alloc)?;
        let primary_key = key_places(alloc, declaration)?;
        let foreign_key = resolved_foreign_key(alloc, declaration, schema)?;
        Ok(TableDef {
            name,
            columns,
            primary_key,
            foreign_key,
        })
    }

    /// The first limit that the table would pass behind this schema: its tables, the columns of the table, those of
    /// a key.
    pub fn over_limit(&self, schema: &BackingSchema) -> Option<Limit>
        ensures { result ≡ limit_of self.now schema.now }
    {
        let keys = Limit::KeyColumns.number();
        if schema.len() as u64 >= Limit::Tables.number() {
            Some(Limit::Tables)
        } else if self.columns.len() as u64 > Limit::Columns.number() {
            Some(Limit::Columns)
        } else if self.primary_key.len() as u64 > keys || self.foreign_columns() as u64 > keys {
            Some(Limit::KeyColumns)
        } else {
            None
        }
    }

    fn foreign_columns(&self) -> usize
        ensures { result ≡ length (foreign_places self.now.foreign_key) }
    {
        match &self.foreign_key {
            None => 0,
            Some(foreign) => foreign.columns.len(),
        }
    }
}

// Refuses where there is a name.
fn refuse_name(alloc: Global, code: Code, name: Option<&Name>) -> Result<(), Refused>
    ensures { Tells result (broken_at code (option_copied name.entry)) }
{
    match name {
        None => Ok(()),
        Some(name) => match name.copied(alloc) {
            Err(_) => Err(Refused::Memory),
            Ok(name) => Err(Refused::Rule(Rule {
                code,
                detail: Detail::Name(name),
            })),
        },
    }
}

fn refuse_keys(declaration: &TableDeclaration, schema: &BackingSchema) -> Result<(), Refused>
    ensures { Tells result (key_fault declaration.now schema.now) }
{
    if has_one_key(declaration) && is_sound_reference(declaration, schema) {
        Ok(())
    } else {
        Err(Refused::Rule(Rule {
            code: Code::TypeMismatch,
            detail: Detail::Nothing,
        }))
    }
}

fn resolved_columns(alloc: Global, declaration: &TableDeclaration) -> Result<Seq<Column>, Refused>
    ensures told { Tells result (type_fault declaration.now.columns) }
    ensures columns { IfOk result (λ columns. columns ≡ map (resolved_column declaration.now) declaration.now.columns) }
{
    let declared = declaration.columns.as_slice();
    let mut columns = Vec::with_capacity(alloc, declared.len())?;
    for column in declared {
        let column = resolved_column(alloc, declaration, column)?;
        match columns.push(column) {
            Ok(()) => {}
            Err(_) => return Err(Refused::Memory),
        }
    }
    Ok(Seq::from_vec(columns))
}

fn resolved_column(
    alloc: Global,
    declaration: &TableDeclaration,
    column: &ColumnDeclaration,
) -> Result<Column, Refused>
    ensures told { Tells result (type_fault (column.now ∷ [])) }
    ensures column { IfOk result (λ made. made ≡ resolved_column declaration.now column.now) }
{
    match type_of(&column.ty) {
        None => Err(Refused::Rule(Rule {
            code: Code::OutOfRange,
            detail: Detail::NoType,
        })),
        Some(ty) => match column.name.copied(alloc) {
            Err(_) => Err(Refused::Memory),
            Ok(name) => Ok(Column {
                name,
                ty,
                not_null: refuses_null(declaration, column),
            }),
        },
    }
}

/// Refuses a column of a type that there isn't: 105 of a VARCHAR2 whose number isn't from 1 to 4000.
pub fn refuse_types(columns: &[ColumnDeclaration]) -> Result<(), Refused>
    ensures { Tells result (type_fault columns.now) }
{
    let mut rest = columns;
    while let Some((column, others)) = rest.split_first() {
        if type_of(&column.ty).is_none() {
            return Err(Refused::Rule(Rule {
                code: Code::OutOfRange,
                detail: Detail::NoType,
            }));
        }
        rest = others;
    }
    Ok(())
}

// Whether the column is declared so, or is one of a key.
fn refuses_null(declaration: &TableDeclaration, column: &ColumnDeclaration) -> bool
    ensures { result ≡ refuses_null declaration.now column.now }
{
    column.not_null
        || column.primary_key
        || is_listed(key_names(declaration), &column.name)
        || is_listed(foreign_names(declaration), &column.name)
}

/// The places of the primary key's columns: the clause's, or else that of the column with PRIMARY KEY behind it. It
/// fails for want of memory alone.
pub fn key_places(alloc: Global, declaration: &TableDeclaration) -> Result<Seq<usize>, AllocError>
    ensures { IfOk result (λ places. places ≡ key_places declaration.now) }
{
    let columns = declaration.columns.as_slice();
    let names = key_names(declaration);
    if names.is_empty() {
        let mut places = Seq::new(alloc);
        places.push(own_key(columns).unwrap_or(0))?;
        Ok(places)
    } else {
        places_of(alloc, columns, names)
    }
}

// The place of the column with PRIMARY KEY behind it.
fn own_key(columns: &[ColumnDeclaration]) -> Option<usize>
    ensures { result ≡ position (λ c. c.primary_key) columns.now }
{
    columns.iter().position(|column| column.primary_key)
}

// The places of the columns of these names.
fn places_of(
    alloc: Global,
    columns: &[ColumnDeclaration],
    names: &[Name],
) -> Result<Seq<usize>, AllocError>
    ensures { IfOk result (λ places. places ≡ places_of columns.now names.now) }
{
    let mut places = Vec::with_capacity(alloc, names.len())?;
    for name in names {
        let place = place_of_column(columns, name).unwrap_or(0);
        places.push(place)?;
    }
    Ok(Seq::from_vec(places))
}

fn resolved_foreign_key(
    alloc: Global,
    declaration: &TableDeclaration,
    schema: &BackingSchema,
) -> Result<Option<ForeignKey>, AllocError>
    ensures { IfOk result (λ foreign. foreign
        ≡ option_map (resolved_reference declaration.now schema.now) declaration.now.foreign_key) }
{
    match &declaration.foreign_key {
        None => Ok(None),
        Some(foreign) => {
            let columns = places_of(
                alloc,
                declaration.columns.as_slice(),
                foreign.columns.as_slice(),
            )?;
            let parent = find_table(schema, &foreign.parent).unwrap_or(TableId(0));
            Ok(Some(ForeignKey {
                columns,
                parent,
                cascade: foreign.cascade,
            }))
        }
    }
}
