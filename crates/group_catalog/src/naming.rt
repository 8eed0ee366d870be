//! The names of columns in a definition, and the conditions of its tables.

ghost use Rattle.std.specs.Prelude.{◌≡◌, ◌||◌, ◌∷◌, IfOk, OnOk, map, option_copied, position};
ghost use Rattle.table_defs.specs.Names.{same_name};
ghost use Rattle.sql_subset.specs.declared.stmt.GroupTable.{GroupTable as OneTable};
ghost use Rattle.std.specs.List.{list_any};
ghost use Rattle.std.specs.Option.{option_or};
ghost use Rattle.table_defs.specs.Declarations.{Tells};
ghost use Rattle.resolution.specs.Assignments.{column_named};
ghost use Rattle.resolution.specs.Placing.{filter_seen, placed_filter};
ghost use Rattle.cache_tier.specs.Definitions.{AreChildrenOf, IsChildOf, IsTreeOf, aging_column, column_declared, column_fault, first_fault, form_of, has_unheld_filter, has_unsound_filter, parent_place, scope_of};
ghost use Rattle.group_catalog.specs.Filtered.{refused_column};
ghost use Rattle.group_catalog.specs.Placed.{table_seen, tables_seen};

use crate::placing::PlacedTable;
use crate::refusing::refuse_name;
use expressions::Cond;
use instances::{Child, Root, Tree};
use resolution::resolve_filter;
use row_types::{Column, ColumnDeclaration, Refused, Ty, TypeDeclaration};
use sql_subset::stmt::{AgingClause, AgingRule, GroupTable};
use std::alloc::{AllocError, Global};
use table_defs::wrong_name;
use tier_base::{Code, Name, Seq};

/// What is to be judged of the conditions once all names are found.
#[derive(Clone, Copy)]
pub struct Judged {
    /// some condition breaks the rule of types
    pub unsound: bool,
    /// no type holds some literal of them
    pub unheld: bool,
}

/// The tree of these tables, the root first, with their conditions over the declared columns.
///
/// The refusal is 103 of the first name, table by table: one of the declaration that is no column's or stands twice,
/// then the column of AGING, then a name of the condition; or memory was wanting. What is to be judged of the
/// conditions is told in `judged`.
pub(crate) fn name_tree(
    alloc: Global,
    root: &PlacedTable<'_>,
    children: &[PlacedTable<'_>],
    judged: &mut Judged,
) -> Result<Tree, Refused>
    ensures told { Tells result (option_or (column_fault (table_seen root.now))
        (first_fault column_fault (tables_seen children.now))) }
    ensures tree { IfOk result (λ tree. IsTreeOf (table_seen root.now ∷ tables_seen children.now) tree) }
    ensures unsound { OnOk result (judged.new.unsound ≡ judged.old.unsound
        || (has_unsound_filter (table_seen root.now) || list_any has_unsound_filter (tables_seen children.now))) }
    ensures unheld { OnOk result (judged.new.unheld ≡ judged.old.unheld
        || (has_unheld_filter (table_seen root.now) || list_any has_unheld_filter (tables_seen children.now))) }
{
    let filter = name_table(alloc, root, judged)?;
    let children = name_children(alloc, children, judged)?;
    Ok(Tree {
        root: Root {
            table: root.id,
            filter,
        },
        children: Seq::from_vec(children),
    })
}

fn name_children(
    alloc: Global,
    tables: &[PlacedTable<'_>],
    judged: &mut Judged,
) -> Result<Vec<Child>, Refused>
    ensures told { Tells result (first_fault column_fault (tables_seen tables.now)) }
    ensures children { IfOk result (λ children. AreChildrenOf (tables_seen tables.now) children.items) }
    ensures unsound { OnOk result (judged.new.unsound ≡ judged.old.unsound
        || list_any has_unsound_filter (tables_seen tables.now)) }
    ensures unheld { OnOk result (judged.new.unheld ≡ judged.old.unheld
        || list_any has_unheld_filter (tables_seen tables.now)) }
{
    let mut children = Vec::with_capacity(alloc, tables.len())?;
    for table in tables {
        let child = name_child(alloc, table, judged)?;
        children.push(child).map_err(AllocError::from)?;
    }
    Ok(children)
}

fn name_child(alloc: Global, table: &PlacedTable<'_>, judged: &mut Judged) -> Result<Child, Refused>
    ensures told { Tells result (column_fault (table_seen table.now)) }
    ensures child { IfOk result (λ child. IsChildOf (table_seen table.now) child) }
    ensures unsound { OnOk result (judged.new.unsound ≡ judged.old.unsound
        || has_unsound_filter (table_seen table.now)) }
    ensures unheld { OnOk result (judged.new.unheld ≡ judged.old.unheld || has_unheld_filter (table_seen table.now)) }
{
    let filter = name_table(alloc, table, judged)?;
    Ok(Child {
        table: table.id,
        filter,
        parent: parent_place(table),
    })
}

// The condition of a table, over the columns that the definition declares.
fn name_table(
    alloc: Global,
    table: &PlacedTable<'_>,
    judged: &mut Judged,
) -> Result<Option<Cond>, Refused>
    ensures told { Tells result (column_fault (table_seen table.now)) }
    ensures filter { IfOk result (λ filter.
        placed_filter (scope_of (table_seen table.now)) table.now.it.now.filter ≡ Ok (filter_seen filter)) }
    ensures unsound { OnOk result (judged.new.unsound ≡ judged.old.unsound
        || has_unsound_filter (table_seen table.now)) }
    ensures unheld { OnOk result (judged.new.unheld ≡ judged.old.unheld || has_unheld_filter (table_seen table.now)) }
{
    refuse_name(alloc, Code::UnknownColumn, wrong_name(&table.it.table))?;
    let columns = declared_columns(alloc, table.it.table.columns.as_slice())?;
    let columns = columns.as_slice();
    refuse_name(
        alloc,
        Code::UnknownColumn,
        refused_column(columns, &table.it.aging),
    )?;
    match resolve_filter(alloc, &table.def.name, columns, &table.it.filter) {
        Err(refused) => Err(refused),
        Ok(filter) => {
            judged.unsound = judged.unsound || !filter.sound;
            judged.unheld = judged.unheld || filter.unheld;
            Ok(filter.into_cond())
        }
    }
}

// The columns as a definition declares them, each with a type of its form. It fails for want of memory alone.
fn declared_columns(
    alloc: Global,
    declared: &[ColumnDeclaration],
) -> Result<Vec<Column>, AllocError>
    ensures { IfOk result (λ columns. columns.items ≡ map column_declared declared.now) }
{
    let mut columns = Vec::with_capacity(alloc, declared.len())?;
    for column in declared {
        let name = column.name.copied(alloc)?;
        columns.push(Column {
            name,
            ty: form_of(&column.ty),
            not_null: column.not_null,
        })?;
    }
    Ok(columns)
}

fn form_of(ty: &TypeDeclaration) -> Ty
    ensures { result ≡ form_of ty.now }
{
    match ty {
        TypeDeclaration::TtInteger => Ty::TtInteger,
        TypeDeclaration::TtBigint => Ty::TtBigint,
        TypeDeclaration::Number(_, _) => Ty::Number(1, 0),
        TypeDeclaration::Varchar2(_) => Ty::Varchar2(1),
        TypeDeclaration::Timestamp => Ty::Timestamp,
    }
}

// The column of AGING, where there is no such column.
fn refused_column<'a>(columns: &[Column], aging: &'a Option<AgingClause>) -> Option<&'a Name>
    ensures { option_copied result ≡ refused_column columns.now aging.now }
{
    match aging_column(aging) {
        None => None,
        Some(name) => match column_named(columns, name) {
            None => Some(name),
            Some(_) => None,
        },
    }
}

/// The column of an AGING clause; none without a clause, and of LRU.
pub(crate) fn aging_column(aging: &Option<AgingClause>) -> Option<&Name>
    ensures { option_copied result ≡ aging_column aging.now }
{
    match aging {
        None => None,
        Some(clause) => match &clause.rule {
            AgingRule::LastUse => None,
            AgingRule::Time(time) => Some(&time.column),
        },
    }
}

/// The place of the column of this name.
pub(crate) fn column_named(columns: &[Column], name: &Name) -> Option<usize>
    ensures { result ≡ column_named columns.now name.now }
{
    columns
        .iter()
        .position(|column| column.name.as_bytes() == name.as_bytes())
}

// The place of the parent among the tables before; 0 where there is none.
fn parent_place(table: &PlacedTable<'_>) -> usize
    ensures { result ≡ parent_place table.now.before.now table.now.it.now.table.foreign_key }
{
    match &table.it.table.foreign_key {
        None => 0,
        Some(foreign) => place_named(table.before, &foreign.parent).unwrap_or(0),
    }
}

fn place_named(tables: &[GroupTable], name: &Name) -> Option<usize>
    ensures { result ≡ position (λ (g : OneTable). same_name g.table.name name.now) tables.now }
{
    tables
        .iter()
        .position(|table| table.table.name.as_bytes() == name.as_bytes())
}
