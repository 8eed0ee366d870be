//! CREATE CACHE GROUP.

ghost use Rattle.std.specs.Prelude.{◌≡◌, IfErr, IfOk, List, OnOk, length, true};
ghost use Rattle.row_types.specs.declared.rule.Letter.TheVariants as letter;
ghost use Rattle.row_types.specs.declared.rule.Refused.TheVariants as refused;
ghost use Rattle.table_defs.specs.declared.definition.TableDef.{TableDef as OneTable};
ghost use Rattle.instances.specs.Trees.{is_sound};
ghost use Rattle.std.specs.List.{list_any};
ghost use Rattle.table_defs.specs.Declarations.{Tells};
ghost use Rattle.cache_tier.specs.Definitions.{IsTreeOf, aging_of, column_type_fault, defined_by, definition_broken, first_fault, has_unheld_filter, has_unsound_filter, placed_tables, root_aging, rule_of, types_fault};
ghost use Rattle.cache_tier.specs.Groups.{defines_name, definitions_of};
ghost use Rattle.cache_tier.specs.Rules.{at_limit, broken_if, lettered, named, plain};
ghost use Rattle.group_catalog.specs.Catalogs.{groups_in};
ghost use Rattle.group_catalog.specs.Placed.{tables_seen};
ghost use Rattle.group_catalog.specs.ReadBack.{broken_beside, has_own_parent, read_back_fault, root_refers};

use crate::catalog::Catalog;
use crate::clauses::{is_read_only, judge_clauses};
use crate::kept::refresh_of;
use crate::naming::{Judged, column_named, name_tree};
use crate::placing::{PlacedTable, place_tables};
use crate::refusing::{lettered, no_type, plain, refuse_name};
use crate::tables::judge_tables;
use cache_tier::group::{AgingRule, GroupDef, TimeRule};
use instances::Tree;
use row_types::{Column, Detail, Letter, Refused, Rule};
use sql_subset::stmt::{AgingClause, AgingRule as AgingWords, CreateGroup};
use std::alloc::{AllocError, Global};
use table_defs::{BackingSchema, TableDef, refuse_types};
use tier_base::{Code, Limit, Name};

/// What the definition of a group says, over the backing schema and beside the groups that there are.
///
/// The refusal is the first broken rule: 102 of a name that is no backing table's; 103 of a column that there isn't,
/// or that stands twice; 113 where a group has the name; 122 where the session has uncommitted writes; 104 where
/// types don't suit in a condition; 105 where no type holds a literal of one, or there is no such type; 114 by its
/// first letter, from a to k; 119 where there are 64 groups. Or memory was wanting, which is also told of a
/// definition without tables, as no statement has it. (TimesTen SQL Reference, "CREATE CACHE GROUP"; the codes, the
/// letters and their order are this project's rule.)
pub fn define(
    alloc: Global,
    schema: &BackingSchema,
    catalog: &Catalog,
    declared: CreateGroup,
    has_writes: bool,
) -> Result<GroupDef, Refused>
    ensures told { Tells result
        (definition_broken schema.now (definitions_of (groups_in catalog.now)) has_writes declared) }
    ensures defined { IfOk result (λ def. def ≡ defined_by schema.now declared def.tree) }
    ensures tree { IfOk result (λ def. IsTreeOf (placed_tables schema.now declared) def.tree) }
    ensures sound { IfOk result (λ def. is_sound schema.now def.tree ≡ true) }
{
    let found = judge(
        alloc,
        schema,
        schema.as_slice(),
        catalog,
        &declared,
        has_writes,
    )?;
    made_of(alloc, declared, found)
}

/// What a definition says that is read back from a journal, over the backing schema and beside the groups that the
/// entries before it leave.
///
/// It is refused as by `define`, but that a table outside may refer to one of a writethrough group, since that table
/// may have come later; nobody has uncommitted writes. Letter j stands last for a root that refers to a table of its
/// own group. (The journal is this project's.)
pub fn define_read_back(
    alloc: Global,
    schema: &BackingSchema,
    catalog: &Catalog,
    declared: CreateGroup,
) -> Result<GroupDef, Refused>
    ensures told { Tells result (read_back_fault schema.now (definitions_of (groups_in catalog.now)) declared) }
    ensures defined { IfOk result (λ def. def ≡ defined_by schema.now declared def.tree) }
    ensures tree { IfOk result (λ def. IsTreeOf (placed_tables schema.now declared) def.tree) }
    ensures sound { IfOk result (λ def. is_sound schema.now def.tree ≡ true) }
{
    let found = judge(alloc, schema, &[], catalog, &declared, false)?;
    if found.refers && !is_read_only(declared.kind) {
        return Err(lettered(Letter::J));
    }
    made_of(alloc, declared, found)
}

// What a definition has that breaks no rule.
struct Accepted {
    // the tree of its tables
    tree: Tree,
    // the rule of aging
    aging: Option<AgingRule>,
    // whether the root table has a foreign key
    refers: bool,
}

impl Drop for Accepted {
    fn drop(self) {
        let Self {
            tree: _,
            aging: _,
            refers: _,
        } = self;
    }
}

impl Accepted {
    fn into_parts(self) -> (Tree, Option<AgingRule>)
        ensures { result ≡ (self.tree, self.aging) }
    {
        let Self {
            tree,
            aging,
            refers: _,
        } = self;
        (tree, aging)
    }
}

// The definition of this tree with this rule of aging.
fn made_of(alloc: Global, declared: CreateGroup, found: Accepted) -> Result<GroupDef, Refused>
    ensures made { IfOk result (λ def. (schema : List OneTable)
        → found.aging ≡ root_aging declared (placed_tables schema declared)
        → def ≡ defined_by schema declared found.tree) }
    ensures memory { IfErr result (λ error. error ≡ refused.Memory) }
{
    let (tree, aging) = found.into_parts();
    let name = declared.name.copied(alloc)?;
    let refresh = refresh_of(&declared);
    Ok(GroupDef {
        name,
        kind: declared.kind,
        dynamic: declared.dynamic,
        tree,
        mode: refresh.mode,
        interval: refresh.interval,
        aging,
        declared,
    })
}

// The first broken rule, or what the definition has. Of tables outside of the group these are asked for foreign keys
// that refer to it.
fn judge(
    alloc: Global,
    schema: &BackingSchema,
    outside: &[TableDef],
    catalog: &Catalog,
    declared: &CreateGroup,
    has_writes: bool,
) -> Result<Accepted, Refused>
    ensures told { Tells result
        (broken_beside outside.now schema.now (definitions_of (groups_in catalog.now)) has_writes declared.now) }
    ensures tree { IfOk result (λ found. IsTreeOf (placed_tables schema.now declared.now) found.tree) }
    ensures sound { IfOk result (λ found. is_sound schema.now found.tree ≡ true) }
    ensures aging { IfOk result (λ found.
        found.aging ≡ root_aging declared.now (placed_tables schema.now declared.now)) }
    ensures refers { IfOk result (λ found. found.refers ≡ root_refers (placed_tables schema.now declared.now)) }
{
    let tables = place_tables(alloc, schema, declared.tables.as_slice())?;
    let tables = tables.as_slice();
    let mut judged = Judged {
        unsound: false,
        unheld: false,
    };
    match tables.split_first() {
        None => Err(Refused::Memory),
        Some((root, children)) => {
            let tree = name_tree(alloc, root, children, &mut judged)?;
            refuse_taken(alloc, catalog, &declared.name)?;
            refuse_open(has_writes)?;
            judge_types(judged, tables)?;
            judge_tables(schema, catalog, tables)?;
            judge_clauses(outside, declared, tables)?;
            judge_count(catalog)?;
            judge_form(schema, &tree)?;
            let columns = root.def.columns.as_slice();
            Ok(Accepted {
                tree,
                aging: aging_of(declared.dynamic, columns, &root.it.aging),
                refers: root.def.foreign_key.is_some(),
            })
        }
    }
}

// 113: a group has the name.
fn refuse_taken(alloc: Global, catalog: &Catalog, name: &Name) -> Result<(), Refused>
    ensures { Tells result
        (broken_if (list_any (defines_name name.now) (definitions_of (groups_in catalog.now)))
        (named Code.NameInUse name.now)) }
{
    if catalog.has_name(name) {
        return refuse_name(alloc, Code::NameInUse, Some(name));
    }
    Ok(())
}

// 122: the session has uncommitted writes.
fn refuse_open(has_writes: bool) -> Result<(), Refused>
    ensures { Tells result (broken_if has_writes (plain Code.TransactionOpen)) }
{
    if has_writes {
        return Err(Refused::Rule(plain(Code::TransactionOpen)));
    }
    Ok(())
}

// 104, then 105.
fn judge_types(judged: Judged, tables: &[PlacedTable<'_>]) -> Result<(), Refused>
    requires unsound { judged.unsound ≡ list_any has_unsound_filter (tables_seen tables.now) }
    requires unheld { judged.unheld ≡ list_any has_unheld_filter (tables_seen tables.now) }
    ensures { Tells result (types_fault (tables_seen tables.now)) }
{
    if judged.unsound {
        return Err(Refused::Rule(plain(Code::TypeMismatch)));
    }
    if judged.unheld {
        return Err(Refused::Rule(no_type()));
    }
    judge_column_types(tables)
}

fn judge_column_types(tables: &[PlacedTable<'_>]) -> Result<(), Refused>
    ensures { Tells result (first_fault column_type_fault (tables_seen tables.now)) }
{
    for table in tables {
        refuse_types(table.it.table.columns.as_slice())?;
    }
    Ok(())
}

// 119 of the groups.
fn judge_count(catalog: &Catalog) -> Result<(), Refused>
    ensures { Tells result (at_limit Limit.Groups (length (definitions_of (groups_in catalog.now)))) }
{
    if (catalog.len() as u64) < Limit::Groups.number() {
        return Ok(());
    }
    Err(Refused::Rule(Rule {
        code: Code::Limit,
        detail: Detail::Limit(Limit::Groups),
    }))
}

// Whether the tree has the form that a group needs. The letters see to it; where it hadn't, memory would be told
// wanting.
fn judge_form(schema: &BackingSchema, tree: &Tree) -> Result<(), AllocError>
    ensures { OnOk result (is_sound schema.now tree.now ≡ true) }
{
    if tree.is_sound(schema) {
        Ok(())
    } else {
        Err(AllocError)
    }
}

// The rule of the root's AGING clause; LRU where a dynamic group has none.
fn aging_of(dynamic: bool, columns: &[Column], clause: &Option<AgingClause>) -> Option<AgingRule>
    ensures { result ≡ aging_of dynamic columns.now clause.now }
{
    match clause {
        None => {
            if dynamic {
                Some(AgingRule::LastUse)
            } else {
                None
            }
        }
        Some(clause) => {
            if clause.on {
                Some(rule_of(columns, &clause.rule))
            } else {
                None
            }
        }
    }
}

fn rule_of(columns: &[Column], rule: &AgingWords) -> AgingRule
    ensures { result ≡ rule_of columns.now rule.now }
{
    match rule {
        AgingWords::LastUse => AgingRule::LastUse,
        AgingWords::Time(time) => AgingRule::ByTime(TimeRule {
            column: column_named(columns, &time.column).unwrap_or(0),
            lifetime: time.lifetime,
            cycle: time.cycle,
        }),
    }
}
