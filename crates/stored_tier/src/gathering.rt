//! Rows of instances that a load brings.

ghost use Rattle.std.specs.Prelude.{◌≡◌, ◌≤◌, ◌+◌, ◌&&◌, [], ◌∷◌, IfOk, OnErr, OnOk, length, map, not, option_copied, slice_get, unwrap_or};
ghost use Rattle.std.specs.FinMap as finite;
ghost use Rattle.instances.specs.Collecting.{added};
ghost use Rattle.instances.specs.Views.{child_rows, kept_at, refers_to_one, root_rows, rows_where, selects, with_children};
ghost use Rattle.table_defs.specs.Declarations.{foreign_places};
ghost use Rattle.table_state.specs.Tables.{table_at};
ghost use Rattle.tier_base.specs.declared.code.Code.TheVariants as code;
ghost use Rattle.group_store.specs.Stores.{SameButSpare, count_all, put_tables};
ghost use Rattle.cache_tier.specs.Conditions.{overflows};
ghost use Rattle.cache_tier.specs.Rules.{plain};
ghost use Rattle.stored_tier.specs.Choosing.{chosen, comes, counted, matches_at};
ghost use Rattle.stored_tier.specs.Gathering.{Gathers};

use expressions::{Cond, truth_on};
use group_catalog::ResolvedWhich;
use group_store::Store;
use indexed_rows::{Rows, key_at};
use instances::{Child, Tree};
use row_types::{Detail, Key, Refused, Row, Rule, Truth};
use std::alloc::{AllocError, Global};
use table_defs::{ForeignKey, TableDef};
use table_state::Tables;
use tier_base::{Code, Seq, TableId};

/// Whether the condition is 120 on some row of a table. It takes no memory.
pub(crate) fn overflows(tables: &Tables, table: TableId, which: &ResolvedWhich) -> bool
    ensures { result ≡ overflows which.now.filter (table_at tables.now table) }
{
    match tables.table(table) {
        None => false,
        Some(rows) => overflows_on(rows, which),
    }
}

fn overflows_on(rows: &Rows, which: &ResolvedWhich) -> bool
    ensures { result ≡ overflows which.now.filter rows.now }
{
    for place in 0..rows.len() {
        if which.selects(rows.row_at(place)).is_none() {
            return true;
        }
    }
    false
}

/// How many rows of a table match, each with its key. It takes no memory.
pub(crate) fn count_matching(tables: &Tables, table: TableId, which: &ResolvedWhich) -> usize
    ensures { result ≡ finite.len (chosen (matches_at which.now) (table_at tables.now table)) }
{
    match tables.table(table) {
        None => 0,
        Some(rows) => count_in(rows, which),
    }
}

fn count_in(rows: &Rows, which: &ResolvedWhich) -> usize
    ensures { result ≡ finite.len (chosen (matches_at which.now) rows.now) }
{
    let mut count = 0;
    for place in 0..rows.len() {
        let entry = rows.entry_at(place);
        if which.matches(&entry.1, &entry.0) {
            count += 1;
        }
    }
    count
}

/// The rows of a table that match and whose keys have no row at the root of the store.
pub(crate) fn coming_roots(
    alloc: Global,
    tables: &Tables,
    table: TableId,
    which: &ResolvedWhich,
    store: &Store,
) -> Result<Rows, AllocError>
    ensures { IfOk result (λ rows. rows ≡ chosen (comes which.now store.now) (table_at tables.now table)) }
{
    match tables.table(table) {
        None => Ok(Rows::new(alloc)),
        Some(rows) => coming_among(alloc, rows, which, store),
    }
}

fn coming_among(
    alloc: Global,
    rows: &Rows,
    which: &ResolvedWhich,
    store: &Store,
) -> Result<Rows, AllocError>
    ensures { IfOk result (λ out. out ≡ chosen (comes which.now store.now) rows.now) }
{
    let mut out = Rows::new(alloc);
    for place in 0..rows.len() {
        let entry = rows.entry_at(place);
        if comes(which, store, &entry.0, &entry.1) {
            add_copy(alloc, &mut out, &entry.0, &entry.1)?;
        }
    }
    Ok(out)
}

// Whether a root row matches, and isn't there.
fn comes(which: &ResolvedWhich, store: &Store, key: &Key, row: &Row) -> bool
    ensures { result ≡ comes which.now store.now key.now row.now }
{
    which.matches(row, key) && store.get(0, key).is_none()
}

/// The rows of the instances of these roots, by table of a tree: behind the roots the rows of each child table that its
/// WHERE selects and that refer to a row of their parent's. Each row of a child table is looked at once.
pub(crate) fn instances_below(
    alloc: Global,
    tables: &Tables,
    tree: &Tree,
    roots: Rows,
) -> Result<Seq<Rows>, AllocError>
    ensures { IfOk result (λ kept. kept ≡ with_children tables.now tree.now.children (roots ∷ [])) }
{
    with_children(alloc, tables, tree.children.as_slice(), roots)
}

fn with_children(
    alloc: Global,
    tables: &Tables,
    children: &[Child],
    root: Rows,
) -> Result<Seq<Rows>, AllocError>
    ensures { IfOk result (λ kept. kept ≡ with_children tables.now children.now (root ∷ [])) }
{
    let mut kept = Vec::new(alloc);
    kept.push(root)?;
    for child in children {
        let rows = child_rows(alloc, tables, kept.as_slice(), child)?;
        kept.push(rows)?;
    }
    Ok(Seq::from_vec(kept))
}

fn child_rows(
    alloc: Global,
    tables: &Tables,
    kept: &[Rows],
    child: &Child,
) -> Result<Rows, AllocError>
    ensures { IfOk result (λ rows. rows ≡ child_rows tables.now (kept_at kept.now child.now.parent) child.now) }
{
    let none = Rows::new(alloc);
    let parents = kept_at(kept, child.parent, &none);
    let rows = or_none(tables.table(child.table), &none);
    let def = tables.schema().get(child.table.0 as usize);
    referring_rows(alloc, rows, &child.filter, parents, def)
}

// The rows at a place, or else those of `none`.
fn kept_at<'a>(kept: &'a [Rows], place: usize, none: &'a Rows) -> &'a Rows
    ensures { result.now ≡ unwrap_or (slice_get kept.now place) none.now }
{
    match kept.get(place) {
        None => none,
        Some(rows) => rows,
    }
}

// The rows, or else those of `none`.
fn or_none<'a>(rows: Option<&'a Rows>, none: &'a Rows) -> &'a Rows
    ensures { result.now ≡ unwrap_or (option_copied rows.entry) none.now }
{
    match rows {
        None => none,
        Some(rows) => rows,
    }
}

fn referring_rows(
    alloc: Global,
    rows: &Rows,
    filter: &Option<Cond>,
    parents: &Rows,
    def: Option<&TableDef>,
) -> Result<Rows, AllocError>
    ensures { IfOk result (λ out. out
        ≡ rows_where (λ row. selects filter.now row
        && refers_to_one parents.now (option_copied def.entry) row) rows.now) }
{
    let mut out = Rows::new(alloc);
    for place in 0..rows.len() {
        let entry = rows.entry_at(place);
        if is_kept(alloc, filter, parents, def, &entry.1)? {
            add_copy(alloc, &mut out, &entry.0, &entry.1)?;
        }
    }
    Ok(out)
}

fn is_kept(
    alloc: Global,
    filter: &Option<Cond>,
    parents: &Rows,
    def: Option<&TableDef>,
    row: &Row,
) -> Result<bool, AllocError>
    ensures { IfOk result (λ kept. kept
        ≡ (selects filter.now row.now && refers_to_one parents.now (option_copied def.entry) row.now)) }
{
    if selects(filter, row) {
        refers_to_one(alloc, parents, def, row)
    } else {
        Ok(false)
    }
}

fn refers_to_one(
    alloc: Global,
    parents: &Rows,
    def: Option<&TableDef>,
    row: &Row,
) -> Result<bool, AllocError>
    ensures { IfOk result (λ refers. refers ≡ refers_to_one parents.now (option_copied def.entry) row.now) }
{
    match def {
        None => Ok(false),
        Some(def) => {
            let key = key_at(alloc, foreign_places(&def.foreign_key), row)?;
            Ok(parents.contains_key(&key))
        }
    }
}

/// The columns of a foreign key; none where there is none.
pub fn foreign_places(foreign_key: &Option<ForeignKey>) -> &[usize]
    ensures { result.now ≡ foreign_places foreign_key.now }
{
    match foreign_key {
        None => &[],
        Some(foreign) => foreign.columns.as_slice(),
    }
}

// Whether the WHERE selects the row; one that is 120 on it doesn't, and where there is none each row is selected.
pub(crate) fn selects(filter: &Option<Cond>, row: &Row) -> bool
    ensures { result ≡ selects filter.now row.now }
{
    match filter {
        None => true,
        Some(cond) => match truth_on(cond, row) {
            Some(Truth::True) => true,
            _ => false,
        },
    }
}

// Puts a copy of a row in where its key has none.
pub(crate) fn add_copy(
    alloc: Global,
    out: &mut Rows,
    key: &Key,
    row: &Row,
) -> Result<(), AllocError>
    ensures { OnOk result (out.new ≡ added out.old key.now row.now) }
{
    let key = key.copied(alloc)?;
    let row = row.copied(alloc)?;
    out.insert(key, row)?;
    Ok(())
}

/// The rows of each of these tables, in key order.
pub(crate) fn listed(alloc: Global, tables: &[Rows]) -> Result<Seq<Seq<Row>>, AllocError>
    ensures { IfOk result (λ lists. lists ≡ map finite.values tables.now) }
{
    let mut lists = Vec::new(alloc);
    for rows in tables {
        let list = listed_rows(alloc, rows)?;
        lists.push(list)?;
    }
    Ok(Seq::from_vec(lists))
}

fn listed_rows(alloc: Global, rows: &Rows) -> Result<Seq<Row>, AllocError>
    ensures { IfOk result (λ list. list ≡ finite.values rows.now) }
{
    let mut list = Vec::with_capacity(alloc, rows.len())?;
    for place in 0..rows.len() {
        let row = rows.row_at(place).copied(alloc)?;
        list.push(row)?;
    }
    Ok(Seq::from_vec(list))
}

/// What a load takes from the tables of a snapshot.
pub struct Gathered {
    /// What the reply tells.
    pub count: u64,
    /// The rows of the instances that come, by table of the tree.
    pub rows: Seq<Seq<Row>>,
}

impl Drop for Gathered {
    fn drop(self) {
        let Self { count: _, rows: _ } = self;
    }
}

impl Gathered {
    /// The rows.
    pub fn into_rows(self) -> Seq<Seq<Row>>
        ensures { result ≡ self.rows }
    {
        let Self { count: _, rows } = self;
        rows
    }
}

/// The instances of a tree in these tables that match and that the store doesn't have; and how many they are, or for a
/// refresh how many match.
///
/// It is 120 where the condition is so on some root row; or memory was wanting.
pub fn gather(
    alloc: Global,
    tables: &Tables,
    tree: &Tree,
    store: &Store,
    which: &ResolvedWhich,
    refreshes: bool,
) -> Result<Gathered, Refused>
    ensures { Gathers tables.now tree.now store.now which.now refreshes result }
{
    let root = tree.root.table;
    if overflows(tables, root, which) {
        return Err(Refused::Rule(overflow()));
    }
    let roots = coming_roots(alloc, tables, root, which, store)?;
    let count = counted(tables, root, which, refreshes, &roots);
    let kept = instances_below(alloc, tables, tree, roots)?;
    let rows = listed(alloc, kept.as_slice())?;
    Ok(Gathered { count, rows })
}

// How many root rows match, or how many come.
fn counted(
    tables: &Tables,
    table: TableId,
    which: &ResolvedWhich,
    refreshes: bool,
    roots: &Rows,
) -> u64
    ensures { result ≡ counted refreshes which.now (table_at tables.now table) roots.now }
{
    if refreshes {
        count_matching(tables, table, which) as u64
    } else {
        roots.len() as u64
    }
}

// 120.
fn overflow() -> Rule
    ensures { result ≡ plain code.Overflow }
{
    Rule {
        code: Code::Overflow,
        detail: Detail::Nothing,
    }
}

/// Puts these rows into a store, all memory first.
pub fn fill(alloc: Global, store: &mut Store, tables: Seq<Seq<Row>>) -> Result<(), Refused>
    requires { length tables ≤ length store.old.layers + 1 }
    ensures ok { OnOk result (SameButSpare (put_tables 0 tables store.old) store.new) }
    ensures err { OnErr result (SameButSpare store.old store.new) }
{
    let count = count_all(tables.as_slice())?;
    store.reserve(alloc, count)?;
    store.put_instance(tables);
    Ok(())
}

// How many rows they are. No memory has room for more than can be counted.
fn count_all(tables: &[Seq<Row>]) -> Result<usize, Refused>
    ensures { IfOk result (λ count. count ≡ count_all tables.now) }
{
    let mut count: usize = 0;
    for rows in tables {
        match count.checked_add(rows.len()) {
            None => return Err(Refused::Memory),
            Some(more) => count = more,
        }
    }
    Ok(count)
}
