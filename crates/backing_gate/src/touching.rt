//! The instances that changes touch, and those that wants name.

ghost use Rattle.std.specs.Prelude.{◌≡◌, ◌++◌, ◌||◌, List, IfOk, OnOk, map};
ghost use Rattle.std.specs.FinMap as fin;
ghost use Rattle.std.specs.List.{flat_map};
ghost use Rattle.row_types.specs.declared.value.Value.{Value as OneValue};
ghost use Rattle.outside.specs.Changes.{AllTouched, AreTouched, is_root, old_root_at, old_root, root_above, touches, tree_tables};
ghost use Rattle.backing_gate.specs.Touching.{AreRoots, AreWanted, touched_at};

use change_log::RowChange;
use indexed_rows::{Rows, key_at};
use instances::{Child, Tree, foreign_places, instance, root_of};
use outside::{Instance, Touched};
use row_types::{Key, Row};
use std::alloc::{AllocError, Global};
use table_state::{RowKey, Tables};
use tier_base::{Seq, TableId};

/// The tables of these trees.
pub(crate) fn covered_tables(alloc: Global, trees: &[Tree]) -> Result<Vec<TableId>, AllocError>
    ensures { IfOk result (λ tables. tables.items ≡ flat_map tree_tables trees.now) }
{
    let mut tables = Vec::new(alloc);
    for tree in trees {
        add_tables(&mut tables, tree)?;
    }
    Ok(tables)
}

fn add_tables(tables: &mut Vec<TableId>, tree: &Tree) -> Result<(), AllocError>
    ensures { OnOk result (tables.new.items ≡ tables.old.items ++ tree_tables tree.now) }
{
    tables.push(tree.root.table)?;
    for child in tree.children.as_slice() {
        tables.push(child.table)?;
    }
    Ok(())
}

/// Of each tree the instances that the changes touch, and those that a want names.
pub(crate) fn all_touched(
    alloc: Global,
    trees: &[Tree],
    tables: &Tables,
    log: &[RowChange],
    wants: &[RowKey],
) -> Result<Seq<Seq<Touched>>, AllocError>
    ensures { IfOk result (λ touched. AllTouched tables.now log.now wants.now trees.now touched) }
{
    let mut out = Vec::with_capacity(alloc, trees.len())?;
    for tree in trees {
        let touched = touched_in(alloc, tree, tables, log, wants)?;
        out.push(touched)?;
    }
    Ok(Seq::from_vec(out))
}

fn touched_in(
    alloc: Global,
    tree: &Tree,
    tables: &Tables,
    log: &[RowChange],
    wants: &[RowKey],
) -> Result<Seq<Touched>, AllocError>
    ensures { IfOk result (λ touched. AreTouched tables.now log.now wants.now tree.now touched) }
{
    let wanted = wanted_roots(alloc, tree, tables, wants)?;
    let roots = touched_roots(alloc, tree, tables, log, wants)?;
    let touched = under_roots(alloc, tree, tables, &roots, &wanted)?;
    Ok(Seq::from_vec(touched))
}

// The root keys of the instances that a want names.
fn wanted_roots(
    alloc: Global,
    tree: &Tree,
    tables: &Tables,
    wants: &[RowKey],
) -> Result<Rows, AllocError>
    ensures { IfOk result (λ roots. AreWanted tables.now tree.now wants.now roots) }
{
    let mut roots = Rows::new(alloc);
    for want in wants {
        let found = root_of(alloc, tree, tables, want.table, &want.key)?;
        put_root(alloc, found, &mut roots)?;
    }
    Ok(roots)
}

// These, and those of the instances that the changes touch.
fn touched_roots(
    alloc: Global,
    tree: &Tree,
    tables: &Tables,
    log: &[RowChange],
    wants: &[RowKey],
) -> Result<Rows, AllocError>
    ensures { IfOk result (λ roots. AreRoots tables.now tree.now log.now wants.now roots) }
{
    let mut roots = wanted_roots(alloc, tree, tables, wants)?;
    for change in log {
        add_touched(alloc, tree, tables, change, &mut roots)?;
    }
    Ok(roots)
}

// The root keys that the row of a change is reached from, and was, come to these.
fn add_touched(
    alloc: Global,
    tree: &Tree,
    tables: &Tables,
    change: &RowChange,
    roots: &mut Rows,
) -> Result<(), AllocError>
    ensures { OnOk result ((root : List OneValue) → fin.contains_key roots.new root
        ≡ (touches tables.now tree.now root change.now || fin.contains_key roots.old root)) }
{
    let old = old_root(alloc, tree, tables, change)?;
    put_root(alloc, old, roots)?;
    let found = root_of(alloc, tree, tables, change.table, &change.key)?;
    put_root(alloc, found, roots)
}

// The root key that the row of a change was reached from.
fn old_root(
    alloc: Global,
    tree: &Tree,
    tables: &Tables,
    change: &RowChange,
) -> Result<Option<Key>, AllocError>
    ensures { IfOk result (λ root. root ≡ old_root tables.now tree.now change.now) }
{
    match tree.place_of(change.table) {
        None => Ok(None),
        Some(place) => old_root_at(alloc, tree, tables, change, place),
    }
}

fn old_root_at(
    alloc: Global,
    tree: &Tree,
    tables: &Tables,
    change: &RowChange,
    place: usize,
) -> Result<Option<Key>, AllocError>
    ensures { IfOk result (λ root. root ≡ old_root_at tables.now tree.now change.now place) }
{
    if place == 0 {
        let key = change.key.copied(alloc)?;
        return Ok(Some(key));
    }
    match (tree.children.get(place - 1), &change.old) {
        (Some(child), Some(row)) => root_above(alloc, tree, tables, child, row),
        _ => Ok(None),
    }
}

// The root key that the row which a child row's foreign key names is reached from.
fn root_above(
    alloc: Global,
    tree: &Tree,
    tables: &Tables,
    child: &Child,
    row: &Row,
) -> Result<Option<Key>, AllocError>
    ensures { IfOk result (λ root. root ≡ root_above tables.now tree.now child.now row.now) }
{
    match (
        tree.table_of(child.parent),
        tables.schema().get(child.table.0 as usize),
    ) {
        (Some(parent), Some(def)) => {
            let key = key_at(alloc, foreign_places(&def.foreign_key), row)?;
            root_of(alloc, tree, tables, parent, &key)
        }
        _ => Ok(None),
    }
}

// A root key that was found comes to these. The roots are kept as the keys of rows without values.
fn put_root(alloc: Global, found: Option<Key>, roots: &mut Rows) -> Result<(), AllocError>
    ensures { OnOk result ((root : List OneValue) → fin.contains_key roots.new root
        ≡ (is_root root found || fin.contains_key roots.old root)) }
{
    match found {
        None => Ok(()),
        Some(root) => {
            let _ = roots.insert(root, Row::from_vec(Vec::new(alloc)))?;
            Ok(())
        }
    }
}

// The instances of these root keys, in their order.
fn under_roots(
    alloc: Global,
    tree: &Tree,
    tables: &Tables,
    roots: &Rows,
    wanted: &Rows,
) -> Result<Vec<Touched>, AllocError>
    ensures { IfOk result (λ touched. touched.items
        ≡ map (λ entry. touched_at tables.now tree.now wanted.now entry.0) (fin.entries roots.now)) }
{
    let mut out = Vec::with_capacity(alloc, roots.len())?;
    for place in 0..roots.len() {
        let entry = roots.entry_at(place);
        let touched = touched_at(alloc, tree, tables, &entry.0, wanted)?;
        out.push(touched)?;
    }
    Ok(out)
}

fn touched_at(
    alloc: Global,
    tree: &Tree,
    tables: &Tables,
    root: &Key,
    wanted: &Rows,
) -> Result<Touched, AllocError>
    ensures { IfOk result (λ touched. touched ≡ touched_at tables.now tree.now wanted.now root.now) }
{
    let rows = instance(alloc, tree, tables, root)?;
    let wanted = wanted.contains_key(root);
    let root = root.copied(alloc)?;
    Ok(Touched {
        instance: Instance { root, rows },
        wanted,
    })
}
