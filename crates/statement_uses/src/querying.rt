//! What a query uses.

ghost use Rattle.std.specs.Prelude.{◌≡◌, ℕ, IfOk, None, Some, false, option_copied, slice_get, true};
ghost use Rattle.std.specs.List.{list_any};
ghost use Rattle.std.specs.Option.{option_map};
ghost use Rattle.table_state.specs.Keyed.{IsKeyed};
ghost use Rattle.cache_tier.specs.Groups.{Group, covers};
ghost use Rattle.group_catalog.specs.Catalogs.{groups_in};
ghost use Rattle.group_catalog.specs.Kept.{group_seen};
ghost use Rattle.statement_uses.specs.Uses.{HaveUses, keeps_order, roots_of_query, roots_of_rows};

use crate::rooting::root_of;
use crate::selecting::selected_keys;
use crate::using::keeps_order;
use evaluator::Plan;
use group_catalog::{Catalog, KeptGroup};
use instances::Tree;
use row_types::Key;
use std::alloc::{AllocError, Global};
use table_state::{RowKey, Scan};
use tier_base::{Seq, TableId};

/// For each group in which the order of last use counts, the root keys of the instances that a query's selected rows
/// are of, combination by combination, those of one in the order of FROM.
///
/// It fails as `selected_keys` does, which leaves the same of the plan. Where no such group has a table of the query,
/// no row is read. (TimesTen Cache User's Guide, "LRU aging".)
pub fn used_by_query<S: Scan>(
    alloc: Global,
    catalog: &Catalog,
    scan: &S,
    plan: &mut Plan,
) -> Result<Seq<Seq<Key>>, AllocError>
    requires { IsKeyed (S.state scan.now) }
    ensures { IfOk result (HaveUses (groups_in catalog.now) (roots_of_query (S.state scan.now) plan.old)) }
{
    if !some_used(catalog, plan.tables.as_slice()) {
        return Ok(Seq::new(alloc));
    }
    let rows = selected_keys(alloc, scan, plan)?;
    used_rows(alloc, catalog, scan, rows.as_slice())
}

// Whether the order of last use counts in a group that has one of these tables.
fn some_used(catalog: &Catalog, tables: &[TableId]) -> bool
    ensures { result ≡ false → (place : ℕ) (g : Group) → slice_get (groups_in catalog.now) place ≡ Some g
        → keeps_order g ≡ true → list_any (λ table. covers table g) tables.now ≡ false }
{
    for place in 0..catalog.len() {
        if is_used(catalog.get(place), tables) {
            return true;
        }
    }
    false
}

fn is_used(group: Option<&KeptGroup>, tables: &[TableId]) -> bool
    ensures { result ≡ false → (g : Group) → option_map group_seen (option_copied group.entry) ≡ Some g
        → keeps_order g ≡ true → list_any (λ table. covers table g) tables.now ≡ false }
{
    match group {
        None => false,
        Some(group) => keeps_order(group) && has_some(group, tables),
    }
}

fn has_some(group: &KeptGroup, tables: &[TableId]) -> bool
    ensures { result ≡ list_any (λ table. covers table (group_seen group.now)) tables.now }
{
    tables.iter().any(|table| covers(group, *table))
}

fn covers(group: &KeptGroup, table: TableId) -> bool
    ensures { result ≡ covers table (group_seen group.now) }
{
    group.def.tree.place_of(table).is_some()
}

// For each such group the root keys that these rows are reached from.
fn used_rows<S: Scan>(
    alloc: Global,
    catalog: &Catalog,
    scan: &S,
    rows: &[RowKey],
) -> Result<Seq<Seq<Key>>, AllocError>
    ensures { IfOk result (HaveUses (groups_in catalog.now)
        (λ g. roots_of_rows (S.state scan.now) g.def.tree rows.now)) }
{
    let mut uses = Vec::new(alloc);
    for place in 0..catalog.len() {
        let roots = used_in(alloc, catalog.get(place), scan, rows)?;
        uses.push(roots)?;
    }
    Ok(Seq::from_vec(uses))
}

fn used_in<S: Scan>(
    alloc: Global,
    group: Option<&KeptGroup>,
    scan: &S,
    rows: &[RowKey],
) -> Result<Seq<Key>, AllocError>
    ensures { IfOk result (λ roots. (g : Group) → option_map group_seen (option_copied group.entry) ≡ Some g
        → keeps_order g ≡ true → roots ≡ roots_of_rows (S.state scan.now) g.def.tree rows.now) }
{
    match group {
        None => Ok(Seq::new(alloc)),
        Some(group) => {
            if keeps_order(group) {
                roots_of_rows(alloc, scan, &group.def.tree, rows)
            } else {
                Ok(Seq::new(alloc))
            }
        }
    }
}

// The root keys that rows are reached from, one after another.
fn roots_of_rows<S: Scan>(
    alloc: Global,
    scan: &S,
    tree: &Tree,
    rows: &[RowKey],
) -> Result<Seq<Key>, AllocError>
    ensures { IfOk result (λ roots. roots ≡ roots_of_rows (S.state scan.now) tree.now rows.now) }
{
    let mut roots = Vec::new(alloc);
    for row in rows {
        match root_of(alloc, scan, tree, row.table, &row.key)? {
            None => {}
            Some(root) => roots.push(root)?,
        }
    }
    Ok(Seq::from_vec(roots))
}
