//! What becomes of the chosen groups, made ready.

ghost use Rattle.std.specs.Prelude.{◌≡◌, ◌≤◌, ◌+◌, IfOk, IsTrue, None, Some, length, map, nat_eq, slice_get};
ghost use Rattle.group_store.specs.Stores.{count_all};
ghost use Rattle.std.specs.FinMap as finite;
ghost use Rattle.std.specs.Option.{option_copied};
ghost use Rattle.instances.specs.Views.{kept_at, passes};
ghost use Rattle.cache_tier.specs.Shown.{exceeds};
ghost use Rattle.group_catalog.specs.Catalogs.{groups_in};
ghost use Rattle.group_catalog.specs.Kept.{group_seen};
ghost use Rattle.stored_tier.specs.Filling.{is_held};
ghost use Rattle.stored_tier.specs.Refreshing.{choice_of, is_chosen_in, is_filled};
ghost use Rattle.changed_sets.specs.Preparing.{ArePatches, IsPatchOf};
ghost use Rattle.changed_sets.specs.Turning.{IsBareUnder, IsCutFor, IsPatchFor, IsOneUnder, IsTurnFor, AreCuts, AreTurns, bare_of, count_cuts, count_turns, count_shown, is_shown_told};

use crate::since::keeps_rows;
use crate::turns::{Cut, Patch, Turn};
use group_catalog::KeptGroup;
use group_store::Store;
use indexed_rows::{Rows, key_at};
use instances::Tree;
use outside::{Instance, Touched};
use row_types::{Key, Row};
use slot_rows::SlotRows;
use std::alloc::{AllocError, Global};
use stored_tier::filling::{exceeds, none_hidden};
use stored_tier::refreshing::Chosen;
use stored_tier::tier::Tier;
use table_defs::BackingSchema;
use tier_base::Seq;

/// What becomes of the chosen groups that keep rows, of which these instances were told; nothing of the others. The one
/// at a place gains what is wanted. It fails for want of memory, and where the bank told of fewer trees, of more tables
/// than a tree has, or of a root row under another key.
pub(crate) fn prepare(
    alloc: Global,
    tier: &Tier,
    chosen: Chosen,
    gaining: usize,
    touched: &[Seq<Touched>],
) -> Result<Vec<Option<Patch>>, AllocError>
    ensures { IfOk result (λ patches. ArePatches tier.now (is_filled (choice_of chosen) None) gaining
        touched.now patches.items) }
{
    let mut patches = Vec::new(alloc);
    let mut at = 0;
    for place in 0..tier.catalog.len() {
        let filled = is_filled_at(tier, chosen, place);
        let told = told_at(touched, at);
        let patch = patch_at(alloc, tier, place, filled, place == gaining, told)?;
        patches.push(patch)?;
        if filled {
            at += 1;
        }
    }
    Ok(patches)
}

// Whether the group at a place is chosen, and keeps rows.
fn is_filled_at(tier: &Tier, chosen: Chosen, place: usize) -> bool
    ensures { result ≡ is_chosen_in (is_filled (choice_of chosen) None) (groups_in tier.now.catalog) place }
{
    match tier.catalog.get(place) {
        None => false,
        Some(group) => keeps_rows(chosen, place, group),
    }
}

// What was told of the tree at a place.
fn told_at(touched: &[Seq<Touched>], at: usize) -> Option<&Seq<Touched>>
    ensures { option_copied result ≡ slice_get touched.now at }
{
    touched.get(at)
}

fn patch_at(
    alloc: Global,
    tier: &Tier,
    place: usize,
    filled: bool,
    gains: bool,
    told: Option<&Seq<Touched>>,
) -> Result<Option<Patch>, AllocError>
    ensures { IfOk result (IsPatchOf tier.now filled gains place (option_copied told.entry)) }
{
    match tier.catalog.get(place) {
        None => Err(AllocError),
        Some(group) => match tier.stores.get(place) {
            None => Err(AllocError),
            Some(store) => match tier.hidden.get(place) {
                None => Err(AllocError),
                Some(hidden) => {
                    if !filled {
                        return Ok(None);
                    }
                    match told {
                        None => Err(AllocError),
                        Some(told) => {
                            let patch = patch_for(
                                alloc,
                                &tier.schema,
                                group,
                                store,
                                hidden,
                                gains,
                                told.as_slice(),
                            )?;
                            Ok(Some(patch))
                        }
                    }
                }
            },
        },
    }
}

fn patch_for(
    alloc: Global,
    schema: &BackingSchema,
    group: &KeptGroup,
    store: &Store,
    hidden: &SlotRows,
    gains: bool,
    told: &[Touched],
) -> Result<Patch, AllocError>
    ensures { IfOk result
        (IsPatchFor schema.now (group_seen group.now) store.now hidden.now.table gains told.now) }
{
    store.keys_law();
    let cuts = cuts_of(alloc, group, store, hidden, gains, told)?;
    let turns = turns_of(alloc, group, store, hidden, gains, told)?;
    let count = count_both(cuts.as_slice(), turns.as_slice())?;
    match store.len(0).checked_add(count) {
        None => Err(AllocError),
        Some(roots) => {
            let hidden = none_hidden(alloc, schema, group, roots)?;
            Ok(Patch {
                cuts,
                turns,
                hidden,
            })
        }
    }
}

fn cuts_of(
    alloc: Global,
    group: &KeptGroup,
    store: &Store,
    hidden: &SlotRows,
    gains: bool,
    told: &[Touched],
) -> Result<Seq<Cut>, AllocError>
    ensures { IfOk result (AreCuts (group_seen group.now) store.now hidden.now.table gains told.now) }
{
    let mut cuts = Vec::with_capacity(alloc, told.len())?;
    for touched in told {
        let cut = cut_for(alloc, group, store, hidden, gains, touched)?;
        cuts.push(cut)?;
    }
    Ok(Seq::from_vec(cuts))
}

fn cut_for(
    alloc: Global,
    group: &KeptGroup,
    store: &Store,
    hidden: &SlotRows,
    gains: bool,
    touched: &Touched,
) -> Result<Cut, AllocError>
    ensures { IfOk result (IsCutFor (group_seen group.now) store.now hidden.now.table gains touched.now) }
{
    let root = touched.instance.root.copied(alloc)?;
    if !is_shown_told(group, store, hidden, gains, touched) {
        return Ok(Cut { root, bare: None });
    }
    let bare = bare_of(alloc, store.key(), &touched.instance)?;
    Ok(Cut { root, bare })
}

// The root row of an instance alone, where it has one.
fn bare_of(
    alloc: Global,
    columns: &[usize],
    instance: &Instance,
) -> Result<Option<Seq<Seq<Row>>>, AllocError>
    ensures bare { IfOk result (λ bare. bare
        ≡ bare_of (finite.get (kept_at instance.now.rows 0) instance.now.root)) }
    ensures under { IfOk result (λ bare. IsBareUnder columns.now instance.now.root bare) }
{
    match instance.rows.get(0) {
        None => Ok(None),
        Some(rows) => match rows.get(&instance.root) {
            None => Ok(None),
            Some(row) => {
                let bare = one_under(alloc, columns, &instance.root, row)?;
                Ok(Some(bare))
            }
        },
    }
}

// A row alone, where it stands under its key.
fn one_under(
    alloc: Global,
    columns: &[usize],
    root: &Key,
    row: &Row,
) -> Result<Seq<Seq<Row>>, AllocError>
    ensures bare { IfOk result (λ bare. Some bare ≡ bare_of (Some row.now)) }
    ensures under { IfOk result (IsOneUnder columns.now root.now) }
{
    let key = key_at(alloc, columns, row)?;
    if !key.same(root) {
        return Err(AllocError);
    }
    let mut rows = Vec::new(alloc);
    rows.push(row.copied(alloc)?)?;
    let mut tables = Vec::new(alloc);
    tables.push(Seq::from_vec(rows))?;
    Ok(Seq::from_vec(tables))
}

fn turns_of(
    alloc: Global,
    group: &KeptGroup,
    store: &Store,
    hidden: &SlotRows,
    gains: bool,
    told: &[Touched],
) -> Result<Seq<Turn>, AllocError>
    ensures { IfOk result (AreTurns (group_seen group.now) store.now hidden.now.table gains told.now) }
{
    let mut turns = Vec::with_capacity(alloc, told.len())?;
    for touched in told {
        let turn = turn_for(alloc, group, store, hidden, gains, touched)?;
        turns.push(turn)?;
    }
    Ok(Seq::from_vec(turns))
}

fn turn_for(
    alloc: Global,
    group: &KeptGroup,
    store: &Store,
    hidden: &SlotRows,
    gains: bool,
    touched: &Touched,
) -> Result<Turn, AllocError>
    ensures { IfOk result (IsTurnFor (group_seen group.now) store.now hidden.now.table gains touched.now) }
{
    if !is_shown_told(group, store, hidden, gains, touched) {
        return Ok(Turn { rows: None });
    }
    let tables = touched.instance.rows.as_slice();
    if !fits(&group.def.tree, tables) {
        return Err(AllocError);
    }
    let rows = listed(alloc, tables)?;
    Ok(Turn { rows: Some(rows) })
}

// Whether an instance that was told is shown then.
fn is_shown_told(
    group: &KeptGroup,
    store: &Store,
    hidden: &SlotRows,
    gains: bool,
    touched: &Touched,
) -> bool
    ensures { result ≡ is_shown_told (group_seen group.now) store.now hidden.now.table gains touched.now }
{
    (!group.def.dynamic
        || is_held(store, hidden, &touched.instance.root)
        || gains && touched.wanted)
        && is_past(group, &touched.instance)
}

// Whether a group has a key: a root row of its store, or a hidden one.
fn is_held(store: &Store, hidden: &SlotRows, key: &Key) -> bool
    ensures { result ≡ is_held store.now hidden.now.table key.now }
{
    store.get(0, key).is_some() || hidden.get(key.values()).is_some()
}

// Whether the instance has its root row, which is past the group's horizon.
fn is_past(group: &KeptGroup, instance: &Instance) -> bool
    ensures { result
        ≡ passes (exceeds (group_seen group.now)) (finite.get (kept_at instance.now.rows 0) instance.now.root) }
{
    match instance.rows.get(0) {
        None => false,
        Some(rows) => match rows.get(&instance.root) {
            None => false,
            Some(row) => exceeds(group, row),
        },
    }
}

// Whether there are no more tables than the tree has.
fn fits(tree: &Tree, tables: &[Rows]) -> bool
    ensures { IsTrue result → length tables.now ≤ length tree.now.children + 1 }
{
    match tables.split_first() {
        None => true,
        Some((_, others)) => others.len() <= tree.children.len(),
    }
}

// The rows of each of these tables, in key order.
fn listed(alloc: Global, tables: &[Rows]) -> Result<Seq<Seq<Row>>, AllocError>
    ensures { IfOk result (λ lists. lists ≡ map finite.values tables.now) }
{
    let mut lists = Vec::new(alloc);
    for rows in tables {
        let list = listed_rows(alloc, rows)?;
        lists.push(list)?;
    }
    Ok(Seq::from_vec(lists))
}

fn listed_rows(alloc: Global, rows: &Rows) -> Result<Seq<Row>, AllocError>
    ensures { IfOk result (λ list. list ≡ finite.values rows.now) }
{
    let mut list = Vec::with_capacity(alloc, rows.len())?;
    for place in 0..rows.len() {
        let row = rows.row_at(place).copied(alloc)?;
        list.push(row)?;
    }
    Ok(Seq::from_vec(list))
}

// How many rows come in, at first and then.
pub(crate) fn count_both(cuts: &[Cut], turns: &[Turn]) -> Result<usize, AllocError>
    ensures { IfOk result (λ count. count ≡ count_cuts cuts.now + count_turns turns.now) }
{
    let first = count_cuts(cuts)?;
    let then = count_turns(turns)?;
    match first.checked_add(then) {
        None => Err(AllocError),
        Some(count) => Ok(count),
    }
}

fn count_cuts(cuts: &[Cut]) -> Result<usize, AllocError>
    ensures { IfOk result (λ count. count ≡ count_cuts cuts.now) }
{
    let mut count = 0;
    for cut in cuts {
        count = count_more(count, &cut.bare)?;
    }
    Ok(count)
}

fn count_turns(turns: &[Turn]) -> Result<usize, AllocError>
    ensures { IfOk result (λ count. count ≡ count_turns turns.now) }
{
    let mut count = 0;
    for turn in turns {
        count = count_more(count, &turn.rows)?;
    }
    Ok(count)
}

fn count_more(count: usize, rows: &Option<Seq<Seq<Row>>>) -> Result<usize, AllocError>
    ensures { IfOk result (λ more. more ≡ count + count_shown rows.now) }
{
    match rows {
        None => Ok(count),
        Some(tables) => {
            let more = count_all(tables.as_slice())?;
            match count.checked_add(more) {
                None => Err(AllocError),
                Some(count) => Ok(count),
            }
        }
    }
}

fn count_all(tables: &[Seq<Row>]) -> Result<usize, AllocError>
    ensures { IfOk result (λ count. count ≡ count_all tables.now) }
{
    let mut count: usize = 0;
    for rows in tables {
        match count.checked_add(rows.len()) {
            None => return Err(AllocError),
            Some(more) => count = more,
        }
    }
    Ok(count)
}
