//! Stores of groups that are refreshed, where a dynamic one gains instances.

ghost use Rattle.std.specs.Prelude.{◌≡◌, ◌<◌, IfOk, OnOk, Some, length, not, slice_get, slice_set, if◌then◌else◌};
ghost use Rattle.std.specs.FinMap.{keys, values};
ghost use Rattle.std.specs.Option.{option_copied};
ghost use Rattle.instances.specs.Collecting.{added};
ghost use Rattle.group_catalog.specs.Kept.{group_seen};
ghost use Rattle.group_store.specs.Stores.{HasRootKeys, SameButSpare};
ghost use Rattle.stored_tier.specs.Choosing.{chosen};
ghost use Rattle.stored_tier.specs.Filling.{is_held, touched_all};
ghost use Rattle.stored_tier.specs.Refreshing.{choice_of, is_filled};
ghost use Rattle.group_engine.specs.Gaining.{AreMadeGaining, IsGained, IsSameTier, TakesRoots, TellsOverflow, TouchesAt, TouchesMade, any_bad, gained_of, is_bad, is_judged, is_past_row, is_taken, overflows_past, rows_put, taken_in, widened};

use crate::aiming::Aim;
use group_catalog::{KeptGroup, ResolvedWhich};
use group_store::Store;
use indexed_rows::Rows;
use instances::selects;
use row_types::{Key, Row};
use slot_rows::SlotRows;
use std::alloc::{AllocError, Global};
use std::mem;
use stored_tier::filling::exceeds;
use stored_tier::refreshing::{Chosen, Made, make_stores};
use stored_tier::tier::Tier;
use table_defs::copied_places;
use table_state::Tables;

/// What is made of groups that are refreshed, where one of them is loaded on demand.
pub(crate) struct Gained {
    // the stores of the groups that get one, with their hidden rows
    pub(crate) made: Vec<Option<Made>>,
    // how many instances came, or of those that are there match
    pub(crate) count: u64,
}

impl Drop for Gained {
    fn drop(self) {
        let Self { made: _, count: _ } = self;
    }
}

impl Gained {
    pub(crate) fn into_made(self) -> Vec<Option<Made>>
        ensures { result ≡ self.made }
    {
        let Self { made, count: _ } = self;
        made
    }
}

/// Whether the condition is 120 on a root row of these tables that it is judged on: of the view of the group at a
/// place, past its horizon, and for a refresh among its instances. It takes no memory.
pub(crate) fn overflows_at(
    tier: &Tier,
    place: usize,
    which: &ResolvedWhich,
    refreshes: bool,
    tables: &Tables,
) -> bool
    ensures { TellsOverflow tier.now place which.now refreshes tables.now result }
{
    match tier.catalog.get(place) {
        None => false,
        Some(group) => match store_at(tier, place) {
            None => false,
            Some(store) => match hidden_at(tier, place) {
                None => false,
                Some(hidden) => {
                    store.keys_law();
                    overflows_past(group, store, hidden, which, refreshes, tables)
                }
            },
        },
    }
}

// The store at a place.
pub(crate) fn store_at(tier: &Tier, place: usize) -> Option<&Store>
    ensures { option_copied result ≡ slice_get tier.now.stores.items place }
{
    tier.stores.get(place)
}

// The hidden root rows at a place.
pub(crate) fn hidden_at(tier: &Tier, place: usize) -> Option<&SlotRows>
    ensures { option_copied result ≡ slice_get tier.now.hidden.items place }
{
    tier.hidden.get(place)
}

fn overflows_past(
    group: &KeptGroup,
    store: &Store,
    hidden: &SlotRows,
    which: &ResolvedWhich,
    refreshes: bool,
    tables: &Tables,
) -> bool
    ensures { result ≡ overflows_past refreshes which.now (group_seen group.now) store.now hidden.now.table tables.now }
{
    match tables.table(group.def.tree.root.table) {
        None => false,
        Some(rows) => any_bad(rows, group, store, hidden, which, refreshes),
    }
}

fn any_bad(
    rows: &Rows,
    group: &KeptGroup,
    store: &Store,
    hidden: &SlotRows,
    which: &ResolvedWhich,
    refreshes: bool,
) -> bool
    ensures { result
        ≡ any_bad (is_bad refreshes which.now (group_seen group.now) store.now hidden.now.table) rows.now }
{
    for place in 0..rows.len() {
        let entry = rows.entry_at(place);
        if is_bad(group, store, hidden, which, refreshes, &entry.0, &entry.1) {
            return true;
        }
    }
    false
}

// Whether the condition is judged on a root row, and is 120.
fn is_bad(
    group: &KeptGroup,
    store: &Store,
    hidden: &SlotRows,
    which: &ResolvedWhich,
    refreshes: bool,
    key: &Key,
    row: &Row,
) -> bool
    ensures { result
        ≡ is_bad refreshes which.now (group_seen group.now) store.now hidden.now.table key.now row.now }
{
    is_judged(group, store, hidden, refreshes, key, row) && which.selects(row).is_none()
}

fn is_judged(
    group: &KeptGroup,
    store: &Store,
    hidden: &SlotRows,
    refreshes: bool,
    key: &Key,
    row: &Row,
) -> bool
    ensures { result ≡ is_judged refreshes (group_seen group.now) store.now hidden.now.table key.now row.now }
{
    is_past_row(group, row) && (!refreshes || is_held(store, hidden, key))
}

// Whether a root row is in the view, and past the horizon.
pub(crate) fn is_past_row(group: &KeptGroup, row: &Row) -> bool
    ensures { result ≡ is_past_row (group_seen group.now) row.now }
{
    selects(&group.def.tree.root.filter, row) && exceeds(group, row)
}

// Whether a group has a key: a root row of its store, or a hidden one.
pub(crate) fn is_held(store: &Store, hidden: &SlotRows, key: &Key) -> bool
    ensures { result ≡ is_held store.now hidden.now.table key.now }
{
    store.get(0, key).is_some() || hidden.get(key.values()).is_some()
}

// LOAD of the group at a place, or REFRESH: what is made of the chosen groups over these tables, and what the reply
// tells. It fails for want of memory alone.
pub(crate) fn gain_at(
    tier: &mut Tier,
    alloc: Global,
    aim: &Aim,
    refreshes: bool,
    chosen: Chosen,
    tables: &Tables,
) -> Result<Gained, AllocError>
    ensures same { IsSameTier tier.old tier.new }
    ensures gained { IfOk result (IsGained tier.old aim.now.place aim.now.which refreshes
        (is_filled (choice_of chosen) (Some aim.now.place)) tables.now) }
{
    let rows = taken_at(tier, alloc, aim.place, &aim.which, refreshes, tables)?;
    let count = rows.len() as u64;
    let gained = gained_of(alloc, refreshes, rows);
    let made = make_gaining(tier, alloc, chosen, aim.place, &gained, tables)?;
    Ok(Gained { made, count })
}

// LOAD gains what it takes, and REFRESH nothing.
fn gained_of(alloc: Global, refreshes: bool, rows: Rows) -> Rows
    ensures { result ≡ gained_of refreshes rows }
{
    if refreshes { Rows::new(alloc) } else { rows }
}

// The root rows that are taken for the group at a place.
fn taken_at(
    tier: &Tier,
    alloc: Global,
    place: usize,
    which: &ResolvedWhich,
    refreshes: bool,
    tables: &Tables,
) -> Result<Rows, AllocError>
    ensures { IfOk result (TakesRoots tier.now place which.now refreshes tables.now) }
{
    match tier.catalog.get(place) {
        None => Err(AllocError),
        Some(group) => match store_at(tier, place) {
            None => Err(AllocError),
            Some(store) => match hidden_at(tier, place) {
                None => Err(AllocError),
                Some(hidden) => taken_in(alloc, group, store, hidden, which, refreshes, tables),
            },
        },
    }
}

fn taken_in(
    alloc: Global,
    group: &KeptGroup,
    store: &Store,
    hidden: &SlotRows,
    which: &ResolvedWhich,
    refreshes: bool,
    tables: &Tables,
) -> Result<Rows, AllocError>
    ensures { IfOk result (λ rows. rows
        ≡ taken_in refreshes which.now (group_seen group.now) store.now hidden.now.table tables.now) }
{
    match tables.table(group.def.tree.root.table) {
        None => Ok(Rows::new(alloc)),
        Some(rows) => taken_among(alloc, rows, group, store, hidden, which, refreshes),
    }
}

fn taken_among(
    alloc: Global,
    rows: &Rows,
    group: &KeptGroup,
    store: &Store,
    hidden: &SlotRows,
    which: &ResolvedWhich,
    refreshes: bool,
) -> Result<Rows, AllocError>
    ensures { IfOk result (λ out. out
        ≡ chosen (is_taken refreshes which.now (group_seen group.now) store.now hidden.now.table) rows.now) }
{
    let mut out = Rows::new(alloc);
    for place in 0..rows.len() {
        let entry = rows.entry_at(place);
        if is_taken(group, store, hidden, which, refreshes, &entry.0, &entry.1) {
            add_copy(alloc, &mut out, &entry.0, &entry.1)?;
        }
    }
    Ok(out)
}

// Puts a copy of a row in where its key has none.
pub(crate) fn add_copy(
    alloc: Global,
    out: &mut Rows,
    key: &Key,
    row: &Row,
) -> Result<(), AllocError>
    ensures { OnOk result (out.new ≡ added out.old key.now row.now) }
{
    let key = key.copied(alloc)?;
    let row = row.copied(alloc)?;
    out.insert(key, row)?;
    Ok(())
}

// Whether a root row is taken.
fn is_taken(
    group: &KeptGroup,
    store: &Store,
    hidden: &SlotRows,
    which: &ResolvedWhich,
    refreshes: bool,
    key: &Key,
    row: &Row,
) -> bool
    ensures { result
        ≡ is_taken refreshes which.now (group_seen group.now) store.now hidden.now.table key.now row.now }
{
    is_past_row(group, row) && which.matches(row, key) && is_wanted(store, hidden, refreshes, key)
}

// For LOAD the group doesn't have the key, and for REFRESH it has it.
fn is_wanted(store: &Store, hidden: &SlotRows, refreshes: bool, key: &Key) -> bool
    ensures { result
        ≡ (if refreshes then is_held store.now hidden.now.table key.now
        else not (is_held store.now hidden.now.table key.now)) }
{
    let held = is_held(store, hidden, key);
    if refreshes { held } else { !held }
}

/// What is made of the chosen groups over these tables, where the group at a place gains the instances of these root
/// rows, which are used last, in key order. It fails for want of memory alone.
pub(crate) fn make_gaining(
    tier: &mut Tier,
    alloc: Global,
    chosen: Chosen,
    place: usize,
    gained: &Rows,
    tables: &Tables,
) -> Result<Vec<Option<Made>>, AllocError>
    ensures same { IsSameTier tier.old tier.new }
    ensures made { IfOk result (λ made. AreMadeGaining (is_filled (choice_of chosen) (Some place)) tier.old place
        gained.now tables.now made.items) }
{
    let wider = match hidden_at(tier, place) {
        None => return Err(AllocError),
        Some(hidden) => widened(alloc, hidden, gained)?,
    };
    // Where the hidden rows are looked at, these are beside them.
    let hidden = swap_hidden(&mut tier.hidden, place, wider);
    let result = make_stores(alloc, tier, chosen, Some(place), tables);
    let _ = swap_hidden(&mut tier.hidden, place, hidden);
    let mut made = result?;
    touch_at(&mut made, place, gained);
    Ok(made)
}

// Hidden rows come in the place of others.
fn swap_hidden(hidden: &mut Vec<SlotRows>, place: usize, rows: SlotRows) -> SlotRows
    requires { place < length hidden.old.items }
    ensures old { slice_get hidden.old.items place ≡ Some result }
    ensures new { hidden.new.items ≡ slice_set hidden.old.items place rows }
{
    mem::replace(&mut hidden[place], rows)
}

// A copy of hidden root rows with these beside them.
fn widened(alloc: Global, hidden: &SlotRows, gained: &Rows) -> Result<SlotRows, AllocError>
    ensures { IfOk result (λ wider. wider.table ≡ widened hidden.now gained.now) }
{
    let mut wider = copied_rows(alloc, hidden)?;
    put_roots(alloc, &mut wider, gained)?;
    Ok(wider)
}

// A copy of the rows of a table in slots.
fn copied_rows(alloc: Global, rows: &SlotRows) -> Result<SlotRows, AllocError>
    ensures table { IfOk result (λ copy. copy.table ≡ rows.now.table) }
    ensures places { IfOk result (λ copy. copy.places ≡ rows.now.places) }
{
    let places = copied_places(alloc, rows.places())?;
    let mut copy = SlotRows::new(alloc, places);
    for place in 0..rows.len() {
        match rows.row_at(place) {
            None => return Err(AllocError),
            Some(row) => {
                let row = row.copied(alloc)?;
                copy.insert(alloc, row)?;
            }
        }
    }
    Ok(copy)
}

// Puts rows in, each where its key has none.
fn put_roots(alloc: Global, out: &mut SlotRows, rows: &Rows) -> Result<(), AllocError>
    ensures { OnOk result (out.new.table ≡ rows_put out.old.places (values rows.now) out.old.table) }
{
    for place in 0..rows.len() {
        let row = rows.row_at(place).copied(alloc)?;
        out.insert(alloc, row)?;
    }
    Ok(())
}

// What was made at a place is used at these root keys, one after another. It takes no memory.
fn touch_at(made: &mut Vec<Option<Made>>, place: usize, gained: &Rows)
    ensures { TouchesAt place gained.now made.old.items made.new.items }
{
    if place < made.len() {
        touch_made(&mut made[place], gained);
    }
}

// What was made of a group is used at these root keys, one after another.
fn touch_made(made: &mut Option<Made>, gained: &Rows)
    ensures { TouchesMade gained.now made.old made.new }
{
    match made {
        None => {}
        Some(made) => touch_roots(&mut made.store, gained),
    }
}

// The root keys of these rows become the newest, one after another. It takes no memory.
fn touch_roots(store: &mut Store, rows: &Rows)
    ensures touched { SameButSpare (touched_all (keys rows.now) store.old) store.new }
    ensures keys { HasRootKeys store.new }
{
    for place in 0..rows.len() {
        store.touch(&rows.entry_at(place).0);
    }
    store.keys_law();
}
