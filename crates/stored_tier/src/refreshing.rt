//! A refresh of READONLY groups from one snapshot.

ghost use Rattle.std.specs.Prelude.{◌≡◌, ◌&&◌, ◌||◌, ◌++◌, ℕ, Some, IfOk, OnOk, count_by, nat_lt, slice_get, slice_set, true};
ghost use Rattle.std.specs.FinMap.{len};
ghost use Rattle.instances.specs.Views.{kept_at};
ghost use Rattle.group_store.specs.Stores.{HasRootKeys};
ghost use Rattle.cache_tier.specs.Commits.{tables_of};
ghost use Rattle.std.specs.Option.{option_copied, option_map};
ghost use Rattle.instances.specs.Trees.{is_place};
ghost use Rattle.cache_tier.specs.Groups.{Group as OneGroup, is_on, is_read_only};
ghost use Rattle.cache_tier.specs.Sets.{changed_from, has_something, holds_some, is_in_set, shows_something};
ghost use Rattle.cache_tier.specs.TierStates.{Tier as AbstractTier};
ghost use Rattle.group_catalog.specs.Catalogs.{groups_in};
ghost use Rattle.group_catalog.specs.Kept.{group_seen};
ghost use Rattle.stored_tier.specs.Stored.{IsSound, IsStoredAs};
ghost use Rattle.stored_tier.specs.declared.refreshing.Made.{Made as OneMade};
ghost use Rattle.stored_tier.specs.Refreshing.{AreMade, IsMade, IsMadeAnew, IsMadeAt, choice_of, exchanged, has_moment, is_chosen_in, is_filled, is_off, is_reloaded, is_shown_again, made_hidden, made_stores, moment_in, moments_with, positioned, put_at, tables_read};

use crate::filling::{none_hidden, store_anew};
use crate::moments::SetMoment;
use crate::tier::Tier;
use group_catalog::{Catalog, KeptGroup};
use group_store::Store;
use instances::Tree;
use slot_rows::SlotRows;
use sql_subset::stmt::{GroupKind, RefreshState};
use std::alloc::{AllocError, Global};
use table_defs::BackingSchema;
use table_state::Tables;
use tier_base::{Position, TableId};

/// Which READONLY groups are refreshed together.
#[derive(Clone, Copy, Debug, PartialEq, Eq)]
pub enum Chosen {
    /// The set of an interval in milliseconds, and the group at a place that joins it.
    Joined(u64, Option<usize>),
    /// The group at a place.
    OneAlone(usize),
    /// All that are explicit and whose flag is set, of which the rows come back when the tier is opened again.
    Reloaded,
}

// Whether the group at a place is one of them.
pub(crate) fn is_chosen(chosen: Chosen, place: usize, group: &KeptGroup) -> bool
    ensures { result ≡ choice_of chosen place (group_seen group.now) }
{
    match chosen {
        Chosen::Joined(interval, joining) => {
            is_in_set(interval, group) || is_place(place, joining)
        }
        Chosen::OneAlone(other) => place == other,
        Chosen::Reloaded => is_shown_again(group),
    }
}

/// Whether the group is READONLY, and its rows come back when the tier is opened again.
pub fn is_shown_again(group: &KeptGroup) -> bool
    ensures { result ≡ is_shown_again (group_seen group.now) }
{
    is_read_only(group) && is_reloaded(group)
}

/// Whether the group is explicit and its flag is set, so that its rows come back when the tier is opened again.
pub fn is_reloaded(group: &KeptGroup) -> bool
    ensures { result ≡ is_reloaded (group_seen group.now) }
{
    !group.def.dynamic && group.loaded
}

// Whether the group is in the set of an interval.
pub(crate) fn is_in_set(interval: u64, group: &KeptGroup) -> bool
    ensures { result ≡ is_in_set interval (group_seen group.now) }
{
    is_read_only(group) && group.def.interval == interval && is_on(group.state)
}

/// Whether the group is READONLY.
pub fn is_read_only(group: &KeptGroup) -> bool
    ensures { result ≡ is_read_only (group_seen group.now) }
{
    match group.def.kind {
        GroupKind::ReadOnly => true,
        _ => false,
    }
}

/// Whether a STATE is ON.
pub fn is_on(state: RefreshState) -> bool
    ensures { result ≡ is_on state }
{
    match state {
        RefreshState::On => true,
        _ => false,
    }
}

/// Whether a STATE is OFF.
pub fn is_off(state: RefreshState) -> bool
    ensures { result ≡ is_off state }
{
    match state {
        RefreshState::Off => true,
        _ => false,
    }
}

fn is_place(place: usize, other: Option<usize>) -> bool
    ensures { result ≡ is_place place other }
{
    match other {
        None => false,
        Some(other) => other == place,
    }
}

/// The tables of the chosen groups.
pub fn tables_read(
    alloc: Global,
    catalog: &Catalog,
    chosen: Chosen,
) -> Result<Vec<TableId>, AllocError>
    ensures { IfOk result (λ tables. tables.items ≡ tables_read (choice_of chosen) 0 (groups_in catalog.now)) }
{
    let mut tables = Vec::new(alloc);
    for place in 0..catalog.len() {
        match catalog.get(place) {
            None => {}
            Some(group) => {
                if is_chosen(chosen, place, group) {
                    push_tables(&mut tables, &group.def.tree)?;
                }
            }
        }
    }
    Ok(tables)
}

// Puts the tables of a tree behind others.
fn push_tables(tables: &mut Vec<TableId>, tree: &Tree) -> Result<(), AllocError>
    ensures { OnOk result (tables.new.items ≡ tables.old.items ++ tables_of tree.now) }
{
    tables.push(tree.root.table)?;
    for place in 0..tree.children.len() {
        match tree.children.get(place) {
            None => {}
            Some(child) => tables.push(child.table)?,
        }
    }
    Ok(())
}

/// What is made of a group for a refresh.
pub struct Made {
    /// Its store.
    pub store: Store,
    /// Its hidden root rows: none, with room for those of the store, where it hides some.
    pub hidden: SlotRows,
}

impl Drop for Made {
    fn drop(self) {
        let Self {
            store: _,
            hidden: _,
        } = self;
    }
}

impl Made {
    fn into_parts(self) -> (Store, SlotRows)
        ensures { result ≡ (self.store, self.hidden) }
    {
        let Self { store, hidden } = self;
        (store, hidden)
    }
}

/// What is made of the chosen groups that are dynamic, or loaded, or are so from now on, with the instances of these
/// tables that they show; nothing for the other groups. The stores are theirs, and these are their hidden root rows.
pub fn make_stores(
    alloc: Global,
    tier: &Tier,
    chosen: Chosen,
    loads: Option<usize>,
    tables: &Tables,
) -> Result<Vec<Option<Made>>, AllocError>
    ensures { IfOk result (λ made. AreMade (is_filled (choice_of chosen) loads) tier.now.schema tables.now
        (groups_in tier.now.catalog) tier.now.stores.items tier.now.hidden.items made.items) }
{
    let mut made = Vec::new(alloc);
    for place in 0..tier.catalog.len() {
        let one = make_at(alloc, tier, chosen, loads, place, tables)?;
        made.push(one)?;
    }
    Ok(made)
}

// The same of the group at a place.
fn make_at(
    alloc: Global,
    tier: &Tier,
    chosen: Chosen,
    loads: Option<usize>,
    place: usize,
    tables: &Tables,
) -> Result<Option<Made>, AllocError>
    ensures { IfOk result (IsMadeAt (is_filled (choice_of chosen) loads) tier.now tables.now place) }
{
    match tier.catalog.get(place) {
        None => Err(AllocError),
        Some(group) => match store_at(tier, place) {
            None => Err(AllocError),
            Some(store) => match hidden_at(tier, place) {
                None => Err(AllocError),
                Some(hidden) => {
                    let filled = is_filled(chosen, loads, place, group);
                    make_where(alloc, &tier.schema, group, filled, store, hidden, tables)
                }
            },
        },
    }
}

// Whether the group at a place is chosen, and is dynamic, or loaded, or is so from now on.
fn is_filled(chosen: Chosen, loads: Option<usize>, place: usize, group: &KeptGroup) -> bool
    ensures { result ≡ is_filled (choice_of chosen) loads place (group_seen group.now) }
{
    is_chosen(chosen, place, group) && (group.def.dynamic || group.loaded || is_place(place, loads))
}

fn make_where(
    alloc: Global,
    schema: &BackingSchema,
    group: &KeptGroup,
    filled: bool,
    store: &Store,
    hidden: &SlotRows,
    tables: &Tables,
) -> Result<Option<Made>, AllocError>
    ensures { IfOk result (IsMade filled schema.now tables.now (group_seen group.now) store.now hidden.now.table) }
{
    if !filled {
        return Ok(None);
    }
    let made = make_one(alloc, schema, group, store, hidden, tables)?;
    Ok(Some(made))
}

fn make_one(
    alloc: Global,
    schema: &BackingSchema,
    group: &KeptGroup,
    old: &Store,
    hidden: &SlotRows,
    tables: &Tables,
) -> Result<Made, AllocError>
    ensures { IfOk result (IsMadeAnew schema.now tables.now (group_seen group.now) old.now hidden.now.table) }
{
    old.keys_law();
    let store = store_anew(alloc, schema, group, old, hidden, tables)?;
    store.keys_law();
    let hidden = none_hidden(alloc, schema, group, store.len(0))?;
    Ok(Made { store, hidden })
}

/// The stores that were made come in the place of the old ones, and so do the hidden rows. It takes no memory.
pub fn exchange(stores: &mut Vec<Store>, hidden: &mut Vec<SlotRows>, made: Vec<Option<Made>>)
    ensures stores { stores.new.items ≡ exchanged stores.old.items (made_stores made.items) }
    ensures hidden { hidden.new.items ≡ exchanged hidden.old.items (made_hidden made.items) }
{
    let mut made = made;
    while let Some(one) = made.pop() {
        put_made(stores, hidden, made.len(), one);
    }
}

fn put_made(stores: &mut Vec<Store>, hidden: &mut Vec<SlotRows>, place: usize, made: Option<Made>)
    ensures stores { stores.new.items ≡ put_at place (option_map (λ (m : OneMade). m.store) made) stores.old.items }
    ensures hidden { hidden.new.items ≡ put_at place (option_map (λ (m : OneMade). m.hidden) made) hidden.old.items }
{
    match made {
        None => {}
        Some(made) => {
            let (store, rows) = made.into_parts();
            put_store(stores, place, store);
            put_hidden(hidden, place, rows);
        }
    }
}

fn put_store(stores: &mut Vec<Store>, place: usize, store: Store)
    ensures { stores.new.items ≡ slice_set stores.old.items place store }
{
    if place < stores.len() {
        stores[place] = store;
    }
}

fn put_hidden(hidden: &mut Vec<SlotRows>, place: usize, rows: SlotRows)
    ensures { hidden.new.items ≡ slice_set hidden.old.items place rows }
{
    if place < hidden.len() {
        hidden[place] = rows;
    }
}

/// The chosen groups get a position in the backing history. It takes no memory.
pub fn give_position(catalog: &mut Catalog, chosen: Chosen, position: Position)
    ensures { groups_in catalog.new
        ≡ changed_from (choice_of chosen) (positioned position.0) 0 (groups_in catalog.old) }
{
    for place in 0..catalog.len() {
        if is_chosen_at(catalog, chosen, place) {
            catalog.with_position(place, position);
        }
    }
}

// Whether the group at a place is chosen.
fn is_chosen_at(catalog: &Catalog, chosen: Chosen, place: usize) -> bool
    ensures { result ≡ is_chosen_in (choice_of chosen) (groups_in catalog.now) place }
{
    match catalog.get(place) {
        None => false,
        Some(group) => is_chosen(chosen, place, group),
    }
}

/// Makes an entry for the set of an interval, where there is none. It fails for want of memory alone.
pub fn make_moment(sets: &mut Vec<SetMoment>, interval: u64) -> Result<(), AllocError>
    ensures same { (i : ℕ) → moment_in sets.new.items i ≡ moment_in sets.old.items i }
    ensures kept { (i : ℕ) → has_moment sets.old.items i ≡ true → has_moment sets.new.items i ≡ true }
    ensures ok { OnOk result (has_moment sets.new.items interval ≡ true) }
{
    if has_moment(sets.as_slice(), interval) {
        return Ok(());
    }
    sets.push(SetMoment {
        interval,
        refreshed: 0,
    })?;
    Ok(())
}

fn has_moment(sets: &[SetMoment], interval: u64) -> bool
    ensures { result ≡ has_moment sets.now interval }
{
    sets.iter().any(|set| set.interval == interval)
}

/// Notes a refresh that was tried. It takes no memory.
pub fn note_moment(sets: &mut Vec<SetMoment>, interval: u64, now: u64)
    ensures { sets.new.items ≡ moments_with interval now sets.old.items }
{
    for place in 0..sets.len() {
        if sets[place].interval == interval {
            sets[place].refreshed = now;
        }
    }
}

/// Whether the set of an interval has something to show.
pub fn shows_something(tier: &Tier, interval: u64) -> bool
    requires { IsSound tier.now }
    ensures { (a : AbstractTier) → IsStoredAs tier.now a → result ≡ shows_something interval a.groups }
{
    for place in 0..tier.catalog.len() {
        if shows_in_set(tier, interval, place) {
            return true;
        }
    }
    false
}

// Whether the group at a place is in the set of an interval, and has something to show.
fn shows_in_set(tier: &Tier, interval: u64, place: usize) -> bool
    requires { IsSound tier.now }
    ensures { (a : AbstractTier) (g : OneGroup) → IsStoredAs tier.now a → slice_get a.groups place ≡ Some g
        → result ≡ (is_in_set interval g && has_something g) }
{
    match tier.catalog.get(place) {
        None => false,
        Some(group) => is_in_set(interval, group) && has_something(tier, place),
    }
}

/// Whether the group at a place has something to show: an explicit one is loaded, a dynamic one has a key in its list.
pub fn has_something(tier: &Tier, place: usize) -> bool
    requires { IsSound tier.now }
    ensures { (a : AbstractTier) (g : OneGroup) → IsStoredAs tier.now a → slice_get a.groups place ≡ Some g
        → result ≡ has_something g }
{
    match tier.catalog.get(place) {
        None => false,
        Some(group) => {
            if group.def.dynamic {
                holds_some(tier, place)
            } else {
                group.loaded
            }
        }
    }
}

// Whether the dynamic group at a place has a key in its list.
fn holds_some(tier: &Tier, place: usize) -> bool
    requires { IsSound tier.now }
    ensures { (a : AbstractTier) (g : OneGroup) → IsStoredAs tier.now a → slice_get a.groups place ≡ Some g
        → g.def.dynamic ≡ true → result ≡ holds_some g.keys }
{
    match store_at(tier, place) {
        None => false,
        Some(store) => match hidden_at(tier, place) {
            None => false,
            Some(hidden) => has_keys(store, hidden),
        },
    }
}

// Whether the store has an instance, or one is hidden.
fn has_keys(store: &Store, hidden: &SlotRows) -> bool
    ensures keys { HasRootKeys store.now }
    ensures some { result ≡ (nat_lt 0 (len (kept_at store.now.tables 0)) || nat_lt 0 (len hidden.now.table)) }
{
    store.keys_law();
    store.len(0) > 0 || hidden.len() > 0
}

// The store at a place.
fn store_at(tier: &Tier, place: usize) -> Option<&Store>
    ensures { option_copied result ≡ slice_get tier.now.stores.items place }
{
    tier.stores.get(place)
}

// The hidden root rows at a place.
fn hidden_at(tier: &Tier, place: usize) -> Option<&SlotRows>
    ensures { option_copied result ≡ slice_get tier.now.hidden.items place }
{
    tier.hidden.get(place)
}

/// How many groups the set of an interval has.
pub fn set_size(catalog: &Catalog, interval: u64) -> u64
    ensures { result ≡ count_by (is_in_set interval) (groups_in catalog.now) }
{
    let mut size = 0;
    for place in 0..catalog.len() {
        match catalog.get(place) {
            None => {}
            Some(group) => {
                if is_in_set(interval, group) {
                    size += 1;
                }
            }
        }
    }
    size
}
