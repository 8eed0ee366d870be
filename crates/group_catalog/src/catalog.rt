//! The groups that there are.

ghost use Rattle.std.specs.Prelude.{◌≡◌, ◌&&◌, ◌<◌, ◌==◌, ◌++◌, ◌∷◌, [], Some, OnErr, OnOk, length, not, option_copied, position, remove};
ghost use Rattle.std.specs.List.{list_any};
ghost use Rattle.std.specs.Option.{option_map};
ghost use Rattle.cache_tier.specs.Groups.{defines_name, is_defined_on, is_read_only, is_synchronous};
ghost use Rattle.group_catalog.specs.Kept.{group_seen};

use crate::kept::KeptGroup;
use sql_subset::stmt::{GroupKind, RefreshState};
use std::alloc::{AllocError, Global};
use tier_base::{Moment, Name, Position, TableId};

/// The groups that there are, in the order of their definitions. Clauses see them by `groups_in`: as the abstract
/// tier's groups, without the keys of their lists.
pub struct Catalog {
    pub(crate) groups: Vec<KeptGroup>,
}

impl Drop for Catalog {
    fn drop(self) {
        let Self { groups: _ } = self;
    }
}

impl Catalog {
    ghost use Rattle.cache_tier.specs.Groups.{definitions_of, group_at, is_table_of, is_writethrough, place_called, place_over};
    ghost use Rattle.cache_tier.specs.Sets.{alone, changed_from};
    ghost use Rattle.group_catalog.specs.Catalogs.{groups_in};
    ghost use Rattle.std.specs.Prelude.{slice_get};

    /// No group. It takes no memory.
    pub fn new(alloc: Global) -> Catalog
        ensures { groups_in result ≡ [] }
    {
        Catalog {
            groups: Vec::new(alloc),
        }
    }

    /// How many groups there are.
    pub fn len(&self) -> usize
        ensures { result ≡ length (groups_in self.now) }
    {
        self.groups.len()
    }

    /// Whether there is none.
    pub fn is_empty(&self) -> bool
        ensures { result ≡ (length (groups_in self.now) == 0) }
    {
        self.groups.is_empty()
    }

    /// The group at a place, from 0; none past the last.
    pub fn get(&self, place: usize) -> Option<&KeptGroup>
        ensures { option_map group_seen (option_copied result) ≡ slice_get (groups_in self.now) place }
    {
        self.groups.get(place)
    }

    /// The place of the group of this name.
    pub fn find(&self, name: &Name) -> Option<usize>
        ensures { result ≡ place_called (groups_in self.now) name.now }
    {
        place_named(self.groups.as_slice(), name)
    }

    /// The group of this name.
    pub fn named(&self, name: &Name) -> Option<&KeptGroup>
        ensures { option_map group_seen (option_copied result)
            ≡ group_at (groups_in self.now) (place_called (groups_in self.now) name.now) }
    {
        match self.find(name) {
            None => None,
            Some(place) => self.get(place),
        }
    }

    /// The place of the group that has this table.
    pub fn over(&self, table: TableId) -> Option<usize>
        ensures { result ≡ place_over (groups_in self.now) table }
    {
        place_covering(self.groups.as_slice(), table)
    }

    /// Whether a group has this name.
    pub fn has_name(&self, name: &Name) -> bool
        ensures { result ≡ list_any (defines_name name.now) (definitions_of (groups_in self.now)) }
    {
        some_named(self.groups.as_slice(), name)
    }

    /// Whether a group has this table.
    pub fn has_table(&self, table: TableId) -> bool
        ensures { result ≡ list_any (is_defined_on table) (definitions_of (groups_in self.now)) }
    {
        some_covering(self.groups.as_slice(), table)
    }

    /// Whether a writethrough group has this table: one that isn't READONLY.
    pub fn is_written_through(&self, table: TableId) -> bool
        ensures { result ≡ is_table_of is_writethrough (groups_in self.now) table }
    {
        some_written_through(self.groups.as_slice(), table)
    }

    /// Whether a READONLY group has this table.
    pub fn is_only_read(&self, table: TableId) -> bool
        ensures { result ≡ is_table_of is_read_only (groups_in self.now) table }
    {
        some_only_read(self.groups.as_slice(), table)
    }

    /// Whether a SYNCHRONOUS WRITETHROUGH group has this table.
    pub fn is_synchronous(&self, table: TableId) -> bool
        ensures { result ≡ is_table_of is_synchronous (groups_in self.now) table }
    {
        some_synchronous(self.groups.as_slice(), table)
    }

    /// Puts a group behind the others. Where memory is wanting all stays.
    pub fn add(&mut self, group: KeptGroup) -> Result<(), AllocError>
        ensures ok { OnOk result (groups_in self.new ≡ groups_in self.old ++ group_seen group ∷ []) }
        ensures err { OnErr result (groups_in self.new ≡ groups_in self.old) }
    {
        self.groups.push(group)?;
        Ok(())
    }

    /// Takes the group at a place out; those behind it move up. It takes no memory.
    pub fn drop_group(&mut self, place: usize)
        requires { place < length (groups_in self.old) }
        ensures { groups_in self.new ≡ remove (groups_in self.old) place }
    {
        let _ = self.groups.remove(place);
    }

    /// Gives the group at a place another STATE.
    pub fn with_state(&mut self, place: usize, state: RefreshState)
        requires { place < length (groups_in self.old) }
        ensures { groups_in self.new
            ≡ changed_from (alone place) (λ g. record g { state = state }) 0 (groups_in self.old) }
    {
        let group = &mut self.groups[place];
        group.state = state;
    }

    /// Sets or clears the loaded flag of the group at a place.
    pub fn with_loaded(&mut self, place: usize, loaded: bool)
        requires { place < length (groups_in self.old) }
        ensures { groups_in self.new
            ≡ changed_from (alone place) (λ g. record g { loaded = loaded }) 0 (groups_in self.old) }
    {
        let group = &mut self.groups[place];
        group.loaded = loaded;
    }

    /// Gives the group at a place a position in the backing history.
    pub fn with_position(&mut self, place: usize, position: Position)
        requires { place < length (groups_in self.old) }
        ensures { groups_in self.new
            ≡ changed_from (alone place) (λ g. record g { position = Some position.0 }) 0 (groups_in self.old) }
    {
        let group = &mut self.groups[place];
        group.position = Some(position);
    }

    /// Gives the group at a place another horizon, in seconds since 1970.
    pub fn with_horizon(&mut self, place: usize, horizon: Option<i128>)
        requires { place < length (groups_in self.old) }
        ensures { groups_in self.new
            ≡ changed_from (alone place) (λ g. record g { horizon = horizon }) 0 (groups_in self.old) }
    {
        let group = &mut self.groups[place];
        group.horizon = horizon;
    }

    /// Notes the moment of the last aging cycle of the group at a place.
    pub fn with_aged(&mut self, place: usize, moment: Moment)
        requires { place < length (groups_in self.old) }
        ensures { groups_in self.new
            ≡ changed_from (alone place) (λ g. record g { aged = moment.0 }) 0 (groups_in self.old) }
    {
        let group = &mut self.groups[place];
        group.aged = moment;
    }
}

fn place_named(groups: &[KeptGroup], name: &Name) -> Option<usize>
    ensures { result ≡ position (λ g. defines_name name.now g.def) groups.now }
{
    groups.iter().position(|group| is_called(group, name))
}

fn place_covering(groups: &[KeptGroup], table: TableId) -> Option<usize>
    ensures { result ≡ position (λ g. is_defined_on table g.def) groups.now }
{
    groups.iter().position(|group| covers(group, table))
}

fn some_named(groups: &[KeptGroup], name: &Name) -> bool
    ensures { result ≡ list_any (λ g. defines_name name.now g.def) groups.now }
{
    groups.iter().any(|group| is_called(group, name))
}

fn some_covering(groups: &[KeptGroup], table: TableId) -> bool
    ensures { result ≡ list_any (λ g. is_defined_on table g.def) groups.now }
{
    groups.iter().any(|group| covers(group, table))
}

fn some_written_through(groups: &[KeptGroup], table: TableId) -> bool
    ensures { result ≡ list_any (λ g. not (is_read_only (group_seen g)) && is_defined_on table g.def) groups.now }
{
    groups
        .iter()
        .any(|group| !is_read_only(group) && covers(group, table))
}

fn some_only_read(groups: &[KeptGroup], table: TableId) -> bool
    ensures { result ≡ list_any (λ g. is_read_only (group_seen g) && is_defined_on table g.def) groups.now }
{
    groups
        .iter()
        .any(|group| is_read_only(group) && covers(group, table))
}

fn some_synchronous(groups: &[KeptGroup], table: TableId) -> bool
    ensures { result ≡ list_any (λ g. is_synchronous (group_seen g) && is_defined_on table g.def) groups.now }
{
    groups
        .iter()
        .any(|group| is_synchronous(group) && covers(group, table))
}

fn is_called(group: &KeptGroup, name: &Name) -> bool
    ensures { result ≡ defines_name name.now group.now.def }
{
    group.def.name.as_bytes() == name.as_bytes()
}

fn covers(group: &KeptGroup, table: TableId) -> bool
    ensures { result ≡ is_defined_on table group.now.def }
{
    group.def.tree.place_of(table).is_some()
}

fn is_read_only(group: &KeptGroup) -> bool
    ensures { result ≡ is_read_only (group_seen group.now) }
{
    match group.def.kind {
        GroupKind::ReadOnly => true,
        _ => false,
    }
}

fn is_synchronous(group: &KeptGroup) -> bool
    ensures { result ≡ is_synchronous (group_seen group.now) }
{
    match group.def.kind {
        GroupKind::SynchronousWritethrough => true,
        _ => false,
    }
}
