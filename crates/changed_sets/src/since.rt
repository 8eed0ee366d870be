//! Which sets are refreshed by what changed.

ghost use Rattle.std.specs.Prelude.{◌≡◌, ◌&&◌, ◌||◌, IfSome, Some, not};
ghost use Rattle.instances.specs.Trees.{is_place};
ghost use Rattle.std.specs.Option.{option_map};
ghost use Rattle.outside.specs.Calls.{OnlyLooks};
ghost use Rattle.tier_base.specs.declared.number.Position.{Position as OnePosition};
ghost use Rattle.cache_tier.specs.Sets.{is_in_set};
ghost use Rattle.group_catalog.specs.Catalogs.{groups_in};
ghost use Rattle.group_catalog.specs.Kept.{group_seen};
ghost use Rattle.stored_tier.specs.Refreshing.{choice_of, is_filled};
ghost use Rattle.changed_sets.specs.Since.{are_ready_since, asked_since, first_position, goes_by_changes, is_full, is_ready_since, since_where};

use group_catalog::{Catalog, KeptGroup};
use outside::Site;
use sql_subset::stmt::RefreshMode;
use stored_tier::filling::is_by_use;
use stored_tier::refreshing::{Chosen, is_on, is_read_only, is_shown_again};
use tier_base::Position;

/// The position since which the chosen groups are refreshed by what changed: that of those that keep rows, where each
/// of them has it, and STATE ON. There is none where none of the chosen groups keeps rows, and where one isn't
/// READONLY, has MODE FULL, or is explicit and its instances leave by last use; then they are read whole.
pub fn asked_since(catalog: &Catalog, chosen: Chosen) -> Option<Position>
    ensures { option_map (λ (p : OnePosition). p.0) result ≡ asked_since (choice_of chosen) (groups_in catalog.now) }
{
    match first_position(catalog, chosen) {
        None => None,
        Some(since) => {
            if are_ready_since(catalog, chosen, since) {
                Some(since)
            } else {
                None
            }
        }
    }
}

/// The position since which the chosen groups are refreshed by what changed, where they have one and the bank tells
/// what changed since. Nothing that is known of the site changes.
pub fn told_since<P: Site>(catalog: &Catalog, site: &mut P, chosen: Chosen) -> Option<Position>
    ensures since { IfSome result (λ since.
        asked_since (choice_of chosen) (groups_in catalog.now) ≡ Some since.0) }
    ensures looks { OnlyLooks P.Disk.state P.Disk.possible site.old site.new }
{
    match asked_since(catalog, chosen) {
        None => None,
        Some(since) => {
            if site.tells_since(since) {
                Some(since)
            } else {
                None
            }
        }
    }
}

// The position of the first chosen group that keeps rows.
fn first_position(catalog: &Catalog, chosen: Chosen) -> Option<Position>
    ensures { option_map (λ (p : OnePosition). p.0) result
        ≡ first_position (is_filled (choice_of chosen) None) 0 (groups_in catalog.now) }
{
    for place in 0..catalog.len() {
        match catalog.get(place) {
            None => {}
            Some(group) => {
                if keeps_rows(chosen, place, group) {
                    return group.position;
                }
            }
        }
    }
    None
}

fn are_ready_since(catalog: &Catalog, chosen: Chosen, since: Position) -> bool
    ensures { result ≡ are_ready_since (choice_of chosen) since.0 0 (groups_in catalog.now) }
{
    for place in 0..catalog.len() {
        match catalog.get(place) {
            None => {}
            Some(group) => {
                if !is_ready_since(chosen, since, place, group) {
                    return false;
                }
            }
        }
    }
    true
}

// Whether the group at a place doesn't stand in the way of a refresh by what changed since a position.
fn is_ready_since(chosen: Chosen, since: Position, place: usize, group: &KeptGroup) -> bool
    ensures { result ≡ is_ready_since (choice_of chosen) since.0 place (group_seen group.now) }
{
    !is_chosen(chosen, place, group)
        || goes_by_changes(group)
            && (!(group.def.dynamic || group.loaded) || is_on(group.state) && is_at(since, group))
}

fn goes_by_changes(group: &KeptGroup) -> bool
    ensures { result ≡ goes_by_changes (group_seen group.now) }
{
    is_read_only(group)
        && !is_full(group.def.mode)
        && (group.def.dynamic || !is_by_use(&group.def.aging))
}

fn is_full(mode: RefreshMode) -> bool
    ensures { result ≡ is_full mode }
{
    match mode {
        RefreshMode::Full => true,
        _ => false,
    }
}

fn is_at(since: Position, group: &KeptGroup) -> bool
    ensures { result ≡ is_place since.0 (option_map (λ (p : OnePosition). p.0) group.now.position) }
{
    match group.position {
        None => false,
        Some(position) => position.0 == since.0,
    }
}

// Whether the group at a place is chosen.
fn is_chosen(chosen: Chosen, place: usize, group: &KeptGroup) -> bool
    ensures { result ≡ choice_of chosen place (group_seen group.now) }
{
    match chosen {
        Chosen::Joined(interval, joining) => {
            is_in_set(interval, group) || is_place(place, joining)
        }
        Chosen::OneAlone(other) => place == other,
        Chosen::Reloaded => is_shown_again(group),
    }
}

// Whether the group is in the set of an interval.
fn is_in_set(interval: u64, group: &KeptGroup) -> bool
    ensures { result ≡ is_in_set interval (group_seen group.now) }
{
    is_read_only(group) && group.def.interval == interval && is_on(group.state)
}

fn is_place(place: usize, other: Option<usize>) -> bool
    ensures { result ≡ is_place place other }
{
    match other {
        None => false,
        Some(other) => other == place,
    }
}

/// The least position that a set may still ask from, where one asks from this one: that of a READONLY group whose STATE
/// is ON. One whose STATE is another is read whole when it comes to a set.
pub(crate) fn least_asked(catalog: &Catalog, since: Position) -> Position {
    let mut least = since;
    for place in 0..catalog.len() {
        match catalog.get(place) {
            None => {}
            Some(group) => {
                if is_read_only(group) && is_on(group.state) {
                    least = earlier(least, group.position);
                }
            }
        }
    }
    least
}

fn earlier(least: Position, position: Option<Position>) -> Position {
    match position {
        None => least,
        Some(position) => Position(least.0.min(position.0)),
    }
}

// Whether the group at a place is chosen, and keeps rows: it is dynamic, or loaded.
pub(crate) fn keeps_rows(chosen: Chosen, place: usize, group: &KeptGroup) -> bool
    ensures { result ≡ is_filled (choice_of chosen) None place (group_seen group.now) }
{
    is_chosen(chosen, place, group) && (group.def.dynamic || group.loaded)
}
