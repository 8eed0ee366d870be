//! A writethrough group that holds all its instances again.

ghost use Rattle.std.specs.Prelude.{◌≡◌, Some, [], slice_get, true};
ghost use Rattle.cache_tier.specs.Groups.{Group};
ghost use Rattle.group_catalog.specs.Catalogs.{groups_in};
ghost use Rattle.group_catalog.specs.Kept.{group_seen};
ghost use Rattle.group_engine.specs.Fresh.{IsCalled};
ghost use Rattle.propagators.specs.Certainty.{KeepsCertain};
ghost use Rattle.recovery.specs.Reopening.{HoldsAgainAt, is_held_again};
ghost use Rattle.stored_tier.specs.Performing.{Performs};
ghost use Rattle.stored_tier.specs.Refreshing.{end_of};
ghost use Rattle.stored_tier.specs.Stored.{IsSound};
ghost use Rattle.reopening.specs.Reloading.{HoldsIfWanted, IsQuiet, is_held_at};

use group_catalog::{Catalog, KeptGroup, ResolvedWhich};
use group_engine::loading_written::{tables_of_tree, take_matching};
use outside::{BankError, Site};
use std::alloc::Global;
use stored_tier::refreshing::{is_read_only, is_reloaded};
use stored_tier::tier::Tier;

// The group at a place holds all its instances again, where it is a writethrough one that is explicit and whose flag is
// set.
//
// It is `Failed` where the call failed, and `Memory` where memory was wanting.
pub(crate) fn hold_if_wanted<P: Site>(
    tier: &mut Tier,
    alloc: Global,
    site: &mut P,
    place: usize,
) -> Result<(), BankError>
    requires sound { IsSound tier.old }
    requires settled { tier.old.unsettled.items ≡ [] }
    ensures performs { Performs tier.old tier.new
        (P.Disk.state site.old)
        (P.Disk.state site.new)
        (λ w w'. HoldsIfWanted place w w' (end_of result)) }
    ensures sound { IsSound tier.new }
    ensures quiet { IsQuiet tier.old tier.new }
    ensures called { IsCalled
        (P.Disk.state site.old)
        (P.Disk.state site.new)
        result }
    ensures certain { KeepsCertain P.Disk.state P.Disk.possible site.old site.new }
{
    if !is_wanted(&tier.catalog, place) {
        return Ok(());
    }
    hold_all(tier, alloc, site, place)
}

// Whether the group at a place is to hold all its instances again.
fn is_wanted(catalog: &Catalog, place: usize) -> bool
    ensures { result ≡ is_held_at (slice_get (groups_in catalog.now) place) }
{
    match catalog.get(place) {
        None => false,
        Some(group) => is_held_again(group),
    }
}

// Whether a group is a writethrough one that is explicit, and its flag is set.
fn is_held_again(group: &KeptGroup) -> bool
    ensures { result ≡ is_held_again (group_seen group.now) }
{
    !is_read_only(group) && is_reloaded(group)
}

// The group at a place holds all its instances, of one snapshot.
fn hold_all<P: Site>(
    tier: &mut Tier,
    alloc: Global,
    site: &mut P,
    place: usize,
) -> Result<(), BankError>
    requires sound { IsSound tier.old }
    requires settled { tier.old.unsettled.items ≡ [] }
    ensures performs { (seen : Group) → slice_get (groups_in tier.old.catalog) place ≡ Some seen
        → is_held_again seen ≡ true
        → Performs tier.old tier.new
        (P.Disk.state site.old)
        (P.Disk.state site.new)
        (λ w w'. HoldsAgainAt place w w' (end_of result)) }
    ensures sound { IsSound tier.new }
    ensures quiet { IsQuiet tier.old tier.new }
    ensures called { IsCalled
        (P.Disk.state site.old)
        (P.Disk.state site.new)
        result }
    ensures certain { KeepsCertain P.Disk.state P.Disk.possible site.old site.new }
{
    let all = ResolvedWhich {
        filter: None,
        id: None,
    };
    match tables_of_tree(tier, alloc, place) {
        Err(_) => Err(BankError::Memory),
        Ok(asked) => match site.snapshot(asked.as_slice()) {
            Err(error) => Err(error),
            Ok(snapshot) => match take_matching(tier, alloc, place, &all, false, &snapshot.tables) {
                Err(refused) => {
                    let _ = refused;
                    Err(BankError::Memory)
                }
                Ok(reply) => {
                    let _ = reply;
                    Ok(())
                }
            },
        },
    }
}
