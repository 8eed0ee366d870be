//! The rows that come back: READONLY groups at one position, and then writethrough ones.

ghost use Rattle.std.specs.Prelude.{◌≡◌, [], true};
ghost use Rattle.std.specs.List.{list_any};
ghost use Rattle.group_catalog.specs.Catalogs.{groups_in};
ghost use Rattle.group_engine.specs.Fresh.{IsCalled};
ghost use Rattle.propagators.specs.Certainty.{KeepsCertain};
ghost use Rattle.recovery.specs.Reopening.{HoldAgain, Reloads, ViewsAgain};
ghost use Rattle.stored_tier.specs.Performing.{Performs};
ghost use Rattle.stored_tier.specs.Refreshing.{end_of, is_shown_again};
ghost use Rattle.stored_tier.specs.Stored.{IsSound};
ghost use Rattle.reopening.specs.Building.{HoldsNothing};
ghost use Rattle.reopening.specs.Reloading.{IsQuiet};

use crate::holding::hold_if_wanted;
use group_catalog::Catalog;
use group_engine::fresh::{read_fresh, show_fresh};
use outside::{BankError, Site};
use std::alloc::Global;
use stored_tier::refreshing::{Chosen, is_shown_again};
use stored_tier::tier::Tier;

// Explicit groups whose flag is set show their rows again: READONLY ones their views at one position, and writethrough
// ones all their instances.
//
// It is `Failed` where a call failed, and `Memory` where memory was wanting.
pub(crate) fn reload<P: Site>(tier: &mut Tier, alloc: Global, site: &mut P) -> Result<(), BankError>
    requires sound { IsSound tier.old }
    requires settled { tier.old.unsettled.items ≡ [] }
    requires bare { HoldsNothing tier.old }
    ensures performs { Performs tier.old tier.new
        (P.Disk.state site.old)
        (P.Disk.state site.new)
        (λ w w'. Reloads w w' (end_of result)) }
    ensures sound { IsSound tier.new }
    ensures called { IsCalled
        (P.Disk.state site.old)
        (P.Disk.state site.new)
        result }
    ensures certain { KeepsCertain P.Disk.state P.Disk.possible site.old site.new }
{
    match view_again(tier, alloc, site) {
        Err(error) => Err(error),
        Ok(()) => hold_again(tier, alloc, site),
    }
}

// READONLY groups whose flag is set show their views, of one snapshot.
fn view_again<P: Site>(tier: &mut Tier, alloc: Global, site: &mut P) -> Result<(), BankError>
    requires sound { IsSound tier.old }
    requires settled { tier.old.unsettled.items ≡ [] }
    requires bare { HoldsNothing tier.old }
    ensures performs { Performs tier.old tier.new
        (P.Disk.state site.old)
        (P.Disk.state site.new)
        (λ w w'. ViewsAgain w w' (end_of result)) }
    ensures sound { IsSound tier.new }
    ensures quiet { IsQuiet tier.old tier.new }
    ensures called { IsCalled
        (P.Disk.state site.old)
        (P.Disk.state site.new)
        result }
    ensures certain { KeepsCertain P.Disk.state P.Disk.possible site.old site.new }
{
    if !is_some_viewed(&tier.catalog) {
        return Ok(());
    }
    show_again(tier, alloc, site)
}

// The same where there is such a group.
fn show_again<P: Site>(tier: &mut Tier, alloc: Global, site: &mut P) -> Result<(), BankError>
    requires sound { IsSound tier.old }
    requires settled { tier.old.unsettled.items ≡ [] }
    requires bare { HoldsNothing tier.old }
    requires some { list_any is_shown_again (groups_in tier.old.catalog) ≡ true }
    ensures performs { Performs tier.old tier.new
        (P.Disk.state site.old)
        (P.Disk.state site.new)
        (λ w w'. ViewsAgain w w' (end_of result)) }
    ensures sound { IsSound tier.new }
    ensures quiet { IsQuiet tier.old tier.new }
    ensures called { IsCalled
        (P.Disk.state site.old)
        (P.Disk.state site.new)
        result }
    ensures certain { KeepsCertain P.Disk.state P.Disk.possible site.old site.new }
{
    match read_fresh(tier, alloc, site, Chosen::Reloaded, None) {
        Err(error) => Err(error),
        Ok(fresh) => {
            show_fresh(tier, Chosen::Reloaded, fresh);
            Ok(())
        }
    }
}

// Whether a READONLY group's rows come back.
fn is_some_viewed(catalog: &Catalog) -> bool
    ensures { result ≡ list_any is_shown_again (groups_in catalog.now) }
{
    for place in 0..catalog.len() {
        match catalog.get(place) {
            None => {}
            Some(group) => {
                if is_shown_again(group) {
                    return true;
                }
            }
        }
    }
    false
}

// Writethrough groups whose flag is set hold all their instances, one group after the other.
fn hold_again<P: Site>(tier: &mut Tier, alloc: Global, site: &mut P) -> Result<(), BankError>
    requires sound { IsSound tier.old }
    requires settled { tier.old.unsettled.items ≡ [] }
    ensures performs { Performs tier.old tier.new
        (P.Disk.state site.old)
        (P.Disk.state site.new)
        (λ w w'. HoldAgain 0 w.tier.groups w w' (end_of result)) }
    ensures sound { IsSound tier.new }
    ensures called { IsCalled
        (P.Disk.state site.old)
        (P.Disk.state site.new)
        result }
    ensures certain { KeepsCertain P.Disk.state P.Disk.possible site.old site.new }
{
    for place in 0..tier.catalog.len() {
        match hold_if_wanted(tier, alloc, site, place) {
            Err(error) => return Err(error),
            Ok(()) => {}
        }
    }
    Ok(())
}
