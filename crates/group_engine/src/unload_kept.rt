//! Instances leave a group. Where sessions might read over the stored rows before, it is found out whether they still
//! may.

ghost use Rattle.std.specs.Prelude.{◌≡◌, IfOk, OnErr, slice_get, true};
ghost use Rattle.group_catalog.specs.Catalogs.{groups_in};
ghost use Rattle.stored_tier.specs.Grouping.{KeepsGroups};
ghost use Rattle.stored_tier.specs.Stored.{IsSound};
ghost use Rattle.group_engine.specs.Unloading.{IsClearedGroup, IsCutGroup};
ghost use Rattle.group_engine.specs.UnloadHidden.{IsCutHiding, hides_some};

use crate::aiming::Aim;
use crate::unload_hidden::cut_hiding;
use crate::unloading::{clear_group, cut_group};
use changed_sets::{confirm, kept_rows_law};
use std::alloc::{AllocError, Global};
use stored_tier::tier::Tier;

/// The instances of the group that match leave its store; how many. Where all of it is asked for, its flag is cleared.
pub(crate) fn cut_kept(
    tier: &mut Tier,
    alloc: Global,
    aim: &Aim,
    all: bool,
) -> Result<usize, AllocError>
    requires { IsSound tier.old }
    ensures ok { IfOk result (IsCutGroup tier.old tier.new aim.now all) }
    ensures err { OnErr result (KeepsGroups tier.old tier.new) }
{
    kept_rows_law();
    let known = tier.verified;
    match cut_group(tier, alloc, aim, all) {
        Err(error) => Err(error),
        Ok(count) => {
            if known {
                confirm(tier, alloc);
            }
            Ok(count)
        }
    }
}

/// All instances of the group at a place leave its store; how many. Its flag is cleared.
pub(crate) fn clear_kept(tier: &mut Tier, alloc: Global, place: usize) -> Result<usize, AllocError>
    requires { IsSound tier.old }
    ensures ok { IfOk result (IsClearedGroup tier.old tier.new place) }
    ensures err { OnErr result (KeepsGroups tier.old tier.new) }
{
    kept_rows_law();
    let known = tier.verified;
    match clear_group(tier, alloc, place) {
        Err(error) => Err(error),
        Ok(count) => {
            if known {
                confirm(tier, alloc);
            }
            Ok(count)
        }
    }
}

/// The instances that match leave the store of the group, which hides some, and the hidden root rows that do; how many
/// were shown.
pub(crate) fn hide_kept(tier: &mut Tier, alloc: Global, aim: &Aim) -> Result<usize, AllocError>
    requires sound { IsSound tier.old }
    requires hides { true ≡ hides_some (slice_get (groups_in tier.old.catalog) aim.now.place) }
    ensures ok { IfOk result (IsCutHiding tier.old tier.new aim.now) }
    ensures err { OnErr result (KeepsGroups tier.old tier.new) }
{
    kept_rows_law();
    let known = tier.verified;
    match cut_hiding(tier, alloc, aim) {
        Err(error) => Err(error),
        Ok(count) => {
            if known {
                confirm(tier, alloc);
            }
            Ok(count)
        }
    }
}
