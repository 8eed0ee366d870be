//! Room for what comes in.

ghost use Rattle.std.specs.Prelude.{◌≡◌, ◌<◌, ◌≤◌, None, OnOk, length, slice_get};
ghost use Rattle.std.specs.Option.{option_copied};
ghost use Rattle.group_store.specs.Stores.{SameButSpare};
ghost use Rattle.changed_sets.specs.Reading.{HasRoomAt, HaveRoom};
ghost use Rattle.changed_sets.specs.Showing.{Pairs, PatchedAt};

use crate::preparing::count_both;
use crate::turns::Patch;
use group_store::Store;
use std::alloc::{AllocError, Global};

/// Makes room in the stores for what comes in. It fails for want of memory alone.
pub(crate) fn make_room(
    alloc: Global,
    stores: &mut Vec<Store>,
    patches: &[Option<Patch>],
) -> Result<(), AllocError>
    ensures same { Pairs SameButSpare stores.old.items stores.new.items }
    ensures room { OnOk result (HaveRoom patches.now stores.new.items) }
{
    for place in 0..stores.len() {
        room_at(alloc, stores, place, patches)?;
    }
    Ok(())
}

fn room_at(
    alloc: Global,
    stores: &mut Vec<Store>,
    place: usize,
    patches: &[Option<Patch>],
) -> Result<(), AllocError>
    requires { place < length stores.old.items }
    ensures same { PatchedAt (λ o. SameButSpare) place None stores.old.items stores.new.items }
    ensures room { OnOk result (HasRoomAt place patches.now stores.new.items) }
{
    match patch_of(patches, place) {
        None => Ok(()),
        Some(patch) => match patch {
            None => Ok(()),
            Some(patch) => {
                let count = count_both(patch.cuts.as_slice(), patch.turns.as_slice())?;
                stores[place].reserve(alloc, count)
            }
        },
    }
}

fn patch_of(patches: &[Option<Patch>], place: usize) -> Option<&Option<Patch>>
    ensures { option_copied result ≡ slice_get patches.now place }
{
    patches.get(place)
}
