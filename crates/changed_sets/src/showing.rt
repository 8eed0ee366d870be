//! What changed comes to be shown.

ghost use Rattle.std.specs.Prelude.{◌≡◌, ℕ, IsTrue, Some, slice_get, slice_set};
ghost use Rattle.group_catalog.specs.Catalogs.{groups_in};
ghost use Rattle.group_store.specs.Stores.{Kept};
ghost use Rattle.stored_tier.specs.Refreshing.{choice_of};
ghost use Rattle.stored_tier.specs.Stored.{IsSound, IsVerified};
ghost use Rattle.changed_sets.specs.Fitting.{ArePatchesFit};
ghost use Rattle.changed_sets.specs.Showing.{AreReady, HiddenBy, Patched, PatchedAt, ShowsPatches, TurnedBy};
ghost use Rattle.changed_sets.specs.Turning.{IsReadyFor};
ghost use Rattle.changed_sets.specs.declared.turns.Patch.{Patch as OnePatch};

use crate::turning::turn;
use crate::turns::Patch;
use aging_cycles::confirming::confirm;
use aging_cycles::laws::kept_rows_law;
use group_store::Store;
use slot_rows::SlotRows;
use std::alloc::Global;
use stored_tier::refreshing::{Chosen, give_position};
use stored_tier::tier::Tier;
use tier_base::Position;

/// What changed of the chosen groups.
pub struct Changed {
    // the position in the backing history
    pub(crate) position: Position,
    // what becomes of the groups that keep rows
    pub(crate) patches: Vec<Option<Patch>>,
    // whether it is known that the rows that come in fit their tables
    pub(crate) fit: bool,
}

impl Drop for Changed {
    fn drop(self) {
        let Self {
            position: _,
            patches: _,
            fit: _,
        } = self;
    }
}

impl Changed {
    fn into_parts(self) -> (Position, Vec<Option<Patch>>)
        ensures { result ≡ (self.position, self.patches) }
    {
        let Self {
            position,
            patches,
            fit: _,
        } = self;
        (position, patches)
    }
}

/// What changed is shown: told instances leave their stores, but for the root rows of those that are shown then, and
/// these have all their rows again; no root row is hidden, and the chosen groups are at the position.
///
/// Where sessions might read over the stored rows before, and it is known that those that come in fit, it is found out
/// behind it whether they still may. It takes no memory but for the judging of what sessions wrote; where that is
/// wanting each row is looked at before the next statement.
pub fn show_changed(tier: &mut Tier, alloc: Global, chosen: Chosen, changed: Changed)
    requires sound { IsSound tier.old }
    requires ready { AreReady tier.old changed.patches.items }
    requires fits { IsTrue changed.fit
        → ArePatchesFit tier.old.schema (groups_in tier.old.catalog) changed.patches.items }
    ensures shown { ShowsPatches tier.old tier.new (choice_of chosen) changed.position.0 changed.patches.items }
    ensures sound { IsSound tier.new }
{
    kept_rows_law();
    let known = is_known(tier, &changed);
    patch_tier(tier, chosen, changed);
    if known {
        confirm(tier, alloc);
    }
}

// Whether sessions may read over the stored rows, and it is known that those that come in fit.
fn is_known(tier: &Tier, changed: &Changed) -> bool
    requires { IsSound tier.now }
    ensures verified { IsTrue result → IsVerified tier.now }
    ensures fit { IsTrue result → IsTrue changed.now.fit }
{
    tier.verified && changed.fit
}

// The patches are done, and it is forgotten whether sessions may read over the stored rows.
fn patch_tier(tier: &mut Tier, chosen: Chosen, changed: Changed)
    requires sound { IsSound tier.old }
    requires ready { AreReady tier.old changed.patches.items }
    ensures shown { ShowsPatches tier.old tier.new (choice_of chosen) changed.position.0 changed.patches.items }
    ensures patched { Patched TurnedBy changed.patches.items tier.old.stores.items tier.new.stores.items }
    ensures sound { IsSound tier.new }
{
    let (position, patches) = changed.into_parts();
    patch_all(&mut tier.stores, &mut tier.hidden, patches);
    give_position(&mut tier.catalog, chosen, position);
    tier.verified = false;
}

fn patch_all(stores: &mut Vec<Store>, hidden: &mut Vec<SlotRows>, patches: Vec<Option<Patch>>)
    requires { (k : ℕ) (p : OnePatch) (s : Kept) → slice_get patches.items k ≡ Some (Some p)
        → slice_get stores.old.items k ≡ Some s → IsReadyFor s p }
    ensures stores { Patched TurnedBy patches.items stores.old.items stores.new.items }
    ensures hidden { Patched HiddenBy patches.items hidden.old.items hidden.new.items }
{
    let mut patches = patches;
    while let Some(patch) = patches.pop() {
        patch_at(stores, hidden, patches.len(), patch);
    }
}

fn patch_at(stores: &mut Vec<Store>, hidden: &mut Vec<SlotRows>, place: usize, patch: Option<Patch>)
    requires { (p : OnePatch) (s : Kept) → patch ≡ Some p → slice_get stores.old.items place ≡ Some s → IsReadyFor s p }
    ensures stores { PatchedAt TurnedBy place patch stores.old.items stores.new.items }
    ensures hidden { PatchedAt HiddenBy place patch hidden.old.items hidden.new.items }
{
    match patch {
        None => {}
        Some(patch) => {
            let rows = turn_at(stores, place, patch);
            hide_at(hidden, place, rows);
        }
    }
}

fn turn_at(stores: &mut Vec<Store>, place: usize, patch: Patch) -> SlotRows
    requires { (s : Kept) → slice_get stores.old.items place ≡ Some s → IsReadyFor s patch }
    ensures stores { PatchedAt TurnedBy place (Some patch) stores.old.items stores.new.items }
    ensures hidden { result ≡ patch.hidden }
{
    let (cuts, turns, hidden) = patch.into_parts();
    if place < stores.len() {
        turn(&mut stores[place], cuts, turns);
        return hidden;
    }
    hidden
}

fn hide_at(hidden: &mut Vec<SlotRows>, place: usize, rows: SlotRows)
    ensures { hidden.new.items ≡ slice_set hidden.old.items place rows }
{
    if place < hidden.len() {
        hidden[place] = rows;
    }
}
