//! The cycles run.

ghost use Rattle.std.specs.Prelude.{◌≡◌, ◌<◌, All, Some, length, slice_get, true};
ghost use Rattle.table_state.specs.Keyed.{IsKeyed};
ghost use Rattle.cache_tier.specs.Groups.{Group, definitions_of};
ghost use Rattle.group_catalog.specs.Catalogs.{groups_in};
ghost use Rattle.open_sessions.specs.Opening.{AreSessions};
ghost use Rattle.stored_tier.specs.Stored.{IsSound, rows_of};
ghost use Rattle.aging_cycles.specs.Ages.{Ages};
ghost use Rattle.aging_cycles.specs.Running.{DueHorizon, HaveRun, HidesAt, KeepsNote, LeavesAt, RunsOne, turned};

use crate::busy::writers;
use crate::confirming::confirm;
use crate::due::{horizon_of, is_due};
use crate::laws::kept_rows_law;
use crate::leaving::leave_from;
use group_store::laws::drop_instance_law;
use std::alloc::Global;
use stored_tier::tier::Tier;
use tier_base::Moment;

/// Each group whose aging cycle is due at the tier's moment has it: its instances leave by last use, or by the time in
/// a column of their root rows; a READONLY DYNAMIC group hides the latter until its next refresh. Instances in which a
/// session has uncommitted writes are skipped. It takes no memory for that, and always does so. Where sessions might
/// read over the stored rows before, and instances left, it is then found out whether they still may, by what they
/// wrote.
///
/// (TimesTen Cache User's Guide, "Implementing aging on a cache group".)
pub fn age(tier: &mut Tier, alloc: Global)
    requires { IsSound tier.old }
    ensures ages { Ages tier.old tier.new }
    ensures groups { definitions_of (groups_in tier.new.catalog) ≡ definitions_of (groups_in tier.old.catalog) }
    ensures clock { tier.new.clock ≡ tier.old.clock }
    ensures sound { IsSound tier.new }
{
    drop_instance_law();
    kept_rows_law();
    let known = tier.verified;
    run_each(tier);
    confirm_left(tier, alloc, known);
}

// Where sessions might read over the stored rows before, and instances left, it is found out whether they still may.
fn confirm_left(tier: &mut Tier, alloc: Global, known: bool)
    requires sound { IsSound tier.old }
    requires keyed { known ≡ true → IsKeyed (rows_of tier.old) }
    ensures same { tier.new ≡ record tier.old { verified = tier.new.verified } }
    ensures sound { IsSound tier.new }
{
    if known && !tier.verified {
        confirm(tier, alloc);
    }
}

// Runs the cycles that are due one after another.
fn run_each(tier: &mut Tier)
    requires { IsSound tier.old }
    ensures { HaveRun tier.old tier.new }
{
    for place in 0..tier.catalog.len() {
        run_at(tier, place);
    }
}

// Runs the cycle of the group at a place, where it is due.
fn run_at(tier: &mut Tier, place: usize)
    requires sessions { AreSessions tier.old.schema tier.old.sessions }
    requires groups { place < length (groups_in tier.old.catalog) }
    requires stores { place < length tier.old.stores.items }
    requires hidden { place < length tier.old.hidden.items }
    requires hides { HidesAt tier.old place }
    ensures { RunsOne tier.old tier.new place }
{
    match due_horizon(tier, place) {
        None => {}
        Some(horizon) => {
            leave_at(tier, place);
            turn_at(tier, place, horizon);
        }
    }
}

// The horizon that the cycle of the group at a place leaves, where it is due.
fn due_horizon(tier: &Tier, place: usize) -> Option<Option<i128>>
    requires { place < length (groups_in tier.now.catalog) }
    ensures { DueHorizon tier.now place result }
{
    match tier.catalog.get(place) {
        None => None,
        Some(group) => {
            if !is_due(&tier.clock.pace, tier.clock.now, group) {
                return None;
            }
            Some(horizon_of(tier.clock.now, group))
        }
    }
}

// The instances that the cycle of the group at a place takes leave its store, or are hidden.
fn leave_at(tier: &mut Tier, place: usize)
    requires sessions { AreSessions tier.old.schema tier.old.sessions }
    requires groups { place < length (groups_in tier.old.catalog) }
    requires stores { place < length tier.old.stores.items }
    requires hidden { place < length tier.old.hidden.items }
    requires hides { HidesAt tier.old place }
    ensures leaves { (g : Group) → slice_get (groups_in tier.old.catalog) place ≡ Some g
        → LeavesAt tier.old tier.new place g }
    ensures same { tier.new ≡ record tier.old {
      stores = tier.new.stores;
      hidden = tier.new.hidden;
      verified = tier.new.verified;
    } }
    ensures noted { KeepsNote tier.old tier.new }
{
    match tier.catalog.get(place) {
        None => {}
        Some(group) => {
            let sessions = writers(tier.sessions.as_slice(), group);
            let gone = leave_from(
                &mut tier.stores,
                &mut tier.hidden,
                place,
                &tier.clock.pace,
                tier.clock.now,
                group,
                sessions,
            );
            if gone {
                tier.verified = false;
            }
        }
    }
}

// The group at a place gets the horizon that a cycle leaves, and the moment is noted.
fn turn_at(tier: &mut Tier, place: usize, horizon: Option<i128>)
    requires { place < length (groups_in tier.old.catalog) }
    ensures same { tier.new ≡ record tier.old { catalog = tier.new.catalog } }
    ensures groups { groups_in tier.new.catalog
        ≡ turned place horizon tier.old.clock.now (groups_in tier.old.catalog) }
{
    let now = Moment(tier.clock.now);
    tier.catalog.with_horizon(place, horizon);
    tier.catalog.with_aged(place, now);
}
