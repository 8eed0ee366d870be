//! The instances leave that a cycle takes.

ghost use Rattle.std.specs.Prelude.{◌≡◌, ◌<◌, false, length, slice_get, Some, true};
ghost use Rattle.group_catalog.specs.Kept.{group_seen};
ghost use Rattle.group_store.specs.Stores.{Kept};
ghost use Rattle.slot_rows.specs.SlotKeys.{RowsHeld};
ghost use Rattle.cache_tier.specs.Groups.{has_list};
ghost use Rattle.stored_tier.specs.Lists.{hides_keys};
ghost use Rattle.aging_cycles.specs.Busy.{is_busy_at};
ghost use Rattle.aging_cycles.specs.Cycles.{leaving_by};
ghost use Rattle.aging_cycles.specs.Running.{HasLeft, HasRoom};
ghost use Rattle.aging_cycles.specs.Walking.{LeavesPlace};

use crate::by_time::{Deadline, leave_by_time};
use crate::by_use::leave_by_use;
use crate::due::horizon_of;
use cache_tier::group::AgingRule;
use group_catalog::KeptGroup;
use group_store::Store;
use session_state::Session;
use slot_rows::SlotRows;
use sql_subset::stmt::GroupKind;
use stored_tier::clock::Pace;
use stored_tier::filling::hides_keys;

/// The instances that a group's cycle takes leave the store at a place, or are hidden; says whether any left. It takes
/// no memory: there is room for each root row that is hidden.
pub(crate) fn leave_from(
    stores: &mut Vec<Store>,
    hidden: &mut Vec<SlotRows>,
    place: usize,
    pace: &Pace,
    now: u64,
    group: &KeptGroup,
    sessions: &[Session],
) -> bool
    requires stores { place < length stores.old.items }
    requires hidden { place < length hidden.old.items }
    requires key { (s : Kept) (h : RowsHeld) → slice_get stores.old.items place ≡ Some s
        → slice_get hidden.old.items place ≡ Some h → h.places ≡ s.key }
    requires room { (s : Kept) (h : RowsHeld) → slice_get stores.old.items place ≡ Some s
        → slice_get hidden.old.items place ≡ Some h → hides_keys (group_seen group.now) ≡ true → HasRoom s h }
    ensures left { LeavesPlace place (group_seen group.now) (λ s. leaving_by pace.now now
        (is_busy_at sessions.now s) (group_seen group.now) s (group_seen group.now).def.aging)
        stores.old.items hidden.old.items stores.new.items hidden.new.items }
    ensures same { result ≡ false → stores.new.items ≡ stores.old.items }
{
    leave_group(
        &mut stores[place],
        &mut hidden[place],
        pace,
        now,
        group,
        sessions,
    )
}

fn leave_group(
    store: &mut Store,
    hidden: &mut SlotRows,
    pace: &Pace,
    now: u64,
    group: &KeptGroup,
    sessions: &[Session],
) -> bool
    requires key { hidden.old.places ≡ store.old.key }
    requires room { hides_keys (group_seen group.now) ≡ true → HasRoom store.old hidden.old }
    ensures left { HasLeft (group_seen group.now) (leaving_by pace.now now (is_busy_at sessions.now store.old)
        (group_seen group.now) store.old (group_seen group.now).def.aging) store.old store.new hidden.old hidden.new }
    ensures same { result ≡ false → store.new ≡ store.old }
{
    match &group.def.aging {
        None => false,
        Some(AgingRule::LastUse) => {
            if !has_list(group) {
                return false;
            }
            leave_by_use(pace, store, sessions)
        }
        Some(AgingRule::ByTime(rule)) => {
            let by = Deadline {
                column: rule.column,
                horizon: horizon_of(now, group),
                hides: hides_keys(group),
            };
            leave_by_time(store, hidden, sessions, by)
        }
    }
}

// Whether the group shows the instances of a list of keys, and not its whole view.
fn has_list(group: &KeptGroup) -> bool
    ensures { result ≡ has_list (group_seen group.now) }
{
    match group.def.kind {
        GroupKind::ReadOnly => group.def.dynamic,
        _ => true,
    }
}
