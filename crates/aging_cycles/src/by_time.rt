//! Instances leave by time, or are hidden.

ghost use Rattle.std.specs.Prelude.{◌≡◌, ◌<◌, List, [], ◌∷◌, false, true};
ghost use Rattle.std.specs.FinMap.{entries, len};
ghost use Rattle.row_types.specs.declared.value.Value.{Value as OneValue};
ghost use Rattle.indexed_rows.specs.Places.{IsKeyAt};
ghost use Rattle.indexed_rows.specs.Rows.{value_at};
ghost use Rattle.instances.specs.Views.{kept_at};
ghost use Rattle.cache_tier.specs.Shown.{is_past};
ghost use Rattle.aging_cycles.specs.Busy.{is_busy_at};
ghost use Rattle.aging_cycles.specs.Cycles.{expired_in};
ghost use Rattle.aging_cycles.specs.Running.{HasRoom, Leaves};
ghost use Rattle.aging_cycles.specs.Walking.{IsEntryAt, LooksAt};

use crate::busy::is_busy;
use group_store::Store;
use row_types::{Row, Value};
use session_state::Session;
use slot_rows::SlotRows;

/// By which time instances leave.
#[derive(Clone, Copy)]
pub(crate) struct Deadline {
    /// The column of the root row that has the time.
    pub(crate) column: usize,
    /// The horizon: what is at or under it leaves.
    pub(crate) horizon: Option<i128>,
    /// Whether what leaves is hidden.
    pub(crate) hides: bool,
}

/// The instances leave whose time, in a column of the root row, is at or under the horizon, but for those in which
/// these sessions write; where that is asked for their root rows are hidden. It looks at each root row, the last in
/// key order first, and says whether any left. It takes no memory.
pub(crate) fn leave_by_time(
    store: &mut Store,
    hidden: &mut SlotRows,
    sessions: &[Session],
    by: Deadline,
) -> bool
    requires key { hidden.old.places ≡ store.old.key }
    requires room { by.hides ≡ true → HasRoom store.old hidden.old }
    ensures left { Leaves by.hides (expired_in by.horizon by.column (is_busy_at sessions.now store.old) store.old.key
        (kept_at store.old.tables 0)) store.old store.new hidden.old hidden.new }
    ensures same { result ≡ false → store.new ≡ store.old }
{
    let mut gone = false;
    let count = store.len(0);
    for looked in 0..count {
        let at = count - 1 - looked;
        if look_at(store, hidden, sessions, by, at) {
            gone = true;
        }
    }
    gone
}

// The same of the one at a place in key order.
fn look_at(
    store: &mut Store,
    hidden: &mut SlotRows,
    sessions: &[Session],
    by: Deadline,
    at: usize,
) -> bool
    requires key { hidden.old.places ≡ store.old.key }
    requires room { by.hides ≡ true → HasRoom store.old hidden.old }
    ensures { (root row : List OneValue) → IsEntryAt (entries (kept_at store.old.tables 0)) root row at
        → LooksAt by.hides by.horizon by.column (is_busy_at sessions.now store.old) root row store.old store.new
        hidden.old hidden.new result }
{
    match store.row(0, at) {
        None => return false,
        Some(row) => {
            if is_past(by.horizon, row, by.column) {
                return false;
            }
        }
    }
    if is_busy(store, at, sessions) {
        return false;
    }
    leave(store, hidden, by.hides, at);
    true
}

// The one at a place in key order leaves, and is hidden where that is asked for.
fn leave(store: &mut Store, hidden: &mut SlotRows, hides: bool, at: usize)
    requires there { at < len (kept_at store.old.tables 0) }
    requires key { hidden.old.places ≡ store.old.key }
    requires room { hides ≡ true → HasRoom store.old hidden.old }
    ensures { (root : List OneValue) → IsKeyAt (entries (kept_at store.old.tables 0)) root at
        → Leaves hides (root ∷ []) store.old store.new hidden.old hidden.new }
{
    if hides {
        store.hide_at(at, hidden);
        return;
    }
    let _ = store.take_at(at);
}

// Whether the time in the column exceeds the horizon; where there is none, each does.
fn is_past(horizon: Option<i128>, row: &Row, column: usize) -> bool
    ensures { result ≡ is_past horizon (value_at row.now column) }
{
    match horizon {
        None => true,
        Some(horizon) => match row.values().get(column) {
            Some(Value::Time(time)) => horizon < i128::from(time.seconds()),
            _ => false,
        },
    }
}
