//! Instances leave by last use.

ghost use Rattle.std.specs.Prelude.{◌≡◌, ◌<◌, List, false, true};
ghost use Rattle.std.specs.FinMap.{entries};
ghost use Rattle.row_types.specs.declared.value.Value.{Value as OneValue};
ghost use Rattle.indexed_rows.specs.Places.{IsKeyAt};
ghost use Rattle.instances.specs.Views.{kept_at};
ghost use Rattle.group_store.specs.Stores.{SameButSpare};
ghost use Rattle.cache_tier.specs.Aging.{leaving, oldest};
ghost use Rattle.aging_cycles.specs.Busy.{is_busy_at};
ghost use Rattle.aging_cycles.specs.Running.{cut_all};
ghost use Rattle.aging_cycles.specs.Walking.{Passes, place_without};

use crate::busy::is_busy;
use group_store::Store;
use session_state::Session;
use stored_tier::clock::Pace;

/// Where there are more instances than the high mark, they leave from the old end until there are as many as the low
/// one, or none can go. Those in which these sessions write are skipped, and stay where they are. It looks at those
/// that leave and those that it skips, and says whether any left. It takes no memory.
pub(crate) fn leave_by_use(pace: &Pace, store: &mut Store, sessions: &[Session]) -> bool
    ensures gone { SameButSpare (cut_all (leaving pace.now.lru_high pace.now.lru_low
        (is_busy_at sessions.now store.old) store.old.keys) store.old) store.new }
    ensures same { result ≡ false → store.new ≡ store.old }
{
    let count = store.count() as u64;
    if count <= pace.lru_high {
        return false;
    }
    leave_oldest(store, sessions, count.saturating_sub(pace.lru_low))
}

// So many instances leave from the old end, but for those in which sessions write.
fn leave_oldest(store: &mut Store, sessions: &[Session], most: u64) -> bool
    ensures gone { SameButSpare (cut_all (oldest most (is_busy_at sessions.now store.old) store.old.keys) store.old)
        store.new }
    ensures same { result ≡ false → store.new ≡ store.old }
{
    store.keys_law();
    let mut gone = false;
    let mut left = most;
    let mut next = store.oldest_at();
    for looked in 0..store.count() {
        let _ = looked;
        match next {
            None => return gone,
            Some(at) => {
                if left == 0 {
                    return gone;
                }
                let step = pass(store, sessions, at);
                next = step.next;
                if step.gone {
                    gone = true;
                    left -= 1;
                }
            }
        }
    }
    gone
}

/// What became of an instance.
pub(crate) struct Step {
    /// The place in key order of the root row behind it in the order of last use.
    pub(crate) next: Option<usize>,
    /// Whether it left.
    pub(crate) gone: bool,
}

impl Drop for Step {
    fn drop(self) {
        let Self { next: _, gone: _ } = self;
    }
}

// The instance whose root row is at a place in key order leaves, unless a session writes in it.
fn pass(store: &mut Store, sessions: &[Session], at: usize) -> Step
    ensures { (root : List OneValue) → IsKeyAt (entries (kept_at store.old.tables 0)) root at
        → Passes (is_busy_at sessions.now store.old root) root store.old store.new result }
{
    store.keys_law();
    let next = store.newer_at(at);
    if is_busy(store, at, sessions) {
        return Step { next, gone: false };
    }
    let _ = store.take_at(at);
    Step {
        next: without(next, at),
        gone: true,
    }
}

// The place of another, where the one at a place has left.
fn without(place: Option<usize>, at: usize) -> Option<usize>
    ensures { result ≡ place_without at place }
{
    match place {
        None => None,
        Some(place) => {
            if at < place {
                Some(place - 1)
            } else {
                Some(place)
            }
        }
    }
}
