//! Instances in which sessions have uncommitted writes. Nothing here takes memory.

ghost use Rattle.std.specs.Prelude.{◌≡◌, ◌&&◌, ◌||◌, List};
ghost use Rattle.std.specs.FinMap.{entries};
ghost use Rattle.row_types.specs.declared.value.Value.{Value as OneValue};
ghost use Rattle.indexed_rows.specs.Places.{IsKeyAt};
ghost use Rattle.indexed_rows.specs.Rows.{key_of};
ghost use Rattle.instances.specs.Views.{kept_at};
ghost use Rattle.session_state.specs.Holding.{is_held};
ghost use Rattle.group_catalog.specs.Kept.{group_seen};
ghost use Rattle.group_store.specs.Stores.{Kept};
ghost use Rattle.cache_tier.specs.Groups.{is_writethrough};
ghost use Rattle.aging_cycles.specs.Busy.{is_busy_at, is_kept_by};

use group_catalog::KeptGroup;
use group_store::{Holds, Store};
use row_types::Row;
use session_state::Session;
use stored_tier::refreshing::is_read_only;
use tier_base::TableId;

/// The keys that sessions hold.
pub(crate) struct HeldKeys<'a> {
    sessions: &'a [Session],
}

impl Drop for HeldKeys<'_> {
    fn drop(self) {
        let Self { sessions: _ } = self;
    }
}

impl Holds for HeldKeys<'_> {
    ghost held = { λ keys table key. is_kept_by keys.sessions.now table key };

    fn holds(&self, table: TableId, key: &[usize], row: &Row) -> bool {
        is_kept(self.sessions, table, key, row)
    }
}

// Whether a session keeps the key that a row has at these places.
fn is_kept(sessions: &[Session], table: TableId, key: &[usize], row: &Row) -> bool
    ensures { result ≡ is_kept_by sessions.now table (key_of key.now row.now) }
{
    sessions
        .iter()
        .any(|session| is_kept_in(session, table, key, row))
}

// Whether this one does.
fn is_kept_in(session: &Session, table: TableId, key: &[usize], row: &Row) -> bool
    ensures { result ≡ (is_held session.now.written (record { table = table; key = key_of key.now row.now })
        || is_held session.now.referred (record { table = table; key = key_of key.now row.now })) }
{
    session.written.has_key_of(table, key, row) || session.referred.has_key_of(table, key, row)
}

/// The sessions that may write in instances of a group: none, where it is READONLY.
pub(crate) fn writers<'a>(sessions: &'a [Session], group: &KeptGroup) -> &'a [Session]
    ensures { (s : Kept) (root : List OneValue) → is_busy_at result.now s root
        ≡ (is_writethrough (group_seen group.now) && is_busy_at sessions.now s root) }
{
    if is_read_only(group) {
        return &sessions[..0];
    }
    sessions
}

/// Whether a session has uncommitted writes in the instance whose root row is at a place in key order. Where there are
/// no sessions nothing is looked at.
pub(crate) fn is_busy(store: &Store, at: usize, sessions: &[Session]) -> bool
    ensures { (root : List OneValue) → IsKeyAt (entries (kept_at store.now.tables 0)) root at
        → result ≡ is_busy_at sessions.now store.now root }
{
    if sessions.is_empty() {
        return false;
    }
    store.is_held(at, &HeldKeys { sessions })
}
