//! The locks that UNLOAD meets: another session has uncommitted writes in an instance that would leave.

ghost use Rattle.std.specs.Prelude.{◌≡◌, ◌&&◌, ◌||◌, All, IfOk, find, length, not};
ghost use Rattle.std.specs.List.{list_any};
ghost use Rattle.std.specs.Option.{option_copied};
ghost use Rattle.own_rows.specs.OwnTables.{AreShown};
ghost use Rattle.session_state.specs.Kept.{IsKept, seen_of};
ghost use Rattle.session_state.specs.Sessions.{has_id};
ghost use Rattle.group_engine.specs.UnloadLocks.{is_within, leaves, touches, writes_within};

use cache_tier::laws::tier_law;
use group_catalog::ResolvedWhich;
use group_store::Store;
use instances::Tree;
use row_types::Key;
use session_state::Session;
use statement_uses::root_of;
use std::alloc::{AllocError, Global};
use table_state::{Footprint, Op, RowKey, Scan};
use tier_base::SessionId;

/// The session opened earliest, but that of the number, that has uncommitted writes in an instance of the tree that
/// matches in the store: it holds the key of a row there, as the tables are, or with its writes over them.
pub(crate) fn writer_within<'a, S: Scan>(
    alloc: Global,
    shown: &S,
    tree: &Tree,
    store: &Store,
    which: &ResolvedWhich,
    sessions: &'a [Session],
    id: SessionId,
) -> Result<Option<&'a Session>, AllocError>
    requires kept { All (IsKept (S.state shown.now).schema) sessions.now }
    requires shown { All (λ s. AreShown s.ops.items (S.state shown.now)) sessions.now }
    ensures { IfOk result (λ found. option_copied found ≡ find (λ s. not (has_id id (seen_of s))
        && writes_within (S.state shown.now) tree.now (leaves which.now store.now) s.ops.items) sessions.now) }
{
    for session in sessions {
        if is_writer(alloc, shown, tree, store, which, session, id)? {
            return Ok(Some(session));
        }
    }
    Ok(None)
}

// Whether the session isn't that of the number, and has uncommitted writes there.
fn is_writer<S: Scan>(
    alloc: Global,
    shown: &S,
    tree: &Tree,
    store: &Store,
    which: &ResolvedWhich,
    session: &Session,
    id: SessionId,
) -> Result<bool, AllocError>
    requires kept { IsKept (S.state shown.now).schema session.now }
    requires shown { AreShown session.now.ops.items (S.state shown.now) }
    ensures { IfOk result (λ writer. writer ≡ (not (has_id id (seen_of session.now))
        && writes_within (S.state shown.now) tree.now (leaves which.now store.now) session.now.ops.items)) }
{
    if session.id.0 == id.0 {
        return Ok(false);
    }
    writes_within(alloc, shown, tree, store, which, session)
}

// Whether it has.
fn writes_within<S: Scan>(
    alloc: Global,
    shown: &S,
    tree: &Tree,
    store: &Store,
    which: &ResolvedWhich,
    session: &Session,
) -> Result<bool, AllocError>
    requires kept { IsKept (S.state shown.now).schema session.now }
    requires shown { AreShown session.now.ops.items (S.state shown.now) }
    ensures { IfOk result (λ writes. writes
        ≡ writes_within (S.state shown.now) tree.now (leaves which.now store.now) session.now.ops.items) }
{
    tier_law();
    let ops = session.ops.as_slice();
    if touches(alloc, shown, tree, store, which, ops)? {
        return Ok(true);
    }
    let seen = session.overlay(shown);
    touches(alloc, &seen, tree, store, which, ops)
}

// Whether operations hold the key of a row in an instance that matches.
fn touches<S: Scan>(
    alloc: Global,
    scan: &S,
    tree: &Tree,
    store: &Store,
    which: &ResolvedWhich,
    ops: &[Op],
) -> Result<bool, AllocError>
    ensures { IfOk result (λ touched. touched
        ≡ touches (S.state scan.now) tree.now (leaves which.now store.now) ops.now) }
{
    let footprint = Footprint::of(alloc, scan.schema(), ops)?;
    let (written, referred) = footprint.into_parts();
    if some_within(alloc, scan, tree, store, which, written.as_slice())? {
        return Ok(true);
    }
    some_within(alloc, scan, tree, store, which, referred.as_slice())
}

// Whether one of the keys is that of such a row.
fn some_within<S: Scan>(
    alloc: Global,
    scan: &S,
    tree: &Tree,
    store: &Store,
    which: &ResolvedWhich,
    keys: &[RowKey],
) -> Result<bool, AllocError>
    ensures { IfOk result (λ some. some
        ≡ list_any (is_within (S.state scan.now) tree.now (leaves which.now store.now)) keys.now) }
{
    for key in keys {
        if is_within(alloc, scan, tree, store, which, key)? {
            return Ok(true);
        }
    }
    Ok(false)
}

fn is_within<S: Scan>(
    alloc: Global,
    scan: &S,
    tree: &Tree,
    store: &Store,
    which: &ResolvedWhich,
    key: &RowKey,
) -> Result<bool, AllocError>
    ensures { IfOk result (λ within. within
        ≡ is_within (S.state scan.now) tree.now (leaves which.now store.now) key.now) }
{
    match root_of(alloc, scan, tree, key.table, &key.key)? {
        None => Ok(false),
        Some(root) => Ok(leaves(store, which, &root)),
    }
}

// Whether the store has an instance of the root key, and it matches.
fn leaves(store: &Store, which: &ResolvedWhich, root: &Key) -> bool
    ensures { result ≡ leaves which.now store.now root.now }
{
    match store.get(0, root) {
        None => false,
        Some(row) => which.matches(row, root),
    }
}
