//! The row locks: which session holds a key. Nothing here takes memory.

ghost use Rattle.std.specs.Prelude.{◌≡◌, ◌&&◌, ◌||◌, List, All, None, find, map, option_copied};
ghost use Rattle.std.specs.Option.{option_map, option_or};
ghost use Rattle.own_rows.specs.table_defs.specs.declared.definition.TableDef.{TableDef as Def};
ghost use Rattle.own_rows.specs.indexed_rows.specs.Rows.{key_of};
ghost use Rattle.own_rows.specs.table_state.specs.Footprints.{referred_key, written_key};
ghost use Rattle.session_state.specs.Holding.{is_held};
ghost use Rattle.session_state.specs.Kept.{IsKept, seen_of};
ghost use Rattle.session_state.specs.Locks.{AreApart, first_some, holder_by, holder_of, is_other, keeper, met, writer};

use crate::session::Session;
use own_rows::row_types::{Key, Row};
use own_rows::table_defs::{BackingSchema, TableDef};
use own_rows::table_state::Op;
use own_rows::tier_base::{SessionId, TableId};

fn is_other(but: Option<SessionId>, session: &Session) -> bool
    ensures { result ≡ is_other but (seen_of session.now) }
{
    match but {
        None => true,
        Some(but) => !(session.id.0 == but.0),
    }
}

fn is_held_by(session: &Session, table: TableId, places: &[usize], row: &Row) -> bool
    ensures { result ≡ (is_held session.now.written (record { table = table; key = key_of places.now row.now })
        || is_held session.now.referred (record { table = table; key = key_of places.now row.now })) }
{
    session.written.has_key_of(table, places, row)
        || session.referred.has_key_of(table, places, row)
}

fn holds_key(session: &Session, table: TableId, key: &Key) -> bool
    ensures { result ≡ (is_held session.now.written (record { table = table; key = key.now })
        || is_held session.now.referred (record { table = table; key = key.now })) }
{
    session.written.has_key(table, key) || session.referred.has_key(table, key)
}

// Of the sessions but one, the first that writes the key of the row.
fn first_writer<'a>(
    sessions: &'a [Session],
    but: Option<SessionId>,
    table: TableId,
    places: &[usize],
    row: &Row,
) -> Option<&'a Session>
    ensures { option_copied result ≡ find (λ s. is_other but (seen_of s)
        && is_held s.written (record { table = table; key = key_of places.now row.now })) sessions.now }
{
    sessions.iter().find(|session| {
        is_other(but, session) && session.written.has_key_of(table, places, row)
    })
}

// Of the sessions but one, the first that holds the key of the row.
fn first_keeper<'a>(
    sessions: &'a [Session],
    but: Option<SessionId>,
    table: TableId,
    places: &[usize],
    row: &Row,
) -> Option<&'a Session>
    ensures { option_copied result ≡ find (λ s. is_other but (seen_of s)
        && (is_held s.written (record { table = table; key = key_of places.now row.now })
        || is_held s.referred (record { table = table; key = key_of places.now row.now }))) sessions.now }
{
    sessions.iter().find(|session| is_other(but, session)
        && is_held_by(session, table, places, row))
}

// Of the sessions but one, the first that holds the key.
fn first_with_key<'a>(
    sessions: &'a [Session],
    but: Option<SessionId>,
    table: TableId,
    key: &Key,
) -> Option<&'a Session>
    ensures { option_copied result ≡ find (λ s. is_other but (seen_of s)
        && (is_held s.written (record { table = table; key = key.now })
        || is_held s.referred (record { table = table; key = key.now }))) sessions.now }
{
    sessions.iter().find(|session| is_other(but, session) && holds_key(session, table, key))
}

fn number_of(session: Option<&Session>) -> Option<SessionId>
    ensures { result ≡ option_map (λ s. s.id) (option_copied session.entry) }
{
    match session {
        None => None,
        Some(session) => Some(session.id),
    }
}

/// Of the sessions but one, the one opened earliest that writes the key of the row.
fn writer(
    sessions: &[Session],
    but: Option<SessionId>,
    table: TableId,
    places: &[usize],
    row: &Row,
) -> Option<SessionId>
    ensures { (schema : List Def) → All (IsKept schema) sessions.now
        → result ≡ writer but schema (map seen_of sessions.now)
        (record { table = table; key = key_of places.now row.now }) }
{
    number_of(first_writer(sessions, but, table, places, row))
}

/// Of the sessions but one, the one opened earliest that holds the key of the row.
fn keeper(
    sessions: &[Session],
    but: Option<SessionId>,
    table: TableId,
    places: &[usize],
    row: &Row,
) -> Option<SessionId>
    ensures { (schema : List Def) → All (IsKept schema) sessions.now
        → result ≡ keeper but schema (map seen_of sessions.now)
        (record { table = table; key = key_of places.now row.now }) }
{
    number_of(first_keeper(sessions, but, table, places, row))
}

/// Of the sessions but one, the one opened earliest that holds the key.
pub fn keeper_of_key(
    sessions: &[Session],
    but: Option<SessionId>,
    table: TableId,
    key: &Key,
) -> Option<SessionId>
    ensures { (schema : List Def) → All (IsKept schema) sessions.now
        → result ≡ keeper but schema (map seen_of sessions.now) (record { table = table; key = key.now }) }
{
    number_of(first_with_key(sessions, but, table, key))
}

// Whom a write of the row's key meets.
fn met(
    sessions: &[Session],
    but: Option<SessionId>,
    table: TableId,
    def: Option<&TableDef>,
    row: &Row,
) -> Option<SessionId>
    ensures { (schema : List Def) → All (IsKept schema) sessions.now → result ≡ first_some
        (met but schema (map seen_of sessions.now)) (written_key table (option_copied def.entry) row.now) }
{
    match def {
        None => None,
        Some(def) => {
            let places = def.primary_key.as_slice();
            match writer(sessions, but, table, places, row) {
                Some(found) => Some(found),
                None => keeper(sessions, but, table, places, row),
            }
        }
    }
}

// The session that wrote the row's parent.
fn parent_writer(
    sessions: &[Session],
    but: Option<SessionId>,
    def: Option<&TableDef>,
    row: &Row,
) -> Option<SessionId>
    ensures { (schema : List Def) → All (IsKept schema) sessions.now → result ≡ first_some
        (writer but schema (map seen_of sessions.now)) (referred_key (option_copied def.entry) row.now) }
{
    match def {
        None => None,
        Some(def) => match &def.foreign_key {
            None => None,
            Some(foreign) => writer(
                sessions,
                but,
                foreign.parent,
                foreign.columns.as_slice(),
                row,
            ),
        },
    }
}

fn either(first: Option<SessionId>, second: Option<SessionId>) -> Option<SessionId>
    ensures { result ≡ option_or first second }
{
    match first {
        Some(found) => Some(found),
        None => second,
    }
}

// Whom one operation meets.
fn holder_by(
    sessions: &[Session],
    but: Option<SessionId>,
    schema: &BackingSchema,
    op: &Op,
) -> Option<SessionId>
    requires { All (IsKept schema.now) sessions.now }
    ensures { result ≡ holder_by but schema.now (map seen_of sessions.now) op.now }
{
    let table = op.table();
    let def = schema.get(table.0 as usize);
    match op {
        Op::Insert(_, row) => either(
            met(sessions, but, table, def, row),
            parent_writer(sessions, but, def, row),
        ),
        Op::Delete(_, row) => either(
            met(sessions, but, table, def, row),
            parent_writer(sessions, but, def, row),
        ),
        Op::Update(_, old, new) => {
            let written = either(
                met(sessions, but, table, def, old),
                met(sessions, but, table, def, new),
            );
            let parents = either(
                parent_writer(sessions, but, def, old),
                parent_writer(sessions, but, def, new),
            );
            either(written, parents)
        }
    }
}

fn first_holder(
    sessions: &[Session],
    but: Option<SessionId>,
    schema: &BackingSchema,
    ops: &[Op],
) -> Option<SessionId>
    requires { All (IsKept schema.now) sessions.now }
    ensures { result ≡ holder_of but schema.now (map seen_of sessions.now) ops.now }
{
    for op in ops {
        match holder_by(sessions, but, schema, op) {
            None => {}
            Some(found) => return Some(found),
        }
    }
    None
}

/// The session that operations meet at a row lock, but for the one that asks: the first operation that meets one
/// decides, by the keys that it writes and then by the parents that it names. Where there is none, the operations
/// conflict with those of no session but the one that asks. It takes no memory. (This project's rule.)
pub fn holder(
    sessions: &[Session],
    but: Option<SessionId>,
    schema: &BackingSchema,
    ops: &[Op],
) -> Option<SessionId>
    requires { All (IsKept schema.now) sessions.now }
    ensures is { result ≡ holder_of but schema.now (map seen_of sessions.now) ops.now }
    ensures apart { result ≡ None → AreApart but schema.now (map seen_of sessions.now) ops.now }
{
    first_holder(sessions, but, schema, ops)
}
