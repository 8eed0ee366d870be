//! The row locks that a write meets.

ghost use Rattle.std.specs.Prelude.{◌≡◌, ℕ, List, All, IfOk, IsSome, Some, find, map, option_copied};
ghost use Rattle.std.specs.List.{AllPairs};
ghost use Rattle.std.specs.Option.{option_map};
ghost use Rattle.table_defs.specs.Declarations.{Tells};
ghost use Rattle.session_state.specs.Kept.{IsKept, seen_of};
ghost use Rattle.session_state.specs.Sessions.{has_id};
ghost use Rattle.cache_tier.specs.Locks.{lock_fault, locked_by};
ghost use Rattle.cache_tier.specs.TierStates.{Tier};
ghost use Rattle.tier_statements.specs.Seen.{DifferInNumber, HasSessions, IsNumberOf, session_seen};

use row_types::{Detail, Refused, Rule};
use session_state::{Session, holder};
use std::alloc::{AllocError, Global};
use table_defs::BackingSchema;
use table_state::Op;
use tier_base::{Code, SessionId};

/// Whether the operations of the session of a number meet no other session's row lock.
///
/// The refusal is 111 with the label of the session that the first operation meets that meets one: at the keys that it
/// writes, and then at the parents that its rows name; or memory was wanting. (This project's rule: a lock is never
/// waited for.)
pub fn lock_fault(
    alloc: Global,
    sessions: &[Session],
    schema: &BackingSchema,
    id: SessionId,
    ops: &[Op],
) -> Result<(), Refused>
    requires kept { All (IsKept schema.now) sessions.now }
    requires numbered { AllPairs DifferInNumber (map seen_of sessions.now) }
    ensures { (t : Tier) (label : List ℕ) → HasSessions schema.now (map seen_of sessions.now) t
        → IsNumberOf id label (map seen_of sessions.now) → Tells result (lock_fault label t ops.now) }
{
    match holder(sessions, Some(id), schema, ops) {
        None => Ok(()),
        Some(found) => match numbered(sessions, found) {
            None => Err(Refused::Memory),
            Some(session) => {
                let rule = locked_by(alloc, session)?;
                Err(Refused::Rule(rule))
            }
        },
    }
}

// The session of a number.
fn numbered(sessions: &[Session], id: SessionId) -> Option<&Session>
    ensures { option_copied result ≡ find (λ s. has_id id (seen_of s)) sessions.now }
{
    sessions.iter().find(|session| session.id.0 == id.0)
}

// 111 by the session.
fn locked_by(alloc: Global, session: &Session) -> Result<Rule, AllocError>
    ensures { IfOk result (λ rule. rule ≡ locked_by (session_seen (seen_of session.now))) }
{
    let label = session.label.copied(alloc)?;
    Ok(Rule {
        code: Code::Locked,
        detail: Detail::Label(label),
    })
}
