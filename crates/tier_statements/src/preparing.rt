//! What a session's write makes in the cache, before the bank is asked.

ghost use Rattle.std.specs.Prelude.{◌≡◌, ℕ, List, All, IfOk, None, OnOk, length, map};
ghost use Rattle.std.specs.List.{AllPairs};
ghost use Rattle.table_defs.specs.Declarations.{Tells};
ghost use Rattle.table_state.specs.Independence.{IsWhole};
ghost use Rattle.table_state.specs.Refusals.{broken_by_all};
ghost use Rattle.table_state.specs.Keyed.{IsKeyed};
ghost use Rattle.evaluator.specs.Rules.{Gives};
ghost use Rattle.evaluator.specs.Writes.{effects_of};
ghost use Rattle.session_state.specs.Kept.{IsKept, seen_of};
ghost use Rattle.cache_tier.specs.InsertSteps.{has_key_in, taken};
ghost use Rattle.cache_tier.specs.OwnWrites.{room_of};
ghost use Rattle.cache_tier.specs.Rules.{broken_if};
ghost use Rattle.cache_tier.specs.TierStates.{Session as OneSession, Tier};
ghost use Rattle.tier_statements.specs.Preparing.{inserted_row, prepared, shown_fault, write_refused_by};
ghost use Rattle.tier_statements.specs.Seen.{DifferInNumber, HasSessions, IsNumberOf, session_seen};

use crate::judging::apply_fault;
use crate::keys::{has_key, taken};
use crate::locks::lock_fault;
use evaluator::{Change, effects};
use row_types::{Refused, Row};
use session_state::Session;
use std::alloc::Global;
use table_state::{Op, Ops, Scan};
use tier_base::{Limit, SessionId, TableId};

/// The operations of a session's write over what the session sees, all tested that can be before the bank is asked: an
/// INSERT is one operation, whose key isn't shown; those of an UPDATE and a DELETE can be applied one after the other.
///
/// The refusal is the first broken rule: what `evaluator::effects` tells, with 119 of the operations that the
/// transaction has behind the open ones; 111 of the first operation that meets another session's lock; then 107 of an
/// INSERT, and of the others 108 and 109 of the first that breaks one; or memory was wanting. Nothing is changed in any
/// case. (TimesTen SQL Reference, "INSERT", "UPDATE", "DELETE"; locks and the order are this project's rule.)
pub fn prepare_write<S: Scan>(
    alloc: Global,
    scan: &S,
    sessions: &[Session],
    session: &Session,
    change: &Change,
) -> Result<Ops, Refused>
    requires whole { IsWhole (S.state scan.now) }
    requires keyed { IsKeyed (S.state scan.now) }
    requires kept { All (IsKept (S.state scan.now).schema) sessions.now }
    requires numbered { AllPairs DifferInNumber (map seen_of sessions.now) }
    ensures prepared { (t : Tier) → HasSessions (S.state scan.now).schema (map seen_of sessions.now) t
        → IsNumberOf session.now.id session.now.label (map seen_of sessions.now)
        → Gives (prepared t (session_seen (seen_of session.now)) change.now (S.state scan.now)) result }
    ensures applies { IfOk result (λ ops. inserted_row ops ≡ None → broken_by_all ops (S.state scan.now) ≡ None) }
{
    match session_effects(alloc, scan, session.ops.len(), change) {
        Err(refused) => Err(refused),
        Ok(ops) => match check_ops(alloc, scan, sessions, session.id, ops.as_slice()) {
            Err(refused) => Err(refused),
            Ok(()) => Ok(ops),
        },
    }
}

/// The operations of a write over what a session sees that has written so many operations.
///
/// The refusal is that of `evaluator::effects`, where the limit of operations counts these, too.
pub fn session_effects<S: Scan>(
    alloc: Global,
    scan: &S,
    written: usize,
    change: &Change,
) -> Result<Ops, Refused>
    requires { IsKeyed (S.state scan.now) }
    ensures { (s : OneSession) → length s.own ≡ written
        → Gives (effects_of (room_of s) change.now (S.state scan.now)) result }
{
    let most = Limit::Operations.number() as usize;
    effects(alloc, change, most.saturating_sub(written), scan)
}

// Whether operations meet no lock, and nothing shown keeps them back.
fn check_ops<S: Scan>(
    alloc: Global,
    scan: &S,
    sessions: &[Session],
    id: SessionId,
    ops: &[Op],
) -> Result<(), Refused>
    requires whole { IsWhole (S.state scan.now) }
    requires keyed { IsKeyed (S.state scan.now) }
    requires kept { All (IsKept (S.state scan.now).schema) sessions.now }
    requires numbered { AllPairs DifferInNumber (map seen_of sessions.now) }
    ensures told { (t : Tier) (label : List ℕ) → HasSessions (S.state scan.now).schema (map seen_of sessions.now) t
        → IsNumberOf id label (map seen_of sessions.now)
        → Tells result (write_refused_by label t (S.state scan.now) ops.now) }
    ensures applies { OnOk result (inserted_row ops.now ≡ None
        → broken_by_all ops.now (S.state scan.now) ≡ None) }
{
    match lock_fault(alloc, sessions, scan.schema(), id, ops) {
        Err(refused) => Err(refused),
        Ok(()) => check_shown(alloc, scan, ops),
    }
}

// Whether nothing shown keeps operations back: the row at an INSERT's key, or what the others break.
fn check_shown<S: Scan>(alloc: Global, scan: &S, ops: &[Op]) -> Result<(), Refused>
    requires whole { IsWhole (S.state scan.now) }
    requires keyed { IsKeyed (S.state scan.now) }
    ensures told { (t : Tier) → t.schema ≡ (S.state scan.now).schema
        → Tells result (shown_fault t (S.state scan.now) ops.now) }
    ensures applies { OnOk result (inserted_row ops.now ≡ None
        → broken_by_all ops.now (S.state scan.now) ≡ None) }
{
    match ops.split_first() {
        Some((Op::Insert(table, row), others)) => {
            if others.is_empty() {
                check_new(alloc, scan, *table, row)
            } else {
                apply_fault(alloc, scan, ops)
            }
        }
        _ => apply_fault(alloc, scan, ops),
    }
}

// 107 of a row whose key is shown.
fn check_new<S: Scan>(alloc: Global, scan: &S, table: TableId, row: &Row) -> Result<(), Refused>
    ensures { (t : Tier) → t.schema ≡ (S.state scan.now).schema
        → Tells result (broken_if (has_key_in (S.state scan.now) table row.now) (taken t table row.now)) }
{
    if !has_key(alloc, scan, table, row)? {
        return Ok(());
    }
    match scan.schema().get(table.0 as usize) {
        None => Err(Refused::Memory),
        Some(def) => {
            let rule = taken(alloc, def, row)?;
            Err(Refused::Rule(rule))
        }
    }
}
