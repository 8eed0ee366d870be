//! A session's own writes over the rows of a scan.

ghost use Rattle.std.specs.Prelude.{◌≡◌, ◌++◌, ◌∷◌, [], IfOk, IsTrue, is_some, true};
ghost use Rattle.table_state.specs.Independence.{IsWhole};
ghost use Rattle.table_state.specs.Keyed.{IsKeyed};
ghost use Rattle.table_state.specs.Operations.{applied_all};
ghost use Rattle.table_state.specs.Refusals.{Judges, broken_by_all};
ghost use Rattle.tier_base.specs.declared.limit.Limit.TheVariants.{Operations};
ghost use Rattle.tier_base.specs.Limits.{greatest};
ghost use Rattle.store_bench.specs.Measured.{IsOver, IsReadable};

use crate::error::BenchError;
use crate::rows::row_of;
use crate::stock::TABLE;
use crate::watch::mixed;
use session_state::Session;
use std::alloc::{AllocError, Global};
use table_state::{ApplyError, Op, Scan};
use tier_base::{Label, Limit, Seq, SessionId};
use transactions::{judge_delete, judge_insert, judge_update};

/// How many operations a session has.
pub const WRITES: usize = 1_000;

/// The number in the key that is written at a place, from 0. Each third place writes a key that the table hasn't, and
/// the others keys that it has.
pub fn written(place: usize, rows: usize) -> usize {
    if place % 3 == 0 {
        rows.wrapping_add(place)
    } else {
        mixed(place, rows)
    }
}

/// A session with its own operations over a table that has so many rows.
pub fn session_over<S: Scan>(alloc: Global, scan: &S, rows: usize) -> Result<Session, BenchError>
    requires { IsReadable (S.state scan.now) }
    ensures { IfOk result (λ session. IsOver session (S.state scan.now)) }
{
    let mut session = idle_session(alloc, scan)?;
    for place in 0..WRITES {
        let op = op_at(alloc, place, rows)?;
        write_op(alloc, scan, &mut session, op)?;
    }
    Ok(session)
}

// A session that has written nothing.
fn idle_session<S: Scan>(alloc: Global, scan: &S) -> Result<Session, BenchError>
    requires { IsReadable (S.state scan.now) }
    ensures { IfOk result (λ session. IsOver session (S.state scan.now)) }
{
    let _ = scan.schema();
    match Label::new(alloc, b"own") {
        Err(_) => Err(BenchError::Memory),
        Ok(label) => Ok(Session::start(alloc, SessionId(0), label, 0, false)),
    }
}

// The operation at a place: by turns a row more, another row under a key, and a row less.
fn op_at(alloc: Global, place: usize, rows: usize) -> Result<Op, AllocError> {
    let id = written(place, rows);
    let row = row_of(alloc, id, id)?;
    match place % 3 {
        0 => Ok(Op::Insert(TABLE, row)),
        1 => {
            let changed = row_of(alloc, id, place)?;
            Ok(Op::Update(TABLE, row, changed))
        }
        _ => Ok(Op::Delete(TABLE, row)),
    }
}

// An operation goes behind the open ones, where it applies behind them.
fn write_op<S: Scan>(
    alloc: Global,
    scan: &S,
    session: &mut Session,
    op: Op,
) -> Result<(), BenchError>
    requires readable { IsReadable (S.state scan.now) }
    requires over { IsOver session.old (S.state scan.now) }
    ensures { IsOver session.new (S.state scan.now) }
{
    if session.ops.len() >= most_operations() || !applies_behind(alloc, scan, session, &op) {
        return Err(BenchError::Refused);
    }
    let ops = Vec::from_array(alloc, [op])?;
    session.write(alloc, scan.schema(), Seq::from_vec(ops))?;
    Ok(())
}

// The most operations that a transaction may have.
fn most_operations() -> usize
    ensures { result ≡ greatest Operations }
{
    Limit::Operations.number() as usize
}

// Whether an operation applies behind a session's open ones.
fn applies_behind<S: Scan>(alloc: Global, scan: &S, session: &Session, op: &Op) -> bool
    requires readable { IsReadable (S.state scan.now) }
    requires over { IsOver session.now (S.state scan.now) }
    ensures { IsTrue result
        → is_some (applied_all (session.now.ops.items ++ op.now ∷ []) (S.state scan.now)) ≡ true }
{
    let seen = session.overlay(scan);
    match judge_op(alloc, &seen, op) {
        Ok(()) => true,
        Err(_) => false,
    }
}

// Whether an operation can be applied.
fn judge_op<S: Scan>(alloc: Global, scan: &S, op: &Op) -> Result<(), ApplyError>
    requires whole { IsWhole (S.state scan.now) }
    requires keyed { IsKeyed (S.state scan.now) }
    ensures { Judges result (broken_by_all (op.now ∷ []) (S.state scan.now)) }
{
    match op {
        Op::Insert(table, row) => judge_insert(alloc, *table, row, scan),
        Op::Update(table, old, new) => judge_update(alloc, *table, old, new, scan),
        Op::Delete(table, old) => judge_delete(alloc, *table, old, scan),
    }
}
