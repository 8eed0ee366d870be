//! Reading entries.

ghost use Rattle.std.specs.Prelude.{◌≡◌, ◌≤◌, Ok};
ghost use Rattle.journal_entries.specs.Reading.{Gives, integer_at, string_at, text_at, time_at, scaled_at, value_at, many_at, row_at, insert_at, update_at, delete_at, op_at, ops_at, transaction_at, commit_at, prepare_at, passed_at, mark_at, defined_at, dropped_at, turned_at, loaded_at, entry_at, state_of, flag_of};

use crate::entry::{Entry, GroupState, Op};
use crate::fault::ReadError;
use crate::fields::{byte_at, bytes_at, copy_at, i64_at, is_text, name_at, u16_at, u32_at, u64_at};
use row_types::numbers::Number;
use row_types::tier_base::{Seq, Ticket};
use row_types::{Row, Text, Time, Value};
use std::alloc::Global;

/// The first second of the year 0001.
const FIRST_SECOND: i64 = -62_135_596_800;

/// The last second of the year 9999.
const LAST_SECOND: i64 = 253_402_300_799;

#[tactic(auto, unfolding(crate::specs::Reading::integer_at))]
fn integer_of(bytes: &[u8]) -> Result<(Value, &[u8]), ReadError>
    ensures { Gives (λ x. (x.0, x.1.now)) result (integer_at bytes.now) }
{
    let (units, rest) = i64_at(bytes)?;
    Ok((Value::integer(units), rest))
}

#[tactic(auto, unfolding(crate::specs::Reading::string_at))]
fn string_of(bytes: &[u8]) -> Result<(&[u8], &[u8]), ReadError>
    ensures { Gives (λ x. (x.0.now, x.1.now)) result (string_at bytes.now) }
{
    let (len, rest) = u16_at(bytes)?;
    bytes_at(len as usize, rest)
}

#[tactic(auto, unfolding(crate::specs::Reading::text_at))]
fn text_of(alloc: Global, bytes: &[u8]) -> Result<(Value, &[u8]), ReadError>
    ensures { Gives (λ x. (x.0, x.1.now)) result (text_at bytes.now) }
{
    let (text, rest) = string_of(bytes)?;
    if text.is_empty() || !is_text(text) {
        return Err(ReadError::Bad);
    }
    let text = Text::new(alloc, text)?;
    Ok((Value::Text(text), rest))
}

#[tactic(auto, unfolding(crate::specs::Reading::time_at))]
fn time_of(bytes: &[u8]) -> Result<(Value, &[u8]), ReadError>
    ensures { Gives (λ x. (x.0, x.1.now)) result (time_at bytes.now) }
{
    let (seconds, rest) = i64_at(bytes)?;
    if seconds < FIRST_SECOND || LAST_SECOND < seconds {
        return Err(ReadError::Bad);
    }
    Ok((Value::Time(Time::from_seconds(seconds)), rest))
}

/// The number of these units at a scale of at most 18.
fn scaled(units: i64, scale: u8) -> Number
    requires { scale ≤ 18 }
    ensures { result ≡ record { units = units; scale = scale } }
{
    match Number::new(units, scale) {
        Some(number) => number,
        None => unreachable!(),
    }
}

#[tactic(auto, unfolding(crate::specs::Reading::scaled_at))]
fn scaled_of(bytes: &[u8]) -> Result<(Value, &[u8]), ReadError>
    ensures { Gives (λ x. (x.0, x.1.now)) result (scaled_at bytes.now) }
{
    let (scale, rest) = byte_at(bytes)?;
    if scale == 0 || scale > 18 {
        return Err(ReadError::Bad);
    }
    let (units, rest) = i64_at(rest)?;
    Ok((Value::Number(scaled(units, scale)), rest))
}

#[tactic(auto, unfolding(crate::specs::Reading::value_at))]
fn value_of(alloc: Global, version: u8, bytes: &[u8]) -> Result<(Value, &[u8]), ReadError>
    ensures { Gives (λ x. (x.0, x.1.now)) result (value_at version bytes.now) }
{
    let (tag, rest) = byte_at(bytes)?;
    match tag {
        0 => Ok((Value::Null, rest)),
        1 => integer_of(rest),
        2 => text_of(alloc, rest),
        3 => time_of(rest),
        4 if version == 2 => scaled_of(rest),
        _ => Err(ReadError::Bad),
    }
}

fn values_of(alloc: Global, version: u8, count: u8, bytes: &[u8]) -> Result<(Row, &[u8]), ReadError>
    ensures { Gives (λ x. (x.0, x.1.now)) result (many_at (λ b. value_at version b) count bytes.now) }
{
    let mut values = Vec::new(alloc);
    let mut rest = bytes;
    for _ in 0..count {
        let (value, after) = value_of(alloc, version, rest)?;
        values.push(value)?;
        rest = after;
    }
    Ok((Row::from_vec(values), rest))
}

#[tactic(auto, unfolding(crate::specs::Reading::row_at))]
fn row_of(alloc: Global, version: u8, bytes: &[u8]) -> Result<(Row, &[u8]), ReadError>
    ensures { Gives (λ x. (x.0, x.1.now)) result (row_at version bytes.now) }
{
    let (count, rest) = byte_at(bytes)?;
    values_of(alloc, version, count, rest)
}

#[tactic(auto, unfolding(crate::specs::Reading::insert_at))]
fn insert_of(alloc: Global, version: u8, bytes: &[u8]) -> Result<(Op, &[u8]), ReadError>
    ensures { Gives (λ x. (x.0, x.1.now)) result (insert_at version bytes.now) }
{
    let (table, rest) = name_at(alloc, bytes)?;
    let (row, rest) = row_of(alloc, version, rest)?;
    Ok((Op::Insert(table, row), rest))
}

#[tactic(auto, unfolding(crate::specs::Reading::update_at))]
fn update_of(alloc: Global, version: u8, bytes: &[u8]) -> Result<(Op, &[u8]), ReadError>
    ensures { Gives (λ x. (x.0, x.1.now)) result (update_at version bytes.now) }
{
    let (table, rest) = name_at(alloc, bytes)?;
    let (old, rest) = row_of(alloc, version, rest)?;
    let (new, rest) = row_of(alloc, version, rest)?;
    Ok((Op::Update(table, old, new), rest))
}

#[tactic(auto, unfolding(crate::specs::Reading::delete_at))]
fn delete_of(alloc: Global, version: u8, bytes: &[u8]) -> Result<(Op, &[u8]), ReadError>
    ensures { Gives (λ x. (x.0, x.1.now)) result (delete_at version bytes.now) }
{
    let (table, rest) = name_at(alloc, bytes)?;
    let (row, rest) = row_of(alloc, version, rest)?;
    Ok((Op::Delete(table, row), rest))
}

#[tactic(auto, unfolding(crate::specs::Reading::op_at))]
fn op_of(alloc: Global, version: u8, bytes: &[u8]) -> Result<(Op, &[u8]), ReadError>
    ensures { Gives (λ x. (x.0, x.1.now)) result (op_at version bytes.now) }
{
    let (tag, rest) = byte_at(bytes)?;
    match tag {
        1 => insert_of(alloc, version, rest),
        2 => update_of(alloc, version, rest),
        3 => delete_of(alloc, version, rest),
        _ => Err(ReadError::Bad),
    }
}

fn many_ops_of(
    alloc: Global,
    version: u8,
    count: u16,
    bytes: &[u8],
) -> Result<(Seq<Op>, &[u8]), ReadError>
    ensures { Gives (λ x. (x.0, x.1.now)) result (many_at (λ b. op_at version b) count bytes.now) }
{
    let mut ops = Vec::new(alloc);
    let mut rest = bytes;
    for _ in 0..count {
        let (op, after) = op_of(alloc, version, rest)?;
        ops.push(op)?;
        rest = after;
    }
    Ok((Seq::from_vec(ops), rest))
}

#[tactic(auto, unfolding(crate::specs::Reading::ops_at))]
fn ops_of(alloc: Global, version: u8, bytes: &[u8]) -> Result<(Seq<Op>, &[u8]), ReadError>
    ensures { Gives (λ x. (x.0, x.1.now)) result (ops_at version bytes.now) }
{
    let (count, rest) = u16_at(bytes)?;
    if count == 0 || count > 10_000 {
        return Err(ReadError::Bad);
    }
    many_ops_of(alloc, version, count, rest)
}

#[tactic(auto, unfolding(crate::specs::Reading::transaction_at))]
fn transaction_of(
    alloc: Global,
    version: u8,
    bytes: &[u8],
) -> Result<((u64, Seq<Op>), &[u8]), ReadError>
    ensures { Gives (λ x. ((x.0.0, x.0.1), x.1.now)) result (transaction_at version bytes.now) }
{
    let (ticket, rest) = u64_at(bytes)?;
    let (ops, rest) = ops_of(alloc, version, rest)?;
    Ok(((ticket, ops), rest))
}

#[tactic(auto, unfolding(crate::specs::Reading::commit_at))]
fn commit_of(alloc: Global, version: u8, bytes: &[u8]) -> Result<(Entry, &[u8]), ReadError>
    ensures { Gives (λ x. (x.0, x.1.now)) result (commit_at version bytes.now) }
{
    let ((ticket, ops), rest) = transaction_of(alloc, version, bytes)?;
    Ok((Entry::Commit(Ticket(ticket), ops), rest))
}

#[tactic(auto, unfolding(crate::specs::Reading::prepare_at))]
fn prepare_of(alloc: Global, version: u8, bytes: &[u8]) -> Result<(Entry, &[u8]), ReadError>
    ensures { Gives (λ x. (x.0, x.1.now)) result (prepare_at version bytes.now) }
{
    let ((ticket, ops), rest) = transaction_of(alloc, version, bytes)?;
    Ok((Entry::Prepare(Ticket(ticket), ops), rest))
}

#[tactic(auto, unfolding(crate::specs::Reading::passed_at))]
fn passed_of(bytes: &[u8]) -> Result<(Entry, &[u8]), ReadError>
    ensures { Gives (λ x. (x.0, x.1.now)) result (passed_at bytes.now) }
{
    let (ticket, rest) = u64_at(bytes)?;
    Ok((Entry::Passed(Ticket(ticket)), rest))
}

#[tactic(auto, unfolding(crate::specs::Reading::mark_at))]
fn mark_of(bytes: &[u8]) -> Result<(Entry, &[u8]), ReadError>
    ensures { Gives (λ x. (x.0, x.1.now)) result (mark_at bytes.now) }
{
    let (next, rest) = u64_at(bytes)?;
    Ok((Entry::Mark(Ticket(next)), rest))
}

#[tactic(auto, unfolding(crate::specs::Reading::defined_at))]
fn defined_of(alloc: Global, bytes: &[u8]) -> Result<(Entry, &[u8]), ReadError>
    ensures { Gives (λ x. (x.0, x.1.now)) result (defined_at bytes.now) }
{
    let (len, rest) = u32_at(bytes)?;
    let (text, rest) = copy_at(alloc, len as usize, rest)?;
    Ok((Entry::Defined(text), rest))
}

#[tactic(auto, unfolding(crate::specs::Reading::dropped_at))]
fn dropped_of(alloc: Global, bytes: &[u8]) -> Result<(Entry, &[u8]), ReadError>
    ensures { Gives (λ x. (x.0, x.1.now)) result (dropped_at bytes.now) }
{
    let (name, rest) = name_at(alloc, bytes)?;
    Ok((Entry::Dropped(name), rest))
}

fn state_of(byte: u8) -> Result<GroupState, ReadError>
    ensures { Gives (λ x. x) result (state_of byte) }
{
    match byte {
        0 => Ok(GroupState::Off),
        1 => Ok(GroupState::Paused),
        2 => Ok(GroupState::On),
        _ => Err(ReadError::Bad),
    }
}

#[tactic(auto, unfolding(crate::specs::Reading::turned_at))]
fn turned_of(alloc: Global, bytes: &[u8]) -> Result<(Entry, &[u8]), ReadError>
    ensures { Gives (λ x. (x.0, x.1.now)) result (turned_at bytes.now) }
{
    let (name, rest) = name_at(alloc, bytes)?;
    let (byte, rest) = byte_at(rest)?;
    let state = state_of(byte)?;
    Ok((Entry::Turned(name, state), rest))
}

fn flag_of(byte: u8) -> Result<bool, ReadError>
    ensures { Gives (λ x. x) result (flag_of byte) }
{
    match byte {
        0 => Ok(false),
        1 => Ok(true),
        _ => Err(ReadError::Bad),
    }
}

#[tactic(auto, unfolding(crate::specs::Reading::loaded_at))]
fn loaded_of(alloc: Global, bytes: &[u8]) -> Result<(Entry, &[u8]), ReadError>
    ensures { Gives (λ x. (x.0, x.1.now)) result (loaded_at bytes.now) }
{
    let (name, rest) = name_at(alloc, bytes)?;
    let (byte, rest) = byte_at(rest)?;
    let flag = flag_of(byte)?;
    Ok((Entry::Loaded(name, flag), rest))
}

#[tactic(auto, unfolding(crate::specs::Reading::entry_at))]
pub(crate) fn entry_of(
    alloc: Global,
    version: u8,
    bytes: &[u8],
) -> Result<(Entry, &[u8]), ReadError>
    ensures { Gives (λ x. (x.0, x.1.now)) result (entry_at version bytes.now) }
{
    let (tag, rest) = byte_at(bytes)?;
    match tag {
        1 => commit_of(alloc, version, rest),
        2 => prepare_of(alloc, version, rest),
        3 => passed_of(rest),
        4 => mark_of(rest),
        5 => defined_of(alloc, rest),
        6 => dropped_of(alloc, rest),
        7 => turned_of(alloc, rest),
        8 => loaded_of(alloc, rest),
        _ => Err(ReadError::Bad),
    }
}
