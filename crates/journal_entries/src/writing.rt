//! Writing entries behind bytes, where there is room. Nothing here takes memory.

ghost use Rattle.std.specs.Prelude.{◌≡◌, ◌+◌, ◌^◌, ◌<◌, ◌≤◌, length, [], ◌∷◌, ◌++◌, vec_len, vec_capacity};
ghost use Rattle.std.specs.List.{flat_map, AllByRecursion};
ghost use Rattle.std.specs.Int.{w16, w32, w64, to_be_bytes};
ghost use Rattle.journal_entries.specs.Spelling.{signed_bytes, value_bytes, row_bytes, name_bytes, op_bytes, transaction_bytes, state_byte, flag_byte, entry_bytes, IsValue, IsRow, IsName, IsOp, IsTransaction, IsEntry};
ghost use Rattle.journal_entries.specs.Writing.{Writes};

use crate::entry::{Entry, GroupState, Op};
use row_types::Value;
use row_types::tier_base::Ticket;

/// Puts bytes behind the others.
pub fn put_bytes(out: &mut Vec<u8>, bytes: &[u8])
    requires { vec_len out.old + length bytes.now ≤ vec_capacity out.old }
    ensures { Writes out.old out.new bytes.now }
{
    match out.extend_from_slice(bytes) {
        Ok(()) => {}
        Err(_) => unreachable!(),
    }
}

/// Puts a byte behind the others.
pub fn put_byte(out: &mut Vec<u8>, byte: u8)
    requires { vec_len out.old + 1 ≤ vec_capacity out.old }
    ensures { Writes out.old out.new (byte ∷ []) }
{
    out.push_reserved(byte);
}

fn put_signed(out: &mut Vec<u8>, number: i64)
    requires { vec_len out.old + 8 ≤ vec_capacity out.old }
    ensures { Writes out.old out.new (signed_bytes number) }
{
    put_bytes(out, &number.to_be_bytes());
}

fn put_value(out: &mut Vec<u8>, value: &Value)
    requires room { vec_len out.old + length (value_bytes value.now) ≤ vec_capacity out.old }
    requires value { IsValue 2 value.now }
    ensures { Writes out.old out.new (value_bytes value.now) }
{
    match value {
        Value::Null => put_byte(out, 0),
        Value::Number(number) => {
            if number.scale() == 0 {
                put_byte(out, 1);
            } else {
                put_byte(out, 4);
                put_byte(out, number.scale());
            }
            put_signed(out, number.units());
        }
        Value::Text(text) => {
            let bytes = text.as_bytes();
            put_byte(out, 2);
            put_bytes(out, &(bytes.len() as u16).to_be_bytes());
            put_bytes(out, bytes);
        }
        Value::Time(time) => {
            put_byte(out, 3);
            put_signed(out, time.seconds());
        }
    }
}

fn put_values(out: &mut Vec<u8>, values: &[Value])
    requires room { vec_len out.old + length (flat_map value_bytes values.now) ≤ vec_capacity out.old }
    requires values { AllByRecursion (IsValue 2) values.now }
    ensures { Writes out.old out.new (flat_map value_bytes values.now) }
{
    for value in values {
        put_value(out, value);
    }
}

/// Puts a row behind the others.
pub fn put_row(out: &mut Vec<u8>, row: &[Value])
    requires room { vec_len out.old + length (row_bytes row.now) ≤ vec_capacity out.old }
    requires row { IsRow 2 row.now }
    ensures { Writes out.old out.new (row_bytes row.now) }
{
    put_byte(out, row.len() as u8);
    put_values(out, row);
}

/// Puts a name behind the others.
pub fn put_name(out: &mut Vec<u8>, name: &[u8])
    requires room { vec_len out.old + length (name_bytes name.now) ≤ vec_capacity out.old }
    requires name { IsName name.now }
    ensures { Writes out.old out.new (name_bytes name.now) }
{
    put_byte(out, name.len() as u8);
    put_bytes(out, name);
}

fn put_op(out: &mut Vec<u8>, op: &Op)
    requires room { vec_len out.old + length (op_bytes op.now) ≤ vec_capacity out.old }
    requires op { IsOp 2 op.now }
    ensures { Writes out.old out.new (op_bytes op.now) }
{
    match op {
        Op::Insert(table, row) => {
            put_byte(out, 1);
            put_name(out, table.as_slice());
            put_row(out, row.values());
        }
        Op::Update(table, old, new) => {
            put_byte(out, 2);
            put_name(out, table.as_slice());
            put_row(out, old.values());
            put_row(out, new.values());
        }
        Op::Delete(table, row) => {
            put_byte(out, 3);
            put_name(out, table.as_slice());
            put_row(out, row.values());
        }
    }
}

fn put_ops(out: &mut Vec<u8>, ops: &[Op])
    requires room { vec_len out.old + length (flat_map op_bytes ops.now) ≤ vec_capacity out.old }
    requires ops { AllByRecursion (IsOp 2) ops.now }
    ensures { Writes out.old out.new (flat_map op_bytes ops.now) }
{
    for op in ops {
        put_op(out, op);
    }
}

fn put_transaction(out: &mut Vec<u8>, ticket: Ticket, ops: &[Op])
    requires room { vec_len out.old + length (transaction_bytes ticket ops.now) ≤ vec_capacity out.old }
    requires ops { IsTransaction 2 ticket ops.now }
    ensures { Writes out.old out.new (transaction_bytes ticket ops.now) }
{
    put_bytes(out, &ticket.0.to_be_bytes());
    put_bytes(out, &(ops.len() as u16).to_be_bytes());
    put_ops(out, ops);
}

fn state_byte(state: GroupState) -> u8
    ensures { result ≡ state_byte state }
{
    match state {
        GroupState::Off => 0,
        GroupState::Paused => 1,
        GroupState::On => 2,
    }
}

fn put_text(out: &mut Vec<u8>, text: &[u8])
    requires room { vec_len out.old + 4 + length text.now ≤ vec_capacity out.old }
    requires text { length text.now < 2 ^ 32 }
    ensures { Writes out.old out.new (to_be_bytes w32 (length text.now) ++ text.now) }
{
    put_bytes(out, &(text.len() as u32).to_be_bytes());
    put_bytes(out, text);
}

/// Puts an entry's bytes behind the others.
pub fn put_entry(out: &mut Vec<u8>, entry: &Entry)
    requires room { vec_len out.old + length (entry_bytes entry.now) ≤ vec_capacity out.old }
    requires entry { IsEntry 2 entry.now }
    ensures { Writes out.old out.new (entry_bytes entry.now) }
{
    match entry {
        Entry::Commit(ticket, ops) => {
            put_byte(out, 1);
            put_transaction(out, *ticket, ops.as_slice());
        }
        Entry::Prepare(ticket, ops) => {
            put_byte(out, 2);
            put_transaction(out, *ticket, ops.as_slice());
        }
        Entry::Passed(ticket) => {
            put_byte(out, 3);
            put_bytes(out, &ticket.0.to_be_bytes());
        }
        Entry::Mark(next) => {
            put_byte(out, 4);
            put_bytes(out, &next.0.to_be_bytes());
        }
        Entry::Defined(text) => {
            put_byte(out, 5);
            put_text(out, text.as_slice());
        }
        Entry::Dropped(name) => {
            put_byte(out, 6);
            put_name(out, name.as_slice());
        }
        Entry::Turned(name, state) => {
            put_byte(out, 7);
            put_name(out, name.as_slice());
            put_byte(out, state_byte(*state));
        }
        Entry::Loaded(name, flag) => {
            put_byte(out, 8);
            put_name(out, name.as_slice());
            put_byte(out, if *flag { 1 } else { 0 });
        }
    }
}

/// Puts the bytes of several entries behind the others.
pub fn put_entries(out: &mut Vec<u8>, entries: &[Entry])
    requires room { vec_len out.old + length (flat_map entry_bytes entries.now) ≤ vec_capacity out.old }
    requires entries { AllByRecursion (IsEntry 2) entries.now }
    ensures { Writes out.old out.new (flat_map entry_bytes entries.now) }
{
    for entry in entries {
        put_entry(out, entry);
    }
}
