//! How many bytes entries take. Nothing here takes memory.

ghost use Rattle.std.specs.Prelude.{◌≡◌, ◌+◌, ℕ, length};
ghost use Rattle.std.specs.List.{flat_map};
ghost use Rattle.journal_entries.specs.Sizes.{capped};
ghost use Rattle.journal_entries.specs.Spelling.{entry_bytes, op_bytes, row_bytes, transaction_bytes, value_bytes};

use crate::entry::{Entry, Op};
use row_types::Value;

fn value_size(value: &Value) -> u64
    ensures { result ≡ capped (length (value_bytes value.now)) }
{
    match value {
        Value::Null => 1,
        Value::Number(number) => { if number.scale() == 0 { 9 } else { 10 } }
        Value::Text(text) => (text.as_bytes().len() as u64).saturating_add(3),
        Value::Time(_) => 9,
    }
}

fn values_size(values: &[Value]) -> u64
    ensures { result ≡ capped (length (flat_map value_bytes values.now)) }
{
    let mut size: u64 = 0;
    for value in values {
        size = size.saturating_add(value_size(value));
    }
    size
}

/// How many bytes the row takes; 2^64 - 1 where they are more.
pub fn row_size(row: &[Value]) -> u64
    ensures { result ≡ capped (length (row_bytes row.now)) }
{
    values_size(row).saturating_add(1)
}

fn op_size(op: &Op) -> u64
    ensures { result ≡ capped (length (op_bytes op.now)) }
{
    match op {
        Op::Insert(table, row) => named_size(table.as_slice(), row_size(row.values())),
        Op::Update(table, old, new) => {
            let rows = row_size(old.values()).saturating_add(row_size(new.values()));
            named_size(table.as_slice(), rows)
        }
        Op::Delete(table, row) => named_size(table.as_slice(), row_size(row.values())),
    }
}

/// The size of a tag, a name and what stands behind it.
fn named_size(name: &[u8], more: u64) -> u64
    ensures { (rest : ℕ) → more ≡ capped rest → result ≡ capped (2 + length name.now + rest) }
{
    (name.len() as u64).saturating_add(2).saturating_add(more)
}

fn ops_size(ops: &[Op]) -> u64
    ensures { result ≡ capped (length (flat_map op_bytes ops.now)) }
{
    let mut size: u64 = 0;
    for op in ops {
        size = size.saturating_add(op_size(op));
    }
    size
}

/// How many bytes the entry takes; 2^64 - 1 where they are more.
pub fn entry_size(entry: &Entry) -> u64
    ensures { result ≡ capped (length (entry_bytes entry.now)) }
{
    match entry {
        Entry::Commit(_, ops) => ops_size(ops.as_slice()).saturating_add(11),
        Entry::Prepare(_, ops) => ops_size(ops.as_slice()).saturating_add(11),
        Entry::Passed(_) => 9,
        Entry::Mark(_) => 9,
        Entry::Defined(text) => (text.len() as u64).saturating_add(5),
        Entry::Dropped(name) => (name.len() as u64).saturating_add(2),
        Entry::Turned(name, _) => (name.len() as u64).saturating_add(3),
        Entry::Loaded(name, _) => (name.len() as u64).saturating_add(3),
    }
}

/// How many bytes the entries take together; 2^64 - 1 where they are more.
pub fn entries_size(entries: &[Entry]) -> u64
    ensures { result ≡ capped (length (flat_map entry_bytes entries.now)) }
{
    let mut size: u64 = 0;
    for entry in entries {
        size = size.saturating_add(entry_size(entry));
    }
    size
}
