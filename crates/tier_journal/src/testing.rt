//! Whether an entry can be put into a batch.

ghost use Rattle.std.specs.Prelude.{◌≡◌, [], ◌≤◌, ◌<◌, ◌^◌, FitsSigned, IsTrue, length};
ghost use Rattle.std.specs.Int.{w64};
ghost use Rattle.std.specs.List.{AllByRecursion};
ghost use Rattle.std.specs.Str.{is_utf8};
ghost use Rattle.journal_entries.specs.Spelling.{IsName, IsRow, IsValue};
ghost use Rattle.cache_tier.specs.Journals.{Commits, Numbers, Prepares};
ghost use Rattle.tier_journal.specs.Batches.{CanFollow};
ghost use Rattle.tier_journal.specs.Writing.{CanBeWritten, name_in};

use crate::batch::Batch;
use numbers::Number;
use row_types::Value;
use table_defs::TableDef;
use table_state::{Op, Sealed};
use tier_base::{TableId, Ticket};

fn is_text(bytes: &[u8]) -> bool
    ensures { result ≡ is_utf8 bytes.now }
{
    match str::from_utf8(bytes) {
        Ok(_) => true,
        Err(_) => false,
    }
}

/// A number has bytes.
fn is_number(number: Number) -> bool
    ensures units { FitsSigned w64 number.units }
    ensures scale { IsTrue result → number.scale ≤ 18 }
{
    let _units = number.units();
    number.scale() <= 18
}

/// Whether the value has bytes: a text is UTF-8, not empty, and of less than 2^16 bytes.
fn is_value(value: &Value) -> bool
    ensures { IsTrue result → IsValue 2 value.now }
{
    match value {
        Value::Null => true,
        Value::Number(number) => is_number(*number),
        Value::Text(text) => {
            let bytes = text.as_bytes();
            !bytes.is_empty() && bytes.len() < 65_536 && is_text(bytes)
        }
        Value::Time(time) => {
            let _seconds = time.seconds();
            true
        }
    }
}

fn are_values(values: &[Value]) -> bool
    ensures { IsTrue result → AllByRecursion (IsValue 2) values.now }
{
    for value in values {
        if !is_value(value) {
            return false;
        }
    }
    true
}

fn is_row(values: &[Value]) -> bool
    ensures { IsTrue result → IsRow 2 values.now }
{
    values.len() < 256 && are_values(values)
}

/// Whether the schema has the table, with a name of less than 256 bytes.
fn has_table(schema: &[TableDef], table: TableId) -> bool
    ensures there { IsTrue result → table.0 < length schema.now }
    ensures name { IsTrue result → IsName (name_in schema.now table) }
{
    match schema.get(table.0 as usize) {
        Some(def) => def.name.as_bytes().len() < 256,
        None => false,
    }
}

fn is_op(schema: &[TableDef], op: &Op) -> bool
    ensures { IsTrue result → CanBeWritten schema.now op.now }
{
    match op {
        Op::Insert(table, row) => has_table(schema, *table) && is_row(row.values()),
        Op::Update(table, old, new) => {
            has_table(schema, *table) && is_row(old.values()) && is_row(new.values())
        }
        Op::Delete(table, row) => has_table(schema, *table) && is_row(row.values()),
    }
}

fn are_ops(schema: &[TableDef], ops: &[Op]) -> bool
    ensures { IsTrue result → AllByRecursion (CanBeWritten schema.now) ops.now }
{
    for op in ops {
        if !is_op(schema, op) {
            return false;
        }
    }
    true
}

impl Batch {
    /// Whether the number of a passed-on write can be put behind the batch's entries: it is greater than theirs and at
    /// most 2^63 - 1.
    pub fn can_number(&self, ticket: Ticket) -> bool
        ensures { IsTrue result → CanFollow [] self.now (Numbers ticket.0) }
    {
        self.standing.last < ticket.0 && ticket.0 < 1 << 63
    }

    /// Whether the transaction can be put behind the batch's entries: its ticket is greater than theirs and at most
    /// 2^63 - 1, its tables are of the schema, it has from 1 to 10,000 operations, and its rows have bytes.
    pub fn can_take(&self, schema: &[TableDef], sealed: &Sealed) -> bool
        ensures commit { IsTrue result → CanFollow schema.now self.now (Commits sealed.now) }
        ensures prepare { IsTrue result → CanFollow schema.now self.now (Prepares sealed.now) }
    {
        if sealed.ticket.0 <= self.standing.last {
            return false;
        }
        if sealed.ticket.0 >= 1 << 63 {
            return false;
        }
        if sealed.ops.is_empty() {
            return false;
        }
        if sealed.ops.len() > 10_000 {
            return false;
        }
        are_ops(schema, sealed.ops.as_slice())
    }
}
