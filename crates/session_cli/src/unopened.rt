//! The line that is written where no engine is opened.

ghost use Rattle.std.specs.Prelude.{◌≡◌, ◌∷◌, [], ◌++◌, codes};
ghost use Rattle.std.specs.Fmt.{decimal};
ghost use Rattle.outside.specs.Faults.{HasCause};
ghost use Rattle.row_types.specs.Printing.{printed_key};
ghost use Rattle.reply_lines.specs.Output.{Passes};
ghost use Rattle.session_cli.specs.Opening.{slot_number, unopened_line};

use cache_engine::opening::OpenError;
use outside::{Failed, Sink, Slot};
use reply_lines::{Output, write_key, write_number, write_numbered};
use row_types::Key;

/// Passes the line on that says why no engine is opened: `fault 202`, `damaged S P`, `fault 210 TABLE KEY`. A failed
/// call of the backing database and want of memory have no line. (The lines are this project's rule.)
///
/// `Failed` only where the sink failed or took nothing of something: a front is then written.
pub fn write_unopened<K: Sink>(
    output: &mut Output,
    sink: &mut K,
    error: &OpenError,
) -> Result<(), Failed>
    ensures bytes { Passes result (K.written sink.old) (K.written sink.new) output.old output.new
        (unopened_line error.now) }
    ensures cause { HasCause (K.faults sink.old) (K.faults sink.new) result }
{
    match error {
        OpenError::Disk => output.put(sink, b"fault 202\n"),
        OpenError::Bank => output.put(sink, b""),
        OpenError::Damaged(slot, place) => write_damaged(output, sink, *slot, *place),
        OpenError::Differs(table, key) => write_differing(output, sink, table.as_bytes(), key),
        OpenError::Memory => output.put(sink, b""),
    }
}

// The first damaged place of the journal.
fn write_damaged<K: Sink>(
    output: &mut Output,
    sink: &mut K,
    slot: Slot,
    place: u64,
) -> Result<(), Failed>
    ensures bytes { Passes result (K.written sink.old) (K.written sink.new) output.old output.new
        (codes "damaged " ++ (decimal (slot_number slot) ++ (codes " " ++ (decimal place ++ 10 ∷ [])))) }
    ensures cause { HasCause (K.faults sink.old) (K.faults sink.new) result }
{
    output.put(sink, b"damaged ")?;
    write_number(output, sink, slot_number(slot))?;
    write_numbered(output, sink, b" ", place)
}

fn slot_number(slot: Slot) -> u64
    ensures { result ≡ slot_number slot }
{
    match slot {
        Slot::First => 0,
        Slot::Second => 1,
    }
}

// 210 of a row: its table and its key.
fn write_differing<K: Sink>(
    output: &mut Output,
    sink: &mut K,
    table: &[u8],
    key: &Key,
) -> Result<(), Failed>
    ensures bytes { Passes result (K.written sink.old) (K.written sink.new) output.old output.new
        (codes "fault 210 " ++ (table.now ++ (32 ∷ (printed_key key.now ++ 10 ∷ [])))) }
    ensures cause { HasCause (K.faults sink.old) (K.faults sink.new) result }
{
    output.put(sink, b"fault 210 ")?;
    output.put(sink, table)?;
    write_key_line(output, sink, key)
}

// A blank and a key, which end the line.
fn write_key_line<K: Sink>(output: &mut Output, sink: &mut K, key: &Key) -> Result<(), Failed>
    ensures bytes { Passes result (K.written sink.old) (K.written sink.new) output.old output.new
        (32 ∷ (printed_key key.now ++ 10 ∷ [])) }
    ensures cause { HasCause (K.faults sink.old) (K.faults sink.new) result }
{
    output.put(sink, b" ")?;
    write_key(output, sink, key)?;
    output.put(sink, b"\n")
}
