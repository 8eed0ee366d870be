//! The bytes of replies, written without taking memory.

ghost use Rattle.std.specs.Prelude.{◌≡◌, ◌∷◌, [], ◌++◌, Some, codes};
ghost use Rattle.std.specs.List.{flat_map};
ghost use Rattle.std.specs.Fmt.{decimal};
ghost use Rattle.outside.specs.Faults.{HasCause};
ghost use Rattle.row_types.specs.Printing.{printed_key};
ghost use Rattle.tier_base.specs.Codes.{number_of};
ghost use Rattle.cache_tier.specs.Replying.{detail_bytes, last_bytes, letter_byte, note_bytes, reply_bytes, rule_bytes};
ghost use Rattle.reply_lines.specs.Output.{Passes};

use crate::output::Output;
use crate::values::{write_key, write_number};
use cache_tier::reply::{Last, Note, Reply};
use outside::{Failed, Sink};
use row_types::{Detail, Key, Letter, Rule};
use tier_base::Code;

/// Passes a reply on to the sink: its notes, its rows, its last line.
///
/// `Failed` only where the sink failed or took nothing of something: a front of what waited and of the reply is then
/// written.
pub fn write_reply<K: Sink>(output: &mut Output, sink: &mut K, reply: &Reply) -> Result<(), Failed>
    ensures bytes { Passes result (K.written sink.old) (K.written sink.new) output.old output.new
        (reply_bytes (Some reply.now)) }
    ensures cause { HasCause (K.faults sink.old) (K.faults sink.new) result }
{
    write_notes(output, sink, reply.notes.as_slice())?;
    output.put(sink, reply.rows.as_slice())?;
    write_last(output, sink, &reply.last)
}

fn write_notes<K: Sink>(output: &mut Output, sink: &mut K, notes: &[Note]) -> Result<(), Failed>
    ensures bytes { Passes result (K.written sink.old) (K.written sink.new) output.old output.new
        (flat_map note_bytes notes.now) }
    ensures cause { HasCause (K.faults sink.old) (K.faults sink.new) result }
{
    for note in notes {
        write_note(output, sink, note)?;
    }
    Ok(())
}

fn write_note<K: Sink>(output: &mut Output, sink: &mut K, note: &Note) -> Result<(), Failed>
    ensures bytes { Passes result (K.written sink.old) (K.written sink.new) output.old output.new
        (note_bytes note.now) }
    ensures cause { HasCause (K.faults sink.old) (K.faults sink.new) result }
{
    match note {
        Note::Committed(ticket) => write_numbered(output, sink, b"note 131 ", ticket.0),
        Note::RolledBack(ticket) => write_numbered(output, sink, b"note 132 ", ticket.0),
        Note::Propagate(code) => write_coded(output, sink, *code, b" propagate\n"),
        Note::Refresh(code, interval) => write_refresh(output, sink, *code, *interval),
    }
}

fn write_refresh<K: Sink>(
    output: &mut Output,
    sink: &mut K,
    code: Code,
    interval: u64,
) -> Result<(), Failed>
    ensures bytes { Passes result (K.written sink.old) (K.written sink.new) output.old output.new
        (codes "note " ++ (decimal (number_of code) ++ (codes " refresh " ++ (decimal interval ++ 10 ∷ [])))) }
    ensures cause { HasCause (K.faults sink.old) (K.faults sink.new) result }
{
    output.put(sink, b"note ")?;
    write_code(output, sink, code)?;
    write_numbered(output, sink, b" refresh ", interval)
}

// The beginning of a note with a code.
fn write_coded<K: Sink>(
    output: &mut Output,
    sink: &mut K,
    code: Code,
    word: &[u8],
) -> Result<(), Failed>
    ensures bytes { Passes result (K.written sink.old) (K.written sink.new) output.old output.new
        (codes "note " ++ (decimal (number_of code) ++ word.now)) }
    ensures cause { HasCause (K.faults sink.old) (K.faults sink.new) result }
{
    output.put(sink, b"note ")?;
    write_code(output, sink, code)?;
    output.put(sink, word)
}

fn write_last<K: Sink>(output: &mut Output, sink: &mut K, last: &Last) -> Result<(), Failed>
    ensures bytes { Passes result (K.written sink.old) (K.written sink.new) output.old output.new
        (last_bytes last.now) }
    ensures cause { HasCause (K.faults sink.old) (K.faults sink.new) result }
{
    match last {
        Last::Done(number) => write_numbered(output, sink, b"ok ", *number),
        Last::No(rule) => write_ruled(output, sink, b"no ", rule),
        Last::Fault(rule) => write_ruled(output, sink, b"fault ", rule),
    }
}

/// Passes a word and a number on to the sink, which end the line.
///
/// `Failed` as `Output::put`.
pub fn write_numbered<K: Sink>(
    output: &mut Output,
    sink: &mut K,
    word: &[u8],
    number: u64,
) -> Result<(), Failed>
    ensures bytes { Passes result (K.written sink.old) (K.written sink.new) output.old output.new
        (word.now ++ (decimal number ++ 10 ∷ [])) }
    ensures cause { HasCause (K.faults sink.old) (K.faults sink.new) result }
{
    output.put(sink, word)?;
    write_number_line(output, sink, number)
}

// A word and a rule, which end the line.
fn write_ruled<K: Sink>(
    output: &mut Output,
    sink: &mut K,
    word: &[u8],
    rule: &Rule,
) -> Result<(), Failed>
    ensures bytes { Passes result (K.written sink.old) (K.written sink.new) output.old output.new
        (word.now ++ (rule_bytes rule.now ++ 10 ∷ [])) }
    ensures cause { HasCause (K.faults sink.old) (K.faults sink.new) result }
{
    output.put(sink, word)?;
    write_rule_line(output, sink, rule)
}

fn write_rule_line<K: Sink>(output: &mut Output, sink: &mut K, rule: &Rule) -> Result<(), Failed>
    ensures bytes { Passes result (K.written sink.old) (K.written sink.new) output.old output.new
        (rule_bytes rule.now ++ 10 ∷ []) }
    ensures cause { HasCause (K.faults sink.old) (K.faults sink.new) result }
{
    write_rule(output, sink, rule)?;
    output.put(sink, b"\n")
}

fn write_rule<K: Sink>(output: &mut Output, sink: &mut K, rule: &Rule) -> Result<(), Failed>
    ensures bytes { Passes result (K.written sink.old) (K.written sink.new) output.old output.new
        (rule_bytes rule.now) }
    ensures cause { HasCause (K.faults sink.old) (K.faults sink.new) result }
{
    write_code(output, sink, rule.code)?;
    write_detail(output, sink, &rule.detail)
}

fn write_code<K: Sink>(output: &mut Output, sink: &mut K, code: Code) -> Result<(), Failed>
    ensures bytes { Passes result (K.written sink.old) (K.written sink.new) output.old output.new
        (decimal (number_of code)) }
    ensures cause { HasCause (K.faults sink.old) (K.faults sink.new) result }
{
    write_number(output, sink, u64::from(code.number()))
}

fn write_detail<K: Sink>(output: &mut Output, sink: &mut K, detail: &Detail) -> Result<(), Failed>
    ensures bytes { Passes result (K.written sink.old) (K.written sink.new) output.old output.new
        (detail_bytes detail.now) }
    ensures cause { HasCause (K.faults sink.old) (K.faults sink.new) result }
{
    match detail {
        Detail::Nothing => output.put(sink, b""),
        Detail::Byte(number) => write_place(output, sink, *number),
        Detail::Name(name) => write_word(output, sink, name.as_bytes()),
        Detail::Row(name, key) => write_row(output, sink, name.as_bytes(), key),
        Detail::Label(label) => write_word(output, sink, label.as_bytes()),
        Detail::Letter(letter) => write_word(output, sink, &[letter_byte(*letter)]),
        Detail::Limit(limit) => write_word(output, sink, limit.word().as_bytes()),
        Detail::NoType => output.put(sink, b" -"),
    }
}

// A blank and a number.
fn write_place<K: Sink>(output: &mut Output, sink: &mut K, number: u64) -> Result<(), Failed>
    ensures bytes { Passes result (K.written sink.old) (K.written sink.new) output.old output.new
        (32 ∷ decimal number) }
    ensures cause { HasCause (K.faults sink.old) (K.faults sink.new) result }
{
    output.put(sink, b" ")?;
    write_number(output, sink, number)
}

// A table and a key, each behind a blank.
fn write_row<K: Sink>(
    output: &mut Output,
    sink: &mut K,
    name: &[u8],
    key: &Key,
) -> Result<(), Failed>
    ensures bytes { Passes result (K.written sink.old) (K.written sink.new) output.old output.new
        (32 ∷ name.now ++ 32 ∷ printed_key key.now) }
    ensures cause { HasCause (K.faults sink.old) (K.faults sink.new) result }
{
    write_word(output, sink, name)?;
    output.put(sink, b" ")?;
    write_key(output, sink, key)
}

// A blank and a word.
fn write_word<K: Sink>(output: &mut Output, sink: &mut K, word: &[u8]) -> Result<(), Failed>
    ensures bytes { Passes result (K.written sink.old) (K.written sink.new) output.old output.new (32 ∷ word.now) }
    ensures cause { HasCause (K.faults sink.old) (K.faults sink.new) result }
{
    output.put(sink, b" ")?;
    output.put(sink, word)
}

fn write_number_line<K: Sink>(output: &mut Output, sink: &mut K, number: u64) -> Result<(), Failed>
    ensures bytes { Passes result (K.written sink.old) (K.written sink.new) output.old output.new
        (decimal number ++ 10 ∷ []) }
    ensures cause { HasCause (K.faults sink.old) (K.faults sink.new) result }
{
    write_number(output, sink, number)?;
    output.put(sink, b"\n")
}

fn letter_byte(letter: Letter) -> u8
    ensures { result ≡ letter_byte letter }
{
    match letter {
        Letter::A => b'a',
        Letter::B => b'b',
        Letter::C => b'c',
        Letter::D => b'd',
        Letter::E => b'e',
        Letter::F => b'f',
        Letter::G => b'g',
        Letter::H => b'h',
        Letter::I => b'i',
        Letter::J => b'j',
        Letter::K => b'k',
    }
}
