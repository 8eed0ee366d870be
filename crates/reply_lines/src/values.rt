//! The bytes of values and numbers, written without taking memory.

ghost use Rattle.std.specs.Prelude.{◌≡◌, ◌≤◌, ◌^◌, ◌∷◌, ℕ};
ghost use Rattle.std.specs.List.{flat_map};
ghost use Rattle.std.specs.Fmt.{decimal};
ghost use Rattle.numbers.specs.NumberTexts.{last_digits, printed_fraction, printed_magnitude, printed_number};
ghost use Rattle.outside.specs.Faults.{HasCause};
ghost use Rattle.row_types.specs.Printing.{doubled_quote, printed, printed_behind, printed_key, quoted};
ghost use Rattle.reply_lines.specs.Output.{Passes};

use crate::output::Output;
use itoa::Buffer;
use numbers::Number;
use outside::{Failed, Sink};
use row_types::{Key, Value};

/// Passes a number on to the sink, in decimal.
///
/// `Failed` as `Output::put`.
pub fn write_number<K: Sink>(output: &mut Output, sink: &mut K, number: u64) -> Result<(), Failed>
    ensures bytes { Passes result (K.written sink.old) (K.written sink.new) output.old output.new (decimal number) }
    ensures cause { HasCause (K.faults sink.old) (K.faults sink.new) result }
{
    let mut digits = Buffer::new();
    output.put(sink, digits.format(number).as_bytes())
}

/// Passes the printed key on to the sink: its values with `|` between.
///
/// `Failed` as `Output::put`.
pub fn write_key<K: Sink>(output: &mut Output, sink: &mut K, key: &Key) -> Result<(), Failed>
    ensures bytes { Passes result (K.written sink.old) (K.written sink.new) output.old output.new
        (printed_key key.now) }
    ensures cause { HasCause (K.faults sink.old) (K.faults sink.new) result }
{
    match key.values().split_first() {
        None => output.put(sink, b""),
        Some((first, rest)) => {
            write_value(output, sink, first)?;
            write_behind(output, sink, rest)
        }
    }
}

fn write_behind<K: Sink>(output: &mut Output, sink: &mut K, values: &[Value]) -> Result<(), Failed>
    ensures bytes { Passes result (K.written sink.old) (K.written sink.new) output.old output.new
        (flat_map printed_behind values.now) }
    ensures cause { HasCause (K.faults sink.old) (K.faults sink.new) result }
{
    for value in values {
        write_one_behind(output, sink, value)?;
    }
    Ok(())
}

fn write_one_behind<K: Sink>(output: &mut Output, sink: &mut K, value: &Value) -> Result<(), Failed>
    ensures bytes { Passes result (K.written sink.old) (K.written sink.new) output.old output.new
        (printed_behind value.now) }
    ensures cause { HasCause (K.faults sink.old) (K.faults sink.new) result }
{
    output.put(sink, b"|")?;
    write_value(output, sink, value)
}

fn write_value<K: Sink>(output: &mut Output, sink: &mut K, value: &Value) -> Result<(), Failed>
    ensures bytes { Passes result (K.written sink.old) (K.written sink.new) output.old output.new (printed value.now) }
    ensures cause { HasCause (K.faults sink.old) (K.faults sink.new) result }
{
    match value {
        Value::Null => output.put(sink, b"NULL"),
        Value::Number(number) => write_decimal(output, sink, *number),
        Value::Text(text) => write_quoted(output, sink, text.as_bytes()),
        Value::Time(time) => output.put(sink, &time.to_text()),
    }
}

// The number with exactly its scale's digits behind the point, and no point at scale 0.
fn write_decimal<K: Sink>(output: &mut Output, sink: &mut K, number: Number) -> Result<(), Failed>
    ensures bytes { Passes result (K.written sink.old) (K.written sink.new) output.old output.new
        (printed_number number) }
    ensures cause { HasCause (K.faults sink.old) (K.faults sink.new) result }
{
    let units = number.units();
    let scale = number.scale();
    if units < 0 {
        write_below_zero(output, sink, scale, units.unsigned_abs())
    } else {
        write_magnitude(output, sink, scale, units.unsigned_abs())
    }
}

fn write_below_zero<K: Sink>(
    output: &mut Output,
    sink: &mut K,
    scale: u8,
    units: u64,
) -> Result<(), Failed>
    requires { scale ≤ 18 }
    ensures bytes { Passes result (K.written sink.old) (K.written sink.new) output.old output.new
        (45 ∷ printed_magnitude scale units) }
    ensures cause { HasCause (K.faults sink.old) (K.faults sink.new) result }
{
    output.put(sink, b"-")?;
    write_magnitude(output, sink, scale, units)
}

fn write_magnitude<K: Sink>(
    output: &mut Output,
    sink: &mut K,
    scale: u8,
    units: u64,
) -> Result<(), Failed>
    requires { scale ≤ 18 }
    ensures bytes { Passes result (K.written sink.old) (K.written sink.new) output.old output.new
        (printed_magnitude scale units) }
    ensures cause { HasCause (K.faults sink.old) (K.faults sink.new) result }
{
    write_number(output, sink, units / power_of_ten(scale))?;
    write_fraction(output, sink, scale, units)
}

fn power_of_ten(exponent: u8) -> u64
    requires { exponent ≤ 18 }
    ensures value { result ≡ 10 ^ exponent }
    ensures least { 1 ≤ result }
{
    10_u64.pow(u32::from(exponent))
}

fn write_fraction<K: Sink>(
    output: &mut Output,
    sink: &mut K,
    scale: u8,
    units: u64,
) -> Result<(), Failed>
    ensures bytes { Passes result (K.written sink.old) (K.written sink.new) output.old output.new
        (printed_fraction scale units) }
    ensures cause { HasCause (K.faults sink.old) (K.faults sink.new) result }
{
    if scale == 0 {
        output.put(sink, b"")
    } else {
        write_behind_point(output, sink, scale, units)
    }
}

fn write_behind_point<K: Sink>(
    output: &mut Output,
    sink: &mut K,
    scale: u8,
    units: u64,
) -> Result<(), Failed>
    ensures bytes { Passes result (K.written sink.old) (K.written sink.new) output.old output.new
        (46 ∷ last_digits scale units) }
    ensures cause { HasCause (K.faults sink.old) (K.faults sink.new) result }
{
    output.put(sink, b".")?;
    write_last_digits(output, sink, scale, units)
}

// So many digits of the number, the last ones, of which there are at most 18.
fn write_last_digits<K: Sink>(
    output: &mut Output,
    sink: &mut K,
    count: u8,
    number: u64,
) -> Result<(), Failed>
    ensures bytes { Passes result (K.written sink.old) (K.written sink.new) output.old output.new
        (last_digits count number) }
    ensures cause { HasCause (K.faults sink.old) (K.faults sink.new) result }
{
    if count == 0 {
        return output.put(sink, b"");
    }
    write_last_digits(output, sink, count - 1, number / 10)?;
    output.put(sink, &[b'0' + (number % 10) as u8])
}

fn write_quoted<K: Sink>(output: &mut Output, sink: &mut K, text: &[u8]) -> Result<(), Failed>
    ensures bytes { Passes result (K.written sink.old) (K.written sink.new) output.old output.new (quoted text.now) }
    ensures cause { HasCause (K.faults sink.old) (K.faults sink.new) result }
{
    output.put(sink, b"'")?;
    write_doubled(output, sink, text)?;
    output.put(sink, b"'")
}

// The bytes, each quote twice.
fn write_doubled<K: Sink>(output: &mut Output, sink: &mut K, text: &[u8]) -> Result<(), Failed>
    ensures bytes { Passes result (K.written sink.old) (K.written sink.new) output.old output.new
        (flat_map doubled_quote text.now) }
    ensures cause { HasCause (K.faults sink.old) (K.faults sink.new) result }
{
    for byte in text {
        write_in_quotes(output, sink, *byte)?;
    }
    Ok(())
}

fn write_in_quotes<K: Sink>(output: &mut Output, sink: &mut K, byte: u8) -> Result<(), Failed>
    ensures bytes { Passes result (K.written sink.old) (K.written sink.new) output.old output.new (doubled_quote byte) }
    ensures cause { HasCause (K.faults sink.old) (K.faults sink.new) result }
{
    if byte == b'\'' {
        return output.put(sink, b"''");
    }
    output.put(sink, &[byte])
}
