//! Printed values and keys.

ghost use Rattle.std.specs.Prelude.{◌≡◌, ◌++◌, take, vec_len, IfOk, OnErr, OnOk};
ghost use Rattle.std.specs.List.{flat_map};
ghost use Rattle.row_types.specs.Printing.{printed, printed_behind, printed_key, quoted};

use crate::key::Key;
use crate::value::Value;
use std::alloc::{AllocError, Global};

/// The printed value: `NULL`, a number in decimal with exactly its scale's digits behind the point, a text in single
/// quotes with each quote in it twice, a time as
/// `YYYY-MM-DD HH:MM:SS`.
pub fn print(alloc: Global, value: &Value) -> Result<Vec<u8>, AllocError>
    ensures { IfOk result (λ text. text.items ≡ printed value.now) }
{
    let mut text = Vec::new(alloc);
    print_into(&mut text, value)?;
    Ok(text)
}

/// Puts the printed value behind what the buffer holds. Where memory is wanting the buffer holds what it held.
pub fn print_into(out: &mut Vec<u8>, value: &Value) -> Result<(), AllocError>
    ensures ok { OnOk result (out.new.items ≡ out.old.items ++ printed value.now) }
    ensures err { OnErr result (out.new.items ≡ out.old.items) }
{
    match value {
        Value::Null => out.extend_from_slice(b"NULL"),
        Value::Number(number) => number.print_into(out),
        Value::Text(text) => print_quoted(out, text.as_bytes()),
        Value::Time(time) => out.extend_from_slice(&time.to_text()),
    }
}

/// Puts the values of the key, with `|` between, behind what the buffer holds. Where memory is wanting the buffer
/// holds what it held.
pub fn print_key_into(out: &mut Vec<u8>, key: &Key) -> Result<(), AllocError>
    ensures ok { OnOk result (out.new.items ≡ out.old.items ++ printed_key key.now) }
    ensures err { OnErr result (out.new.items ≡ out.old.items) }
{
    let len = out.len();
    let done = print_values_into(out, key.values());
    if done.is_err() {
        out.truncate(len);
    }
    done
}

/// Puts the values, with `|` between, behind what the buffer holds. Where memory is wanting the buffer begins with what
/// it held.
pub fn print_values_into(out: &mut Vec<u8>, values: &[Value]) -> Result<(), AllocError>
    ensures ok { OnOk result (out.new.items ≡ out.old.items ++ printed_key values.now) }
    ensures err { OnErr result (take (vec_len out.old) out.new.items ≡ out.old.items) }
{
    match values.split_first() {
        None => Ok(()),
        Some((first, rest)) => {
            print_into(out, first)?;
            append_behind(out, rest)
        }
    }
}

fn append_behind(out: &mut Vec<u8>, values: &[Value]) -> Result<(), AllocError>
    ensures ok { OnOk result (out.new.items ≡ out.old.items ++ flat_map printed_behind values.now) }
    ensures err { OnErr result (take (vec_len out.old) out.new.items ≡ out.old.items) }
{
    for value in values {
        out.push(b'|')?;
        print_into(out, value)?;
    }
    Ok(())
}

fn print_quoted(out: &mut Vec<u8>, text: &[u8]) -> Result<(), AllocError>
    ensures ok { OnOk result (out.new.items ≡ out.old.items ++ quoted text.now) }
    ensures err { OnErr result (out.new.items ≡ out.old.items) }
{
    let len = out.len();
    let done = append_quoted(out, text);
    if done.is_err() {
        out.truncate(len);
    }
    done
}

fn append_quoted(out: &mut Vec<u8>, text: &[u8]) -> Result<(), AllocError>
    ensures ok { OnOk result (out.new.items ≡ out.old.items ++ quoted text.now) }
    ensures err { OnErr result (take (vec_len out.old) out.new.items ≡ out.old.items) }
{
    out.push(b'\'')?;
    for byte in text {
        if *byte == b'\'' {
            out.push(b'\'')?;
        }
        out.push(*byte)?;
    }
    out.push(b'\'')?;
    Ok(())
}
