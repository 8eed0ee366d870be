//! Printed numbers.

ghost use Rattle.std.specs.Prelude.{◌≡◌, ◌≤◌, ◌++◌, take, vec_len, OnErr, OnOk};
ghost use Rattle.numbers.specs.NumberTexts.{last_digits, printed_fraction, printed_magnitude, printed_number};

use crate::number::{Number, power_of_ten};
use itoa::Buffer;
use std::alloc::AllocError;

impl Number {
    /// Puts the number behind what the buffer holds, with exactly its scale's digits behind the point, and no point at
    /// scale 0. Where memory is wanting the buffer holds what it held.
    pub fn print_into(self, out: &mut Vec<u8>) -> Result<(), AllocError>
        ensures ok { OnOk result (out.new.items ≡ out.old.items ++ printed_number self) }
        ensures err { OnErr result (out.new.items ≡ out.old.items) }
    {
        let len = out.len();
        let done = append_number(out, self);
        if done.is_err() {
            out.truncate(len);
        }
        done
    }
}

fn append_number(out: &mut Vec<u8>, number: Number) -> Result<(), AllocError>
    ensures ok { OnOk result (out.new.items ≡ out.old.items ++ printed_number number) }
    ensures err { OnErr result (take (vec_len out.old) out.new.items ≡ out.old.items) }
{
    let units = number.units();
    if units < 0 {
        out.push(b'-')?;
    }
    append_magnitude(out, number.scale(), units.unsigned_abs())
}

fn append_magnitude(out: &mut Vec<u8>, scale: u8, units: u64) -> Result<(), AllocError>
    requires { scale ≤ 18 }
    ensures ok { OnOk result (out.new.items ≡ out.old.items ++ printed_magnitude scale units) }
    ensures err { OnErr result (take (vec_len out.old) out.new.items ≡ out.old.items) }
{
    let mut digits = Buffer::new();
    out.extend_from_slice(digits.format(units / power_of_ten(scale)).as_bytes())?;
    append_fraction(out, scale, units)
}

fn append_fraction(out: &mut Vec<u8>, scale: u8, units: u64) -> Result<(), AllocError>
    ensures ok { OnOk result (out.new.items ≡ out.old.items ++ printed_fraction scale units) }
    ensures err { OnErr result (take (vec_len out.old) out.new.items ≡ out.old.items) }
{
    if scale == 0 {
        return Ok(());
    }
    out.push(b'.')?;
    append_last_digits(out, scale, units)
}

fn append_last_digits(out: &mut Vec<u8>, count: u8, number: u64) -> Result<(), AllocError>
    ensures ok { OnOk result (out.new.items ≡ out.old.items ++ last_digits count number) }
    ensures err { OnErr result (take (vec_len out.old) out.new.items ≡ out.old.items) }
{
    if count == 0 {
        return Ok(());
    }
    append_last_digits(out, count - 1, number / 10)?;
    out.push(b'0' + (number % 10) as u8)?;
    Ok(())
}
