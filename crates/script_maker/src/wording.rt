//! The words of a line that was drawn.

ghost use Rattle.std.specs.Prelude.{◌≡◌, ◌++◌, IfOk, OnOk};
ghost use Rattle.std.specs.Fmt.{decimal};
ghost use Rattle.script_maker.specs.Script.{drawn, drawn_line, line_drawn};

use crate::drawing::{drawn, given_of};
use itoa::Buffer;
use std::alloc::AllocError;

/// Draws a line and puts it behind what is there. It answers the generator's next state.
///
/// The error is want of memory.
pub(crate) fn put_next_drawn(out: &mut Vec<u8>, state: u64, number: u64) -> Result<u64, AllocError>
    ensures state { IfOk result (λ next. next ≡ drawn (drawn state)) }
    ensures line { OnOk result (out.new.items ≡ out.old.items ++ line_drawn number state) }
{
    let first = drawn(state);
    let second = drawn(first);
    put_drawn(out, given_of(8, first), given_of(100, second), number)?;
    Ok(second)
}

// Puts a line behind what is there, by what was drawn: its kind and its key; and by its number in the script.
fn put_drawn(out: &mut Vec<u8>, kind: u64, key: u64, number: u64) -> Result<(), AllocError>
    ensures { OnOk result (out.new.items ≡ out.old.items ++ drawn_line kind key number) }
{
    match kind {
        0 => put_two(
            out,
            b"s1: INSERT INTO C VALUES (",
            key,
            b", 'n",
            number,
            b"')",
        ),
        1 => put_pair(
            out,
            b"s1: UPDATE C SET NAME = 'u",
            number,
            b"' WHERE ID = ",
            key,
        ),
        2 => put_one(out, b"s1: DELETE FROM C WHERE ID = ", key),
        3 => put_one(out, b"s1: SELECT * FROM C WHERE ID = ", key),
        4 => put(out, b"s1: COMMIT"),
        5 => put_two(
            out,
            b"backing: INSERT INTO R VALUES (",
            key,
            b", ",
            number,
            b")",
        ),
        6 => put(out, b"clock: +1000"),
        _ => put(out, b"s1: CALL ttDrain"),
    }
}

fn put(out: &mut Vec<u8>, words: &[u8]) -> Result<(), AllocError>
    ensures { OnOk result (out.new.items ≡ out.old.items ++ words.now) }
{
    out.extend_from_slice(words)
}

// Words with a number behind them.
fn put_one(out: &mut Vec<u8>, front: &[u8], number: u64) -> Result<(), AllocError>
    ensures { OnOk result (out.new.items ≡ out.old.items ++ (front.now ++ decimal number)) }
{
    let mut digits = Buffer::new();
    put(out, front)?;
    put(out, digits.format(number).as_bytes())
}

// Words with a number behind them, twice.
fn put_pair(
    out: &mut Vec<u8>,
    front: &[u8],
    first: u64,
    middle: &[u8],
    second: u64,
) -> Result<(), AllocError>
    ensures { OnOk result (out.new.items
        ≡ out.old.items ++ (front.now ++ decimal first ++ middle.now ++ decimal second)) }
{
    put_one(out, front, first)?;
    put_one(out, middle, second)
}

// Words with two numbers between them.
fn put_two(
    out: &mut Vec<u8>,
    front: &[u8],
    first: u64,
    middle: &[u8],
    second: u64,
    back: &[u8],
) -> Result<(), AllocError>
    ensures { OnOk result (out.new.items
        ≡ out.old.items ++ (front.now ++ decimal first ++ middle.now ++ decimal second ++ back.now)) }
{
    put_pair(out, front, first, middle, second)?;
    put(out, back)
}
