//! The script on its way to a sink.

ghost use Rattle.std.specs.Prelude.{◌≡◌, ◌≤◌, IfOk, OnErr};
ghost use Rattle.outside.specs.Faults.{Rose};
ghost use Rattle.outside.specs.Writing.{Writes};
ghost use Rattle.script_maker.specs.Script.{script_bytes};
ghost use Rattle.script_maker.specs.Making.{Moves, Passes};

use crate::lines::ScriptLines;
use outside::{Failed, Sink, put_all};
use std::alloc::{AllocError, Global};

/// So many bytes are written at once, and at most a line more.
const PIECE_BYTES: usize = 65_536;

/// How many bytes a line has at most, with its line end.
const LINE_BYTES: usize = 128;

/// Why a script isn't written whole.
#[derive(Clone, Copy, Debug, PartialEq, Eq)]
pub enum MakeError {
    /// The sink failed, or took nothing of something.
    Sink,
    /// Memory was wanting.
    Memory,
}

/// Writes the script of a number into the sink, line by line through one buffer.
///
/// After an error a front of the script is written. `Sink` only where the sink failed in this call, or took nothing of
/// something.
pub fn write_script<K: Sink>(alloc: Global, sink: &mut K, number: u32) -> Result<(), MakeError>
    ensures bytes { Writes result (K.written sink.old) (K.written sink.new) (script_bytes number) }
    ensures cause { result ≡ Err MakeError.Sink → Rose (K.faults sink.old) (K.faults sink.new) }
{
    let Ok(mut waiting) = Vec::with_capacity(alloc, PIECE_BYTES + LINE_BYTES) else {
        return Err(MakeError::Memory);
    };
    let mut lines = ScriptLines::new(number);
    'lines: loop {
        let Ok(more) = put_line(&mut lines, &mut waiting) else {
            return Err(MakeError::Memory);
        };
        let Ok(()) = pass_on(sink, &mut waiting, more) else {
            return Err(MakeError::Sink);
        };
        if !more {
            return Ok(());
        }
    }
}

// Puts the next line with its line end behind what waits. False where no line is left.
fn put_line(lines: &mut ScriptLines, waiting: &mut Vec<u8>) -> Result<bool, AllocError>
    ensures { IfOk result (Moves lines.old lines.new waiting.old.items waiting.new.items) }
{
    let more = lines.put_next(waiting)?;
    if more {
        waiting.push(b'\n')?;
    }
    Ok(more)
}

// Writes what waits, where a piece of it is full or no more comes.
fn pass_on<K: Sink>(sink: &mut K, waiting: &mut Vec<u8>, more: bool) -> Result<(), Failed>
    ensures bytes { Passes result (K.written sink.old) (K.written sink.new) waiting.old.items waiting.new.items more }
    ensures later { K.faults sink.old ≤ K.faults sink.new }
    ensures cause { OnErr result (Rose (K.faults sink.old) (K.faults sink.new)) }
{
    if more && waiting.len() < PIECE_BYTES {
        return Ok(());
    }
    put_all(sink, waiting.as_slice())?;
    waiting.clear();
    Ok(())
}
