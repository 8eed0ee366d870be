//! Bytes on their way to a sink.

ghost use Rattle.std.specs.Prelude.{◌≡◌, [], ◌++◌, IfOk, OnOk, MatchBool};
ghost use Rattle.outside.specs.Faults.{HasCause};
ghost use Rattle.reply_lines.specs.Output.{Passes};

use outside::{Failed, Sink, put_all};
use std::alloc::{AllocError, Global};
use std::marker::Model;

/// How many bytes wait at most.
const BUFFER_BYTES: usize = 65_536;

/// The bytes that wait for a sink. Clauses see them as a list.
#[derive(Drop)]
pub struct Output {
    waiting: Vec<u8>,
}

impl Model for Output {
    ghost use Rattle.std.specs.Prelude.{List, ℕ};

    ghost Value = { List ℕ };

    ghost view = { λ output. output.waiting.items };
}

impl Output {
    /// A buffer in which nothing waits. All memory that it will ever want is taken here.
    pub fn new(alloc: Global) -> Result<Output, AllocError>
        ensures { IfOk result (λ output. output ≡ []) }
    {
        Ok(Output {
            waiting: Vec::with_capacity(alloc, BUFFER_BYTES)?,
        })
    }

    /// Passes bytes on: they wait behind the others, and where the buffer is full they are written.
    ///
    /// `Failed` only where the sink failed or took nothing of something: of all that waited and of these bytes a front
    /// is then written.
    pub fn put<K: Sink>(&mut self, sink: &mut K, bytes: &[u8]) -> Result<(), Failed>
        ensures bytes { Passes result (K.written sink.old) (K.written sink.new) self.old self.new bytes.now }
        ensures cause { HasCause (K.faults sink.old) (K.faults sink.new) result }
    {
        if self.keeps(bytes) {
            return Ok(());
        }
        self.flush(sink)?;
        if self.keeps(bytes) {
            return Ok(());
        }
        put_all(sink, bytes)
    }

    /// Writes all that waits.
    ///
    /// `Failed` only where the sink failed or took nothing of something: a front is then written.
    pub fn flush<K: Sink>(&mut self, sink: &mut K) -> Result<(), Failed>
        ensures bytes { Passes result (K.written sink.old) (K.written sink.new) self.old self.new [] }
        ensures empty { OnOk result (self.new ≡ []) }
        ensures cause { HasCause (K.faults sink.old) (K.faults sink.new) result }
    {
        put_all(sink, self.waiting.as_slice())?;
        self.waiting.clear();
        Ok(())
    }

    // Puts the bytes behind those that wait, where there is room.
    fn keeps(&mut self, bytes: &[u8]) -> bool
        ensures { MatchBool result (self.new ≡ self.old ++ bytes.now) (self.new ≡ self.old) }
    {
        bytes.len() <= self.waiting.capacity() - self.waiting.len()
            && self.waiting.extend_from_slice(bytes).is_ok()
    }
}
