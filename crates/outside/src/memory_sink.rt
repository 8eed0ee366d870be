//! A sink in memory.

ghost use Rattle.std.specs.Prelude.{◌≡◌, [], Some};

use crate::fault::Failed;
use crate::sink::Sink;
use std::alloc::Global;

/// A sink that tells everything: it takes a given number of bytes at a time, and fails at chosen calls.
pub struct MemorySink {
    bytes: Vec<u8>,
    piece: usize,
    calls: u64,
    failing: Vec<u64>,
    faults: u64,
}

impl Drop for MemorySink {
    fn drop(self) {
        let Self {
            bytes: _,
            piece: _,
            calls: _,
            failing: _,
            faults: _,
        } = self;
    }
}

impl MemorySink {
    /// An empty sink, which takes at most `piece` bytes at once: with 0 it takes nothing, which is a fault. The calls
    /// that fail are named by their number, from 0.
    pub fn new(alloc: Global, piece: usize, failing: Vec<u64>) -> MemorySink
        ensures written { ⟦<MemorySink as Sink>⟧.written result ≡ Some [] }
        ensures faults { ⟦<MemorySink as Sink>⟧.faults result ≡ 0 }
    {
        MemorySink {
            bytes: Vec::new(alloc),
            piece,
            calls: 0,
            failing,
            faults: 0,
        }
    }

    /// The bytes written so far.
    pub fn bytes(&self) -> &[u8]
        ensures { ⟦<MemorySink as Sink>⟧.written self.now ≡ Some result.now }
    {
        self.bytes.as_slice()
    }
}

impl Sink for MemorySink {
    ghost written = { λ sink. Some sink.bytes.items };

    ghost faults = { λ sink. sink.faults };

    /// Takes as many of the bytes as a piece has, or all where there are fewer.
    ///
    /// `Failed`, with nothing taken and the count of faults raised, in three cases: the call is one of those chosen, a
    /// piece has no bytes, or memory for the bytes is wanting. The third is told as a fault since a sink has no other
    /// answer for it.
    fn put(&mut self, bytes: &[u8]) -> Result<usize, Failed> {
        let call = self.calls;
        self.calls = self.calls.saturating_add(1);
        if self.failing.contains(&call) || self.piece == 0 {
            self.faults = self.faults.saturating_add(1);
            return Err(Failed);
        }
        let count = bytes.len().min(self.piece);
        match self.bytes.extend_from_slice(&bytes[..count]) {
            Ok(()) => Ok(count),
            Err(_) => {
                self.faults = self.faults.saturating_add(1);
                Err(Failed)
            }
        }
    }
}
