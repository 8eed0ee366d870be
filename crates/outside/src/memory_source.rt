//! A source in memory.

ghost use Rattle.std.specs.Prelude.{◌≡◌, ◌<◌, ◌≤◌, Some, drop, length, vec_len};

use crate::fault::Failed;
use crate::source::Source;

/// A source that tells everything: it gives its bytes in pieces, and fails at chosen calls.
#[derive(Drop)]
pub struct MemorySource {
    bytes: Vec<u8>,
    at: usize,
    piece: usize,
    calls: u64,
    failing: Vec<u64>,
    faults: u64,
    ghost within: { at ≤ vec_len bytes },
    ghost some: { 0 < piece },
}

impl MemorySource {
    /// A source of these bytes, which gives at most `piece` of them at once. The calls that fail are named by their
    /// number, from 0. A condition is that a piece has bytes.
    pub fn new(bytes: Vec<u8>, piece: usize, failing: Vec<u64>) -> MemorySource
        requires { 0 < piece }
        ensures left { ⟦<MemorySource as Source>⟧.left result ≡ Some bytes.items }
        ensures faults { ⟦<MemorySource as Source>⟧.faults result ≡ 0 }
    {
        MemorySource {
            bytes,
            at: 0,
            piece,
            calls: 0,
            failing,
            faults: 0,
        }
    }

    // The bytes that are still to come.
    fn rest(&self) -> &[u8]
        ensures { result.now ≡ drop self.now.at self.now.bytes.items }
    {
        &self.bytes[self.at..]
    }
}

impl Source for MemorySource {
    ghost left = { λ source. Some (drop source.at source.bytes.items) };

    ghost faults = { λ source. source.faults };

    fn take(&mut self, buf: &mut [u8]) -> Result<usize, Failed> {
        let call = self.calls;
        self.calls = self.calls.saturating_add(1);
        if self.failing.contains(&call) {
            self.faults = self.faults.saturating_add(1);
            return Err(Failed);
        }
        let rest = self.rest();
        let count = rest.len().min(self.piece).min(buf.len());
        buf[..count].copy_from_slice(&rest[..count]);
        self.at += count;
        Ok(count)
    }
}
