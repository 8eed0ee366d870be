//! The line that is being read.

ghost use Rattle.std.specs.Prelude.{◌≡◌, ◌==◌, [], ◌∷◌, ◌++◌, IfOk, length};
ghost use Rattle.session_cli.specs.Cutting.{front_of, text_of, without_return};

use std::alloc::{AllocError, Global};
use std::marker::Model;

/// How many bytes of a line are kept: one more than a line may have.
const KEPT_BYTES: usize = 65_537;

/// The greatest number of bytes of a line, its carriage return counted.
const LINE_BYTES: usize = 65_536;

/// The front of a line: as many of its bytes as show whether it is too long. Clauses see these bytes.
#[derive(Drop)]
pub struct LineBuffer {
    bytes: Vec<u8>,
}

impl Model for LineBuffer {
    ghost use Rattle.std.specs.Prelude.{List, ℕ, ◌≤◌, length, vec_capacity};

    ghost Value = { List ℕ };

    ghost view = { λ line. line.bytes.items };

    ghost invariant = { λ line. (65537 ≤ vec_capacity line.bytes) × (length line.bytes.items ≤ 65537) };
}

impl LineBuffer {
    /// The buffer of a line without bytes. All memory that it will ever want is taken here.
    pub fn new(alloc: Global) -> Result<LineBuffer, AllocError>
        ensures { IfOk result (λ line. line ≡ []) }
    {
        Ok(LineBuffer {
            bytes: Vec::with_capacity(alloc, KEPT_BYTES)?,
        })
    }

    /// Puts a byte behind the line. A byte past those that are kept is dropped.
    pub fn push(&mut self, byte: u8)
        ensures { self.new ≡ front_of (self.old ++ byte ∷ []) }
    {
        if self.bytes.len() < KEPT_BYTES {
            self.bytes.push_reserved(byte);
        }
    }

    /// Begins a new line.
    pub fn clear(&mut self)
        ensures { self.new ≡ [] }
    {
        self.bytes.clear();
    }

    /// Whether the line has no bytes.
    pub fn is_empty(&self) -> bool
        ensures { result ≡ (length self.now == 0) }
    {
        self.bytes.is_empty()
    }

    /// The bytes kept.
    pub fn as_bytes(&self) -> &[u8]
        ensures { result.now ≡ self.now }
    {
        self.bytes.as_slice()
    }

    /// What the tier is given of the line where a line feed ends it: it has no carriage return at its end, unless it
    /// is too long.
    pub fn text(&self) -> &[u8]
        ensures { result.now ≡ text_of self.now }
    {
        if self.bytes.len() > LINE_BYTES {
            return self.bytes.as_slice();
        }
        without_return(self.bytes.as_slice())
    }
}

/// The bytes without a carriage return at their end.
fn without_return(bytes: &[u8]) -> &[u8]
    ensures { result.now ≡ without_return bytes.now }
{
    match bytes.split_last() {
        None => bytes,
        Some((last, front)) => { if *last == b'\r' { front } else { bytes } }
    }
}
