//! Tokens with their places.
ghost use Rattle.std.specs.Prelude.{◌≡◌};
ghost use Rattle.sql_tokens.specs.Kinds.{code, is_kind};

use crate::kind::Kind;

/// A token of a line: its kind and the bytes that it takes.
#[derive(Clone, Copy)]
pub struct Token {
    /// what it is
    pub kind: Kind,
    /// the place of its first byte
    pub start: usize,
    /// the place behind its last byte
    pub end: usize,
}

/// The place of the kind among the kinds.
pub fn number_of(kind: Kind) -> u8
    ensures { result ≡ code kind }
{
    kind as u8
}

/// Whether the kinds are the same.
pub fn is_kind(kind: Kind, other: Kind) -> bool
    ensures { result ≡ is_kind kind other }
{
    number_of(kind) == number_of(other)
}
