//! The tokens of a line that are still to be read.
ghost use Rattle.std.specs.Prelude.{◌≡◌, drop, slice_range};
ghost use Rattle.sql_grammar.specs.sql_tokens.specs.Lexing.{lexemes_of};
ghost use Rattle.sql_phrases.specs.Reading.{begins, first_kind, first_text};

use sql_grammar::sql_tokens::kind::Kind;
use sql_grammar::sql_tokens::token::{Token, is_kind};
use std::alloc::Global;
use std::marker::Model;

/// The tokens that are still to be read, with their line. Clauses see the list of tokens with their
/// bytes.
pub struct Reader<'t> {
    alloc: Global,
    line: &'t [u8],
    tokens: &'t [Token],
}

impl<'t> Drop for Reader<'t> {
    fn drop(self) {
        let Self {
            alloc: _,
            line: _,
            tokens: _,
        } = self;
    }
}

impl<'t> Model for Reader<'t> {
    ghost use Rattle.std.specs.Prelude.{List};
    ghost use Rattle.sql_grammar.specs.sql_tokens.specs.Lexing.{Lexeme, lexemes_of};

    ghost Value = { List Lexeme };

    ghost view = { λ r. lexemes_of r.line.now r.tokens.now };
}

impl<'t> Reader<'t> {
    /// These tokens of the line.
    pub fn new(alloc: Global, line: &'t [u8], tokens: &'t [Token]) -> Reader<'t>
        ensures { result ≡ lexemes_of line.now tokens.now }
    {
        Reader {
            alloc,
            line,
            tokens,
        }
    }

    /// The allocator.
    pub fn alloc(&self) -> Global {
        self.alloc
    }

    /// What the first token is.
    pub fn first_kind(&self) -> Kind
        ensures { result ≡ first_kind self.now }
    {
        match self.tokens.first() {
            None => Kind::Bad,
            Some(token) => token.kind,
        }
    }

    /// Whether the first token is of this kind.
    pub fn begins(&self, kind: Kind) -> bool
        ensures { result ≡ begins kind self.now }
    {
        is_kind(self.first_kind(), kind)
    }

    /// The bytes of the first token.
    pub fn text(&self) -> &'t [u8]
        ensures { result.now ≡ first_text self.now }
    {
        match self.tokens.first() {
            None => &[],
            Some(token) => range_of(self.line, token.start, token.end),
        }
    }

    /// The same, without the first tokens.
    pub fn skip(self, n: usize) -> Reader<'t>
        ensures { result ≡ drop n self.entry }
    {
        let tokens = behind(self.tokens, n);
        Reader {
            alloc: self.alloc,
            line: self.line,
            tokens,
        }
    }

    /// A second reader of the same tokens.
    pub fn fork(&self) -> Reader<'t>
        ensures { result ≡ self.now }
    {
        Reader {
            alloc: self.alloc,
            line: self.line,
            tokens: self.tokens,
        }
    }
}

/// The bytes from start to end, as far as there are.
fn range_of(line: &[u8], start: usize, end: usize) -> &[u8]
    ensures { result.now ≡ slice_range line.now start end }
{
    if end <= start || line.len() <= start {
        return &[];
    }
    if end <= line.len() {
        return &line[start..end];
    }
    &line[start..]
}

/// The tokens without the first n.
fn behind(tokens: &[Token], n: usize) -> &[Token]
    ensures { result.now ≡ drop n tokens.now }
{
    if n <= tokens.len() {
        return &tokens[n..];
    }
    &[]
}
