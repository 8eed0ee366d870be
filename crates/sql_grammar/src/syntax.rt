//! Grammars as trees of references, so that they can stand in statics.

use crate::rule::Rule;
use crate::test::Test;

/// A grammar.
#[derive(Clone, Copy)]
pub enum Syntax<'g> {
    /// nothing
    Empty,
    /// a token that passes
    Token(Test),
    /// the first, then the second
    Then(&'g Syntax<'g>, &'g Syntax<'g>),
    /// a token that passes and the first, or else the second
    Either(Test, &'g Syntax<'g>, &'g Syntax<'g>),
    /// any number of times a token that passes and what follows it
    Many(Test, &'g Syntax<'g>),
    /// a token that passes, one level deeper the first, and again on this level the second; or
    /// else the third
    Deeper(Test, &'g Syntax<'g>, &'g Syntax<'g>, &'g Syntax<'g>),
    /// what the rule says
    Named(Rule),
}
