//! Statements that write rows, as trees of references.

use crate::queries::{EXPRS, FILTERED};
use crate::rule::Rule;
use crate::syntax::Syntax;
use crate::test::Test;
use sql_tokens::kind::Kind;

macro_rules! seq {
    ($a:expr) => { $a };
    ($a:expr, $($b:expr),+) => { Syntax::Then(&$a, &seq!($($b),+)) };
}

macro_rules! the {
    ($k:ident) => { Syntax::Token(Test::Only(Kind::$k)) };
}

macro_rules! optional {
    ($k:ident, $a:expr) => { Syntax::Either(Test::Only(Kind::$k), &$a, &Syntax::Empty) };
}

macro_rules! choice {
    ($k:ident, $a:expr, $b:expr) => { Syntax::Either(Test::Only(Kind::$k), &$a, &$b) };
}

macro_rules! repeated {
    ($k:ident, $a:expr) => { Syntax::Many(Test::Only(Kind::$k), &$a) };
}

pub static INSERT_RULE: Syntax<'static> = seq!(
    the!(Into),
    Syntax::Named(Rule::Named),
    optional!(
        OpenParen,
        seq!(Syntax::Named(Rule::Idents), the!(CloseParen))
    ),
    the!(Values),
    the!(OpenParen),
    EXPRS,
    the!(CloseParen)
);

const ASSIGN: Syntax<'static> = seq!(
    Syntax::Token(Test::Name),
    the!(Equals),
    Syntax::Named(Rule::Expr)
);

pub static UPDATE_RULE: Syntax<'static> = seq!(
    Syntax::Named(Rule::Named),
    the!(Set),
    ASSIGN,
    repeated!(Comma, ASSIGN),
    FILTERED
);

pub static DELETE_RULE: Syntax<'static> = seq!(the!(From), Syntax::Named(Rule::Named), FILTERED);

pub const WRITE: Syntax<'static> = choice!(
    Insert,
    seq!(Syntax::Named(Rule::Insert), Syntax::Named(Rule::Writes)),
    choice!(
        Update,
        seq!(Syntax::Named(Rule::Update), Syntax::Named(Rule::Writes)),
        seq!(
            the!(Delete),
            Syntax::Named(Rule::Delete),
            Syntax::Named(Rule::Writes)
        )
    )
);

pub static WRITES_RULE: Syntax<'static> = optional!(
    Semicolon,
    choice!(
        Insert,
        seq!(Syntax::Named(Rule::Insert), Syntax::Named(Rule::Writes)),
        choice!(
            Update,
            seq!(Syntax::Named(Rule::Update), Syntax::Named(Rule::Writes)),
            optional!(
                Delete,
                seq!(Syntax::Named(Rule::Delete), Syntax::Named(Rule::Writes))
            )
        )
    )
);
