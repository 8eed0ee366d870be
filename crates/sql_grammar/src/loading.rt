//! What is done to cache groups, as trees of references.

use crate::groups::STATE;
use crate::queries::FILTERED;
use crate::rule::Rule;
use crate::syntax::Syntax;
use crate::test::Test;
use sql_tokens::kind::Kind;

macro_rules! seq {
    ($a:expr) => { $a };
    ($a:expr, $($b:expr),+) => { Syntax::Then(&$a, &seq!($($b),+)) };
}

macro_rules! the {
    ($k:ident) => { Syntax::Token(Test::Only(Kind::$k)) };
}

macro_rules! optional {
    ($k:ident, $a:expr) => { Syntax::Either(Test::Only(Kind::$k), &$a, &Syntax::Empty) };
}

macro_rules! choice {
    ($k:ident, $a:expr, $b:expr) => { Syntax::Either(Test::Only(Kind::$k), &$a, &$b) };
}

macro_rules! repeated {
    ($k:ident, $a:expr) => { Syntax::Many(Test::Only(Kind::$k), &$a) };
}

pub static CHOSEN_RULE: Syntax<'static> = seq!(
    FILTERED,
    optional!(
        With,
        seq!(
            the!(Id),
            the!(OpenParen),
            Syntax::Named(Rule::Literal),
            repeated!(Comma, Syntax::Named(Rule::Literal)),
            the!(CloseParen)
        )
    )
);

pub const UNLOADED: Syntax<'static> = seq!(
    the!(Cache),
    the!(Group),
    Syntax::Named(Rule::Named),
    Syntax::Named(Rule::Chosen)
);

pub const LOADED: Syntax<'static> = seq!(
    the!(Cache),
    the!(Group),
    Syntax::Named(Rule::Named),
    Syntax::Named(Rule::Chosen),
    optional!(
        Commit,
        seq!(the!(Every), Syntax::Token(Test::Whole), the!(Rows))
    ),
    optional!(Parallel, Syntax::Token(Test::Whole))
);

pub const ALTERED: Syntax<'static> = seq!(
    the!(Cache),
    the!(Group),
    Syntax::Named(Rule::Named),
    the!(Set),
    the!(Autorefresh),
    the!(State),
    STATE
);

pub const DROPPED: Syntax<'static> = choice!(
    Index,
    Syntax::Token(Test::Name),
    seq!(the!(Cache), the!(Group), Syntax::Named(Rule::Named))
);
