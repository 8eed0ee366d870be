//! Statements and lines, as trees of references.

use crate::loading::{ALTERED, DROPPED, LOADED, UNLOADED};
use crate::rule::Rule;
use crate::syntax::Syntax;
use crate::tables::TABLE;
use crate::test::Test;
use crate::writes::WRITE;
use sql_tokens::kind::Kind;

macro_rules! seq {
    ($a:expr) => { $a };
    ($a:expr, $($b:expr),+) => { Syntax::Then(&$a, &seq!($($b),+)) };
}

macro_rules! the {
    ($k:ident) => { Syntax::Token(Test::Only(Kind::$k)) };
}

macro_rules! optional {
    ($k:ident, $a:expr) => { Syntax::Either(Test::Only(Kind::$k), &$a, &Syntax::Empty) };
}

macro_rules! choice {
    ($k:ident, $a:expr, $b:expr) => { Syntax::Either(Test::Only(Kind::$k), &$a, &$b) };
}

macro_rules! repeated {
    ($k:ident, $a:expr) => { Syntax::Many(Test::Only(Kind::$k), &$a) };
}

pub static CALLED_RULE: Syntax<'static> = seq!(
    Syntax::Named(Rule::Named),
    optional!(
        OpenParen,
        choice!(
            CloseParen,
            Syntax::Empty,
            seq!(
                Syntax::Named(Rule::Literal),
                repeated!(Comma, Syntax::Named(Rule::Literal)),
                the!(CloseParen)
            )
        )
    )
);

pub static STATEMENT_RULE: Syntax<'static> = choice!(
    Select,
    Syntax::Named(Rule::Select),
    choice!(
        Insert,
        Syntax::Named(Rule::Insert),
        choice!(
            Update,
            Syntax::Named(Rule::Update),
            choice!(
                Delete,
                Syntax::Named(Rule::Delete),
                choice!(
                    Create,
                    Syntax::Named(Rule::Create),
                    choice!(
                        Load,
                        LOADED,
                        choice!(
                            Refresh,
                            LOADED,
                            choice!(
                                Unload,
                                UNLOADED,
                                choice!(
                                    Flush,
                                    UNLOADED,
                                    choice!(
                                        Drop,
                                        DROPPED,
                                        choice!(
                                            Alter,
                                            ALTERED,
                                            choice!(
                                                Call,
                                                Syntax::Named(Rule::Called),
                                                choice!(Commit, Syntax::Empty, the!(Rollback))
                                            )
                                        )
                                    )
                                )
                            )
                        )
                    )
                )
            )
        )
    )
);

pub static ALONE_START: Syntax<'static> = seq!(
    Syntax::Named(Rule::Statement),
    optional!(Semicolon, Syntax::Empty)
);

const OPENED: Syntax<'static> = seq!(
    optional!(Passthrough, Syntax::Token(Test::Level)),
    optional!(Durable, Syntax::Token(Test::Flag))
);

pub static SESSION_START: Syntax<'static> = seq!(
    the!(Colon),
    choice!(
        Open,
        OPENED,
        choice!(Close, Syntax::Empty, Syntax::Named(Rule::Statement))
    ),
    optional!(Semicolon, Syntax::Empty)
);

pub static CONSOLE_START: Syntax<'static> = seq!(
    the!(Colon),
    choice!(
        Create,
        seq!(the!(Table), TABLE, optional!(Semicolon, Syntax::Empty)),
        WRITE
    )
);

pub static CLOCK_START: Syntax<'static> = seq!(
    the!(Colon),
    the!(Plus),
    Syntax::Token(Test::Whole),
    optional!(Semicolon, Syntax::Empty)
);
