//! Tables and indexes, as trees of references.

use crate::rule::Rule;
use crate::syntax::Syntax;
use crate::test::Test;
use sql_tokens::kind::Kind;

macro_rules! seq {
    ($a:expr) => { $a };
    ($a:expr, $($b:expr),+) => { Syntax::Then(&$a, &seq!($($b),+)) };
}

macro_rules! the {
    ($k:ident) => { Syntax::Token(Test::Only(Kind::$k)) };
}

macro_rules! optional {
    ($k:ident, $a:expr) => { Syntax::Either(Test::Only(Kind::$k), &$a, &Syntax::Empty) };
}

macro_rules! choice {
    ($k:ident, $a:expr, $b:expr) => { Syntax::Either(Test::Only(Kind::$k), &$a, &$b) };
}

const COLUMN_TYPE: Syntax<'static> = choice!(
    TtInteger,
    Syntax::Empty,
    choice!(
        TtBigint,
        Syntax::Empty,
        choice!(
            Varchar2,
            seq!(
                the!(OpenParen),
                Syntax::Token(Test::Whole),
                optional!(Byte, Syntax::Empty),
                the!(CloseParen)
            ),
            choice!(
                Number,
                seq!(
                    the!(OpenParen),
                    Syntax::Token(Test::Whole),
                    optional!(Comma, Syntax::Token(Test::Whole)),
                    the!(CloseParen)
                ),
                seq!(
                    the!(Timestamp),
                    optional!(OpenParen, seq!(the!(Zero), the!(CloseParen)))
                )
            )
        )
    )
);

const COLUMN_REST: Syntax<'static> = seq!(
    COLUMN_TYPE,
    optional!(Not, the!(Null)),
    optional!(Primary, the!(Key))
);

const KEY_REST: Syntax<'static> = seq!(
    the!(Key),
    the!(OpenParen),
    Syntax::Named(Rule::Idents),
    the!(CloseParen)
);

const FOREIGN_REST: Syntax<'static> = seq!(
    the!(Key),
    the!(OpenParen),
    Syntax::Named(Rule::Idents),
    the!(CloseParen),
    the!(References),
    Syntax::Named(Rule::Named),
    the!(OpenParen),
    Syntax::Named(Rule::Idents),
    the!(CloseParen),
    optional!(On, seq!(the!(Delete), the!(Cascade)))
);

const MORE_COLUMNS: Syntax<'static> = seq!(COLUMN_REST, Syntax::Named(Rule::Columns));

const AFTER_KEY: Syntax<'static> = choice!(
    CloseParen,
    Syntax::Empty,
    seq!(the!(Comma), the!(Foreign), FOREIGN_REST, the!(CloseParen))
);

pub static COLUMNS_RULE: Syntax<'static> = choice!(
    CloseParen,
    Syntax::Empty,
    seq!(
        the!(Comma),
        choice!(
            Primary,
            seq!(KEY_REST, AFTER_KEY),
            choice!(
                Foreign,
                seq!(FOREIGN_REST, the!(CloseParen)),
                seq!(Syntax::Token(Test::Name), MORE_COLUMNS)
            )
        )
    )
);

pub const TABLE: Syntax<'static> = seq!(
    Syntax::Named(Rule::Named),
    the!(OpenParen),
    Syntax::Token(Test::Name),
    COLUMN_REST,
    Syntax::Named(Rule::Columns)
);

const ATTRIBUTE: Syntax<'static> = choice!(
    Readonly,
    the!(CloseParen),
    choice!(
        Propagate,
        the!(CloseParen),
        seq!(the!(Not), the!(Propagate), the!(CloseParen))
    )
);

const CACHED_AFTER_FOREIGN: Syntax<'static> = choice!(
    CloseParen,
    Syntax::Empty,
    seq!(the!(Comma), ATTRIBUTE)
);

const CACHED_AFTER_KEY: Syntax<'static> = choice!(
    CloseParen,
    Syntax::Empty,
    seq!(
        the!(Comma),
        choice!(Foreign, seq!(FOREIGN_REST, CACHED_AFTER_FOREIGN), ATTRIBUTE)
    )
);

const MORE_CACHED_COLUMNS: Syntax<'static> = seq!(COLUMN_REST, Syntax::Named(Rule::CachedColumns));

pub static CACHED_COLUMNS_RULE: Syntax<'static> = choice!(
    CloseParen,
    Syntax::Empty,
    seq!(
        the!(Comma),
        choice!(
            Primary,
            seq!(KEY_REST, CACHED_AFTER_KEY),
            choice!(
                Foreign,
                seq!(FOREIGN_REST, CACHED_AFTER_FOREIGN),
                choice!(
                    Not,
                    seq!(the!(Propagate), the!(CloseParen)),
                    choice!(
                        Readonly,
                        choice!(CloseParen, Syntax::Empty, MORE_CACHED_COLUMNS),
                        choice!(
                            Propagate,
                            choice!(CloseParen, Syntax::Empty, MORE_CACHED_COLUMNS),
                            seq!(Syntax::Token(Test::Column), MORE_CACHED_COLUMNS)
                        )
                    )
                )
            )
        )
    )
);

pub static CACHED_TABLE_RULE: Syntax<'static> = seq!(
    Syntax::Named(Rule::Named),
    the!(OpenParen),
    Syntax::Token(Test::Name),
    COLUMN_REST,
    Syntax::Named(Rule::CachedColumns)
);

pub const INDEX: Syntax<'static> = seq!(
    Syntax::Token(Test::Name),
    the!(On),
    Syntax::Named(Rule::Named),
    the!(OpenParen),
    Syntax::Named(Rule::Idents),
    the!(CloseParen)
);
