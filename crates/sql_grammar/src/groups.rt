//! Cache groups, as trees of references.

use crate::queries::FILTERED;
use crate::rule::Rule;
use crate::syntax::Syntax;
use crate::tables::INDEX;
use crate::test::Test;
use sql_tokens::kind::Kind;

macro_rules! seq {
    ($a:expr) => { $a };
    ($a:expr, $($b:expr),+) => { Syntax::Then(&$a, &seq!($($b),+)) };
}

macro_rules! the {
    ($k:ident) => { Syntax::Token(Test::Only(Kind::$k)) };
}

macro_rules! optional {
    ($k:ident, $a:expr) => { Syntax::Either(Test::Only(Kind::$k), &$a, &Syntax::Empty) };
}

macro_rules! choice {
    ($k:ident, $a:expr, $b:expr) => { Syntax::Either(Test::Only(Kind::$k), &$a, &$b) };
}

macro_rules! repeated {
    ($k:ident, $a:expr) => { Syntax::Many(Test::Only(Kind::$k), &$a) };
}

pub const STATE: Syntax<'static> = choice!(On, Syntax::Empty, Syntax::Token(Test::Rest));

const AUTOREFRESH: Syntax<'static> = optional!(
    Autorefresh,
    seq!(
        optional!(Mode, Syntax::Token(Test::Manner)),
        optional!(
            Interval,
            seq!(
                Syntax::Token(Test::Whole),
                Syntax::Token(Test::IntervalUnit)
            )
        ),
        optional!(State, STATE)
    )
);

pub static AGING_RULE: Syntax<'static> = seq!(
    choice!(
        Lru,
        Syntax::Empty,
        seq!(
            the!(Use),
            Syntax::Token(Test::Name),
            the!(Lifetime),
            Syntax::Token(Test::Whole),
            Syntax::Token(Test::LifetimeUnit),
            optional!(
                Cycle,
                seq!(
                    Syntax::Token(Test::Whole),
                    Syntax::Token(Test::LifetimeUnit)
                )
            )
        )
    ),
    choice!(On, Syntax::Empty, optional!(Off, Syntax::Empty))
);

const GROUP_TABLE: Syntax<'static> = seq!(
    Syntax::Named(Rule::CachedTable),
    choice!(
        Aging,
        seq!(Syntax::Named(Rule::Aging), FILTERED),
        optional!(
            Where,
            seq!(
                Syntax::Named(Rule::Cond),
                optional!(Aging, Syntax::Named(Rule::Aging))
            )
        )
    )
);

pub static GROUP_RULE: Syntax<'static> = seq!(
    the!(Cache),
    the!(Group),
    Syntax::Named(Rule::Named),
    AUTOREFRESH,
    the!(From),
    GROUP_TABLE,
    repeated!(Comma, GROUP_TABLE)
);

const WAY: Syntax<'static> = choice!(
    Readonly,
    Syntax::Empty,
    choice!(
        Asynchronous,
        the!(Writethrough),
        seq!(the!(Synchronous), the!(Writethrough))
    )
);

const CREATE_GROUP: Syntax<'static> = choice!(
    Dynamic,
    seq!(WAY, Syntax::Named(Rule::Group)),
    choice!(
        Usermanaged,
        Syntax::Named(Rule::Group),
        seq!(WAY, Syntax::Named(Rule::Group))
    )
);

pub static CREATE_RULE: Syntax<'static> = choice!(Index, INDEX, CREATE_GROUP);
