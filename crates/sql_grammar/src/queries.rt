//! Names, literals, expressions, conditions and queries, as trees of references.

use crate::rule::Rule;
use crate::syntax::Syntax;
use crate::test::Test;
use sql_tokens::kind::Kind;

macro_rules! seq {
    ($a:expr) => { $a };
    ($a:expr, $($b:expr),+) => { Syntax::Then(&$a, &seq!($($b),+)) };
}

macro_rules! the {
    ($k:ident) => { Syntax::Token(Test::Only(Kind::$k)) };
}

macro_rules! optional {
    ($k:ident, $a:expr) => { Syntax::Either(Test::Only(Kind::$k), &$a, &Syntax::Empty) };
}

macro_rules! choice {
    ($k:ident, $a:expr, $b:expr) => { Syntax::Either(Test::Only(Kind::$k), &$a, &$b) };
}

macro_rules! repeated {
    ($k:ident, $a:expr) => { Syntax::Many(Test::Only(Kind::$k), &$a) };
}

pub static NAMED_RULE: Syntax<'static> = seq!(
    Syntax::Token(Test::Name),
    optional!(Dot, Syntax::Token(Test::Name))
);

pub static IDENTS_RULE: Syntax<'static> = seq!(
    Syntax::Token(Test::Name),
    repeated!(Comma, Syntax::Token(Test::Name))
);

const COLREF: Syntax<'static> = seq!(
    Syntax::Token(Test::Name),
    optional!(
        Dot,
        seq!(
            Syntax::Token(Test::Name),
            optional!(Dot, Syntax::Token(Test::Name))
        )
    )
);

pub static LITERAL_RULE: Syntax<'static> = Syntax::Either(
    Test::Digits,
    &Syntax::Empty,
    &choice!(
        Text,
        Syntax::Empty,
        choice!(
            Null,
            Syntax::Empty,
            choice!(
                Timestamp,
                the!(Text),
                seq!(the!(Minus), Syntax::Token(Test::Digits))
            )
        )
    ),
);

const FACTOR: Syntax<'static> = Syntax::Either(
    Test::Name,
    &optional!(
        Dot,
        seq!(
            Syntax::Token(Test::Name),
            optional!(Dot, Syntax::Token(Test::Name))
        )
    ),
    &Syntax::Named(Rule::Literal),
);

const TERM: Syntax<'static> = seq!(FACTOR, repeated!(Star, FACTOR));

pub static EXPR_RULE: Syntax<'static> = seq!(TERM, Syntax::Many(Test::Sign, &TERM));

pub const EXPRS: Syntax<'static> = seq!(
    Syntax::Named(Rule::Expr),
    repeated!(Comma, Syntax::Named(Rule::Expr))
);

const WITHIN: Syntax<'static> = choice!(
    Between,
    seq!(
        Syntax::Named(Rule::Expr),
        the!(And),
        Syntax::Named(Rule::Expr)
    ),
    seq!(the!(In), the!(OpenParen), EXPRS, the!(CloseParen))
);

pub static PRED_RULE: Syntax<'static> = Syntax::Deeper(
    Test::Only(Kind::OpenParen),
    &Syntax::Named(Rule::Cond),
    &the!(CloseParen),
    &Syntax::Deeper(
        Test::Only(Kind::Not),
        &Syntax::Named(Rule::Pred),
        &Syntax::Empty,
        &seq!(
            Syntax::Named(Rule::Expr),
            Syntax::Either(
                Test::Compare,
                &Syntax::Named(Rule::Expr),
                &choice!(
                    Is,
                    seq!(optional!(Not, Syntax::Empty), the!(Null)),
                    choice!(Not, WITHIN, WITHIN)
                )
            )
        ),
    ),
);

const CONJ: Syntax<'static> = seq!(
    Syntax::Named(Rule::Pred),
    repeated!(And, Syntax::Named(Rule::Pred))
);

pub static COND_RULE: Syntax<'static> = seq!(CONJ, repeated!(Or, CONJ));

pub const FILTERED: Syntax<'static> = optional!(Where, Syntax::Named(Rule::Cond));

const COUNTED: Syntax<'static> = seq!(
    the!(OpenParen),
    choice!(Star, Syntax::Empty, Syntax::Named(Rule::Expr)),
    the!(CloseParen)
);

const FOLDED: Syntax<'static> = seq!(the!(OpenParen), Syntax::Named(Rule::Expr), the!(CloseParen));

const SOURCE: Syntax<'static> = seq!(
    Syntax::Named(Rule::Named),
    Syntax::Either(Test::Name, &Syntax::Empty, &Syntax::Empty)
);

const ORDERED: Syntax<'static> = optional!(
    Order,
    seq!(
        the!(By),
        COLREF,
        Syntax::Either(Test::Direction, &Syntax::Empty, &Syntax::Empty),
        repeated!(
            Comma,
            seq!(
                COLREF,
                Syntax::Either(Test::Direction, &Syntax::Empty, &Syntax::Empty)
            )
        )
    )
);

const SOURCES: Syntax<'static> = seq!(the!(From), SOURCE, repeated!(Comma, SOURCE), FILTERED);

const GROUPS: Syntax<'static> = seq!(the!(By), COLREF, repeated!(Comma, COLREF));

pub static AFTER_RULE: Syntax<'static> = seq!(SOURCES, optional!(Group, GROUPS), ORDERED);

const GROUPED: Syntax<'static> = seq!(SOURCES, the!(Group), GROUPS, ORDERED);

pub static EXPRS_REST_RULE: Syntax<'static> = choice!(
    Comma,
    choice!(
        Count,
        seq!(COUNTED, Syntax::Named(Rule::Mixed)),
        Syntax::Either(
            Test::Fold,
            &seq!(FOLDED, Syntax::Named(Rule::Mixed)),
            &seq!(Syntax::Named(Rule::Expr), Syntax::Named(Rule::Exprs))
        )
    ),
    Syntax::Named(Rule::After)
);

pub static AGGS_REST_RULE: Syntax<'static> = choice!(
    Comma,
    choice!(
        Count,
        seq!(COUNTED, Syntax::Named(Rule::Aggs)),
        Syntax::Either(
            Test::Fold,
            &seq!(FOLDED, Syntax::Named(Rule::Aggs)),
            &seq!(Syntax::Named(Rule::Expr), Syntax::Named(Rule::Mixed))
        )
    ),
    Syntax::Named(Rule::After)
);

pub static MIXED_REST_RULE: Syntax<'static> = choice!(
    Comma,
    choice!(
        Count,
        seq!(COUNTED, Syntax::Named(Rule::Mixed)),
        Syntax::Either(
            Test::Fold,
            &seq!(FOLDED, Syntax::Named(Rule::Mixed)),
            &seq!(Syntax::Named(Rule::Expr), Syntax::Named(Rule::Mixed))
        )
    ),
    GROUPED
);

pub static SELECT_RULE: Syntax<'static> = choice!(
    Star,
    Syntax::Named(Rule::After),
    choice!(
        Count,
        seq!(COUNTED, Syntax::Named(Rule::Aggs)),
        Syntax::Either(
            Test::Fold,
            &seq!(FOLDED, Syntax::Named(Rule::Aggs)),
            &seq!(Syntax::Named(Rule::Expr), Syntax::Named(Rule::Exprs))
        )
    )
);
