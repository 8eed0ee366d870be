//! The tests that a grammar makes of the next token.
ghost use Rattle.std.specs.Prelude.{◌≡◌};

use sql_tokens::kind::Kind;
use sql_tokens::token::number_of;

/// A test of one token. Every test but `Only` is a range of kinds.
#[derive(Clone, Copy)]
pub enum Test {
    /// this kind
    Only(Kind),
    /// a name: an identifier or a keyword that is not reserved
    Name,
    /// a name but READONLY and PROPAGATE
    Column,
    /// `+` or `-`
    Sign,
    /// a comparison
    Compare,
    /// digits
    Whole,
    /// digits, or a decimal number
    Digits,
    /// one digit from 0 to 3
    Level,
    /// the digit 0 or 1
    Flag,
    /// ASC or DESC
    Direction,
    /// SUM, MIN or MAX
    Fold,
    /// INCREMENTAL or FULL
    Manner,
    /// OFF or PAUSED
    Rest,
    /// a unit of an interval
    IntervalUnit,
    /// a unit of a lifetime
    LifetimeUnit,
}

impl Test {
    ghost use Rattle.sql_grammar.specs.Tests.{low_of, high_of, passes};

    /// The numbers of the least and of the greatest kind that pass.
    fn range(self) -> (u8, u8)
        ensures low { result.0 ≡ low_of self }
        ensures high { result.1 ≡ high_of self }
    {
        match self {
            Test::Only(kind) => (number_of(kind), number_of(kind)),
            Test::Name => (number_of(Kind::Readonly), number_of(Kind::Identifier)),
            Test::Column => (number_of(Kind::TtInteger), number_of(Kind::Identifier)),
            Test::Sign => (number_of(Kind::Plus), number_of(Kind::Minus)),
            Test::Compare => (number_of(Kind::Equals), number_of(Kind::AtLeast)),
            Test::Whole => (number_of(Kind::Zero), number_of(Kind::Integer)),
            Test::Digits => (number_of(Kind::Zero), number_of(Kind::Decimal)),
            Test::Level => (number_of(Kind::Zero), number_of(Kind::Three)),
            Test::Flag => (number_of(Kind::Zero), number_of(Kind::One)),
            Test::Direction => (number_of(Kind::Asc), number_of(Kind::Desc)),
            Test::Fold => (number_of(Kind::Sum), number_of(Kind::Max)),
            Test::Manner => (number_of(Kind::Incremental), number_of(Kind::Full)),
            Test::Rest => (number_of(Kind::Off), number_of(Kind::Paused)),
            Test::IntervalUnit => (number_of(Kind::Millisecond), number_of(Kind::Minute)),
            Test::LifetimeUnit => (number_of(Kind::Second), number_of(Kind::Day)),
        }
    }

    /// Whether the kind passes.
    pub fn lets_pass(self, kind: Kind) -> bool
        ensures { result ≡ passes self kind }
    {
        let (low, high) = self.range();
        let number = number_of(kind);
        low <= number && number <= high
    }
}
