//! Three-valued truth.

ghost use Rattle.std.specs.Prelude.{◌≡◌};
ghost use Rattle.row_types.specs.Truths.{both, either, negation, truth_of};

/// What a condition may be. It selects a row exactly where it is `True`.
#[derive(Clone, Copy, Debug, PartialEq, Eq)]
pub enum Truth {
    /// It holds.
    True,
    /// It doesn't hold.
    False,
    /// NULL took part, and nothing else decided.
    Unknown,
}

impl Truth {
    /// What a test says.
    pub fn of(test: bool) -> Truth
        ensures { result ≡ truth_of test }
    {
        if test { Truth::True } else { Truth::False }
    }

    /// AND: `False` where one side is, `True` where both are.
    pub fn and(self, other: Truth) -> Truth
        ensures { result ≡ both self other }
    {
        match (self, other) {
            (Truth::False, _) => Truth::False,
            (_, Truth::False) => Truth::False,
            (Truth::True, Truth::True) => Truth::True,
            _ => Truth::Unknown,
        }
    }

    /// OR: `True` where one side is, `False` where both are.
    pub fn or(self, other: Truth) -> Truth
        ensures { result ≡ either self other }
    {
        match (self, other) {
            (Truth::True, _) => Truth::True,
            (_, Truth::True) => Truth::True,
            (Truth::False, Truth::False) => Truth::False,
            _ => Truth::Unknown,
        }
    }

    /// NOT: `Unknown` stays.
    pub fn negated(self) -> Truth
        ensures { result ≡ negation self }
    {
        match self {
            Truth::True => Truth::False,
            Truth::False => Truth::True,
            Truth::Unknown => Truth::Unknown,
        }
    }
}
