//! Broken rules.

use crate::key::Key;
use std::alloc::AllocError;
use tier_base::{Code, Label, Limit, Name};

/// A rule that a request breaks: its code, and what the reply prints behind it.
pub struct Rule {
    /// The code.
    pub code: Code,
    /// What the reply prints behind the code.
    pub detail: Detail,
}

impl Rule {
    ghost use Rattle.std.specs.Prelude.{◌≡◌};

    /// What the reply prints behind the code.
    pub fn into_detail(self) -> Detail
        ensures { result ≡ self.detail }
    {
        let Self { code: _, detail } = self;
        detail
    }
}

impl Drop for Rule {
    fn drop(self) {
        let Self { code: _, detail: _ } = self;
    }
}

/// What a reply prints behind a code.
pub enum Detail {
    /// Nothing.
    Nothing,
    /// A byte of the line, from 0.
    Byte(u64),
    /// A table, column, group, procedure or flag.
    Name(Name),
    /// A table and the key of one of its rows.
    Row(Name, Key),
    /// The label of a session.
    Label(Label),
    /// The letter of a rule of cache groups.
    Letter(Letter),
    /// A limit.
    Limit(Limit),
    /// A literal that no type holds, printed as `-`.
    NoType,
}

impl Drop for Detail {
    fn drop(self) {
        match self {
            Self::Nothing => {}
            Self::Byte(_) => {}
            Self::Name(_) => {}
            Self::Row(_, _) => {}
            Self::Label(_) => {}
            Self::Letter(_) => {}
            Self::Limit(_) => {}
            Self::NoType => {}
        }
    }
}

/// The rules of a cache group's definition, by letter, in the order in which they are tested.
#[derive(Clone, Copy, Debug, PartialEq, Eq)]
pub enum Letter {
    /// No primary key, two, or another one than the backing table's.
    A,
    /// A foreign key whose parent isn't an earlier table of the group.
    B,
    /// A later table without a foreign key.
    C,
    /// A table that is in a group already, or twice in this one.
    D,
    /// A column, type, foreign key or ON DELETE CASCADE other than the backing table's.
    E,
    /// WHERE on a writethrough table.
    F,
    /// AUTOREFRESH on writethrough.
    G,
    /// LRU on an explicit READONLY group.
    H,
    /// An aging column that isn't a NOT NULL TIMESTAMP, or aging on a child.
    I,
    /// A writethrough table with a foreign key to, or from, a table outside the group.
    J,
    /// A number out of its range.
    K,
}

/// Why a call gave no result.
#[derive(Drop)]
pub enum Refused {
    /// A rule is broken.
    Rule(Rule),
    /// Memory was wanting.
    Memory,
}

impl From<AllocError> for Refused {
    ghost use Rattle.std.specs.Prelude.{◌≡◌};
    ghost use Rattle.row_types.specs.declared.rule.Refused.TheVariants.{Memory};

    ghost from_gives = { λ _ e. e ≡ Memory };

    fn from(_error: AllocError) -> Refused {
        Refused::Memory
    }
}
