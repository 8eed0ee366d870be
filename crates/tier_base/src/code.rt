//! Reply codes.

ghost use Rattle.std.specs.Prelude.{◌≡◌};
ghost use Rattle.tier_base.specs.Codes.{number_of};

/// Why a line was refused, what failed, or what came of a commit in doubt. The names and numbers are this project's.
#[derive(Clone, Copy, Debug, PartialEq, Eq)]
pub enum Code {
    /// No statement is spelt so.
    Syntax,
    /// A table that is neither cached nor at the bank.
    UnknownTable,
    /// A column that no table of the statement has or that two have, or a procedure or flag that there isn't.
    UnknownColumn,
    /// Values of other types or of another number than wanted.
    TypeMismatch,
    /// A value that its column can't hold, or a literal that no type holds.
    OutOfRange,
    /// NULL in a column that doesn't take it.
    NullNotAllowed,
    /// A row with this key is there.
    KeyExists,
    /// The row that a foreign key names isn't there.
    ParentMissing,
    /// Rows that name the row as their parent are there.
    ChildExists,
    /// A write on a table that is read only here.
    ReadOnly,
    /// Another session holds the row.
    Locked,
    /// A cache group that there isn't.
    UnknownGroup,
    /// A name that is taken.
    NameInUse,
    /// A definition that breaks a rule of cache groups.
    DefinitionRule,
    /// A statement that isn't for this kind or state of group.
    WrongState,
    /// A group that is loaded already.
    NotEmpty,
    /// Writes on synchronous and on asynchronous tables in one transaction.
    MixedWrites,
    /// A column of the primary key is set.
    KeyColumnSet,
    /// A count would pass its limit.
    Limit,
    /// A number leaves 64 signed bits.
    Overflow,
    /// A table of a writethrough group is written past the tier.
    WritethroughTable,
    /// The session has uncommitted writes.
    TransactionOpen,
    /// No session of this label is open.
    UnknownSession,
    /// A commit in doubt stands.
    DoubtCommitted,
    /// A commit in doubt doesn't stand.
    DoubtRolledBack,
    /// A call of the backing database failed.
    BackingFault,
    /// A call of the journal's disk failed.
    JournalFault,
    /// A backing row differs from the record of it.
    RowDiffers,
    /// Memory was wanting.
    Memory,
}

impl Code {
    /// The number that a reply prints.
    pub fn number(self) -> u16
        ensures { result ≡ number_of self }
    {
        match self {
            Code::Syntax => 101,
            Code::UnknownTable => 102,
            Code::UnknownColumn => 103,
            Code::TypeMismatch => 104,
            Code::OutOfRange => 105,
            Code::NullNotAllowed => 106,
            Code::KeyExists => 107,
            Code::ParentMissing => 108,
            Code::ChildExists => 109,
            Code::ReadOnly => 110,
            Code::Locked => 111,
            Code::UnknownGroup => 112,
            Code::NameInUse => 113,
            Code::DefinitionRule => 114,
            Code::WrongState => 115,
            Code::NotEmpty => 116,
            Code::MixedWrites => 117,
            Code::KeyColumnSet => 118,
            Code::Limit => 119,
            Code::Overflow => 120,
            Code::WritethroughTable => 121,
            Code::TransactionOpen => 122,
            Code::UnknownSession => 123,
            Code::DoubtCommitted => 131,
            Code::DoubtRolledBack => 132,
            Code::BackingFault => 201,
            Code::JournalFault => 202,
            Code::RowDiffers => 210,
            Code::Memory => 299,
        }
    }
}
