//! Limits.

ghost use Rattle.std.specs.Prelude.{◌≡◌};
ghost use Rattle.tier_base.specs.Limits.{greatest, word_of};

/// A counted quantity and the greatest number that it may reach. What would pass it is refused, and nothing
/// changes. The numbers and words are this project's.
#[derive(Clone, Copy, Debug, PartialEq, Eq)]
pub enum Limit {
    /// Bytes of a request line, without its line feed.
    Line,
    /// Open sessions.
    Sessions,
    /// Cache groups.
    Groups,
    /// Backing tables.
    Tables,
    /// Columns of a table.
    Columns,
    /// Columns of a primary or foreign key.
    KeyColumns,
    /// Tables that one query names.
    From,
    /// Rows of a table.
    Rows,
    /// Combinations of rows that one query goes through.
    Product,
    /// Rows of an answer.
    Answer,
    /// Operations of one transaction.
    Operations,
    /// Asynchronous transactions whose receipt the tier hasn't seen.
    Pending,
    /// The last ticket.
    Tickets,
    /// Bytes of one batch of the journal.
    JournalBatch,
    /// Bytes of one slot of the journal.
    JournalSlot,
    /// The moment, in milliseconds, that additions to the clock may reach: the end of the year 9999.
    Clock,
    /// Levels of nesting of a condition.
    Depth,
}

impl Limit {
    /// The greatest number that stays within the limit.
    pub fn number(self) -> u64
        ensures { result ≡ greatest self }
    {
        match self {
            Limit::Line => 65_536,
            Limit::Sessions => 64,
            Limit::Groups => 64,
            Limit::Tables => 256,
            Limit::Columns => 64,
            Limit::KeyColumns => 4,
            Limit::From => 4,
            Limit::Rows => 1_000_000,
            Limit::Product => 10_000_000,
            Limit::Answer => 100_000,
            Limit::Operations => 10_000,
            Limit::Pending => 4_096,
            Limit::Tickets => 9_223_372_036_854_775_807,
            Limit::JournalBatch => 16_777_216,
            Limit::JournalSlot => 1_073_741_824,
            Limit::Clock => 253_402_300_799_000,
            Limit::Depth => 32,
        }
    }

    /// The word that a reply prints for the limit.
    pub fn word(self) -> &'static str
        ensures { result.now ≡ word_of self }
    {
        match self {
            Limit::Line => "line",
            Limit::Sessions => "sessions",
            Limit::Groups => "groups",
            Limit::Tables => "tables",
            Limit::Columns => "columns",
            Limit::KeyColumns => "columns",
            Limit::From => "from",
            Limit::Rows => "rows",
            Limit::Product => "product",
            Limit::Answer => "answer",
            Limit::Operations => "ops",
            Limit::Pending => "pending",
            Limit::Tickets => "tickets",
            Limit::JournalBatch => "journal",
            Limit::JournalSlot => "journal",
            Limit::Clock => "clock",
            Limit::Depth => "depth",
        }
    }
}
