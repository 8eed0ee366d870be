//! The kinds of tokens.

/// What kind of token it is.
///
/// The kinds that one place of the grammar takes alike stand together, so that each test of the
/// grammar is a range of them.
#[derive(Clone, Copy, PartialEq, Eq, Debug)]
pub enum Kind {
    /// What is no token: an unterminated text, a word that is neither number nor name, a byte that begins no token.
    Bad,
    /// `:`
    Colon,
    /// `;`
    Semicolon,
    /// `,`
    Comma,
    /// `.`
    Dot,
    /// `(`
    OpenParen,
    /// `)`
    CloseParen,
    /// `*`
    Star,
    /// `+`
    Plus,
    /// `-`
    Minus,
    /// `=`
    Equals,
    /// `<>` or `!=`
    NotEquals,
    /// `<`
    LessThan,
    /// `<=`
    AtMost,
    /// `>`
    GreaterThan,
    /// `>=`
    AtLeast,
    /// The one digit `0`.
    Zero,
    /// The one digit `1`.
    One,
    /// The one digit `2`.
    Two,
    /// The one digit `3`.
    Three,
    /// Any other run of digits.
    Integer,
    /// Digits with a decimal point; not read yet.
    Decimal,
    /// A text in single quotes.
    Text,
    /// `SELECT`
    Select,
    /// `FROM`
    From,
    /// `WHERE`
    Where,
    /// `AND`
    And,
    /// `OR`
    Or,
    /// `NOT`
    Not,
    /// `NULL`
    Null,
    /// `IS`
    Is,
    /// `IN`
    In,
    /// `BETWEEN`
    Between,
    /// `ORDER`
    Order,
    /// `BY`
    By,
    /// `ASC`
    Asc,
    /// `DESC`
    Desc,
    /// `INSERT`
    Insert,
    /// `INTO`
    Into,
    /// `VALUES`
    Values,
    /// `UPDATE`
    Update,
    /// `SET`
    Set,
    /// `DELETE`
    Delete,
    /// `CREATE`
    Create,
    /// `ALTER`
    Alter,
    /// `DROP`
    Drop,
    /// `TABLE`
    Table,
    /// `CACHE`
    Cache,
    /// `GROUP`
    Group,
    /// `PRIMARY`
    Primary,
    /// `FOREIGN`
    Foreign,
    /// `KEY`
    Key,
    /// `REFERENCES`
    References,
    /// `ON`
    On,
    /// `CASCADE`
    Cascade,
    /// `TIMESTAMP`
    Timestamp,
    /// `COUNT`
    Count,
    /// `SUM`
    Sum,
    /// `MIN`
    Min,
    /// `MAX`
    Max,
    /// `CALL`
    Call,
    /// `COMMIT`
    Commit,
    /// `ROLLBACK`
    Rollback,
    /// `LOAD`
    Load,
    /// `REFRESH`
    Refresh,
    /// `UNLOAD`
    Unload,
    /// `FLUSH`
    Flush,
    /// `AGING`
    Aging,
    /// `READONLY`
    Readonly,
    /// `PROPAGATE`
    Propagate,
    /// `TT_INTEGER`
    TtInteger,
    /// `TT_BIGINT`
    TtBigint,
    /// `VARCHAR2`
    Varchar2,
    /// `BYTE`
    Byte,
    /// `NUMBER`
    Number,
    /// `OPEN`
    Open,
    /// `CLOSE`
    Close,
    /// `PASSTHROUGH`
    Passthrough,
    /// `DURABLE`
    Durable,
    /// `ASYNCHRONOUS`
    Asynchronous,
    /// `SYNCHRONOUS`
    Synchronous,
    /// `WRITETHROUGH`
    Writethrough,
    /// `DYNAMIC`
    Dynamic,
    /// `USERMANAGED`
    Usermanaged,
    /// `INDEX`
    Index,
    /// `AUTOREFRESH`
    Autorefresh,
    /// `MODE`
    Mode,
    /// `INCREMENTAL`
    Incremental,
    /// `FULL`
    Full,
    /// `INTERVAL`
    Interval,
    /// `MILLISECOND` or `MILLISECONDS`
    Millisecond,
    /// `SECOND` or `SECONDS`
    Second,
    /// `MINUTE` or `MINUTES`
    Minute,
    /// `HOUR` or `HOURS`
    Hour,
    /// `DAY` or `DAYS`
    Day,
    /// `STATE`
    State,
    /// `OFF`
    Off,
    /// `PAUSED`
    Paused,
    /// `LRU`
    Lru,
    /// `USE`
    Use,
    /// `LIFETIME`
    Lifetime,
    /// `CYCLE`
    Cycle,
    /// `WITH`
    With,
    /// `ID`
    Id,
    /// `EVERY`
    Every,
    /// `ROWS`
    Rows,
    /// `PARALLEL`
    Parallel,
    /// A name that is no keyword.
    Identifier,
}
