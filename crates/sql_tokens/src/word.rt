//! Words: numbers, keywords and identifiers.
ghost use Rattle.std.specs.Prelude.{◌≡◌, ◌∷◌, ℕ, List, map};
ghost use Rattle.tier_base.specs.Names.{spells};
ghost use Rattle.std.specs.List.{list_all};
ghost use Rattle.std.specs.Char.{is_ascii_digit, to_ascii_uppercase};
ghost use Rattle.tier_base.specs.Names.{begins_with_letter};
ghost use Rattle.sql_tokens.specs.Words.{keywords, named, number_kind, word_kind, digit_kind, fraction_kind};

use crate::kind::Kind;
use tier_base::name::IDENTIFIER_BYTES;

static A_WORDS: [(&'static [u8], Kind); 6] = [
    (b"AND", Kind::And),
    (b"ASC", Kind::Asc),
    (b"ALTER", Kind::Alter),
    (b"AGING", Kind::Aging),
    (b"ASYNCHRONOUS", Kind::Asynchronous),
    (b"AUTOREFRESH", Kind::Autorefresh),
];

static B_WORDS: [(&'static [u8], Kind); 3] = [
    (b"BETWEEN", Kind::Between),
    (b"BY", Kind::By),
    (b"BYTE", Kind::Byte),
];

static C_WORDS: [(&'static [u8], Kind); 8] = [
    (b"CREATE", Kind::Create),
    (b"CACHE", Kind::Cache),
    (b"CASCADE", Kind::Cascade),
    (b"COUNT", Kind::Count),
    (b"CALL", Kind::Call),
    (b"COMMIT", Kind::Commit),
    (b"CLOSE", Kind::Close),
    (b"CYCLE", Kind::Cycle),
];

static D_WORDS: [(&'static [u8], Kind); 7] = [
    (b"DESC", Kind::Desc),
    (b"DELETE", Kind::Delete),
    (b"DROP", Kind::Drop),
    (b"DURABLE", Kind::Durable),
    (b"DYNAMIC", Kind::Dynamic),
    (b"DAY", Kind::Day),
    (b"DAYS", Kind::Day),
];

static E_WORDS: [(&'static [u8], Kind); 1] = [(b"EVERY", Kind::Every)];

static F_WORDS: [(&'static [u8], Kind); 4] = [
    (b"FROM", Kind::From),
    (b"FOREIGN", Kind::Foreign),
    (b"FLUSH", Kind::Flush),
    (b"FULL", Kind::Full),
];

static G_WORDS: [(&'static [u8], Kind); 1] = [(b"GROUP", Kind::Group)];

static H_WORDS: [(&'static [u8], Kind); 2] = [(b"HOUR", Kind::Hour), (b"HOURS", Kind::Hour)];

static I_WORDS: [(&'static [u8], Kind); 8] = [
    (b"IS", Kind::Is),
    (b"IN", Kind::In),
    (b"INSERT", Kind::Insert),
    (b"INTO", Kind::Into),
    (b"INDEX", Kind::Index),
    (b"INCREMENTAL", Kind::Incremental),
    (b"INTERVAL", Kind::Interval),
    (b"ID", Kind::Id),
];

static K_WORDS: [(&'static [u8], Kind); 1] = [(b"KEY", Kind::Key)];

static L_WORDS: [(&'static [u8], Kind); 3] = [
    (b"LOAD", Kind::Load),
    (b"LRU", Kind::Lru),
    (b"LIFETIME", Kind::Lifetime),
];

static M_WORDS: [(&'static [u8], Kind); 7] = [
    (b"MIN", Kind::Min),
    (b"MAX", Kind::Max),
    (b"MODE", Kind::Mode),
    (b"MILLISECOND", Kind::Millisecond),
    (b"MILLISECONDS", Kind::Millisecond),
    (b"MINUTE", Kind::Minute),
    (b"MINUTES", Kind::Minute),
];

static N_WORDS: [(&'static [u8], Kind); 3] = [
    (b"NOT", Kind::Not),
    (b"NULL", Kind::Null),
    (b"NUMBER", Kind::Number),
];

static O_WORDS: [(&'static [u8], Kind); 5] = [
    (b"OR", Kind::Or),
    (b"ORDER", Kind::Order),
    (b"ON", Kind::On),
    (b"OPEN", Kind::Open),
    (b"OFF", Kind::Off),
];

static P_WORDS: [(&'static [u8], Kind); 5] = [
    (b"PRIMARY", Kind::Primary),
    (b"PROPAGATE", Kind::Propagate),
    (b"PASSTHROUGH", Kind::Passthrough),
    (b"PAUSED", Kind::Paused),
    (b"PARALLEL", Kind::Parallel),
];

static R_WORDS: [(&'static [u8], Kind); 5] = [
    (b"REFERENCES", Kind::References),
    (b"ROLLBACK", Kind::Rollback),
    (b"REFRESH", Kind::Refresh),
    (b"READONLY", Kind::Readonly),
    (b"ROWS", Kind::Rows),
];

static S_WORDS: [(&'static [u8], Kind); 7] = [
    (b"SELECT", Kind::Select),
    (b"SET", Kind::Set),
    (b"SUM", Kind::Sum),
    (b"SYNCHRONOUS", Kind::Synchronous),
    (b"SECOND", Kind::Second),
    (b"SECONDS", Kind::Second),
    (b"STATE", Kind::State),
];

static T_WORDS: [(&'static [u8], Kind); 4] = [
    (b"TABLE", Kind::Table),
    (b"TIMESTAMP", Kind::Timestamp),
    (b"TT_INTEGER", Kind::TtInteger),
    (b"TT_BIGINT", Kind::TtBigint),
];

static U_WORDS: [(&'static [u8], Kind); 4] = [
    (b"UPDATE", Kind::Update),
    (b"UNLOAD", Kind::Unload),
    (b"USERMANAGED", Kind::Usermanaged),
    (b"USE", Kind::Use),
];

static V_WORDS: [(&'static [u8], Kind); 2] = [
    (b"VALUES", Kind::Values),
    (b"VARCHAR2", Kind::Varchar2),
];

static W_WORDS: [(&'static [u8], Kind); 3] = [
    (b"WHERE", Kind::Where),
    (b"WRITETHROUGH", Kind::Writethrough),
    (b"WITH", Kind::With),
];

/// The keywords that may be spelled by a word that begins with this letter, which is in upper case.
fn keywords_from(letter: u8) -> &'static [(&'static [u8], Kind)]
    ensures { (b : ℕ) (word : List ℕ) → to_ascii_uppercase b ≡ letter
        → named (map (λ e. (e.0.now, e.1)) result.now) (b ∷ word) ≡ named keywords (b ∷ word) }
{
    match letter {
        b'A' => &A_WORDS,
        b'B' => &B_WORDS,
        b'C' => &C_WORDS,
        b'D' => &D_WORDS,
        b'E' => &E_WORDS,
        b'F' => &F_WORDS,
        b'G' => &G_WORDS,
        b'H' => &H_WORDS,
        b'I' => &I_WORDS,
        b'K' => &K_WORDS,
        b'L' => &L_WORDS,
        b'M' => &M_WORDS,
        b'N' => &N_WORDS,
        b'O' => &O_WORDS,
        b'P' => &P_WORDS,
        b'R' => &R_WORDS,
        b'S' => &S_WORDS,
        b'T' => &T_WORDS,
        b'U' => &U_WORDS,
        b'V' => &V_WORDS,
        b'W' => &W_WORDS,
        _ => &[],
    }
}

/// Whether the word spells the keyword, which is in upper case.
fn is_spelled(word: &[u8], keyword: &[u8]) -> bool
    ensures { result ≡ spells word.now keyword.now }
{
    if word.len() != keyword.len() {
        return false;
    }
    let mut bytes = word;
    let mut letters = keyword;
    while let (Some((byte, after)), Some((letter, others))) = (
        bytes.split_first(),
        letters.split_first(),
    ) {
        if byte.to_ascii_uppercase() != *letter {
            return false;
        }
        bytes = after;
        letters = others;
    }
    true
}

fn find(list: &[(&[u8], Kind)], word: &[u8]) -> Kind
    ensures { result ≡ named (map (λ e. (e.0.now, e.1)) list.now) word.now }
{
    match list.split_first() {
        None => Kind::Identifier,
        Some((entry, list)) => {
            if is_spelled(word, entry.0) {
                return entry.1;
            }
            find(list, word)
        }
    }
}

/// The keyword that the word spells, or an identifier.
fn find_by_letter(word: &[u8]) -> Kind
    ensures { result ≡ named keywords word.now }
{
    match word.split_first() {
        None => Kind::Identifier,
        Some((byte, _)) => find(keywords_from(byte.to_ascii_uppercase()), word),
    }
}

fn digit_kind(byte: u8) -> Kind
    ensures { result ≡ digit_kind byte }
{
    match byte {
        b'0' => Kind::Zero,
        b'1' => Kind::One,
        b'2' => Kind::Two,
        b'3' => Kind::Three,
        _ => Kind::Integer,
    }
}

fn number_kind(word: &[u8]) -> Kind
    ensures { result ≡ number_kind word.now }
{
    match word.split_first() {
        None => Kind::Integer,
        Some((byte, rest)) => {
            if rest.is_empty() {
                return digit_kind(*byte);
            }
            Kind::Integer
        }
    }
}

/// Whether these are digits alone.
pub(crate) fn has_digits_only(word: &[u8]) -> bool
    ensures { result ≡ list_all is_ascii_digit word.now }
{
    word.iter().all(|byte| byte.is_ascii_digit())
}

fn begins_with_letter(word: &[u8]) -> bool
    ensures { result ≡ begins_with_letter word.now }
{
    match word.first() {
        None => false,
        Some(byte) => byte.is_ascii_alphabetic(),
    }
}

/// What a run of letters, digits, `_`, `$` and `#` is.
pub fn word_kind(word: &[u8]) -> Kind
    ensures { result ≡ word_kind word.now }
{
    if has_digits_only(word) {
        return number_kind(word);
    }
    if begins_with_letter(word) && word.len() <= IDENTIFIER_BYTES {
        return find_by_letter(word);
    }
    Kind::Bad
}

/// What digits, a point and this run of letters, digits, `_`, `$` and `#` behind it are.
pub(crate) fn fraction_kind(run: &[u8]) -> Kind
    ensures { result ≡ fraction_kind run.now }
{
    if has_digits_only(run) {
        return Kind::Decimal;
    }
    Kind::Bad
}
