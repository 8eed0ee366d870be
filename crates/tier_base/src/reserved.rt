//! Reserved words.

ghost use Rattle.std.specs.Prelude.{◌≡◌, ◌∷◌, ℕ, List, map};
ghost use Rattle.std.specs.Char.{to_ascii_uppercase};
ghost use Rattle.tier_base.specs.Names.{is_among, is_reserved_word, reserved, spells};

/// The words that are no identifiers, in upper case.
static RESERVED: [&'static [u8]; 45] = [
    b"SELECT",
    b"FROM",
    b"WHERE",
    b"AND",
    b"OR",
    b"NOT",
    b"NULL",
    b"IS",
    b"IN",
    b"BETWEEN",
    b"ORDER",
    b"BY",
    b"ASC",
    b"DESC",
    b"INSERT",
    b"INTO",
    b"VALUES",
    b"UPDATE",
    b"SET",
    b"DELETE",
    b"CREATE",
    b"ALTER",
    b"DROP",
    b"TABLE",
    b"CACHE",
    b"GROUP",
    b"PRIMARY",
    b"FOREIGN",
    b"KEY",
    b"REFERENCES",
    b"ON",
    b"CASCADE",
    b"TIMESTAMP",
    b"COUNT",
    b"SUM",
    b"MIN",
    b"MAX",
    b"CALL",
    b"COMMIT",
    b"ROLLBACK",
    b"LOAD",
    b"REFRESH",
    b"UNLOAD",
    b"FLUSH",
    b"AGING",
];

/// The words that are no identifiers, in upper case. No later version reserves another.
pub fn reserved_words() -> &'static [&'static [u8]]
    ensures { map (λ word. word.now) result.now ≡ reserved }
{
    &RESERVED
}

static A_WORDS: [&'static [u8]; 4] = [b"AND", b"ASC", b"ALTER", b"AGING"];

static B_WORDS: [&'static [u8]; 2] = [b"BETWEEN", b"BY"];

static C_WORDS: [&'static [u8]; 6] = [
    b"CREATE", b"CACHE", b"CASCADE", b"COUNT", b"CALL", b"COMMIT",
];

static D_WORDS: [&'static [u8]; 3] = [b"DESC", b"DELETE", b"DROP"];

static F_WORDS: [&'static [u8]; 3] = [b"FROM", b"FOREIGN", b"FLUSH"];

static G_WORDS: [&'static [u8]; 1] = [b"GROUP"];

static I_WORDS: [&'static [u8]; 4] = [b"IS", b"IN", b"INSERT", b"INTO"];

static K_WORDS: [&'static [u8]; 1] = [b"KEY"];

static L_WORDS: [&'static [u8]; 1] = [b"LOAD"];

static M_WORDS: [&'static [u8]; 2] = [b"MIN", b"MAX"];

static N_WORDS: [&'static [u8]; 2] = [b"NOT", b"NULL"];

static O_WORDS: [&'static [u8]; 3] = [b"OR", b"ORDER", b"ON"];

static P_WORDS: [&'static [u8]; 1] = [b"PRIMARY"];

static R_WORDS: [&'static [u8]; 3] = [b"REFERENCES", b"ROLLBACK", b"REFRESH"];

static S_WORDS: [&'static [u8]; 3] = [b"SELECT", b"SET", b"SUM"];

static T_WORDS: [&'static [u8]; 2] = [b"TABLE", b"TIMESTAMP"];

static U_WORDS: [&'static [u8]; 2] = [b"UPDATE", b"UNLOAD"];

static V_WORDS: [&'static [u8]; 1] = [b"VALUES"];

static W_WORDS: [&'static [u8]; 1] = [b"WHERE"];

/// The reserved words that may be spelled by a word that begins with this letter, which is in upper case.
fn reserved_from(letter: u8) -> &'static [&'static [u8]]
    ensures { (b : ℕ) (word : List ℕ) → to_ascii_uppercase b ≡ letter
        → is_among (map (λ w. w.now) result.now) (b ∷ word) ≡ is_reserved_word (b ∷ word) }
{
    match letter {
        b'A' => &A_WORDS,
        b'B' => &B_WORDS,
        b'C' => &C_WORDS,
        b'D' => &D_WORDS,
        b'F' => &F_WORDS,
        b'G' => &G_WORDS,
        b'I' => &I_WORDS,
        b'K' => &K_WORDS,
        b'L' => &L_WORDS,
        b'M' => &M_WORDS,
        b'N' => &N_WORDS,
        b'O' => &O_WORDS,
        b'P' => &P_WORDS,
        b'R' => &R_WORDS,
        b'S' => &S_WORDS,
        b'T' => &T_WORDS,
        b'U' => &U_WORDS,
        b'V' => &V_WORDS,
        b'W' => &W_WORDS,
        _ => &[],
    }
}

/// Whether the bytes are a reserved word, in upper or lower case.
pub fn is_reserved(word: &[u8]) -> bool
    ensures { result ≡ is_reserved_word word.now }
{
    match word.split_first() {
        None => false,
        Some((byte, _)) => is_one_of(word, reserved_from(byte.to_ascii_uppercase())),
    }
}

fn is_one_of(word: &[u8], words: &[&[u8]]) -> bool
    ensures { result ≡ is_among (map (λ w. w.now) words.now) word.now }
{
    match words.split_first() {
        None => false,
        Some((first, words)) => is_spelled(word, first) || is_one_of(word, words),
    }
}

/// Whether the bytes are the word, which is in upper case, but for the case of their letters.
fn is_spelled(bytes: &[u8], word: &[u8]) -> bool
    ensures { result ≡ spells bytes.now word.now }
{
    match (bytes.split_first(), word.split_first()) {
        (None, None) => true,
        (Some((byte, bytes)), Some((letter, word))) => {
            byte.to_ascii_uppercase() == *letter && is_spelled(bytes, word)
        }
        _ => false,
    }
}
