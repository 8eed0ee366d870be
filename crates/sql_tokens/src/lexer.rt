//! From bytes to tokens.
ghost use Rattle.std.specs.Prelude.{◌≡◌, ◌+◌, ◌++◌, ◌∷◌, [], false, ◌<◌, ◌≤◌, length, slice_index, slice_range, IfOk, OnOk};
ghost use Rattle.sql_tokens.specs.Lexing.{lexeme, lexemes_of, lexeme_of, lexed, begun, on, at_end, is_blank, is_open_sign, is_point_of, mark_kind, pair_kind};
ghost use Rattle.sql_tokens.specs.States.{scan_of, Began, Takes};
ghost use Rattle.sql_tokens.specs.Lexing.{InWord};
ghost use Rattle.tier_base.specs.Names.{is_word_byte};
ghost use Rattle.std.specs.Char.{is_ascii_digit};

use crate::kind::Kind;
use crate::token::Token;
use crate::word::{fraction_kind, has_digits_only, word_kind};
use std::alloc::{AllocError, Global};
use tier_base::name::is_name_byte;

/// What is being scanned, with the place where it began.
#[derive(Clone, Copy)]
enum State {
    /// nothing
    Blank,
    /// a run of letters, digits, `_`, `$` and `#`
    InWord(usize),
    /// digits, and the point at this place behind them
    AtPoint(usize, usize),
    /// digits with their point, and the run behind it, with the place where it began
    InFraction(usize, usize),
    /// a text
    InText(usize),
    /// a text behind a quote
    Quoted(usize),
    /// `<`, `>` or `!`
    InSign(usize),
}

/// Whether the byte is a space or a tab.
pub fn is_blank(byte: u8) -> bool
    ensures { result ≡ is_blank byte }
{
    byte == b' ' || byte == b'\t'
}

fn is_open_sign(byte: u8) -> bool
    ensures { result ≡ is_open_sign byte }
{
    byte == b'<' || byte == b'>' || byte == b'!'
}

fn is_digit(byte: u8) -> bool
    ensures { result ≡ is_ascii_digit byte }
{
    byte.is_ascii_digit()
}

// Whether the byte is a point behind digits.
fn is_point_of(run: &[u8], byte: u8) -> bool
    ensures { result ≡ is_point_of run.now byte }
{
    byte == b'.' && has_digits_only(run)
}

fn mark_kind(byte: u8) -> Kind
    ensures { result ≡ mark_kind byte }
{
    match byte {
        b':' => Kind::Colon,
        b';' => Kind::Semicolon,
        b',' => Kind::Comma,
        b'.' => Kind::Dot,
        b'(' => Kind::OpenParen,
        b')' => Kind::CloseParen,
        b'*' => Kind::Star,
        b'+' => Kind::Plus,
        b'-' => Kind::Minus,
        b'=' => Kind::Equals,
        b'<' => Kind::LessThan,
        b'>' => Kind::GreaterThan,
        _ => Kind::Bad,
    }
}

fn pair_kind(first: u8, second: u8) -> Option<Kind>
    ensures { result ≡ pair_kind first second }
{
    if second == b'=' {
        if first == b'<' {
            return Some(Kind::AtMost);
        }
        if first == b'>' {
            return Some(Kind::AtLeast);
        }
        return Some(Kind::NotEquals);
    }
    if second == b'>' && first == b'<' {
        return Some(Kind::NotEquals);
    }
    None
}

/// Writes a token behind the others.
fn write(
    tokens: &mut Vec<Token>,
    line: &[u8],
    kind: Kind,
    start: usize,
    end: usize,
) -> Result<(), AllocError>
    ensures { OnOk result (lexemes_of line.now tokens.new.items
        ≡ lexemes_of line.now tokens.old.items ++ lexeme kind start (slice_range line.now start end) ∷ []) }
{
    let _line = line;
    tokens.push(Token { kind, start, end })?;
    Ok(())
}

/// Takes a byte while nothing is scanned.
fn begin(tokens: &mut Vec<Token>, line: &[u8], i: usize) -> Result<State, AllocError>
    requires { i < length line.now }
    ensures scan { IfOk result (λ s. Takes line.now i tokens.old.items tokens.new.items s
        (begun i (slice_index line.now i))) }
    ensures began { IfOk result (λ s. Began line.now (i + 1) s) }
{
    let byte = line[i];
    if is_blank(byte) {
        return Ok(State::Blank);
    }
    if is_name_byte(byte) {
        return Ok(State::InWord(i));
    }
    if byte == b'\'' {
        return Ok(State::InText(i));
    }
    if is_open_sign(byte) {
        return Ok(State::InSign(i));
    }
    write(tokens, line, mark_kind(byte), i, i + 1)?;
    Ok(State::Blank)
}

/// Ends a word at a byte that isn't of it.
fn end_word(
    tokens: &mut Vec<Token>,
    line: &[u8],
    start: usize,
    i: usize,
) -> Result<State, AllocError>
    requires within { i < length line.now }
    requires began { start ≤ i }
    requires other { is_word_byte (slice_index line.now i) ≡ false }
    ensures scan { IfOk result (λ s. Takes line.now i tokens.old.items tokens.new.items s
        (on (InWord start (slice_range line.now start i)) i (slice_index line.now i))) }
    ensures began { IfOk result (λ s. Began line.now (i + 1) s) }
{
    if is_point_of(&line[start..i], line[i]) {
        return Ok(State::AtPoint(start, i));
    }
    write(tokens, line, word_kind(&line[start..i]), start, i)?;
    begin(tokens, line, i)
}

/// Takes a byte.
fn go_on(tokens: &mut Vec<Token>, line: &[u8], state: State, i: usize) -> Result<State, AllocError>
    requires within { i < length line.now }
    requires began { Began line.now i state }
    ensures scan { IfOk result (λ s. Takes line.now i tokens.old.items tokens.new.items s
        (on (scan_of line.now i state) i (slice_index line.now i))) }
    ensures began { IfOk result (λ s. Began line.now (i + 1) s) }
{
    match state {
        State::Blank => begin(tokens, line, i),
        State::InWord(start) => {
            if is_name_byte(line[i]) {
                return Ok(State::InWord(start));
            }
            end_word(tokens, line, start, i)
        }
        State::AtPoint(start, point) => {
            if is_digit(line[i]) {
                return Ok(State::InFraction(start, i));
            }
            write(tokens, line, word_kind(&line[start..point]), start, point)?;
            write(tokens, line, Kind::Dot, point, i)?;
            begin(tokens, line, i)
        }
        State::InFraction(start, fraction) => {
            if is_name_byte(line[i]) {
                return Ok(State::InFraction(start, fraction));
            }
            write(tokens, line, fraction_kind(&line[fraction..i]), start, i)?;
            begin(tokens, line, i)
        }
        State::InText(start) => {
            if line[i] == b'\'' {
                return Ok(State::Quoted(start));
            }
            Ok(State::InText(start))
        }
        State::Quoted(start) => {
            if line[i] == b'\'' {
                return Ok(State::InText(start));
            }
            write(tokens, line, Kind::Text, start, i)?;
            begin(tokens, line, i)
        }
        State::InSign(start) => {
            let first = line[start];
            match pair_kind(first, line[i]) {
                Some(kind) => {
                    write(tokens, line, kind, start, i + 1)?;
                    Ok(State::Blank)
                }
                None => {
                    write(tokens, line, mark_kind(first), start, i)?;
                    begin(tokens, line, i)
                }
            }
        }
    }
}

/// Ends what is scanned.
fn end(tokens: &mut Vec<Token>, line: &[u8], state: State) -> Result<(), AllocError>
    requires { Began line.now (length line.now) state }
    ensures { OnOk result (lexemes_of line.now tokens.new.items
        ≡ lexemes_of line.now tokens.old.items ++ at_end (scan_of line.now (length line.now) state)) }
{
    let end = line.len();
    match state {
        State::Blank => Ok(()),
        State::InWord(start) => write(tokens, line, word_kind(&line[start..end]), start, end),
        State::AtPoint(start, point) => {
            write(tokens, line, word_kind(&line[start..point]), start, point)?;
            write(tokens, line, Kind::Dot, point, end)
        }
        State::InFraction(start, fraction) => {
            write(
                tokens,
                line,
                fraction_kind(&line[fraction..end]),
                start,
                end,
            )
        }
        State::InText(start) => write(tokens, line, Kind::Bad, start, end),
        State::Quoted(start) => write(tokens, line, Kind::Text, start, end),
        State::InSign(start) => write(tokens, line, mark_kind(line[start]), start, end),
    }
}

/// The tokens of the line from this place on.
pub fn lex(alloc: Global, line: &[u8], from: usize) -> Result<Vec<Token>, AllocError>
    requires { from ≤ length line.now }
    ensures { IfOk result (λ tokens. lexemes_of line.now tokens.items ≡ lexed from line.now) }
{
    // Few lines have more than a token of each three bytes.
    let mut tokens = Vec::with_capacity(alloc, (line.len() - from) / 3 + 2)?;
    let mut state = State::Blank;
    for i in from..line.len() {
        state = go_on(&mut tokens, line, state, i)?;
    }
    end(&mut tokens, line, state)?;
    Ok(tokens)
}
