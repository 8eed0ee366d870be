//! Request lines, from their bytes.
ghost use Rattle.std.specs.Prelude.{◌≡◌, ◌≤◌, ℕ, List, length, IfOk};
ghost use Rattle.sql_phrases.specs.sql_tokens.specs.Lexing.{lexemes_of, lexed};
ghost use Rattle.sql_subset.specs.Lines.{is_silent, start_of, place_at, line_of, Told, Answers, Parses, Means, Saying, SaysSomething, line_said, tokens_said};

use crate::request::{Line, ParseError};
use crate::statements::{read_clock, read_console, read_request, read_statement};
use crate::stmt::Stmt;
use sql_phrases::reader::Reader;
use sql_phrases::sql_grammar::engine::{Verdict, one_verdict, recognize};
use sql_phrases::sql_grammar::start::Start;
use sql_phrases::sql_tokens::head::{good_length, head};
use sql_phrases::sql_tokens::lexer::lex;
use sql_phrases::sql_tokens::token::Token;
use sql_phrases::tier_base::Label;
use sql_phrases::tier_base::label::spells_label;
use std::alloc::{AllocError, Global};

/// Whether the line is empty or a comment, which has no reply.
pub fn is_silent(bytes: &[u8]) -> bool
    ensures { result ≡ is_silent bytes.now }
{
    match bytes.first() {
        None => true,
        Some(byte) => *byte == b'#',
    }
}

/// Who speaks, by the head of the line: the console, the clock, a session, or no one.
fn start_of(head: &[u8]) -> Option<Start>
    ensures { result ≡ start_of head.now }
{
    if head == b"backing".as_slice() {
        return Some(Start::Console);
    }
    if head == b"clock".as_slice() {
        return Some(Start::Clock);
    }
    if spells_label(head) {
        return Some(Start::Session);
    }
    None
}

/// The byte at which the token stands, or the end.
fn place_of(line: &[u8], tokens: &[Token], i: usize) -> usize
    ensures { result ≡ place_at (lexemes_of line.now tokens.now) i (length line.now) }
{
    match tokens.get(i) {
        None => line.len(),
        Some(token) => token.start,
    }
}

/// The request of the tokens behind this head.
fn read_line(start: Start, head: &[u8], r: Reader<'_>) -> Result<Line, AllocError>
    ensures { IfOk result (λ line. line ≡ line_of start head.now r.entry) }
{
    match start {
        Start::Console => {
            let request = read_console(r.skip(1))?;
            Ok(Line::Console(request))
        }
        Start::Session => {
            let Ok(label) = Label::new(r.alloc(), head) else {
                return Err(AllocError);
            };
            let request = read_request(r.skip(1))?;
            Ok(Line::Session(label, request))
        }
        Start::Clock => Ok(Line::Clock(read_clock(r.skip(1)))),
        Start::Statement => {
            let Ok(label) = Label::new(r.alloc(), head) else {
                return Err(AllocError);
            };
            let request = read_request(r)?;
            Ok(Line::Session(label, request))
        }
    }
}

/// The tokens of the line from this place on, where they are spelt by the grammar of who speaks.
fn spelt_tokens(
    alloc: Global,
    start: Start,
    line: &[u8],
    from: usize,
) -> Result<Vec<Token>, ParseError>
    requires { from ≤ length line.now }
    ensures { (head : List ℕ) → Told start head (length line.now) (lexed from line.now)
        (tokens_said start head line.now result) }
{
    let Ok(tokens) = lex(alloc, line, from) else {
        return Err(ParseError::Memory);
    };
    match recognize(alloc, start, &tokens) {
        Err(_) => Err(ParseError::Memory),
        Ok(Verdict::At(i)) => Err(ParseError::At(place_of(line, &tokens, i))),
        Ok(Verdict::Deep) => Err(ParseError::Depth),
        Ok(Verdict::Fits) => Ok(tokens),
    }
}

/// A line that is spelt right: who speaks, the head, and the tokens behind it.
struct SpeltLine<'a> {
    start: Start,
    head: &'a [u8],
    tokens: Vec<Token>,
}

impl Drop for SpeltLine<'_> {
    fn drop(self) {
        let Self {
            start: _,
            head: _,
            tokens: _,
        } = self;
    }
}

/// The line, where it is spelt right; nothing where it is silent.
fn spelt_line(alloc: Global, bytes: &[u8]) -> Result<Option<SpeltLine<'_>>, ParseError>
    ensures { Answers bytes.now (line_said bytes.now result) }
{
    if is_silent(bytes) {
        return Ok(None);
    }
    let (from, to) = head(bytes);
    let head = &bytes[from..to];
    let Some(start) = start_of(head) else {
        return Err(ParseError::At(0));
    };
    let good = good_length(bytes);
    if good < bytes.len() {
        return Err(ParseError::At(good));
    }
    match spelt_tokens(alloc, start, bytes, to) {
        Ok(tokens) => Ok(Some(SpeltLine {
            start,
            head,
            tokens,
        })),
        Err(error) => Err(error),
    }
}

/// Whether the line says something: it doesn't where it is silent, for which no memory is taken. What it says isn't
/// read.
///
/// The errors are those of `parse_line`.
pub fn says_something(alloc: Global, bytes: &[u8]) -> Result<bool, ParseError>
    ensures { SaysSomething bytes.now result }
{
    match spelt_line(alloc, bytes) {
        Ok(None) => Ok(false),
        Ok(Some(_)) => Ok(true),
        Err(error) => Err(error),
    }
}

/// What the line says; nothing where it is silent, for which no memory is taken.
///
/// `At` tells the first byte of the first token with which no request goes on, or the line's length at its end; 0
/// where the line has no label; and the first bad byte where it has one. `Depth` comes where that token goes on only
/// more than 32 levels deep.
pub fn parse_line(alloc: Global, bytes: &[u8]) -> Result<Option<Line>, ParseError>
    ensures { Answers bytes.now result }
{
    match spelt_line(alloc, bytes) {
        Ok(None) => Ok(None),
        Ok(Some(spelt)) => {
            match read_line(
                spelt.start,
                spelt.head,
                Reader::new(alloc, bytes, &spelt.tokens),
            ) {
                Ok(line) => Ok(Some(line)),
                Err(_) => Err(ParseError::Memory),
            }
        }
        Err(error) => Err(error),
    }
}

/// The statement that the bytes spell, without a label.
///
/// `At` tells the first bad byte where there is one, else the first byte of the first token with which no statement
/// goes on, or the length at the end. `Depth` comes where that token goes on only more than 32 levels deep.
pub fn parse(alloc: Global, bytes: &[u8]) -> Result<Stmt, ParseError>
    ensures { Parses bytes.now result }
{
    let good = good_length(bytes);
    if good < bytes.len() {
        return Err(ParseError::At(good));
    }
    let Ok(tokens) = lex(alloc, bytes, 0) else {
        return Err(ParseError::Memory);
    };
    match recognize(alloc, Start::Statement, &tokens) {
        Err(_) => return Err(ParseError::Memory),
        Ok(Verdict::At(i)) => return Err(ParseError::At(place_of(bytes, &tokens, i))),
        Ok(Verdict::Deep) => return Err(ParseError::Depth),
        Ok(Verdict::Fits) => {}
    }
    match read_statement(Reader::new(alloc, bytes, &tokens)) {
        Ok(statement) => Ok(statement),
        Err(_) => Err(ParseError::Memory),
    }
}

/// Each line says just one thing.
pub fn one_meaning()
    ensures { (bytes : List ℕ) (x y : Saying) → Means bytes x → Means bytes y → x ≡ y }
{
    one_verdict();
}
