//! The head of a line, and the bytes that no line may have.
ghost use Rattle.std.specs.Prelude.{◌≡◌, ◌≤◌, ◌<◌, length, not, IfSome};
ghost use Rattle.std.specs.List.{position};
ghost use Rattle.tier_base.specs.Names.{is_word_byte};
ghost use Rattle.std.specs.Str.Lossy.{utf8_valid_len};
ghost use Rattle.sql_tokens.specs.Lexing.{is_blank};
ghost use Rattle.sql_tokens.specs.Heads.{place_or_end, head_start, head_end, good_length, is_control};

use crate::lexer::is_blank;
use tier_base::name::is_name_byte;

fn first_not_blank(line: &[u8]) -> Option<usize>
    ensures place { result ≡ position (λ b. not (is_blank b)) line.now }
    ensures within { IfSome result (λ i. i < length line.now) }
{
    line.iter().position(|byte| !is_blank(*byte))
}

fn first_not_word(line: &[u8]) -> Option<usize>
    ensures place { result ≡ position (λ b. not (is_word_byte b)) line.now }
    ensures within { IfSome result (λ i. i < length line.now) }
{
    line.iter().position(|byte| !is_name_byte(*byte))
}

fn first_control(line: &[u8]) -> Option<usize>
    ensures { result ≡ position is_control line.now }
{
    line.iter().position(|byte| is_control(*byte))
}

fn past_blanks(line: &[u8]) -> usize
    ensures place { result ≡ place_or_end (λ b. not (is_blank b)) line.now }
    ensures within { result ≤ length line.now }
{
    match first_not_blank(line) {
        Some(place) => place,
        None => line.len(),
    }
}

fn past_word(line: &[u8]) -> usize
    ensures place { result ≡ place_or_end (λ b. not (is_word_byte b)) line.now }
    ensures within { result ≤ length line.now }
{
    match first_not_word(line) {
        Some(place) => place,
        None => line.len(),
    }
}

/// The places where the head of the line begins and ends: behind the blanks in front, the longest
/// run of letters, digits, `_`, `$` and `#`.
pub fn head(line: &[u8]) -> (usize, usize)
    ensures start { result.0 ≡ head_start line.now }
    ensures end { result.1 ≡ head_end line.now }
    ensures order { result.0 ≤ result.1 }
    ensures within { result.1 ≤ length line.now }
{
    let start = past_blanks(line);
    let length = past_word(&line[start..]);
    (start, start + length)
}

fn is_control(byte: u8) -> bool
    ensures { result ≡ is_control byte }
{
    (byte < b' ' && byte != b'\t') || byte == 0x7f
}

fn without_controls(line: &[u8]) -> usize
    ensures { result ≡ place_or_end is_control line.now }
{
    match first_control(line) {
        Some(place) => place,
        None => line.len(),
    }
}

fn utf8_length(line: &[u8]) -> usize
    ensures { result ≡ utf8_valid_len line.now }
{
    match str::from_utf8(line) {
        Ok(_) => line.len(),
        Err(error) => error.valid_up_to(),
    }
}

/// The length of the front without a bad byte: a control byte, or one with which no UTF-8 goes on.
pub fn good_length(line: &[u8]) -> usize
    ensures { result ≡ good_length line.now }
{
    without_controls(line).min(utf8_length(line))
}
