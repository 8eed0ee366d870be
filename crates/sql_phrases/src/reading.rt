//! Names, literals and lists of them, read off the tokens of a line.
ghost use Rattle.std.specs.Prelude.{◌≡◌, ◌++◌, ◌∷◌, ℕ, List, codes, drop, IfOk};
ghost use Rattle.sql_phrases.specs.Reading.{name_from, identifier_of, name_of, column_of, numeral_of, number_of, halved, unquoted, literal_of, identifiers_of, literals_of, columns_of};

use crate::reader::Reader;
use sql_grammar::sql_tokens::kind::Kind;
use sql_query::row_types::Text;
use sql_query::tier_base::{Name, NameError, Seq};
use sql_query::{Literal, NumberLiteral};
use std::alloc::{AllocError, Global};

/// The name that stands where the bytes are none, which no line has.
fn no_name(alloc: Global) -> Result<Name, AllocError>
    ensures { IfOk result (λ name. name ≡ codes "NONAME") }
{
    match Name::new(alloc, b"NONAME") {
        Ok(name) => Ok(name),
        Err(_) => Err(AllocError),
    }
}

/// The bytes as a name, folded.
fn name_from(alloc: Global, bytes: &[u8]) -> Result<Name, AllocError>
    ensures { IfOk result (λ name. name ≡ name_from bytes.now) }
{
    match Name::new(alloc, bytes) {
        Ok(name) => Ok(name),
        Err(NameError::Bad) => no_name(alloc),
        Err(NameError::Memory) => Err(AllocError),
    }
}

/// Reads an identifier.
pub fn read_identifier(r: Reader<'_>) -> Result<(Name, Reader<'_>), AllocError>
    ensures { IfOk result (λ x. identifier_of r.entry ≡ (x.0, x.1)) }
{
    let name = name_from(r.alloc(), r.text())?;
    Ok((name, r.skip(1)))
}

/// The owner and the identifier with a dot between.
fn dotted(alloc: Global, owner: &[u8], identifier: &[u8]) -> Result<Vec<u8>, AllocError>
    ensures { IfOk result (λ bytes. bytes.items ≡ owner.now ++ 46 ∷ identifier.now) }
{
    let mut bytes = Vec::from_slice(alloc, owner)?;
    bytes.push(b'.')?;
    bytes.extend_from_slice(identifier)?;
    Ok(bytes)
}

/// Reads a name.
pub fn read_name(r: Reader<'_>) -> Result<(Name, Reader<'_>), AllocError>
    ensures { IfOk result (λ x. name_of r.entry ≡ (x.0, x.1)) }
{
    let owner = r.text();
    let alloc = r.alloc();
    let rest = r.skip(1);
    if rest.begins(Kind::Dot) {
        let identifier = rest.skip(1);
        let bytes = dotted(alloc, owner, identifier.text())?;
        let name = name_from(alloc, &bytes)?;
        return Ok((name, identifier.skip(1)));
    }
    let name = name_from(alloc, owner)?;
    Ok((name, rest))
}

/// Reads the name of a column.
pub fn read_column_name(r: Reader<'_>) -> Result<(Name, Reader<'_>), AllocError>
    ensures { IfOk result (λ x. column_of r.entry ≡ (x.0, x.1)) }
{
    let (name, rest) = read_name(r)?;
    if rest.begins(Kind::Dot) {
        let alloc = rest.alloc();
        let column = rest.skip(1);
        let last = name_from(alloc, column.text())?;
        let whole = Name::of_column(alloc, &name, &last)?;
        return Ok((whole, column.skip(1)));
    }
    Ok((name, rest))
}

/// Reads a number.
fn read_numeral(r: Reader<'_>) -> Result<(NumberLiteral, Reader<'_>), AllocError>
    ensures { IfOk result (λ x. numeral_of r.entry ≡ (x.0, x.1)) }
{
    let negative = r.begins(Kind::Minus);
    let number = if negative { r.skip(1) } else { r };
    let digits = Text::new(number.alloc(), number.text())?;
    Ok((NumberLiteral { negative, digits }, number.skip(1)))
}

/// The number that the digits make; 2^64 - 1 stands for all that is greater.
pub fn number_of(digits: &[u8]) -> u64
    ensures { result ≡ number_of digits.now }
{
    let mut number: u64 = 0;
    for digit in digits {
        number = number
            .saturating_mul(10)
            .saturating_add(u64::from(digit.saturating_sub(b'0')));
    }
    number
}

/// Takes a byte of a text, behind a quote or not; whether the next one is.
fn take_byte(text: &mut Vec<u8>, behind: bool, byte: u8) -> Result<bool, AllocError>
    ensures { IfOk result (λ next. (rest : List ℕ)
        → text.new.items ++ halved next rest ≡ text.old.items ++ halved behind (byte ∷ rest)) }
{
    if behind {
        text.push(b'\'')?;
        return Ok(false);
    }
    if byte == b'\'' {
        return Ok(true);
    }
    text.push(byte)?;
    Ok(false)
}

/// The bytes without the first, and each doubled quote as one.
fn unquoted(alloc: Global, bytes: &[u8]) -> Result<Text, AllocError>
    ensures { IfOk result (λ text. text ≡ unquoted bytes.now) }
{
    let mut text = Vec::new(alloc);
    let mut behind = false;
    for byte in inside(bytes) {
        behind = take_byte(&mut text, behind, *byte)?;
    }
    Ok(Text::from_vec(text))
}

/// The bytes without the first.
fn inside(bytes: &[u8]) -> &[u8]
    ensures { result.now ≡ drop 1 bytes.now }
{
    if bytes.is_empty() {
        return bytes;
    }
    &bytes[1..]
}

/// Reads a literal.
pub fn read_literal(r: Reader<'_>) -> Result<(Literal, Reader<'_>), AllocError>
    ensures { IfOk result (λ x. literal_of r.entry ≡ (x.0, x.1)) }
{
    if r.begins(Kind::Text) {
        let text = unquoted(r.alloc(), r.text())?;
        return Ok((Literal::Text(text), r.skip(1)));
    }
    if r.begins(Kind::Null) {
        return Ok((Literal::Null, r.skip(1)));
    }
    if r.begins(Kind::Timestamp) {
        let alloc = r.alloc();
        let quoted = r.skip(1);
        let text = unquoted(alloc, quoted.text())?;
        return Ok((Literal::Time(text), quoted.skip(1)));
    }
    let (number, rest) = read_numeral(r)?;
    Ok((Literal::Number(number), rest))
}

/// Reads identifiers with commas between.
pub fn read_identifiers(r: Reader<'_>) -> Result<(Seq<Name>, Reader<'_>), AllocError>
    ensures { IfOk result (λ x. identifiers_of r.entry ≡ (x.0, x.1)) }
{
    let mut names = Vec::new(r.alloc());
    let (first, mut rest) = read_identifier(r)?;
    names.push(first)?;
    while rest.begins(Kind::Comma) {
        let (name, behind) = read_identifier(rest.skip(1))?;
        names.push(name)?;
        rest = behind;
    }
    Ok((Seq::from_vec(names), rest))
}

/// Reads literals with commas between.
pub fn read_literals(r: Reader<'_>) -> Result<(Seq<Literal>, Reader<'_>), AllocError>
    ensures { IfOk result (λ x. literals_of r.entry ≡ (x.0, x.1)) }
{
    let mut literals = Vec::new(r.alloc());
    let (first, mut rest) = read_literal(r)?;
    literals.push(first)?;
    while rest.begins(Kind::Comma) {
        let (literal, behind) = read_literal(rest.skip(1))?;
        literals.push(literal)?;
        rest = behind;
    }
    Ok((Seq::from_vec(literals), rest))
}

/// Reads names of columns with commas between.
pub fn read_column_names(r: Reader<'_>) -> Result<(Seq<Name>, Reader<'_>), AllocError>
    ensures { IfOk result (λ x. columns_of r.entry ≡ (x.0, x.1)) }
{
    let mut names = Vec::new(r.alloc());
    let (first, mut rest) = read_column_name(r)?;
    names.push(first)?;
    while rest.begins(Kind::Comma) {
        let (name, behind) = read_column_name(rest.skip(1))?;
        names.push(name)?;
        rest = behind;
    }
    Ok((Seq::from_vec(names), rest))
}
