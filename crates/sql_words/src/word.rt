//! Words behind what is printed so far.
ghost use Rattle.std.specs.Prelude.{◌≡◌, ◌++◌, ◌∷◌, ◌<◌, IfSome, OnOk, length, nat_eq};
ghost use Rattle.std.specs.Fmt.{decimal};
ghost use Rattle.std.specs.List.{position};
ghost use Rattle.sql_words.specs.Words.{column_name_words, enclosed, identifier_words, listed, more, name_words, spaced};

use itoa::Buffer;
use sql_phrases::tier_base::Name;
use std::alloc::AllocError;

/// Puts a space and the word, or words that have their spaces. The error is want of memory; what was put then isn't
/// told.
pub fn put(out: &mut Vec<u8>, word: &[u8]) -> Result<(), AllocError>
    ensures { OnOk result (out.new.items ≡ out.old.items ++ 32 ∷ word.now) }
{
    out.push(b' ')?;
    out.extend_from_slice(word)
}

/// Puts a space and the number in decimal. The error is want of memory.
pub fn put_number(out: &mut Vec<u8>, number: u64) -> Result<(), AllocError>
    ensures { OnOk result (out.new.items ≡ out.old.items ++ 32 ∷ decimal number) }
{
    let mut digits = Buffer::new();
    put(out, digits.format(number).as_bytes())
}

fn first_dot(bytes: &[u8]) -> Option<usize>
    ensures place { result ≡ position (λ b. nat_eq b 46) bytes.now }
    ensures within { IfSome result (λ dot. dot < length bytes.now) }
{
    bytes.iter().position(|byte| *byte == b'.')
}

fn put_dotted(out: &mut Vec<u8>, bytes: &[u8]) -> Result<(), AllocError>
    ensures { OnOk result (out.new.items ≡ out.old.items ++ spaced (name_words bytes.now)) }
{
    match first_dot(bytes) {
        None => put(out, bytes),
        Some(dot) => {
            put(out, &bytes[..dot])?;
            put(out, b".")?;
            put(out, &bytes[dot + 1..])
        }
    }
}

/// Puts a name, its owner, its dot and its identifier being words of their own. The error is want of memory.
pub fn put_name(out: &mut Vec<u8>, name: &Name) -> Result<(), AllocError>
    ensures { OnOk result (out.new.items ≡ out.old.items ++ spaced (name_words name.now)) }
{
    put_dotted(out, name.as_bytes())
}

/// Puts a column's name, each identifier and each dot being a word of its own. The error is want of memory.
pub fn put_column_name(out: &mut Vec<u8>, name: &Name) -> Result<(), AllocError>
    ensures { OnOk result (out.new.items ≡ out.old.items ++ spaced (column_name_words name.now)) }
{
    let bytes = name.as_bytes();
    match first_dot(bytes) {
        None => put(out, bytes),
        Some(dot) => {
            put(out, &bytes[..dot])?;
            put(out, b".")?;
            put_dotted(out, &bytes[dot + 1..])
        }
    }
}

/// Puts a comma and an identifier for each.
fn put_more_names(out: &mut Vec<u8>, names: &[Name]) -> Result<(), AllocError>
    ensures { OnOk result (out.new.items ≡ out.old.items ++ spaced (more identifier_words names.now)) }
{
    for name in names {
        put(out, b",")?;
        put(out, name.as_bytes())?;
    }
    Ok(())
}

/// Puts identifiers between parentheses, with commas between. The error is want of memory.
pub fn put_names(out: &mut Vec<u8>, names: &[Name]) -> Result<(), AllocError>
    ensures { OnOk result (out.new.items ≡ out.old.items ++ spaced (enclosed (listed identifier_words names.now))) }
{
    put(out, b"(")?;
    if let Some((first, rest)) = names.split_first() {
        put(out, first.as_bytes())?;
        put_more_names(out, rest)?;
    }
    put(out, b")")
}
