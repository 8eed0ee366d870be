//! Names of tables, columns and groups.

ghost use Rattle.std.specs.Prelude.{◌≡◌, ◌↔◌, ◌<◌, ◌++◌, ◌∷◌, [], IfOk, IfSome, IsTrue, OnOk, false, true, length, nat_eq};
ghost use Rattle.std.specs.List.{list_all, position};
ghost use Rattle.tier_base.specs.declared.name.NameError.TheVariants.{Memory};
ghost use Rattle.tier_base.specs.Names.{begins_with_letter, folded, is_identifier, is_name, is_word_byte};

use crate::reserved::is_reserved;
use std::alloc::{AllocError, Global};
use std::marker::Model;

/// The greatest number of bytes of an identifier.
pub const IDENTIFIER_BYTES: usize = 30;

/// Why bytes gave no name.
#[derive(Clone, Copy, Debug, PartialEq, Eq)]
pub enum NameError {
    /// The bytes are no name.
    Bad,
    /// Memory was wanting.
    Memory,
}

impl From<AllocError> for NameError {
    ghost from_gives = { λ _ e. e ≡ Memory };

    fn from(_error: AllocError) -> NameError {
        NameError::Memory
    }
}

/// The name of a table, a column or a group: one identifier, or an owner and an identifier with a dot between; of a
/// column also the name of its table, a dot and an identifier. The whole is the name. Letters are folded to upper case,
/// and clauses see the folded bytes.
#[derive(Debug, Drop)]
pub struct Name {
    bytes: Vec<u8>,
}

impl Model for Name {
    ghost use Rattle.std.specs.Prelude.{List, ℕ};

    ghost Value = { List ℕ };

    ghost view = { λ name. name.bytes.items };
}

impl Name {
    /// The folded name, where the bytes are one.
    ///
    /// `Bad` exactly where they are none: a part that doesn't begin with a letter, has another byte than letters,
    /// digits, `_`, `$` and `#`, has more than 30 bytes or is a reserved word, or more than two parts.
    pub fn new(alloc: Global, bytes: &[u8]) -> Result<Name, NameError>
        ensures name { OnOk result (is_name bytes.now ≡ true) }
        ensures folds { IfOk result (λ name. name ≡ folded bytes.now) }
        ensures bad { result ≡ Err NameError.Bad → is_name bytes.now ≡ false }
    {
        if !spells_name(bytes) {
            return Err(NameError::Bad);
        }
        let folded: Vec<u8> = bytes
            .iter()
            .map(|byte| byte.to_ascii_uppercase())
            .collect(alloc)?;
        Ok(Name { bytes: folded })
    }

    /// What stands in the place of a name that may not be found: no bytes, so that no name is the same. It takes no
    /// memory.
    pub fn hidden(alloc: Global) -> Name
        ensures { result ≡ [] }
    {
        Name {
            bytes: Vec::new(alloc),
        }
    }

    /// The name of a column with that of its table and a dot before it.
    ///
    /// The error is want of memory.
    pub fn of_column(alloc: Global, table: &Name, column: &Name) -> Result<Name, AllocError>
        ensures { IfOk result (λ name. name ≡ table.now ++ 46 ∷ column.now) }
    {
        let mut bytes = Vec::from_slice(alloc, table.bytes.as_slice())?;
        bytes.push(b'.')?;
        bytes.extend_from_slice(column.bytes.as_slice())?;
        Ok(Name { bytes })
    }

    /// The bytes, in upper case.
    pub fn as_bytes(&self) -> &[u8]
        ensures { result.now ≡ self.now }
    {
        self.bytes.as_slice()
    }

    /// Whether this is the same name.
    pub fn same(&self, other: &Name) -> bool
        ensures { IsTrue result ↔ (self.now ≡ other.now) }
    {
        self.bytes == other.bytes
    }

    /// A second copy of the name.
    pub fn copied(&self, alloc: Global) -> Result<Name, AllocError>
        ensures { IfOk result (λ name. name ≡ self.now) }
    {
        Ok(Name {
            bytes: Vec::from_slice(alloc, self.bytes.as_slice())?,
        })
    }
}

/// Whether the bytes are a name, in upper or lower case.
pub fn spells_name(bytes: &[u8]) -> bool
    ensures { result ≡ is_name bytes.now }
{
    match first_dot(bytes) {
        None => spells_identifier(bytes),
        Some(dot) => spells_identifier(&bytes[..dot]) && spells_identifier(&bytes[dot + 1..]),
    }
}

/// The place of the first dot.
fn first_dot(bytes: &[u8]) -> Option<usize>
    ensures place { result ≡ position (λ b. nat_eq b 46) bytes.now }
    ensures within { IfSome result (λ dot. dot < length bytes.now) }
{
    bytes.iter().position(|byte| *byte == b'.')
}

/// Whether the bytes are an identifier, in upper or lower case.
pub fn spells_identifier(bytes: &[u8]) -> bool
    ensures { result ≡ is_identifier bytes.now }
{
    begins_with_letter(bytes)
        && has_name_bytes(bytes)
        && bytes.len() <= IDENTIFIER_BYTES
        && !is_reserved(bytes)
}

fn has_name_bytes(bytes: &[u8]) -> bool
    ensures { result ≡ list_all is_word_byte bytes.now }
{
    bytes.iter().all(|byte| is_name_byte(*byte))
}

fn begins_with_letter(bytes: &[u8]) -> bool
    ensures { result ≡ begins_with_letter bytes.now }
{
    match bytes.first() {
        None => false,
        Some(byte) => byte.is_ascii_alphabetic(),
    }
}

/// Whether the byte may stand in an identifier: a letter, a digit, `_`, `$` or `#`.
pub fn is_name_byte(byte: u8) -> bool
    ensures { result ≡ is_word_byte byte }
{
    byte.is_ascii_alphanumeric() || byte == b'_' || byte == b'$' || byte == b'#'
}
