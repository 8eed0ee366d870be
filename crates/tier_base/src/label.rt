//! Labels of sessions.

ghost use Rattle.std.specs.Prelude.{◌≡◌, ◌↔◌, IfOk, IsTrue, OnOk, true, false};
ghost use Rattle.std.specs.List.{list_all};
ghost use Rattle.tier_base.specs.Labels.{begins_with_lower, is_label, is_label_byte};
ghost use Rattle.tier_base.specs.declared.label.LabelError.TheVariants.{Memory};

use std::alloc::{AllocError, Global};
use std::marker::Model;

/// The greatest number of bytes of a label.
pub const LABEL_BYTES: usize = 16;

/// Why bytes gave no label.
#[derive(Clone, Copy, Debug, PartialEq, Eq)]
pub enum LabelError {
    /// The bytes are no label.
    Bad,
    /// Memory was wanting.
    Memory,
}

impl From<AllocError> for LabelError {
    ghost from_gives = { λ _ e. e ≡ Memory };

    fn from(_error: AllocError) -> LabelError {
        LabelError::Memory
    }
}

/// The label of a session: a lower-case letter and then up to 15 lower-case letters, digits or `_`. Clauses see its
/// bytes.
#[derive(Debug, Drop)]
pub struct Label {
    bytes: Vec<u8>,
}

impl Model for Label {
    ghost use Rattle.std.specs.Prelude.{List, ℕ};

    ghost Value = { List ℕ };

    ghost view = { λ label. label.bytes.items };
}

impl Label {
    /// The label of these bytes. `Bad` exactly where they are none.
    pub fn new(alloc: Global, bytes: &[u8]) -> Result<Label, LabelError>
        ensures label { OnOk result (is_label bytes.now ≡ true) }
        ensures kept { IfOk result (λ label. label ≡ bytes.now) }
        ensures bad { result ≡ Err LabelError.Bad → is_label bytes.now ≡ false }
    {
        if !spells_label(bytes) {
            return Err(LabelError::Bad);
        }
        Ok(Label {
            bytes: Vec::from_slice(alloc, bytes)?,
        })
    }

    /// The bytes.
    pub fn as_bytes(&self) -> &[u8]
        ensures { result.now ≡ self.now }
    {
        self.bytes.as_slice()
    }

    /// Whether this is the same label.
    pub fn same(&self, other: &Label) -> bool
        ensures { IsTrue result ↔ (self.now ≡ other.now) }
    {
        self.bytes == other.bytes
    }

    /// A second copy of the label.
    pub fn copied(&self, alloc: Global) -> Result<Label, AllocError>
        ensures { IfOk result (λ label. label ≡ self.now) }
    {
        Ok(Label {
            bytes: Vec::from_slice(alloc, self.bytes.as_slice())?,
        })
    }
}

/// Whether the bytes are a label.
pub fn spells_label(bytes: &[u8]) -> bool
    ensures { result ≡ is_label bytes.now }
{
    begins_with_lower(bytes) && has_label_bytes(bytes) && bytes.len() <= LABEL_BYTES
}

fn begins_with_lower(bytes: &[u8]) -> bool
    ensures { result ≡ begins_with_lower bytes.now }
{
    match bytes.first() {
        None => false,
        Some(byte) => byte.is_ascii_lowercase(),
    }
}

fn has_label_bytes(bytes: &[u8]) -> bool
    ensures { result ≡ list_all is_label_byte bytes.now }
{
    bytes.iter().all(|byte| is_label_byte(*byte))
}

fn is_label_byte(byte: u8) -> bool
    ensures { result ≡ is_label_byte byte }
{
    byte.is_ascii_lowercase() || byte.is_ascii_digit() || byte == b'_'
}
