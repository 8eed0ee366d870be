//! Texts.

ghost use Rattle.std.specs.Prelude.{◌≡◌, ◌↔◌, IfOk, IsTrue};

use std::alloc::{AllocError, Global};
use std::marker::Model;

/// How many bytes a text holds without memory of its own.
const SHORT_BYTES: usize = 22;

/// A text, as its bytes. Up to 22 bytes take no memory of their own. Clauses see the list of its bytes.
pub struct Text {
    form: TextForm,
}

impl Drop for Text {
    fn drop(self) {
        let Self { form: _ } = self;
    }
}

enum TextForm {
    Short(u8, [u8; 22]),
    Long(Vec<u8>),
}

impl Drop for TextForm {
    fn drop(self) {
        match self {
            Self::Short(_, _) => {}
            Self::Long(_) => {}
        }
    }
}

impl Model for Text {
    ghost use Rattle.std.specs.Prelude.{List, ℕ};
    ghost use Rattle.row_types.specs.TextForms.{IsForm, bytes_of};

    ghost Value = { List ℕ };

    ghost view = { λ text. bytes_of text.form };

    ghost invariant = { λ text. IsForm text.form };
}

impl Text {
    /// The text of these bytes.
    pub fn new(alloc: Global, bytes: &[u8]) -> Result<Text, AllocError>
        ensures { IfOk result (λ text. text ≡ bytes.now) }
    {
        let len = bytes.len();
        if len > SHORT_BYTES {
            return Ok(Text {
                form: TextForm::Long(Vec::from_slice(alloc, bytes)?),
            });
        }
        let mut short = [0; 22];
        short[..len].copy_from_slice(bytes);
        Ok(Text {
            form: TextForm::Short(len as u8, short),
        })
    }

    /// The text of these bytes. It takes no memory.
    pub fn from_vec(bytes: Vec<u8>) -> Text
        ensures { result ≡ bytes.items }
    {
        Text {
            form: TextForm::Long(bytes),
        }
    }

    /// The bytes.
    pub fn as_bytes(&self) -> &[u8]
        ensures { result.now ≡ self.now }
    {
        match &self.form {
            TextForm::Short(len, bytes) => &bytes[..*len as usize],
            TextForm::Long(bytes) => bytes.as_slice(),
        }
    }

    /// Whether this is the same text.
    pub fn same(&self, other: &Text) -> bool
        ensures { IsTrue result ↔ (self.now ≡ other.now) }
    {
        self.as_bytes() == other.as_bytes()
    }

    /// A second copy of the text.
    pub fn copied(&self, alloc: Global) -> Result<Text, AllocError>
        ensures { IfOk result (λ text. text ≡ self.now) }
    {
        Text::new(alloc, self.as_bytes())
    }
}
