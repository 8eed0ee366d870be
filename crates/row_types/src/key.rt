//! Keys of rows.

ghost use Rattle.std.specs.Prelude.{◌≡◌, ◌↔◌, [], ◌∷◌, IfOk, IsTrue};

use crate::value::Value;
use crate::values::{copied_values, order_of_values, same_values};
use std::alloc::{AllocError, Global};
use std::cmp::Ordering;
use std::marker::Model;
use std::slice::from_ref;

/// The values of a primary key, in its order. A key of one value takes no memory of its own. Clauses see the list
/// of its values.
pub struct Key {
    form: KeyForm,
}

impl Drop for Key {
    fn drop(self) {
        let Self { form: _ } = self;
    }
}

enum KeyForm {
    One(Value),
    Many(Vec<Value>),
}

impl Drop for KeyForm {
    fn drop(self) {
        match self {
            Self::One(_) => {}
            Self::Many(_) => {}
        }
    }
}

impl Model for Key {
    ghost use Rattle.std.specs.Prelude.{List};
    ghost use Rattle.row_types.specs.declared.value.Value.{Value as OneValue};
    ghost use Rattle.row_types.specs.KeyForms.{values_of};

    ghost Value = { List OneValue };

    ghost view = { λ key. values_of key.form };
}

impl Key {
    ghost use Rattle.row_types.specs.Order.{key_order};

    /// A key of one value. It takes no memory.
    pub fn one(value: Value) -> Key
        ensures { result ≡ value ∷ [] }
    {
        Key {
            form: KeyForm::One(value),
        }
    }

    /// A key of these values. It takes no memory.
    pub fn from_vec(values: Vec<Value>) -> Key
        ensures { result ≡ values.items }
    {
        Key {
            form: KeyForm::Many(values),
        }
    }

    /// The values.
    pub fn values(&self) -> &[Value]
        ensures { result.now ≡ self.now }
    {
        match &self.form {
            KeyForm::One(value) => from_ref(value),
            KeyForm::Many(values) => values.as_slice(),
        }
    }

    /// The order of keys: by the first values that differ, and a key that ends before another is less.
    pub fn order(&self, other: &Key) -> Ordering
        ensures { result ≡ key_order self.now other.now }
    {
        order_of_values(self.values(), other.values())
    }

    /// Whether this is the same key.
    pub fn same(&self, other: &Key) -> bool
        ensures { IsTrue result ↔ (self.now ≡ other.now) }
    {
        same_values(self.values(), other.values())
    }

    /// A second copy of the key.
    pub fn copied(&self, alloc: Global) -> Result<Key, AllocError>
        ensures { IfOk result (λ key. key ≡ self.now) }
    {
        match &self.form {
            KeyForm::One(value) => {
                let value = value.copied(alloc)?;
                Ok(Key::one(value))
            }
            KeyForm::Many(values) => {
                let values = copied_values(alloc, values.as_slice())?;
                Ok(Key::from_vec(values))
            }
        }
    }
}
