//! Rows of tables.

ghost use Rattle.std.specs.Prelude.{◌≡◌, ◌↔◌, IfOk, IsTrue};

use crate::value::Value;
use crate::values::{copied_values, same_values};
use std::alloc::{AllocError, Global};
use std::marker::Model;

/// The values of a row, in the order of its table's columns. Clauses see the list of them.
#[derive(Drop)]
pub struct Row {
    values: Vec<Value>,
}

impl Model for Row {
    ghost use Rattle.std.specs.Prelude.{List};
    ghost use Rattle.row_types.specs.declared.value.Value.{Value as OneValue};

    ghost Value = { List OneValue };

    ghost view = { λ row. row.values.items };
}

impl Row {
    /// The row of these values. It takes no memory.
    pub fn from_vec(values: Vec<Value>) -> Row
        ensures { result ≡ values.items }
    {
        Row { values }
    }

    /// The values.
    pub fn values(&self) -> &[Value]
        ensures { result.now ≡ self.now }
    {
        self.values.as_slice()
    }

    /// Whether this is the same row.
    pub fn same(&self, other: &Row) -> bool
        ensures { IsTrue result ↔ (self.now ≡ other.now) }
    {
        same_values(self.values(), other.values())
    }

    /// A second copy of the row.
    pub fn copied(&self, alloc: Global) -> Result<Row, AllocError>
        ensures { IfOk result (λ row. row ≡ self.now) }
    {
        let values = copied_values(alloc, self.values())?;
        Ok(Row { values })
    }
}
