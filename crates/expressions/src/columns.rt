//! What an expression reads its columns from.

ghost use Rattle.std.specs.Prelude.{◌≡◌, List, option_copied, slice_get};
ghost use Rattle.row_types.specs.declared.value.Value.{Value as OneValue};

use row_types::{Row, Value};

/// What an expression reads its columns from: a row, or rows side by side. Clauses see the list of the values.
pub trait Columns {
    ghost values: { Self → List OneValue };

    /// The value at a place, from 0; none past the last column.
    fn at(&self, place: usize) -> Option<&Value>
        ensures { option_copied result ≡ slice_get (values self.now) place };
}

/// No columns: what the expressions of an INSERT are read on.
#[derive(Clone, Copy, Debug)]
pub struct NoColumns;

impl Columns for NoColumns {
    ghost use Rattle.std.specs.Prelude.{[]};

    ghost values = { λ none. [] };

    fn at(&self, _place: usize) -> Option<&Value> {
        None
    }
}

impl Columns for Row {
    ghost values = { λ row. row };

    fn at(&self, place: usize) -> Option<&Value> {
        self.values().get(place)
    }
}
