//! A row with room for it.

ghost use Rattle.std.specs.Prelude.{◌≡◌, [], ◌∷◌, IfOk};

use row_types::{Key, Row};
use std::alloc::{AllocError, Global};
use std::marker::Model;

/// A row that left, with the room that it takes to put it back. Clauses see the key and the row.
#[derive(Drop)]
pub struct Spare {
    entry: long_list::Spare<(Key, Row)>,
}

impl Model for Spare {
    ghost use Rattle.std.specs.Prelude.{◌≡◌, List, [], length, slice_index_or};
    ghost use Rattle.row_types.specs.declared.value.Value.{Value as OneValue};
    ghost use Rattle.std.specs.Coded.{coded_list, coded×};
    ghost use Rattle.row_types.specs.contracts.value.Value as one;

    ghost Value = { List OneValue × List OneValue };

    ghost coded = { coded× (coded_list one.the_row.coded) (coded_list one.the_row.coded) };

    ghost view = { λ s. slice_index_or s.entry 0 ([], []) };

    ghost invariant = { λ s. length s.entry ≡ 1 };
}

impl Spare {
    /// Makes room for a row and its key.
    pub fn new(alloc: Global, key: Key, row: Row) -> Result<Spare, AllocError>
        ensures { IfOk result (λ spare. spare ≡ (key, row)) }
    {
        let entry = long_list::Spare::new(alloc, (key, row))?;
        Ok(Spare { entry })
    }

    /// The key of the row.
    pub fn key(&self) -> &Key
        ensures { result.now ≡ self.now.0 }
    {
        &self.entry.element().0
    }

    /// The row.
    pub fn row(&self) -> &Row
        ensures { result.now ≡ self.now.1 }
    {
        &self.entry.element().1
    }

    // The room with the key and the row.
    pub(crate) fn into_room(self) -> long_list::Spare<(Key, Row)>
        ensures { result ≡ self ∷ [] }
    {
        let Spare { entry } = self;
        entry
    }
}
