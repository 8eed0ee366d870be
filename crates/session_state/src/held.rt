//! Keys held by table. All memory is taken when their marks are made, and none when they are put in.

ghost use Rattle.std.specs.Prelude.{◌≡◌, ℕ, ◌+◌, ◌++◌, ◌<◌, ◌≤◌, ◌^◌, [], List, OnOk, length, map, option_copied, slice_get};
ghost use Rattle.own_rows.specs.indexed_rows.specs.Rows.{key_of};
ghost use Rattle.own_rows.specs.table_state.specs.declared.footprint.RowKey.{RowKey as OneKey};

use crate::mark::Mark;
use crate::putting::{hold_all, widen_keys};
use own_rows::has_same_key;
use own_rows::indexed_rows::Rows;
use own_rows::row_types::{Key, Row};
use own_rows::tier_base::TableId;
use std::alloc::{AllocError, Global};
use std::marker::Model;

/// Keys held, by the place of their table in the schema. Of tables past the end no key is held. Clauses see a list, a
/// map without values for each table.
#[derive(Drop)]
pub struct HeldKeys {
    tables: Vec<Rows>,
}

impl Model for HeldKeys {
    ghost use Rattle.std.specs.Prelude.{List};
    ghost use Rattle.std.specs.Coded.{coded_list};
    ghost use Rattle.own_rows.specs.indexed_rows.specs.Rows.{Table};
    ghost use Rattle.own_rows.specs.OwnCode.{table_code};

    ghost Value = { List Table };

    ghost coded = { coded_list table_code };

    ghost view = { λ keys. keys.tables.items };
}

impl HeldKeys {
    ghost use Rattle.session_state.specs.Holding.{AreKeysOf, AreWithin, KeysHaveRoom, is_held, key_of_mark};

    /// No key is held. It takes no memory.
    pub(crate) fn new(alloc: Global) -> HeldKeys
        ensures { result ≡ [] }
    {
        HeldKeys {
            tables: Vec::new(alloc),
        }
    }

    /// No key is held any more. It takes no memory.
    pub(crate) fn clear(&mut self)
        ensures { self.new ≡ [] }
    {
        self.tables.clear();
    }

    /// Makes a place for the keys of each of so many tables.
    ///
    /// It fails for want of memory alone. Places that were made then stay, and hold nothing.
    pub(crate) fn widen(&mut self, alloc: Global, count: usize) -> Result<(), AllocError>
        requires { length self.old ≤ count }
        ensures keys { (held : List OneKey) → AreKeysOf held self.old → AreKeysOf held self.new }
        ensures room { (n : ℕ) → n < 2 ^ 63 → KeysHaveRoom n self.old → KeysHaveRoom n self.new }
        ensures within { length self.new ≤ count }
        ensures wide { OnOk result (length self.new ≡ count) }
    {
        widen_keys(alloc, &mut self.tables, count)
    }

    /// Holds the keys of marks. It doesn't fail: their memory was taken before.
    pub(crate) fn hold(&mut self, marks: Vec<Mark>)
        requires within { AreWithin (length self.old) marks.items }
        requires room { KeysHaveRoom (length marks.items) self.old }
        ensures keys { (held : List OneKey) → AreKeysOf held self.old
            → AreKeysOf (held ++ map key_of_mark marks.items) self.new }
        ensures room { (n : ℕ) → KeysHaveRoom (length marks.items + n) self.old → KeysHaveRoom n self.new }
        ensures long { length self.new ≡ length self.old }
    {
        hold_all(self.tables.as_mut_slice(), marks);
    }

    /// Whether the key of a row, whose values stand at these places, is held. It takes no memory.
    pub fn has_key_of(&self, table: TableId, places: &[usize], row: &Row) -> bool
        ensures { result ≡ is_held self.now (record { table = table; key = key_of places.now row.now }) }
    {
        match keys_of(self.tables.as_slice(), table) {
            None => false,
            Some(keys) => has_same_key(keys, places, row),
        }
    }

    /// Whether a key is held. It takes no memory.
    pub(crate) fn has_key(&self, table: TableId, key: &Key) -> bool
        ensures { result ≡ is_held self.now (record { table = table; key = key.now }) }
    {
        match keys_of(self.tables.as_slice(), table) {
            None => false,
            Some(keys) => keys.contains_key(key),
        }
    }
}

fn keys_of(keys: &[Rows], table: TableId) -> Option<&Rows>
    ensures { option_copied result ≡ slice_get keys.now table.0 }
{
    keys.get(table.0 as usize)
}
