//! Keys put among those held of tables.

ghost use Rattle.std.specs.Prelude.{◌≡◌, ℕ, ◌<◌, ◌≤◌, ◌^◌, List, OnOk, length};
ghost use Rattle.own_rows.specs.table_state.specs.declared.footprint.RowKey.{RowKey};
ghost use Rattle.session_state.specs.Holding.{AreKeysOf, AreWithin, KeysHaveRoom, with_mark, with_marks};

use crate::mark::Mark;
use own_rows::indexed_rows::Rows;
use std::alloc::{AllocError, Global};

/// A place for the keys of each of so many tables. What was pushed stays where memory is wanting.
pub(crate) fn widen_keys(
    alloc: Global,
    keys: &mut Vec<Rows>,
    count: usize,
) -> Result<(), AllocError>
    requires { length keys.old.items ≤ count }
    ensures keys { (held : List RowKey) → AreKeysOf held keys.old.items → AreKeysOf held keys.new.items }
    ensures room { (n : ℕ) → n < 2 ^ 63 → KeysHaveRoom n keys.old.items → KeysHaveRoom n keys.new.items }
    ensures within { length keys.new.items ≤ count }
    ensures wide { OnOk result (length keys.new.items ≡ count) }
{
    for _place in keys.len()..count {
        keys.push(Rows::new(alloc))?;
    }
    Ok(())
}

fn hold_one(keys: &mut [Rows], mark: Mark)
    requires within { mark.table.0 < length keys.old }
    requires room { KeysHaveRoom 1 keys.old }
    ensures { keys.new ≡ with_mark mark keys.old }
{
    let table = mark.table;
    keys[table.0 as usize].put_back(mark.into_key());
}

/// Holds the keys of marks, one after another. It doesn't fail.
pub(crate) fn hold_all(keys: &mut [Rows], marks: Vec<Mark>)
    requires within { AreWithin (length keys.old) marks.items }
    requires room { KeysHaveRoom (length marks.items) keys.old }
    ensures { keys.new ≡ with_marks marks.items keys.old }
{
    for mark in marks {
        hold_one(keys, mark);
    }
}
