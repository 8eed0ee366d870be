//! The root keys that leave. Where WITH ID gives one it is looked up.

ghost use Rattle.std.specs.Prelude.{◌≡◌, ◌∷◌, [], IfOk, IfSome, Some, option_copied, if◌then◌else◌};
ghost use Rattle.instances.specs.Views.{kept_at, passes};
ghost use Rattle.stored_tier.specs.Choosing.{matches_at};
ghost use Rattle.group_engine.specs.Unloading.{leaving};
ghost use Rattle.group_engine.specs.UnloadNamed.{FitsUnder, NamesKey, NamesValue};

use group_catalog::ResolvedWhich;
use group_store::Store;
use indexed_rows::key_at;
use row_types::{Column, Key, Row, Value, rescaled};
use std::alloc::{AllocError, Global};
use table_defs::TableDef;

/// The keys of the root rows that match, where the root rows fit their table. Where WITH ID tells the only one that
/// may, it is looked up.
pub(crate) fn leaving(
    alloc: Global,
    store: &Store,
    def: &TableDef,
    which: &ResolvedWhich,
) -> Result<Vec<Key>, AllocError>
    ensures { IfOk result (λ keys. FitsUnder def.now (kept_at store.now.tables 0)
        → keys.items ≡ leaving which.now def.now.primary_key (kept_at store.now.tables 0)) }
{
    match named_key(alloc, def, which)? {
        None => leaving_all(alloc, store, def.primary_key.as_slice(), which),
        Some(key) => {
            let matches = is_match(which, store.get(0, &key), &key);
            only_if(alloc, matches, key)
        }
    }
}

// The same by a look at each root row.
fn leaving_all(
    alloc: Global,
    store: &Store,
    columns: &[usize],
    which: &ResolvedWhich,
) -> Result<Vec<Key>, AllocError>
    ensures { IfOk result (λ keys. keys.items ≡ leaving which.now columns.now (kept_at store.now.tables 0)) }
{
    let mut keys = Vec::new(alloc);
    for place in 0..store.len(0) {
        match store.row(0, place) {
            None => {}
            Some(row) => {
                let key = key_at(alloc, columns, row)?;
                if which.matches(row, &key) {
                    keys.push(key)?;
                }
            }
        }
    }
    Ok(keys)
}

/// Whether a row that was looked up is there, and matches.
pub(crate) fn is_match(which: &ResolvedWhich, row: Option<&Row>, key: &Key) -> bool
    ensures { result ≡ passes (matches_at which.now key.now) (option_copied row.entry) }
{
    match row {
        None => false,
        Some(row) => which.matches(row, key),
    }
}

/// The key alone, or none.
pub(crate) fn only_if(alloc: Global, wanted: bool, key: Key) -> Result<Vec<Key>, AllocError>
    ensures { IfOk result (λ keys. keys.items ≡ (if wanted then key ∷ [] else [])) }
{
    let mut keys = Vec::new(alloc);
    if wanted {
        keys.push(key)?;
    }
    Ok(keys)
}

/// The only key that a row which fits may have to match, where WITH ID tells it: the values there, with the scales of
/// the columns. None where no number with a column's scale stands for the same.
pub(crate) fn named_key(
    alloc: Global,
    def: &TableDef,
    which: &ResolvedWhich,
) -> Result<Option<Key>, AllocError>
    ensures { IfOk result (λ key. IfSome key
        (λ key. NamesKey def.now.columns def.now.primary_key which.now.id key)) }
{
    match &which.id {
        None => Ok(None),
        Some(id) => kept_values(
            alloc,
            def.columns.as_slice(),
            def.primary_key.as_slice(),
            id.values(),
        ),
    }
}

// These values, as the columns at these places keep them.
fn kept_values(
    alloc: Global,
    columns: &[Column],
    places: &[usize],
    values: &[Value],
) -> Result<Option<Key>, AllocError>
    ensures { IfOk result (λ key. IfSome key (λ key. NamesKey columns.now places.now (Some values.now) key)) }
{
    let mut kept = Vec::with_capacity(alloc, places.len())?;
    for at in 0..places.len() {
        match kept_value(alloc, columns, places[at], values.get(at))? {
            None => return Ok(None),
            Some(value) => kept.push(value)?,
        }
    }
    Ok(Some(Key::from_vec(kept)))
}

// The value, where there is one, as the column at a place keeps it.
fn kept_value(
    alloc: Global,
    columns: &[Column],
    place: usize,
    value: Option<&Value>,
) -> Result<Option<Value>, AllocError>
    ensures { IfOk result (λ kept. IfSome kept
        (λ kept. NamesValue columns.now place (option_copied value.entry) kept)) }
{
    match (columns.get(place), value) {
        (Some(column), Some(value)) => rescaled(alloc, value, column.ty),
        _ => Ok(None),
    }
}
