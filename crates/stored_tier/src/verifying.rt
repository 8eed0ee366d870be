//! Whether the stored rows are such that sessions read and write over them.

ghost use Rattle.std.specs.Prelude.{◌≡◌, ◌≤◌, IsTrue, OnOk, Some, All, is_some, length, map, slice_get, true};
ghost use Rattle.slot_rows.specs.SlotKeys.{IsKeyedBy};
ghost use Rattle.table_defs.specs.declared.definition.TableDef.{TableDef as Def};
ghost use Rattle.table_state.specs.Independence.{IsWhole};
ghost use Rattle.table_state.specs.Operations.{applied_all};
ghost use Rattle.table_state.specs.Tables.{fits_columns, table_at};
ghost use Rattle.table_state.specs.Keyed.{HasFit, IsKeyed, IsUnderKeys};
ghost use Rattle.instances.specs.Views.{kept_at};
ghost use Rattle.session_state.specs.Kept.{seen_of};
ghost use Rattle.group_store.specs.Stores.{key_columns};
ghost use Rattle.tier_statements.specs.Judging.{AreSmall};

use crate::tier::Tier;
use group_store::{Home, Shown, Store};
use row_types::{Column, Value, fits};
use session_state::Session;
use std::alloc::{AllocError, Global};
use table_state::Scan;
use tier_base::TableId;
use tier_statements::{are_small, judge_ops};

impl Tier {
    ghost use Rattle.stored_tier.specs.Stored.{IsSound, IsVerified, rows_of};

    /// Makes sure that sessions can read and write over the stored rows. Where that isn't known, each row is looked at,
    /// and each session's operations are judged anew.
    ///
    /// It fails for want of memory, and where a row doesn't fit its table or an operation doesn't apply.
    pub fn verify(&mut self, alloc: Global) -> Result<(), AllocError>
        requires { IsSound self.old }
        ensures ok { OnOk result (self.new.verified ≡ true) }
        ensures same { self.new ≡ record self.old { verified = self.new.verified } }
        ensures sound { IsSound self.new }
    {
        if self.verified {
            return Ok(());
        }
        if !self.is_fit(alloc) {
            return Err(AllocError);
        }
        self.verified = true;
        Ok(())
    }

    // Whether sessions can read and write over the stored rows.
    fn is_fit(&self, alloc: Global) -> bool
        requires { IsSound self.now }
        ensures { IsTrue result → IsVerified self.now }
    {
        if !self.are_keyed() {
            return false;
        }
        let shown = Shown::new(&self.schema, self.stores.as_slice(), &self.directory);
        do_apply(alloc, &shown, self.sessions.as_slice())
    }

    // Whether the rows of each table fit its columns. They stand under their keys.
    fn are_keyed(&self) -> bool
        requires { IsSound self.now }
        ensures { IsTrue result → IsKeyed (rows_of self.now) }
    {
        for place in 0..self.schema.len() {
            if place >= 4_294_967_296 || !self.is_keyed(TableId(place as u32)) {
                return false;
            }
        }
        true
    }

    // The same of one table.
    fn is_keyed(&self, table: TableId) -> bool
        requires { IsSound self.now }
        ensures { IsTrue result → (def : Def) → slice_get self.now.schema table.0 ≡ Some def
            → IsUnderKeys def.primary_key (table_at (rows_of self.now) table)
            × HasFit def.columns (table_at (rows_of self.now) table) }
    {
        match self.directory.home(table) {
            None => true,
            Some(Home { store, place }) => match self.stores.get(store) {
                None => false,
                Some(kept) => self.has_fit(table, kept, place),
            },
        }
    }

    // Whether the rows at a place of a store fit the columns of this table. They stand under the store's keys.
    fn has_fit(&self, table: TableId, store: &Store, place: usize) -> bool
        requires { place ≤ length store.now.layers }
        ensures keys { IsKeyedBy (key_columns store.now place) (kept_at store.now.tables place) }
        ensures fit { IsTrue result → (def : Def) → slice_get self.now.schema table.0 ≡ Some def
            → HasFit def.columns (kept_at store.now.tables place) }
    {
        match self.schema.get(table.0 as usize) {
            None => have_fit(store, place, &[]),
            Some(def) => have_fit(store, place, def.columns.as_slice()),
        }
    }
}

// Whether the rows at a place of a store fit these columns. They stand under the store's keys.
fn have_fit(store: &Store, place: usize, columns: &[Column]) -> bool
    requires { place ≤ length store.now.layers }
    ensures keys { IsKeyedBy (key_columns store.now place) (kept_at store.now.tables place) }
    ensures fit { IsTrue result → HasFit columns.now (kept_at store.now.tables place) }
{
    for at in 0..store.len(place) {
        match store.row(place, at) {
            None => return false,
            Some(row) => {
                if !fit(columns, row.values()) {
                    return false;
                }
            }
        }
    }
    true
}

// Whether there are as many values as columns, and each column takes its value.
fn fit(columns: &[Column], values: &[Value]) -> bool
    ensures { result ≡ fits_columns columns.now values.now }
{
    match (columns.split_first(), values.split_first()) {
        (Some((column, columns)), Some((value, values))) => match fits(value, column) {
            Err(_) => false,
            Ok(()) => fit(columns, values),
        },
        (None, None) => true,
        _ => false,
    }
}

// Whether the tables of a scan are small, and each session's operations apply over them.
fn do_apply<S: Scan>(alloc: Global, scan: &S, sessions: &[Session]) -> bool
    requires whole { IsWhole (S.state scan.now) }
    requires keyed { IsKeyed (S.state scan.now) }
    ensures small { IsTrue result → AreSmall (S.state scan.now) }
    ensures apply { IsTrue result
        → All (λ s. is_some (applied_all s.ops (S.state scan.now)) ≡ true) (map seen_of sessions.now) }
{
    if !are_small(scan) {
        return false;
    }
    for session in sessions {
        match judge_ops(alloc, scan, session.ops.as_slice()) {
            Err(_) => return false,
            Ok(()) => {}
        }
    }
    true
}
