//! What the stores of all groups show, as tables that a query reads.

ghost use Rattle.std.specs.Prelude.{◌≡◌, MatchOption};
ghost use Rattle.std.specs.FinMap as map;
ghost use Rattle.cache_store.specs.table_state.specs.Tables.{table_at};
ghost use Rattle.group_store.specs.Shown.{AreHoused, ShowsTable, shown_by};

use crate::directory::{Directory, Home};
use crate::store::Store;
use cache_store::table_defs::BackingSchema;
use cache_store::table_state::Scan;
use slot_rows::row_types::{Key, Row};
use slot_rows::tier_base::TableId;

/// What the stores of all groups show: each table of the schema with the rows that its store keeps. A table of no store
/// has no rows. Nothing is copied, and no call takes memory.
pub struct Shown<'a> {
    schema: &'a BackingSchema,
    stores: &'a [Store],
    directory: &'a Directory,
    ghost fits: { AreHoused schema.now stores.now directory.now },
}

impl Drop for Shown<'_> {
    fn drop(self) {
        let Self {
            schema: _,
            stores: _,
            directory: _,
        } = self;
    }
}

impl<'a> Shown<'a> {
    /// The tables of a schema, as these stores keep them.
    pub fn new(
        schema: &'a BackingSchema,
        stores: &'a [Store],
        directory: &'a Directory,
    ) -> Shown<'a>
        requires { AreHoused schema.now stores.now directory.now }
        ensures { ⟦<Shown<'a> as Scan>⟧.state result ≡ shown_by schema.now stores.now }
    {
        Shown {
            schema,
            stores,
            directory,
        }
    }
    // The store that keeps a table, and the place of the table in its tree.
    fn kept(&self, table: TableId) -> Option<(&'a Store, usize)>
        ensures { MatchOption result (table_at (shown_by self.now.schema.now self.now.stores.now) table ≡ map.empty)
            (λ found. ShowsTable self.now.schema.now self.now.stores.now table found.0.now found.1) }
    {
        match self.directory.home(table) {
            None => None,
            Some(Home { store, place }) => match self.stores.get(store) {
                None => None,
                Some(kept) => Some((kept, place)),
            },
        }
    }
}

impl<'a> Scan for Shown<'a> {
    ghost state = { λ shown. shown_by shown.schema.now shown.stores.now };

    fn schema(&self) -> &BackingSchema {
        self.schema
    }

    fn len(&self, table: TableId) -> usize {
        match self.kept(table) {
            None => 0,
            Some((store, place)) => store.len(place),
        }
    }

    fn row(&self, table: TableId, place: usize) -> Option<&Row> {
        match self.kept(table) {
            None => None,
            Some((store, at)) => store.row(at, place),
        }
    }

    fn find(&self, table: TableId, key: &Key) -> Option<&Row> {
        match self.kept(table) {
            None => None,
            Some((store, place)) => store.get(place, key),
        }
    }

    fn child(&self, table: TableId, key: &Key, from: usize) -> Option<usize> {
        match self.kept(table) {
            None => None,
            Some((store, place)) => store.child(place, key, from),
        }
    }
}
