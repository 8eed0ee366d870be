//! Tables as a session sees them.

ghost use Rattle.std.specs.Prelude.{◌≡◌, []};
ghost use Rattle.own_rows.specs.Overlays.{FitsOn, overlaid};

use crate::children::child_in;
use crate::own::{OwnRows, own_of};
use crate::table_rows::{find_in, len_in, row_in};
use table_state::Scan;
use table_state::row_types::{Key, Row};
use table_state::table_defs::BackingSchema;
use table_state::tier_base::TableId;

/// The tables of a scan with a session's own operations over them. No row is copied, and no call takes memory.
pub struct Overlay<'a, S: Scan> {
    under: &'a S,
    own: &'a [OwnRows],
    ghost fits: { FitsOn own.now (S.state under.now) },
}

impl<'a, S: Scan> Drop for Overlay<'a, S> {
    fn drop(self) {
        let Self { under: _, own: _ } = self;
    }
}

impl<'a, S: Scan> Overlay<'a, S> {
    /// The tables of a scan with own rows over them.
    pub(crate) fn new(under: &'a S, own: &'a [OwnRows]) -> Overlay<'a, S>
        requires { FitsOn own.now (S.state under.now) }
        ensures under { result.under.now ≡ under.now }
        ensures own { result.own.now ≡ own.now }
    {
        Overlay { under, own }
    }

    /// The tables of a scan with no own rows over them, which are as they were.
    pub fn bare(under: &'a S) -> Overlay<'a, S>
        requires { FitsOn [] (S.state under.now) }
        ensures { ⟦<Overlay<'a, S> as Scan>⟧.state result ≡ S.state under.now }
    {
        Overlay { under, own: &[] }
    }
}

impl<'a, S: Scan> Scan for Overlay<'a, S> {
    ghost state = { λ overlay. overlaid overlay.own.now (S.state overlay.under.now) };

    fn schema(&self) -> &BackingSchema {
        self.under.schema()
    }

    fn len(&self, table: TableId) -> usize {
        match own_of(self.own, table) {
            None => self.under.len(table),
            Some(own) => len_in(self.under, table, own),
        }
    }

    fn row(&self, table: TableId, place: usize) -> Option<&Row> {
        match own_of(self.own, table) {
            None => self.under.row(table, place),
            Some(own) => match self.under.schema().get(table.0 as usize) {
                None => None,
                Some(def) => row_in(self.under, table, own, def.primary_key.as_slice(), place),
            },
        }
    }

    fn find(&self, table: TableId, key: &Key) -> Option<&Row> {
        match own_of(self.own, table) {
            None => self.under.find(table, key),
            Some(own) => find_in(self.under, table, own, key),
        }
    }

    fn child(&self, table: TableId, key: &Key, from: usize) -> Option<usize> {
        match own_of(self.own, table) {
            None => self.under.child(table, key, from),
            Some(own) => match self.under.schema().get(table.0 as usize) {
                None => None,
                Some(def) => child_in(self.under, table, own, def, key, from),
            },
        }
    }
}
