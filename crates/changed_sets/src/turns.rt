//! What becomes of the instances that were told.

ghost use Rattle.std.specs.Prelude.{◌≡◌};

use row_types::{Key, Row};
use slot_rows::SlotRows;
use tier_base::Seq;

/// What becomes of an instance of a group at first.
pub struct Cut {
    /// its root key
    pub(crate) root: Key,
    /// its root row alone, as it is now, as the rows of the root table: where it is shown then
    pub(crate) bare: Option<Seq<Seq<Row>>>,
}

impl Drop for Cut {
    fn drop(self) {
        let Self { root: _, bare: _ } = self;
    }
}

impl Cut {
    pub(crate) fn into_parts(self) -> (Key, Option<Seq<Seq<Row>>>)
        ensures { result ≡ (self.root, self.bare) }
    {
        let Self { root, bare } = self;
        (root, bare)
    }
}

/// What comes of it then.
pub struct Turn {
    /// its rows as they are now, by table of the tree, where it is shown then
    pub(crate) rows: Option<Seq<Seq<Row>>>,
}

impl Drop for Turn {
    fn drop(self) {
        let Self { rows: _ } = self;
    }
}

impl Turn {
    pub(crate) fn into_rows(self) -> Option<Seq<Seq<Row>>>
        ensures { result ≡ self.rows }
    {
        let Self { rows } = self;
        rows
    }
}

/// What becomes of a group.
pub struct Patch {
    /// at first of each instance that was told
    pub(crate) cuts: Seq<Cut>,
    /// and then of each
    pub(crate) turns: Seq<Turn>,
    /// no hidden root rows, with room for those of the store then, where the group hides some
    pub(crate) hidden: SlotRows,
}

impl Drop for Patch {
    fn drop(self) {
        let Self {
            cuts: _,
            turns: _,
            hidden: _,
        } = self;
    }
}

impl Patch {
    pub(crate) fn into_parts(self) -> (Seq<Cut>, Seq<Turn>, SlotRows)
        ensures { result ≡ (self.cuts, self.turns, self.hidden) }
    {
        let Self {
            cuts,
            turns,
            hidden,
        } = self;
        (cuts, turns, hidden)
    }
}
