//! Whether the rows that come in fit their tables.

ghost use Rattle.std.specs.Prelude.{◌≡◌, IsTrue, Some, slice_get};
ghost use Rattle.cache_tier.specs.Groups.{Group};
ghost use Rattle.group_catalog.specs.Catalogs.{groups_in};
ghost use Rattle.changed_sets.specs.Fitting.{ArePatchesFit, DoCutsFit, DoTurnsFit, FitWhere, IsPatchFit};
ghost use Rattle.changed_sets.specs.declared.turns.Patch.{Patch as OnePatch};

use crate::turns::{Cut, Patch, Turn};
use aging_cycles::fitting::are_listed_fit;
use instances::Tree;
use row_types::Row;
use stored_tier::tier::Tier;
use table_defs::BackingSchema;
use tier_base::Seq;

/// Whether sessions may read over the stored rows, and those that come in with these patches fit the tables of their
/// groups. Where sessions may not, no row is looked at. It takes no memory.
pub(crate) fn are_known_fit(tier: &Tier, patches: &Vec<Option<Patch>>) -> bool
    ensures { IsTrue result → ArePatchesFit tier.now.schema (groups_in tier.now.catalog) patches.now.items }
{
    if !tier.verified {
        return false;
    }
    are_patches_fit(tier, patches.as_slice())
}

// Whether all rows that come in with these patches fit the tables of their groups.
fn are_patches_fit(tier: &Tier, patches: &[Option<Patch>]) -> bool
    ensures { IsTrue result → ArePatchesFit tier.now.schema (groups_in tier.now.catalog) patches.now }
{
    for place in 0..patches.len() {
        if !is_fit_at(tier, place, &patches[place]) {
            return false;
        }
    }
    true
}

// Whether the rows that come in with a patch fit the tables of the group at a place.
fn is_fit_at(tier: &Tier, place: usize, patch: &Option<Patch>) -> bool
    ensures { IsTrue result → (g : Group) (p : OnePatch) → slice_get (groups_in tier.now.catalog) place ≡ Some g
        → patch.now ≡ Some p → IsPatchFit tier.now.schema g.def.tree p }
{
    match patch {
        None => true,
        Some(patch) => match tier.catalog.get(place) {
            None => false,
            Some(group) => is_patch_fit(&tier.schema, &group.def.tree, patch),
        },
    }
}

// Whether the rows that come in with a patch fit the tables of a tree.
fn is_patch_fit(schema: &BackingSchema, tree: &Tree, patch: &Patch) -> bool
    ensures { IsTrue result → IsPatchFit schema.now tree.now patch.now }
{
    if !do_cuts_fit(schema, tree, patch.cuts.as_slice()) {
        return false;
    }
    do_turns_fit(schema, tree, patch.turns.as_slice())
}

// Whether those fit that come in at first.
fn do_cuts_fit(schema: &BackingSchema, tree: &Tree, cuts: &[Cut]) -> bool
    ensures { IsTrue result → DoCutsFit schema.now tree.now cuts.now }
{
    for cut in cuts {
        if !fit_where(schema, tree, &cut.bare) {
            return false;
        }
    }
    true
}

// Whether those fit that come in then.
fn do_turns_fit(schema: &BackingSchema, tree: &Tree, turns: &[Turn]) -> bool
    ensures { IsTrue result → DoTurnsFit schema.now tree.now turns.now }
{
    for turn in turns {
        if !fit_where(schema, tree, &turn.rows) {
            return false;
        }
    }
    true
}

// Whether these rows fit the tables of a tree, where there are some.
fn fit_where(schema: &BackingSchema, tree: &Tree, rows: &Option<Seq<Seq<Row>>>) -> bool
    ensures { IsTrue result → FitWhere schema.now tree.now rows.now }
{
    match rows {
        None => true,
        Some(tables) => are_listed_fit(schema, tree, tables.as_slice()),
    }
}
