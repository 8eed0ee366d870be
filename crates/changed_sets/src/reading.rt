//! What changed at the backing database, read for a refresh of READONLY groups.

ghost use Rattle.std.specs.Prelude.{◌≡◌, IfOk, IsTrue, None, Some};
ghost use Rattle.std.specs.Option.{option_copied, option_map};
ghost use Rattle.group_catalog.specs.Catalogs.{groups_in};
ghost use Rattle.propagators.specs.Certainty.{KeepsCertain};
ghost use Rattle.statement_uses.specs.Wanting.{want_seen};
ghost use Rattle.stored_tier.specs.Refreshing.{choice_of, is_filled};
ghost use Rattle.stored_tier.specs.Stored.{IsSound};
ghost use Rattle.changed_sets.specs.Alike.{AllAlike};
ghost use Rattle.changed_sets.specs.Fitting.{ArePatchesFit};
ghost use Rattle.changed_sets.specs.Fresh.{IsCalled};
ghost use Rattle.changed_sets.specs.Gains.{rows_wanted};
ghost use Rattle.changed_sets.specs.Reading.{ReadsChanged};
ghost use Rattle.changed_sets.specs.Showing.{AreReady, IsRoomier};
ghost use Rattle.changed_sets.specs.Since.{asked_since, trees_of};

use crate::copies::copied_tree;
use crate::fitting::are_known_fit;
use crate::preparing::prepare;
use crate::room::make_room;
use crate::showing::Changed;
use crate::since::{keeps_rows, least_asked};
use group_catalog::Catalog;
use group_store::laws::drop_instance_law;
use instances::Tree;
use outside::{BankError, Site};
use statement_uses::Want;
use std::alloc::{AllocError, Global};
use stored_tier::refreshing::Chosen;
use stored_tier::tier::Tier;
use table_state::RowKey;
use tier_base::Position;

/// What changed since the position of the chosen groups is read, and all that its showing takes is made ready. Where an
/// instance is wanted the group at a place gains it, if it is dynamic and among them, and the root row is in its view
/// and past its horizon. Nothing changes but the room in the stores.
///
/// It is `Failed` where the call failed, and `Memory` where memory was wanting, or the bank told what no tree has.
pub fn read_changed<P: Site>(
    tier: &mut Tier,
    alloc: Global,
    site: &mut P,
    chosen: Chosen,
    since: Position,
    place: usize,
    want: Option<&Want>,
) -> Result<Changed, BankError>
    requires sound { IsSound tier.old }
    requires since { asked_since (choice_of chosen) (groups_in tier.old.catalog) ≡ Some since.0 }
    ensures same { IsRoomier tier.old tier.new }
    ensures sound { IsSound tier.new }
    ensures ready { IfOk result (λ changed. AreReady tier.new changed.patches.items) }
    ensures fits { IfOk result (λ changed. IsTrue changed.fit
        → ArePatchesFit tier.new.schema (groups_in tier.new.catalog) changed.patches.items) }
    ensures reads { ReadsChanged tier.old tier.new
        (P.Disk.state site.old)
        (P.Disk.state site.new)
        (is_filled (choice_of chosen) None) place (option_map want_seen (option_copied want.entry)) result }
    ensures called { IsCalled
        (P.Disk.state site.old)
        (P.Disk.state site.new)
        result }
    ensures certain { KeepsCertain P.Disk.state P.Disk.possible site.old site.new }
{
    drop_instance_law();
    let Ok(trees) = trees_of(alloc, &tier.catalog, chosen) else {
        return Err(BankError::Memory);
    };
    let Ok(wants) = rows_wanted(alloc, want) else {
        return Err(BankError::Memory);
    };
    let least = least_asked(&tier.catalog, since);
    let changes = site.changes(since, least, trees.as_slice(), wants.as_slice())?;
    match prepare(alloc, tier, chosen, place, changes.touched.as_slice()) {
        Err(_) => Err(BankError::Memory),
        Ok(patches) => match make_room(alloc, &mut tier.stores, patches.as_slice()) {
            Err(_) => Err(BankError::Memory),
            Ok(()) => {
                let fit = are_known_fit(tier, &patches);
                Ok(Changed {
                    position: changes.position,
                    patches,
                    fit,
                })
            }
        },
    }
}

// Copies of the trees of the chosen groups that keep rows.
fn trees_of(alloc: Global, catalog: &Catalog, chosen: Chosen) -> Result<Vec<Tree>, AllocError>
    ensures { IfOk result (λ trees. AllAlike
        (trees_of (is_filled (choice_of chosen) None) 0 (groups_in catalog.now)) trees.items) }
{
    let mut trees = Vec::new(alloc);
    for place in 0..catalog.len() {
        match catalog.get(place) {
            None => {}
            Some(group) => {
                if keeps_rows(chosen, place, group) {
                    let tree = copied_tree(alloc, &group.def.tree)?;
                    trees.push(tree)?;
                }
            }
        }
    }
    Ok(trees)
}

// The row that is wanted, as the bank is asked for it.
fn rows_wanted(alloc: Global, want: Option<&Want>) -> Result<Vec<RowKey>, AllocError>
    ensures { IfOk result (λ wants. wants.items ≡ rows_wanted (option_map want_seen (option_copied want.entry))) }
{
    let mut wants = Vec::new(alloc);
    match want {
        None => {}
        Some(want) => {
            let key = want.key.copied(alloc)?;
            let table = want.table;
            wants.push(RowKey { table, key })?;
        }
    }
    Ok(wants)
}
