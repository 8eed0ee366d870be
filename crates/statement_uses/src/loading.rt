//! Which group loads what a statement wants.

ghost use Rattle.std.specs.Prelude.{◌≡◌};
ghost use Rattle.cache_tier.specs.Wants.{is_off, loads_on_demand};
ghost use Rattle.group_catalog.specs.Catalogs.{groups_in};
ghost use Rattle.group_catalog.specs.Kept.{group_seen};
ghost use Rattle.statement_uses.specs.Loading.{loading_place};

use crate::using::is_read_only;
use crate::wanting::Want;
use group_catalog::{Catalog, KeptGroup};
use sql_subset::stmt::RefreshState;
use table_state::Scan;

/// The place of the group that has the table of a wanted row, where it loads on demand and the row isn't among the
/// shown ones: it is DYNAMIC, and not a READONLY one that is OFF. It takes no memory.
///
/// (TimesTen Cache User's Guide, "Dynamically loading a cache instance".)
pub fn loading_place<S: Scan>(catalog: &Catalog, shown: &S, want: &Want) -> Option<usize>
    ensures { result ≡ loading_place (groups_in catalog.now) (S.state shown.now) want.now }
{
    match catalog.over(want.table) {
        None => None,
        Some(place) => match catalog.get(place) {
            None => None,
            Some(group) => {
                if loads_on_demand(group) && shown.find(want.table, &want.key).is_none() {
                    Some(place)
                } else {
                    None
                }
            }
        },
    }
}

fn loads_on_demand(group: &KeptGroup) -> bool
    ensures { result ≡ loads_on_demand (group_seen group.now) }
{
    group.def.dynamic && !(is_read_only(group) && is_off(group.state))
}

fn is_off(state: RefreshState) -> bool
    ensures { result ≡ is_off state }
{
    match state {
        RefreshState::On => false,
        RefreshState::Off => true,
        RefreshState::Paused => false,
    }
}
